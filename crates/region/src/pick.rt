// A row that holds the low corner of a box.
ghost use Rattle.std.specs.Prelude.{◌≡◌, ◌+◌, ◌*◌, ◌/◌, ◌<◌, ◌≤◌, true, ◌++◌, length, Some};
ghost use Rattle.policy.specs.Box.{proper};
ghost use Rattle.policy.specs.steps.Boxes.{lows};
ghost use Rattle.policy.specs.Header.{arity, header, among, headers};
ghost use Rattle.policy.specs.Sides.{box_of};
ghost use Rattle.policy.specs.steps.Rows.{sides, row_size, rows_in};
ghost use Rattle.region.specs.steps.Narrowing.{Fitting, Narrows};
ghost use Rattle.region.specs.steps.Corner.{Picks, PicksBefore, HoldsLast, Chooses, Better, Covers, selector_in, number_of, shifted};

use crate::corner::is_improved;
use crate::headers::narrow_to_headers;
use crate::row::{holds_corner, row_reaches};
use policy::header::{Header, low_corner};
use policy::sides::{FIELDS, ROW, SIDES, high, high_at, low, row_sides};

// The number of a row that holds the low corner of a box; or no row holds it; or the rows hold all of the box.
#[derive(Clone, Copy)]
pub enum Picked {
    Held(usize),
    Free,
    Covered,
}

// A row that holds a corner: its number and its weight, and whether it holds all of the box. That is asked of the chosen row alone, so that it stands beside the weight.
#[derive(Clone, Copy)]
pub struct Choice {
    pub number: usize,
    pub weight: f64,
    pub covers: bool,
}

// How many numbers from low to high come up to an end, if high is past it. A row that reaches high weighs more: it leaves nothing above it.
fn width(low: u32, high: u32, end: u32) -> f64 {
    if end < high {
        return end.wrapping_sub(low) as f64 + 1.0;
    }
    (high.wrapping_sub(low) as f64 + 1.0) * 16.0
}

// How much of b lies in the row at a place, which holds its low corner. The weights matter to the speed alone.
fn weight(s: &[u32], at: usize, b: &[u32; SIDES]) -> f64
    requires { at + sides ≤ length s.now }
{
    let mut w: f64 = 1.0;
    for f in 0..FIELDS {
        w *= width(low(b, f), high(b, f), high_at(s, at, f));
    }
    w
}

// The weight of a row that holds half of b in one field and all of it in the others: no heavier one is looked for, since what it leaves is
// one box of half the size.
fn enough_weight(b: &[u32; SIDES]) -> f64 {
    let mut w: f64 = 1.0;
    for f in 0..FIELDS {
        w *= width(low(b, f), high(b, f), high(b, f));
    }
    w / 32.0
}

// The better of a choice and row number i, which holds the corner.
fn better(s: &[u32], i: usize, b: &[u32; SIDES], c: Choice) -> Choice
    requires { row_size * (i + 1) ≤ length s.now }
    ensures { Better i c result }
{
    let w = weight(s, ROW * i, b);
    if w <= c.weight {
        return c;
    }
    Choice {
        number: i,
        weight: w,
        covers: false,
    }
}

// The number of the last of the first n rows of s that holds the low corner of b, if one does.
// speed: a function of its own. Put where it is called, it keeps the found row's numbers in registers for what is asked of them next, and the loop has too
// few left: searches of 100 microseconds and more took 1.12 times as long, a comparison of slabs 1.3 times.
#[inline(never)]
fn last_holding(s: &[u32], n: usize, b: &[u32; SIDES]) -> Option<usize>
    requires { n ≤ length s.now / row_size }
    ensures { HoldsLast s.now n (lows arity (box_of b.now 0)) result }
{
    for i in (0..n).rev() {
        if holds_corner(s, ROW * i, b) {
            return Some(i);
        }
    }
    None
}

// The choice, and whether the row holds all of b.
fn with_cover(s: &[u32], b: &[u32; SIDES], c: Choice) -> Choice
    requires { Chooses s.now (box_of b.now 0) c.number c.covers }
    ensures { Chooses s.now (box_of b.now 0) result.number result.covers }
{
    Choice {
        number: c.number,
        weight: c.weight,
        covers: row_reaches(s, ROW * c.number, b),
    }
}

// A row of s that holds the low corner of b: the heaviest of the first one, of the next one and of those before it. One that is heavy
// enough ends the choice.
fn choose(s: &[u32], first: usize, mut next: Option<usize>, b: &[u32; SIDES], enough: f64) -> Choice
    requires { HoldsLast s.now (length s.now / row_size) (lows arity (box_of b.now 0)) (Some first) × HoldsLast s.now first (lows arity (box_of b.now 0)) next }
    ensures { Chooses s.now (box_of b.now 0) result.number result.covers }
{
    let mut best = Choice {
        number: first,
        weight: 0.0,
        covers: false,
    };
    let mut i = first;
    loop {
        best = better(s, i, b, best);
        if enough <= best.weight {
            return with_cover(s, b, best);
        }
        let Some(k) = next else {
            return best;
        };
        i = k;
        next = last_holding(s, i, b);
    }
}

// Whether the last row that holds the low corner of b, if there is one, holds all of b.
fn last_covers(s: &[u32], last: Option<usize>, b: &[u32; SIDES]) -> bool
    requires { HoldsLast s.now (length s.now / row_size) (lows arity (box_of b.now 0)) last }
    ensures { result ≡ true → Covers (rows_in s.now) (box_of b.now 0) }
{
    match last {
        Some(i) => row_reaches(s, ROW * i, b),
        None => false,
    }
}

// The pick by weight among the rows of s that hold the low corner of x.
fn pick_heaviest(s: &[u32], first: usize, next: Option<usize>, x: &[u32; SIDES]) -> Picked
    requires { HoldsLast s.now (length s.now / row_size) (lows arity (box_of x.now 0)) (Some first) × HoldsLast s.now first (lows arity (box_of x.now 0)) next }
    ensures { Picks (rows_in s.now) (box_of x.now 0) result }
{
    let c = choose(s, first, next, x, enough_weight(x));
    if c.covers {
        return Picked::Covered;
    }
    Picked::Held(c.number)
}

// The pick where one list alone may have a row that holds the low corner of x. A single one needs no weight.
fn pick_of_one(s: &[u32], first: Option<usize>, x: &[u32; SIDES]) -> Picked
    requires { HoldsLast s.now (length s.now / row_size) (lows arity (box_of x.now 0)) first }
    ensures { Picks (rows_in s.now) (box_of x.now 0) result }
{
    let Some(i) = first else {
        return Picked::Free;
    };
    let next = last_holding(s, i, x);
    if next.is_none() {
        return Picked::Held(i);
    }
    pick_heaviest(s, i, next, x)
}

// The pick where both lists have one.
fn pick_of_both(a: &[u32], i: usize, b: &[u32], j: usize, x: &[u32; SIDES]) -> Picked
    requires { HoldsLast a.now (length a.now / row_size) (lows arity (box_of x.now 0)) (Some i) × HoldsLast b.now (length b.now / row_size) (lows arity (box_of x.now 0)) (Some j) }
    ensures { Picks (rows_in a.now ++ rows_in b.now) (box_of x.now 0) result }
{
    let enough = enough_weight(x);
    let k = last_holding(a, i, x);
    let c = choose(a, i, k, x, enough);
    if c.covers {
        return Picked::Covered;
    }
    if enough <= c.weight {
        return Picked::Held(c.number);
    }
    let l = last_holding(b, j, x);
    let d = choose(b, j, l, x, enough);
    if d.covers {
        return Picked::Covered;
    }
    if d.weight <= c.weight {
        return Picked::Held(c.number);
    }
    Picked::Held(a.len() / ROW + d.number)
}

// The pick of a list that stands behind n rows.
fn picked_behind(n: usize, p: Picked) -> Picked
    requires { n + number_of p < 18446744073709551616 }
    ensures { result ≡ shifted n p }
{
    match p {
        Picked::Held(i) => Picked::Held(n + i),
        Picked::Free => Picked::Free,
        Picked::Covered => Picked::Covered,
    }
}

// A row of one of two lists that holds the low corner of x. Most boxes are held by one row: it is looked for before any weight is reckoned.
fn pick_of_two(a: &[u32], b: &[u32], x: &[u32; SIDES]) -> Picked
    ensures { Picks (rows_in a.now ++ rows_in b.now) (box_of x.now 0) result }
{
    let i = last_holding(a, a.len() / ROW, x);
    if last_covers(a, i, x) {
        return Picked::Covered;
    }
    let j = last_holding(b, b.len() / ROW, x);
    if last_covers(b, j, x) {
        return Picked::Covered;
    }
    let Some(j) = j else {
        return pick_of_one(a, i, x);
    };
    let Some(i) = i else {
        let p = pick_heaviest(b, j, last_holding(b, j, x), x);
        return picked_behind(a.len() / ROW, p);
    };
    pick_of_both(a, i, b, j, x)
}

// The same, if the low corner of x comes before best. If not, nothing in x does, and it counts as covered.
fn pick_before(a: &[u32], b: &[u32], x: &[u32; SIDES], best: Option<Header>) -> Picked
    requires { (proper arity (box_of x.now 0) ≡ true) × (among headers (header (lows arity (box_of x.now 0))) ≡ true) }
    ensures { PicksBefore (rows_in a.now ++ rows_in b.now) (box_of x.now 0) best result }
{
    if !is_improved(low_corner(x), best) {
        return Picked::Covered;
    }
    pick_of_two(a, b, x)
}

// The same for x narrowed to its headers. Without any it counts as covered.
pub(crate) fn pick_header(
    a: &[u32],
    b: &[u32],
    x: &mut [u32; SIDES],
    best: Option<Header>,
) -> Picked
    requires { (length x.old ≡ sides) × ((proper arity (box_of x.old 0) ≡ true) × Fitting (box_of x.old 0)) }
    ensures { (length x.new ≡ sides) × (Narrows headers (box_of x.old 0) (box_of x.new 0) × PicksBefore (rows_in a.now ++ rows_in b.now) (box_of x.new 0) best result) }
{
    if !narrow_to_headers(x) {
        return Picked::Covered;
    }
    pick_before(a, b, x, best)
}

// The sides of row number i of two lists.
pub(crate) fn row_of_two(a: &[u32], b: &[u32], i: usize) -> [u32; SIDES]
    requires { i < length (rows_in a.now ++ rows_in b.now) }
    ensures { box_of result 0 ≡ selector_in (rows_in a.now ++ rows_in b.now) i }
{
    let n = a.len() / ROW;
    if i < n {
        return row_sides(a, ROW * i);
    }
    row_sides(b, ROW * (i - n))
}
