// Rows and boxes: their sides, field by field.
ghost use Rattle.std.specs.Prelude.{◌≡◌, ◌&&◌, ◌+◌, ◌≤◌, ◌<◌, length, leb};
ghost use Rattle.policy.specs.Row.{precedes};
ghost use Rattle.policy.specs.Box.{inside, proper, meet};
ghost use Rattle.policy.specs.steps.Boxes.{same_box};
ghost use Rattle.policy.specs.Header.{arity};
ghost use Rattle.policy.specs.Sides.{field, box_of};
ghost use Rattle.policy.specs.steps.Rows.{sides, row_size, row_at, numbers_in};

// How many fields a header has; the sides of a box, a low and a high for each; and the numbers of a row, which has an action set too.
pub const FIELDS: usize = 6;

pub const SIDES: usize = 2 * FIELDS;

pub const ROW: usize = SIDES + 1;

// The low and the high of field number f: of the row at a place, and of a box.
pub fn low_at(s: &[u32], at: usize, f: usize) -> u32
    requires { (at + sides ≤ length s.now) × (f < arity) }
    ensures { result ≡ (field s.now at f).low }
{
    s[2 * f + at]
}

pub fn high_at(s: &[u32], at: usize, f: usize) -> u32
    requires { (at + sides ≤ length s.now) × (f < arity) }
    ensures { result ≡ (field s.now at f).high }
{
    s[2 * f + 1 + at]
}

pub fn low(b: &[u32; SIDES], f: usize) -> u32
    requires { f < arity }
    ensures { result ≡ (field b.now 0 f).low }
{
    b[2 * f]
}

pub fn high(b: &[u32; SIDES], f: usize) -> u32
    requires { f < arity }
    ensures { result ≡ (field b.now 0 f).high }
{
    b[2 * f + 1]
}

// The action set of the row at a place.
pub fn actions_at(s: &[u32], at: usize) -> u32
    requires { at + row_size ≤ length s.now }
    ensures { result ≡ (row_at s.now at).actions }
{
    s[at + SIDES]
}

// Whether x is from l to h. It is one comparison, since two would each be guessed wrong about as often as not.
pub fn is_between(l: u32, x: u32, h: u32) -> bool
    ensures { result ≡ (leb l x && leb x h) }
{
    l.max(x) == x.min(h)
}

// Whether no side of b is crossed.
pub fn is_proper(b: &[u32; SIDES]) -> bool
    ensures { result ≡ proper arity (box_of b.now 0) }
{
    for f in 0..FIELDS {
        if high(b, f) < low(b, f) {
            return false;
        }
    }
    true
}

// Whether the numbers x come before y: the first that differs decides.
pub fn precede(x: &[u32; FIELDS], y: &[u32; FIELDS]) -> bool
    ensures { result ≡ precedes arity (numbers_in x.now) (numbers_in y.now) }
{
    for f in 0..FIELDS {
        if x[f] != y[f] {
            return x[f] < y[f];
        }
    }
    false
}

// Whether the numbers x lie in b. They are looked at as far as the first that does not.
pub fn is_inside(b: &[u32; SIDES], x: &[u32; FIELDS]) -> bool
    ensures { result ≡ inside arity (box_of b.now 0) (numbers_in x.now) }
{
    for f in 0..FIELDS {
        if x[f] < low(b, f) {
            return false;
        }
        if high(b, f) < x[f] {
            return false;
        }
    }
    true
}

// Whether a and b are the same box.
pub fn is_same(a: &[u32; SIDES], b: &[u32; SIDES]) -> bool
    ensures { result ≡ same_box arity (box_of a.now 0) (box_of b.now 0) }
{
    a == b
}

// Whether b and the row at a place overlap.
pub fn meets_row(s: &[u32], at: usize, b: &[u32; SIDES]) -> bool
    requires { at + sides ≤ length s.now }
    ensures { result ≡ proper arity (meet arity (box_of b.now 0) (box_of s.now at)) }
{
    for f in 0..FIELDS {
        if high(b, f).min(high_at(s, at, f)) < low(b, f).max(low_at(s, at, f)) {
            return false;
        }
    }
    true
}

// The part of b in the row at a place: its lows raised, and its highs lowered.
pub fn part_in_row(s: &[u32], at: usize, b: &[u32; SIDES]) -> [u32; SIDES]
    requires { at + sides ≤ length s.now }
    ensures { box_of result 0 ≡ meet arity (box_of b.now 0) (box_of s.now at) }
{
    let mut r = [0u32; SIDES];
    for f in 0..FIELDS {
        r[2 * f] = low(b, f).max(low_at(s, at, f));
        r[2 * f + 1] = high(b, f).min(high_at(s, at, f));
    }
    r
}

// The sides of the row at a place.
pub fn row_sides(s: &[u32], at: usize) -> [u32; SIDES]
    requires { at + sides ≤ length s.now }
    ensures { box_of result 0 ≡ box_of s.now at }
{
    let mut r = [0u32; SIDES];
    for f in 0..FIELDS {
        r[2 * f] = low_at(s, at, f);
        r[2 * f + 1] = high_at(s, at, f);
    }
    r
}
