// Which field to cut first: the one in which the fewest rows cross the cut; far down in the search, the one of which the row that is cut off
// has the least share. It matters to the speed and to the depth alone.
ghost use Rattle.std.specs.Prelude.{◌+◌, ◌<◌, ◌≤◌, length};
ghost use Rattle.policy.specs.Header.{arity};
ghost use Rattle.policy.specs.steps.Rows.{sides};

use policy::sides::{FIELDS, ROW, SIDES, high, high_at, low, low_at, meets_row};

// 1 if cut ends inside the row at a place in field f, and 0 if not.
fn crosses(s: &[u32], at: usize, cut: &[u32; SIDES], f: usize) -> u32
    requires { (at + sides ≤ length s.now) × (f < arity) }
{
    let end = high(cut, f);
    if end < high_at(s, at, f) {
        if low_at(s, at, f) <= end {
            return 1;
        }
    }
    0
}

// Counts the cuts that the row at a place crosses, if it meets x.
fn count_row(s: &[u32], at: usize, x: &[u32; SIDES], cut: &[u32; SIDES], ranks: &mut [u32; FIELDS])
    requires { at + sides ≤ length s.now }
{
    if !meets_row(s, at, x) {
        return;
    }
    for (f, rank) in ranks.iter_mut().enumerate() {
        *rank = rank.wrapping_add(crosses(s, at, cut, f));
    }
}

// Counts those of every row of s. The counts are kept apart from what is lent, so that they stay in registers.
fn count_rows(s: &[u32], x: &[u32; SIDES], cut: &[u32; SIDES], ranks: &mut [u32; FIELDS]) {
    let mut counts = *ranks;
    for i in (0..s.len() / ROW).rev() {
        count_row(s, ROW * i, x, cut, &mut counts);
    }
    *ranks = counts;
}

// Whether cut ends before x in two fields or more. The search asks it for each row that it cuts off, and a count of those fields took it longer.
fn cuts_two(x: &[u32; SIDES], cut: &[u32; SIDES]) -> bool {
    let mut one = false;
    for f in 0..FIELDS {
        if high(cut, f) < high(x, f) {
            if one {
                return true;
            }
            one = true;
        }
    }
    false
}

// How much of the numbers from low to high come up to an end, in parts of 2^32.
fn share(low: u32, high: u32, end: u32) -> u32 {
    let part = end.wrapping_sub(low) as u64 + 1;
    let whole = high.wrapping_sub(low) as u64 + 1;
    (part * 0xffff_ffff / whole % 0x1_0000_0000) as u32
}

// Takes for each field the share of x up to the end of the row to be cut off. Cut in their order, the fields leave no part but the largest with more
// than a quarter of the combinations of x: one that is cut after a share of p has at most p (1 - p) of them.
fn rank_shares(x: &[u32; SIDES], cut: &[u32; SIDES], ranks: &mut [u32; FIELDS]) {
    for (f, rank) in ranks.iter_mut().enumerate() {
        *rank = share(low(x, f), high(x, f), high(cut, f));
    }
}

// The levels of the search in which rows are counted. No list that is not made for it goes as far down.
pub const LEVELS: u32 = 16;

// Ranks the fields of x for the row to be cut off: by the rows of a and b that meet x and go past its end, while there are levels, and then by its
// shares. A single cut needs no rank.
pub(crate) fn rank_fields(
    a: &[u32],
    b: &[u32],
    x: &[u32; SIDES],
    cut: &[u32; SIDES],
    levels: u32,
    ranks: &mut [u32; FIELDS],
) {
    if cuts_two(x, cut) {
        if levels == 0 {
            rank_shares(x, cut, ranks);
            return;
        }
        count_rows(a, x, cut, ranks);
        count_rows(b, x, cut, ranks);
    }
}
