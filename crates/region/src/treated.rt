// The least header of a box that a list allows a wanted action set.
ghost use Rattle.std.specs.Prelude.{◌≡◌, ◌+◌, ◌≤◌, true, ◌&&◌, ◌++◌, length, take, if◌then◌else◌};
ghost use Rattle.policy.specs.Box.{meet, proper};
ghost use Rattle.policy.specs.Header.{arity, headers};
ghost use Rattle.policy.specs.steps.Findings.{lesser};
ghost use Rattle.policy.specs.Least.{least_in};
ghost use Rattle.policy.specs.Policy.{allowed, missed};
ghost use Rattle.policy.specs.Sides.{box_of};
ghost use Rattle.policy.specs.steps.Rows.{row_size, row_at, rows_in};
ghost use Rattle.region.specs.steps.Corner.{sooner};
ghost use Rattle.region.specs.steps.Treated.{wanted, judged, Finds};

use crate::corner::is_improved;
use crate::least::least_open;
use policy::actions::is_subset;
use policy::header::Header;
use policy::sides::{ROW, SIDES, actions_at, meets_row, part_in_row};

// The action sets that are wanted.
#[derive(Clone, Copy)]
pub enum Sets {
    // The set alone.
    Same(u32),
    // Every other set.
    Other(u32),
    // Those that lack an action of the set.
    Lacking(u32),
}

// What a search hands up: the header that it found, and what catches that header in the list searched.
#[derive(Clone, Copy)]
pub struct Finding {
    pub found: Option<Header>,
    pub by: Option<usize>,
}

// Whether the set a is wanted.
pub(crate) fn is_wanted(q: Sets, a: u32) -> bool
    ensures { result ≡ wanted q a }
{
    match q {
        Sets::Same(s) => a == s,
        Sets::Other(s) => a != s,
        Sets::Lacking(s) => !is_subset(s, a),
    }
}

// Whether a header was found that comes before best.
fn is_sooner(f: Option<Header>, best: Option<Header>) -> bool
    ensures { result ≡ sooner f best }
{
    match f {
        Some(h) => is_improved(h, best),
        None => false,
    }
}

// Whether the rows of a and of b leave no header of x that comes before best.
pub(crate) fn is_exhausted(a: &[u32], b: &[u32], x: &[u32; SIDES], best: Option<Header>) -> bool
    ensures { result ≡ true → lesser (least_in headers (box_of x.now 0) (missed (rows_in a.now ++ rows_in b.now))) best ≡ best }
{
    !is_sooner(least_open(a, b, x, best), best)
}

// The same, asked after 4, 8, 16, .., 128 searches. How often it is asked matters to the speed alone.
fn is_done(a: &[u32], b: &[u32], searches: u32, x: &[u32; SIDES], best: Option<Header>) -> bool
    ensures { result ≡ true → lesser (least_in headers (box_of x.now 0) (missed (rows_in a.now ++ rows_in b.now))) best ≡ best }
{
    (4..=128).contains(&searches) && searches.is_power_of_two() && is_exhausted(a, b, x, best)
}

// Whether the row at a place has a wanted set and matches some of x. Most do not, and need no search.
fn has_wanted_part(rows: &[u32], at: usize, x: &[u32; SIDES], q: Sets) -> bool
    requires { at + row_size ≤ length rows.now }
    ensures { result ≡ (wanted q (row_at rows.now at).actions && proper arity (meet arity (box_of x.now 0) (box_of rows.now at))) }
{
    if !is_wanted(q, actions_at(rows, at)) {
        return false;
    }
    meets_row(rows, at, x)
}

// The lesser of best and the least header of x that is missed by front and by the rows before the one at a place, and that this one matches.
fn with_entry(
    front: &[u32],
    rows: &[u32],
    at: usize,
    x: &[u32; SIDES],
    best: Option<Header>,
) -> Option<Header>
    requires { at + row_size ≤ length rows.now }
    ensures { result ≡ lesser (least_in headers (meet arity (box_of x.now 0) (box_of rows.now at)) (missed (rows_in front.now ++ rows_in (take at rows.now)))) best }
{
    let part = part_in_row(rows, at, x);
    least_open(front, &rows[0..at], &part, best)
}

// What catches the header found next: if it comes before the last one, what the search of it went by; else what catches the last one.
fn catcher_of(
    next: Option<Header>,
    last: Option<Header>,
    searched: Option<usize>,
    by: Option<usize>,
) -> Option<usize>
    ensures { result ≡ (if sooner next last then searched else by) }
{
    if is_sooner(next, last) {
        return searched;
    }
    by
}

// The lesser of best and the least header of x that no row of front matches, and that the list of rows allows a wanted set;
// or does not catch, if that is wanted too. If it comes before best, what catches it in this list.
pub fn least_treated(
    front: &[u32],
    rows: &[u32],
    x: &[u32; SIDES],
    q: Sets,
    uncaught: bool,
    best: Option<Header>,
) -> Finding
    ensures { Finds (rows_in rows.now) (least_in headers (box_of x.now 0) (λ h. missed (rows_in front.now) h && judged q uncaught (allowed (rows_in rows.now) h))) best result }
{
    let n = rows.len() / ROW;
    let mut found = best;
    let mut by = None;
    let mut searches: u32 = 0;
    for i in 0..n {
        let at = ROW * i;
        if !has_wanted_part(rows, at, x, q) {
            continue;
        }
        if is_done(front, &rows[0..at], searches, x, found) {
            return Finding { found, by };
        }
        let next = with_entry(front, rows, at, x, found);
        by = catcher_of(next, found, Some(i), by);
        found = next;
        searches = searches.wrapping_add(1);
    }
    if uncaught {
        let next = least_open(front, rows, x, found);
        return Finding {
            found: next,
            by: catcher_of(next, found, None, by),
        };
    }
    Finding { found, by }
}

// The same header, if front leaves anything of x that comes before best. For a box that is likely to be caught whole by the rows of front.
pub fn least_treated_behind(
    front: &[u32],
    rows: &[u32],
    x: &[u32; SIDES],
    q: Sets,
    uncaught: bool,
    best: Option<Header>,
) -> Option<Header>
    ensures { result ≡ lesser (least_in headers (box_of x.now 0) (λ h. missed (rows_in front.now) h && judged q uncaught (allowed (rows_in rows.now) h))) best }
{
    if is_exhausted(front, &rows[0..0], x, best) {
        return best;
    }
    least_treated(front, rows, x, q, uncaught, best).found
}
