// The least header of a box that none of a file's first entries matches.
ghost use Rattle.std.specs.Prelude.{◌≡◌, ◌+◌, ◌*◌, ◌≤◌, length};
ghost use Rattle.policy.specs.Header.{headers};
ghost use Rattle.policy.specs.Least.{least_in};
ghost use Rattle.policy.specs.Policy.{missed};
ghost use Rattle.policy.specs.Sides.{box_of};
ghost use Rattle.policy.specs.steps.Rows.{row_size};
ghost use Rattle.wire.specs.Format.{filed_limit, list_limit, place_in, entries_from};

use crate::covering::ends_with_all;
use crate::least::least_missed;
use lookup::records::first_match;
use policy::header::Header;
use policy::sides::{ROW, SIDES};
use wire::format::{FILED_LIMIT, LIST_LIMIT};
use wire::rows::decode_entries;

// The least header of x that none of the n entries from a number on matches. They are decoded into the rows that are lent.
fn missed_by_rows(
    file: &[u8],
    from: usize,
    n: usize,
    rows: &mut [u32],
    x: &[u32; SIDES],
) -> Option<Header>
    requires { (place_in file.now (from + n) ≤ length file.now) × (row_size * n ≤ length rows.old) }
    ensures { result ≡ least_in headers (box_of x.now 0) (missed (entries_from file.now from n)) }
{
    decode_entries(file, from, n, rows);
    let end = ROW * n;
    least_missed(&rows[0..end], x, None)
}

// The numbers of the rows of as many entries as can be filed, and as a list may have.
pub(crate) const FILED_ROWS: usize = ROW * FILED_LIMIT;

pub(crate) const LISTED_ROWS: usize = ROW * LIST_LIMIT;

// The same in an array of N numbers: fewer are cleared for few entries.
fn missed_in<const N: usize>(file: &[u8], from: usize, n: usize, x: &[u32; SIDES]) -> Option<Header>
    requires { (place_in file.now (from + n) ≤ length file.now) × ((row_size * n ≤ N) × (N ≤ row_size * list_limit)) }
    ensures { result ≡ least_in headers (box_of x.now 0) (missed (entries_from file.now from n)) }
{
    let mut rows = [0u32; N];
    missed_by_rows(file, from, n, &mut rows, x)
}

// The least header of x that none of the first n entries matches. Before all of many are decoded, the last few are searched by themselves: they leave
// nothing of x, or a header that no entry matches, and all is said; else all are searched.
pub(crate) fn missed_by_first(
    file: &[u8],
    n: usize,
    x: &[u32; SIDES],
    last: usize,
) -> Option<Header>
    requires { (place_in file.now n ≤ length file.now) × ((n ≤ list_limit) × (last ≤ filed_limit)) }
    ensures { result ≡ least_in headers (box_of x.now 0) (missed (entries_from file.now 0 n)) }
{
    if n <= FILED_LIMIT {
        return missed_in::<FILED_ROWS>(file, 0, n, x);
    }
    match missed_in::<FILED_ROWS>(file, n - last, last, x) {
        Some(h) => match first_match(file, n, h) {
            None => Some(h),
            Some(_) => missed_in::<LISTED_ROWS>(file, 0, n, x),
        },
        None => None,
    }
}

// The least header of b that a good file's list of n entries does not catch. Most lists are closed by their last entries.
pub(crate) fn least_uncaught(file: &[u8], n: usize, b: &[u32; SIDES]) -> Option<Header>
    requires { (length file.now ≡ place_in file.now n) × ((1 ≤ n) × (n ≤ list_limit)) }
    ensures { result ≡ least_in headers (box_of b.now 0) (missed (entries_from file.now 0 n)) }
{
    if ends_with_all(file, n) {
        return None;
    }
    missed_by_first(file, n, b, FILED_LIMIT)
}
