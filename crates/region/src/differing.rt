// The least header of a box that a file's list allows another action set than a given one.
ghost use Rattle.std.specs.Prelude.{◌≡◌, ◌*◌, ◌≤◌, true, length, None};
ghost use Rattle.policy.specs.Header.{headers};
ghost use Rattle.policy.specs.Least.{least_in};
ghost use Rattle.policy.specs.Sides.{box_of};
ghost use Rattle.policy.specs.steps.Rows.{row_size};
ghost use Rattle.wire.specs.Format.{list_limit, place_in, entries_from};
ghost use Rattle.region.specs.declared.search.Want.TheVariants.{Differs};
ghost use Rattle.region.specs.Search.{treated};
ghost use Rattle.region.specs.steps.Treated.{OneSet, Finds};

use crate::missed::{FILED_ROWS, LISTED_ROWS, least_uncaught};
use crate::treated::{Finding, Sets, least_treated};
use policy::header::Header;
use policy::sides::{ROW, SIDES};
use wire::format::FILED_LIMIT;
use wire::record::set_in;
use wire::rows::decode_entries;

// Whether each of the n entries of a good file has the action set s.
fn is_one_set(file: &[u8], n: usize, s: u16) -> bool
    requires { length file.now ≡ place_in file.now n }
    ensures { result ≡ true → OneSet s (entries_from file.now 0 n) }
{
    (0..n).rev().all(|i| set_in(file, i) == s)
}

// The least header of b that the n entries of a good file allow another set than s, or do not match, and what catches it. They are decoded into the rows that are
// lent.
fn differing_in_rows(file: &[u8], n: usize, rows: &mut [u32], b: &[u32; SIDES], s: u16) -> Finding
    requires { (length file.now ≡ place_in file.now n) × (row_size * n ≤ length rows.old) }
    ensures { Finds (entries_from file.now 0 n) (least_in headers (box_of b.now 0) (treated (Differs s) (entries_from file.now 0 n))) None result }
{
    decode_entries(file, 0, n, rows);
    let end = ROW * n;
    least_treated(
        &rows[0..0],
        &rows[0..end],
        b,
        Sets::Other(s as u32),
        true,
        None,
    )
}

// The same in an array of N numbers: fewer are cleared for a short list.
fn differing_in<const N: usize>(file: &[u8], n: usize, b: &[u32; SIDES], s: u16) -> Finding
    requires { (length file.now ≡ place_in file.now n) × ((row_size * n ≤ N) × (N ≤ row_size * list_limit)) }
    ensures { Finds (entries_from file.now 0 n) (least_in headers (box_of b.now 0) (treated (Differs s) (entries_from file.now 0 n))) None result }
{
    let mut rows = [0u32; N];
    differing_in_rows(file, n, &mut rows, b, s)
}

// The same for a list of either length. Where its entries have no set but s, what differs is not caught.
pub(crate) fn least_differing(file: &[u8], n: usize, b: &[u32; SIDES], s: u16) -> Finding
    requires { (length file.now ≡ place_in file.now n) × ((1 ≤ n) × (n ≤ list_limit)) }
    ensures { Finds (entries_from file.now 0 n) (least_in headers (box_of b.now 0) (treated (Differs s) (entries_from file.now 0 n))) None result }
{
    if is_one_set(file, n, s) {
        return Finding {
            found: least_uncaught(file, n, b),
            by: None,
        };
    }
    if n <= FILED_LIMIT {
        return differing_in::<FILED_ROWS>(file, n, b, s);
    }
    differing_in::<LISTED_ROWS>(file, n, b, s)
}
