// Checks 1 to 5 of a file: it holds a covering list.
ghost use Rattle.std.specs.Prelude.{◌≡◌, ◌*◌, ◌≤◌, min, true, length, None};
ghost use Rattle.policy.specs.steps.Rows.{row_size};
ghost use Rattle.wire.specs.Format.{filed_limit, list_limit, place_in, records_in, entries_from, list_in};
ghost use Rattle.wire.specs.Checks.{checked};
ghost use Rattle.region.specs.ListChecks.{gap_of};
ghost use Rattle.region.specs.steps.Covering.{gap_checked, list_checks_of, InRows, Decoded};

use crate::gap::first_gap;
use policy::header::Header;
use policy::refusal::Refusal;
use policy::sides::ROW;
use wire::check::check_file;
use wire::format::{FILED_LIMIT, LIST_LIMIT};
use wire::rows::{decode_entries, entry_is_all};

// Whether the last of the n entries of a good file is ALL: then its list has no gap, and none is searched for.
pub(crate) fn ends_with_all(file: &[u8], n: usize) -> bool
    requires { (length file.now ≡ place_in file.now n) × (1 ≤ n) }
    ensures { result ≡ true → gap_of (entries_from file.now 0 n) ≡ None }
{
    entry_is_all(file, n - 1)
}

// The gap of a list of n entries, if it has one, refuses it.
fn gap_checked(gap: Option<Header>, n: usize) -> Result<usize, Refusal>
    ensures { checked result ≡ gap_checked gap n }
{
    match gap {
        Some(h) => Err(Refusal::Gap(h)),
        None => Ok(n),
    }
}

// The gap of a good file of n entries. They are decoded into the rows that are lent.
fn decoded_gap(file: &[u8], n: usize, rows: &mut [u32]) -> Option<Header>
    requires { (length file.now ≡ place_in file.now n) × ((1 ≤ n) × (row_size * n ≤ length rows.old)) }
    ensures { (result ≡ gap_of (entries_from file.now 0 n)) × InRows rows.new n (entries_from file.now 0 n) }
{
    decode_entries(file, 0, n, rows);
    if ends_with_all(file, n) {
        return None;
    }
    let end = ROW * n;
    first_gap(&rows[0..end])
}

// The gap of a good file of n entries that can be filed. It is decoded only where it has to be searched.
fn filed_gap(file: &[u8], n: usize) -> Option<Header>
    requires { (length file.now ≡ place_in file.now n) × ((1 ≤ n) × (n ≤ filed_limit)) }
    ensures { result ≡ gap_of (entries_from file.now 0 n) }
{
    if ends_with_all(file, n) {
        return None;
    }
    let mut rows = [0u32; ROW * FILED_LIMIT];
    decoded_gap(file, n, &mut rows)
}

// The number of entries of a file whose list can be filed; or why it is refused.
pub fn check_list(file: &[u8]) -> Result<usize, Refusal>
    ensures { checked result ≡ list_checks_of file.now filed_limit }
{
    let n = check_file(file, FILED_LIMIT)?;
    gap_checked(filed_gap(file, n), n)
}

// The number of entries of a file whose list is covering and has up to 256 entries, which the first rows then hold; or why it is refused.
pub fn check_rows(file: &[u8], rows: &mut [u32]) -> Result<usize, Refusal>
    requires { row_size * min (records_in file.now) list_limit ≤ length rows.old }
    ensures { (checked result ≡ list_checks_of file.now list_limit) × Decoded result rows.new (list_in file.now) }
{
    let n = check_file(file, LIST_LIMIT)?;
    gap_checked(decoded_gap(file, n, rows), n)
}
