// Comparison of two files of up to 256 entries.
ghost use Rattle.std.specs.Prelude.{◌≡◌, ◌*◌, ◌≤◌, min, length};
ghost use Rattle.policy.specs.steps.Rows.{row_size};
ghost use Rattle.wire.specs.Format.{records_in, list_limit};
ghost use Rattle.compare.specs.Comparison.{compared, comparison_of};

use crate::excess::least_excess;
use policy::header::Header;
use policy::refusal::Refusal;
use policy::sides::ROW;
use region::covering::check_rows;
use wire::format::{FILED_LIMIT, LIST_LIMIT};
use wire::record::records_in;

// Why the first file is refused, or the second.
#[derive(Clone, Copy)]
pub enum RefusedFile {
    First(Refusal),
    Second(Refusal),
}

// The least header that the first file allows an action that the second does not; nothing where the first refines the second; or why a file is refused. Each is
// decoded into the rows that are lent for it.
fn compare_decoded(
    first: &[u8],
    second: &[u8],
    p: &mut [u32],
    q: &mut [u32],
) -> Result<Option<Header>, RefusedFile>
    requires { (row_size * min (records_in first.now) list_limit ≤ length p.old) × (row_size * min (records_in second.now) list_limit ≤ length q.old) }
    ensures { compared result ≡ comparison_of first.now second.now }
{
    let n = match check_rows(first, p) {
        Ok(n) => n,
        Err(r) => return Err(RefusedFile::First(r)),
    };
    let m = match check_rows(second, q) {
        Ok(m) => m,
        Err(r) => return Err(RefusedFile::Second(r)),
    };
    let i = ROW * n;
    let j = ROW * m;
    Ok(least_excess(&p[0..i], &q[0..j]))
}

// The numbers of the rows of as many entries as can be filed, and as a list may have.
const FILED_ROWS: usize = ROW * FILED_LIMIT;

const LISTED_ROWS: usize = ROW * LIST_LIMIT;

// The same in two arrays of N numbers: fewer are cleared for files of few records.
fn compare_in<const N: usize>(first: &[u8], second: &[u8]) -> Result<Option<Header>, RefusedFile>
    requires { (row_size * min (records_in first.now) list_limit ≤ N) × ((row_size * min (records_in second.now) list_limit ≤ N) × (N ≤ row_size * list_limit)) }
    ensures { compared result ≡ comparison_of first.now second.now }
{
    let mut p = [0u32; N];
    let mut q = [0u32; N];
    compare_decoded(first, second, &mut p, &mut q)
}

// The least header that the first file allows an action that the second does not; nothing where the first refines the second; or why a file is refused.
pub fn compare_files(first: &[u8], second: &[u8]) -> Result<Option<Header>, RefusedFile>
    ensures { compared result ≡ comparison_of first.now second.now }
{
    if records_in(first) <= FILED_LIMIT {
        if records_in(second) <= FILED_LIMIT {
            return compare_in::<FILED_ROWS>(first, second);
        }
    }
    compare_in::<LISTED_ROWS>(first, second)
}
