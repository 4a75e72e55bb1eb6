// Checks 1 to 4 of a file.
ghost use Rattle.std.specs.Prelude.{◌≡◌, ◌≤◌, length};
ghost use Rattle.policy.specs.Entry.{crossed};
ghost use Rattle.wire.specs.Format.{place_in, entries_from};
ghost use Rattle.wire.specs.Checks.{checked, checks_of};
ghost use Rattle.wire.specs.steps.Crossed.{crossed_of};

use crate::format::{HEAD_SIZE, is_version, record_size};
use crate::number::Number;
use crate::record::entry_in;
use policy::entry::is_crossed;
use policy::refusal::Refusal;

// Check 4, of the n records of a file.
// speed: a function of its own. Put where it is called, it makes check_file too large for that: a lookup of a file that checks 1 to 3 refuse took up to 1.6 times as long.
#[inline(never)]
fn check_entries(file: &[u8], n: usize) -> Result<usize, Refusal>
    requires { place_in file.now n ≤ length file.now }
    ensures { checked result ≡ crossed_of crossed (entries_from file.now 0 n) n }
{
    for i in 0..n {
        if is_crossed(entry_in(file, i)) {
            return Err(Refusal::Crossed(i));
        }
    }
    Ok(n)
}

// Checks 1 to 4 of a file whose list may have up to limit entries: the number of entries.
pub fn check_file(file: &[u8], limit: usize) -> Result<usize, Refusal>
    ensures { checked result ≡ checks_of file.now limit }
{
    if file.len() < HEAD_SIZE {
        return Err(Refusal::Missized);
    }
    let length = u16::read(file, 0) as usize;
    if file.len() != length + 2 {
        return Err(Refusal::Missized);
    }
    if !is_version(file[2]) {
        return Err(Refusal::Version);
    }
    let n = u16::read(file, 3) as usize;
    if n < 1 || limit < n {
        return Err(Refusal::Count);
    }
    if length - 3 != record_size(file[2]) * n {
        return Err(Refusal::Count);
    }
    check_entries(file, n)
}
