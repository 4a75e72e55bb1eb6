// Reading: from a file to a list.
ghost use Rattle.std.specs.Prelude.{◌≡◌, ◌≤◌, length};
ghost use Rattle.wire.specs.Format.{list_limit, version_in, place_in, entries_from};
ghost use Rattle.wire.specs.Lists.{listed, reading, reading_of};

use crate::check::check_file;
use crate::format::LIST_LIMIT;
use crate::list::{EMPTY, Entries, no_entries};
use crate::record::entry_in;
use policy::refusal::Refusal;

// The first n entries of a file, as a list.
fn read_entries(file: &[u8], n: usize) -> Entries
    requires { (n ≤ list_limit) × (place_in file.now n ≤ length file.now) }
    ensures { result ≡ listed (version_in file.now) (entries_from file.now 0 n) }
{
    let mut entries = [EMPTY; LIST_LIMIT];
    for i in 0..n {
        entries[i] = entry_in(file, i);
    }
    Entries {
        version: file[2],
        entries,
        count: n,
    }
}

// Reads a file of up to 256 entries that passes checks 1 to 4.
pub fn read_list(file: &[u8]) -> Result<Entries, Refusal>
    ensures { reading result ≡ reading_of file.now }
{
    let n = check_file(file, LIST_LIMIT)?;
    Ok(read_entries(file, n))
}

// The list of a reading. That of a refused file has no entries, and is of version 2.
pub fn list_of(r: Result<Entries, Refusal>) -> Entries
    ensures { result ≡ (reading r).1 }
{
    match r {
        Ok(list) => list,
        Err(_) => no_entries(),
    }
}
