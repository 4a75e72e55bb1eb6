// Writing: from a list to a file in a lent buffer.
ghost use Rattle.std.specs.Prelude.{◌≡◌, ◌≤◌, length};
ghost use Rattle.wire.specs.Format.{list_limit, file_size, file_of};
ghost use Rattle.wire.specs.Checks.{checked};
ghost use Rattle.wire.specs.steps.Crossed.{crossed_of};
ghost use Rattle.wire.specs.steps.Fits.{Fits, GoodFit};
ghost use Rattle.wire.specs.Writing.{placed, both_ways, crossed_in, writing, writing_of, ReadAgain};

use crate::format::{LIST_LIMIT, file_size, is_version};
use crate::list::Entries;
use crate::put::{put_entry, put_head};
use policy::entry::{Entry, is_crossed};
use policy::refusal::Refusal;

// Whether an entry covers both directions.
fn is_both_ways(e: Entry) -> bool
    ensures { result ≡ both_ways e }
{
    e.direction_low == 0 && e.direction_high == 1
}

// Whether an entry counts as crossed in a file of a version. Its numbers fit their bytes, as those of every entry in memory do.
fn is_entry_crossed(e: Entry, version: u8) -> bool
    ensures { (result ≡ crossed_in version e) × Fits e }
{
    is_crossed(e) || version == 1 && !is_both_ways(e)
}

// Check 4, of the entries of a list.
fn check_held(entries: &[Entry], version: u8) -> Result<usize, Refusal>
    ensures { (checked result ≡ crossed_of (crossed_in version) entries.now (length entries.now)) × GoodFit result entries.now }
{
    for (i, e) in entries.iter().enumerate() {
        if is_entry_crossed(*e, version) {
            return Err(Refusal::Crossed(i));
        }
    }
    Ok(entries.len())
}

// Puts the file of entries at the start of a buffer.
pub fn put_entries(entries: &[Entry], version: u8, buffer: &mut [u8])
    requires { (length entries.now ≤ list_limit) × (file_size version (length entries.now) ≤ length buffer.old) }
    ensures { buffer.new ≡ placed (file_of version entries.now) buffer.old }
{
    put_head(buffer, version, entries.len());
    for (i, e) in entries.iter().enumerate() {
        put_entry(buffer, file_size(version, i), *e, version);
    }
}

// Writes a list as a file of its version to the start of a buffer: the file's length.
pub fn write_list(list: Entries, buffer: &mut [u8]) -> Result<usize, Refusal>
    ensures written { writing result buffer.new ≡ writing_of list buffer.old }
    ensures again { ReadAgain list result buffer.new }
{
    if !is_version(list.version) {
        return Err(Refusal::Version);
    }
    let n = list.count;
    if n < 1 || LIST_LIMIT < n {
        return Err(Refusal::Count);
    }
    let entries = &list.entries[..n];
    check_held(entries, list.version)?;
    let size = file_size(list.version, n);
    if buffer.len() < size {
        return Err(Refusal::Narrow(size));
    }
    put_entries(entries, list.version, buffer);
    Ok(size)
}
