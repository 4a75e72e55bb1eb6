// Lookup in a file of up to 256 entries.
ghost use Rattle.std.specs.Prelude.{◌≡◌, ◌+◌, ◌≤◌, length, Some};
ghost use Rattle.wire.specs.Format.{place_in};
ghost use Rattle.lookup.specs.Lookup.{looked, lookup_of, record_part, part_for, lent, lent_part};

use crate::records::first_header_match;
use policy::header::Header;
use policy::refusal::Refusal;
use wire::check::check_file;
use wire::format::{LIST_LIMIT, record_size};
use wire::record::record_place;

// The number of the entry that catches h, if one does; or why the file is refused.
pub fn lookup_number(file: &[u8], h: Header) -> Result<Option<usize>, Refusal>
    ensures { looked result ≡ lookup_of file.now h }
{
    let n = check_file(file, LIST_LIMIT)?;
    Ok(first_header_match(file, n, h))
}

// Record i of a file, as that part of the lent bytes.
fn record_of(file: &[u8], i: usize) -> &[u8]
    requires { place_in file.now (i + 1) ≤ length file.now }
    ensures { lent result ≡ lent_part file.entry (record_part file.now (Some i)) }
{
    let start = record_place(file, i);
    let end = start + record_size(file[2]);
    &file[start..end]
}

// The record that catches h, as that part of the lent file; the part of length zero at its start where none does or the file is refused.
pub fn lookup_record(file: &[u8], h: Header) -> &[u8]
    ensures { lent result ≡ lent_part file.entry (part_for file.now h) }
{
    match lookup_number(file, h) {
        Ok(Some(i)) => record_of(file, i),
        Ok(None) => &file[0..0],
        Err(_) => &file[0..0],
    }
}
