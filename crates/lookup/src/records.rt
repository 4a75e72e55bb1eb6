// First match among packed records.
ghost use Rattle.std.specs.Prelude.{◌≡◌, ◌+◌, ◌≤◌, length};
ghost use Rattle.policy.specs.Entry.{matches};
ghost use Rattle.policy.specs.Policy.{catcher};
ghost use Rattle.wire.specs.Format.{record_size, place_in, entry_at, entries_from};
ghost use Rattle.lookup.specs.Lookup.{header_catcher};

use policy::header::Header;
use policy::ports::is_header;
use wire::ranges::is_within;
use wire::record::record_place;

// Whether the record at a place, in a file of a version, matches h. It is read field by field, as far as the first that misses; in version 1 it covers both
// directions.
fn record_matches(s: &[u8], at: usize, version: u8, h: Header) -> bool
    requires { at + record_size version ≤ length s.now }
    ensures { result ≡ matches (entry_at version s.now at) h }
{
    if !is_within::<u32>(s, at, at + 4, h.local) {
        return false;
    }
    if !is_within::<u32>(s, at + 8, at + 12, h.remote) {
        return false;
    }
    if !is_within::<u16>(s, at + 16, at + 18, h.local_port as u32) {
        return false;
    }
    if !is_within::<u16>(s, at + 20, at + 22, h.remote_port as u32) {
        return false;
    }
    if !is_within::<u8>(s, at + 24, at + 25, h.protocol as u32) {
        return false;
    }
    if version == 1 {
        return h.direction <= 1;
    }
    is_within::<u8>(s, at + 26, at + 27, h.direction as u32)
}

// The first of the first n records of a file that matches h.
pub fn first_match(file: &[u8], n: usize, h: Header) -> Option<usize>
    requires { place_in file.now n ≤ length file.now }
    ensures { result ≡ catcher (entries_from file.now 0 n) h }
{
    for i in 0..n {
        if record_matches(file, record_place(file, i), file[2], h) {
            return Some(i);
        }
    }
    None
}

// The same, where h may be no header: then none does.
pub fn first_header_match(file: &[u8], n: usize, h: Header) -> Option<usize>
    requires { place_in file.now n ≤ length file.now }
    ensures { result ≡ header_catcher (entries_from file.now 0 n) h }
{
    if !is_header(h) {
        return None;
    }
    first_match(file, n, h)
}
