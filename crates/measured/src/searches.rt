// The public search.
ghost use Rattle.std.specs.Prelude.{◌≡◌, List, ℕ};
ghost use Rattle.measured.specs.steps.Numbers.{wanted, measured_search};

use policy::entry::sides_of;
use region::search::{Want, search_file};
use wire::format::{MERGED_VERSION, record_size};
use wire::header::put_header;
use wire::record::read_entry;

// What is looked for, by a number as C gives it: 0 for uncaught, 1 for caught by the entry of a number, else a set other than it.
fn want_of(want: u32, value: u16) -> Want
    ensures { result ≡ wanted want value }
{
    if want == 0 {
        return Want::Uncaught;
    }
    if want == 1 {
        return Want::CaughtBy(value as usize);
    }
    Want::Differs(value)
}

// Searches the selector of a record of version 2: 0 for none, 1 with the header in the buffer, or 256 plus the number of the refusal. 512 if there is no
// record.
#[unsafe(no_mangle)]
pub extern "C" fn measured_search(
    file: &[u8],
    record: &[u8],
    want: u32,
    value: u16,
    buffer: &mut [u8],
) -> u32
    ensures { ◌≡◌ {A = ℕ × List ℕ} (result, buffer.new) (measured_search file.now «record».now want value buffer.old) }
{
    if record.len() < record_size(MERGED_VERSION) {
        return 512;
    }
    let b = sides_of(read_entry(record, 0, MERGED_VERSION));
    match search_file(file, &b, want_of(want, value)) {
        Ok(None) => 0,
        Ok(Some(found)) => {
            put_header(buffer, found.header);
            1
        }
        Err(r) => 256 + u32::from(r.number()),
    }
}
