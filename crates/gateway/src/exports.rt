// Lookup and comparison as C gets them, over byte slices and numbers. The crate gateway_c hands them to C.
ghost use Rattle.std.specs.Prelude.{◌≡◌, List, ℕ};
ghost use Rattle.policy.specs.Header.{header};
ghost use Rattle.lookup.specs.Lookup.{lookup_of};
ghost use Rattle.compare.specs.Comparison.{comparison_of};
ghost use Rattle.gateway.specs.Exports.{lookup_number, comparison_number, header_lent};

use compare::files::{RefusedFile, compare_files};
use lookup::file::lookup_number;
use policy::header::Header;
use wire::header::put_header;

// The number of the entry that catches the header, 256 if none does, or 256 plus the number of the refusal.
pub fn policy_lookup(
    file: &[u8],
    local: u32,
    remote: u32,
    local_port: u16,
    remote_port: u16,
    protocol: u8,
    direction: u8,
) -> u32
    ensures { result ≡ lookup_number (lookup_of file.now (header (local, (remote, (local_port, (remote_port, (protocol, (direction, tt)))))))) }
{
    let h = Header {
        local,
        remote,
        local_port,
        remote_port,
        protocol,
        direction,
    };
    match lookup_number(file, h) {
        Ok(Some(i)) => i as u32,
        Ok(None) => 256,
        Err(r) => 256 + u32::from(r.number()),
    }
}

// 0 if the first file refines the second, 1 if it does not, or the file's number times 256 plus the number of the refusal.
// On 1 the least header where it does not goes to the first 14 bytes of the buffer, if it has 14.
pub fn policy_compare(first: &[u8], second: &[u8], buffer: &mut [u8]) -> u32
    ensures { ◌≡◌ {A = ℕ × List ℕ} (result, buffer.new)
        (comparison_number (comparison_of first.now second.now), header_lent (comparison_of first.now second.now) buffer.old) }
{
    match compare_files(first, second) {
        Ok(None) => 0,
        Ok(Some(h)) => {
            put_header(buffer, h);
            1
        }
        Err(RefusedFile::First(r)) => 256 + u32::from(r.number()),
        Err(RefusedFile::Second(r)) => 512 + u32::from(r.number()),
    }
}
