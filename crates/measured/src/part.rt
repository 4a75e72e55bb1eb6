// Lookup of the record in a file.
ghost use Rattle.std.specs.Prelude.{◌≡◌, length};
ghost use Rattle.policy.specs.Header.{header};
ghost use Rattle.lookup.specs.Lookup.{part_for, lent_part};

use lookup::file::lookup_record;
use policy::header::Header;

// The length of the part of the file that lookup hands back.
#[unsafe(no_mangle)]
pub extern "C" fn measured_part(
    file: &[u8],
    local: u32,
    remote: u32,
    local_port: u16,
    remote_port: u16,
    protocol: u8,
    direction: u8,
) -> usize
    ensures { result ≡ length (lent_part file.entry (part_for file.now (header (local, (remote, (local_port, (remote_port, (protocol, (direction, tt))))))))).1 }
{
    let h = Header {
        local,
        remote,
        local_port,
        remote_port,
        protocol,
        direction,
    };
    lookup_record(file, h).len()
}
