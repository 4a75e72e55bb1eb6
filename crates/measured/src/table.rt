// Lookup in a lent table.
ghost use Rattle.std.specs.Prelude.{◌≡◌};
ghost use Rattle.policy.specs.Header.{header};
ghost use Rattle.lookup.specs.Lookup.{caught_answer, table_lookup_of};
ghost use Rattle.measured.specs.steps.Numbers.{caught_number};

use lookup::table::lookup_table;
use policy::entry::Entry;
use policy::header::Header;

// The header of six numbers.
fn header_of(
    local: u32,
    remote: u32,
    local_port: u16,
    remote_port: u16,
    protocol: u8,
    direction: u8,
) -> Header
    ensures { result ≡ header (local, (remote, (local_port, (remote_port, (protocol, (direction, tt)))))) }
{
    Header {
        local,
        remote,
        local_port,
        remote_port,
        protocol,
        direction,
    }
}

// The number of the entry of a table that catches a header, 256 if none does.
#[unsafe(no_mangle)]
pub extern "C" fn measured_table(
    table: &[Entry],
    local: u32,
    remote: u32,
    local_port: u16,
    remote_port: u16,
    protocol: u8,
    direction: u8,
) -> usize
    ensures { result ≡ caught_number (table_lookup_of table.now (header (local, (remote, (local_port, (remote_port, (protocol, (direction, tt)))))))) }
{
    let h = header_of(local, remote, local_port, remote_port, protocol, direction);
    lookup_table(table, h).unwrap_or(256)
}
