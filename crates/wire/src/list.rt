// Lists of unpacked entries.
ghost use Rattle.std.specs.Prelude.{◌≡◌};
ghost use Rattle.wire.specs.Lists.{no_entries};

use crate::format::{LIST_LIMIT, MERGED_VERSION};
use policy::entry::Entry;

// A list of up to 256 entries, in the first places, and the version of its file. It is an array, since this library has no heap.
#[derive(Clone, Copy)]
pub struct Entries {
    pub version: u8,
    pub entries: [Entry; LIST_LIMIT],
    pub count: usize,
}

// The entry that fills unused places: it matches no header and allows nothing.
pub const EMPTY: Entry = Entry {
    local_low: 1,
    local_high: 0,
    remote_low: 1,
    remote_high: 0,
    local_port_low: 1,
    local_port_high: 0,
    remote_port_low: 1,
    remote_port_high: 0,
    protocol_low: 1,
    protocol_high: 0,
    direction_low: 1,
    direction_high: 0,
    actions: 0,
};

// A list of no entries.
pub fn no_entries() -> Entries
    ensures { result ≡ no_entries }
{
    Entries {
        version: MERGED_VERSION,
        entries: [EMPTY; LIST_LIMIT],
        count: 0,
    }
}
