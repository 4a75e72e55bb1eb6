// A pair of entries, intersected.
ghost use Rattle.std.specs.Prelude.{◌≡◌};
ghost use Rattle.policy.specs.Entry.{both};

use crate::actions::shared_actions;
use crate::entry::Entry;

// Selectors and action sets intersected.
pub fn both_entries(d: Entry, e: Entry) -> Entry
    ensures { result ≡ both d e }
{
    Entry {
        local_low: d.local_low.max(e.local_low),
        local_high: d.local_high.min(e.local_high),
        remote_low: d.remote_low.max(e.remote_low),
        remote_high: d.remote_high.min(e.remote_high),
        local_port_low: d.local_port_low.max(e.local_port_low),
        local_port_high: d.local_port_high.min(e.local_port_high),
        remote_port_low: d.remote_port_low.max(e.remote_port_low),
        remote_port_high: d.remote_port_high.min(e.remote_port_high),
        protocol_low: d.protocol_low.max(e.protocol_low),
        protocol_high: d.protocol_high.min(e.protocol_high),
        direction_low: d.direction_low.max(e.direction_low),
        direction_high: d.direction_high.min(e.direction_high),
        actions: shared_actions(d.actions, e.actions),
    }
}
