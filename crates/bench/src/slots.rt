// The slot of a party: the file that it filed; and the working list of all slots.
ghost use Rattle.std.specs.Prelude.{◌≡◌, map, ◌≤◌, min, max, eqb, length, IfSome, Some};
ghost use Rattle.policy.specs.Header.{headers};
ghost use Rattle.wire.specs.Format.{head_size, list_limit};
ghost use Rattle.reconcile.specs.steps.Stage.{working_held, stage_in, crowded_in, added};
ghost use Rattle.bench.specs.Held.{slot_size, vacant_slot, slot_with, slot_list, list_in_slot};
ghost use Rattle.bench.specs.steps.Staged.{Staged};
ghost use Rattle.wire.specs.steps.Fits.{AllFit};

use reconcile::stage::{ROWS, Stage, add_list};
use wire::format::{FILED_SIZE, HEAD_SIZE, LIST_LIMIT};
use wire::put::paste;

// As many bytes as the longest filed list has.
pub const SLOT_SIZE: usize = FILED_SIZE;

// The bytes of a party's filed list, as many as length says; 0 where the party has none. An array and a length, since memory is fixed, and no Option, since `list_in_slot`
// (specs/Held.antt) has a list for every length.
#[derive(Clone, Copy)]
pub struct Slot {
    pub bytes: [u8; SLOT_SIZE],
    pub length: usize,
}

// A slot without a list.
pub(crate) fn vacant_slot() -> Slot
    ensures { result ≡ vacant_slot }
{
    Slot {
        bytes: [0u8; SLOT_SIZE],
        length: 0,
    }
}

// A slot that holds a file.
pub(crate) fn slot_with(file: &[u8]) -> Slot
    requires { length file.now ≤ slot_size }
    ensures { result ≡ slot_with file.now }
{
    let mut bytes = [0u8; SLOT_SIZE];
    paste(&mut bytes, 0, file);
    Slot {
        bytes,
        length: file.len(),
    }
}

// Whether a slot has no list. The numbers of the list in it fit their bytes, since they are read from bytes.
pub(crate) fn is_vacant(slot: Slot) -> bool
    ensures { (result ≡ eqb slot.length 0) × AllFit (slot_list slot) }
{
    slot.length == 0
}

// Where the file ends in a slot that has a length, whatever the length: behind a head, and within the slot.
pub(crate) fn file_end(length: usize) -> usize
    ensures { result ≡ max head_size (min length slot_size) }
{
    length.min(SLOT_SIZE).max(HEAD_SIZE)
}

// Rules 1 and 2 for the list of a slot, where the working list is not crowded. For every value of a slot: no more than its bytes are read.
fn add_slot(s: &Option<Stage>, rows: &mut [u32; ROWS], slot: Slot) -> Stage
    requires { IfSome s.now (λ t. t.count ≤ list_limit) }
    ensures { Some (working_held result) ≡ added headers (stage_in s.now) (slot_list slot) }
{
    let end = file_end(slot.length);
    let bytes = slot.bytes;
    add_list(s, rows, &bytes[..end])
}

// Whether the working list is crowded: it stays so, whatever list comes next.
fn is_crowded(s: &Option<Stage>) -> bool
    ensures { result ≡ crowded_in s.now }
{
    match s {
        Some(stage) => LIST_LIMIT < stage.count,
        None => false,
    }
}

// Rules 1 and 2 for the lists of all slots; nothing where none has a list. The rows that are lent may hold anything. A crowded list stays so: it is asked here, since a
// list that is handed on only to be handed back is copied in each turn.
pub(crate) fn add_slots(slots: [Slot; 8], rows: &mut [u32; ROWS]) -> Option<Stage>
    ensures { Staged (map list_in_slot slots) (stage_in result) }
{
    let mut stage = None;
    for slot in slots {
        if is_vacant(slot) {
            continue;
        }
        if is_crowded(&stage) {
            continue;
        }
        stage = Some(add_slot(&stage, rows, slot));
    }
    stage
}
