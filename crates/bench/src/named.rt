// Whose entries clash: what a refusal for conflict names of each party.
ghost use Rattle.std.specs.Prelude.{◌≡◌, [], map, ◌≤◌, length};
ghost use Rattle.policy.specs.Policy.{catcher};
ghost use Rattle.wire.specs.Format.{head_size};
ghost use Rattle.reconcile.specs.steps.Stage.{filed_in};
ghost use Rattle.bench.specs.Answers.{named_from, catchers_from};
ghost use Rattle.bench.specs.Held.{list_in_slot};
ghost use Rattle.bench.specs.steps.Naming.{catcher_in, ConflictIn};

use crate::slots::{Slot, file_end, is_vacant};
use lookup::records::first_match;
use policy::header::Header;
use policy::refusal::Refusal;
use reconcile::cross::filed_count;
use reconcile::ending::Merged;

// The header of a conflict.
pub(crate) fn conflict_in(m: Result<Merged, Refusal>) -> Option<Header>
    ensures { ConflictIn m result }
{
    match m {
        Ok(_) => None,
        Err(r) => match r {
            Refusal::Conflict(h) => Some(h),
            _ => None,
        },
    }
}

// The entry of a filed list that catches h.
fn catcher_in_file(file: &[u8], h: Header) -> Option<usize>
    requires { head_size ≤ length file.now }
    ensures { result ≡ catcher (filed_in file.now) h }
{
    first_match(file, filed_count(file), h)
}

// The same of a slot, if it has a list. For every value of a slot: no more than its bytes are read.
fn catcher_in(slot: Slot, h: Header) -> Option<usize>
    ensures { result ≡ catcher_in h (list_in_slot slot) }
{
    if is_vacant(slot) {
        return None;
    }
    let end = file_end(slot.length);
    let bytes = slot.bytes;
    catcher_in_file(&bytes[..end], h)
}

// Nothing is named.
pub fn none_named() -> [Option<usize>; 8]
    ensures { (length result ≡ 8) × (named_from 1 result ≡ []) }
{
    [None; 8]
}

// For each party in force the entry of its list, as it was filed, that catches h. A refused merging alone asks for them.
pub(crate) fn name_catchers(slots: [Slot; 8], h: Header) -> [Option<usize>; 8]
    ensures { named_from 1 result ≡ catchers_from 1 (map list_in_slot slots) h }
{
    let mut named = none_named();
    for (i, slot) in slots.iter().enumerate() {
        named[i] = catcher_in(*slot, h);
    }
    named
}
