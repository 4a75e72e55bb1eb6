// The two parts of a box that a row leaves when it is cut where the row ends in one field.
ghost use Rattle.std.specs.Prelude.{◌≡◌, ◌+◌, ◌<◌, true, length};
ghost use Rattle.policy.specs.steps.Cut.{above};
ghost use Rattle.policy.specs.Header.{arity};
ghost use Rattle.policy.specs.Sides.{box_of};
ghost use Rattle.policy.specs.steps.Rows.{sides};
ghost use Rattle.region.specs.steps.Corner.{holds_corner};
ghost use Rattle.region.specs.steps.Pieces.{IsBox, up_to, at_field, Short, Next};

use policy::sides::{FIELDS, SIDES, high};

// The number after x, which is below top.
fn next_number(x: u32, top: u32) -> u32
    requires { x < top }
    ensures { result ≡ x + 1 }
{
    x + 1
}

// Keeps of b the part above s in field number f, in which s ends inside b.
pub(crate) fn keep_above(b: &mut [u32; SIDES], s: &[u32; SIDES], f: usize)
    requires { (length b.old ≡ sides) × ((f < arity) × (Short arity f (box_of b.old 0) (box_of s.now 0) × (holds_corner (box_of s.now 0) (box_of b.old 0) ≡ true))) }
    ensures { IsBox b.new (at_field above arity f (box_of b.old 0) (box_of s.now 0)) }
{
    b[2 * f] = next_number(high(s, f), high(b, f));
}

// Keeps of b the part up to the end of s in it.
pub(crate) fn keep_up_to(b: &mut [u32; SIDES], s: &[u32; SIDES], f: usize)
    requires { (length b.old ≡ sides) × ((f < arity) × Short arity f (box_of b.old 0) (box_of s.now 0)) }
    ensures { IsBox b.new (at_field up_to arity f (box_of b.old 0) (box_of s.now 0)) }
{
    b[2 * f + 1] = high(s, f);
}

// A field in which s ends inside b, if there is one: the last of those of the least rank. Any ranks will do. The least one is kept beside its field,
// so that it stays in a register.
pub(crate) fn next_field(b: &[u32; SIDES], s: &[u32; SIDES], ranks: &[u32; FIELDS]) -> Option<usize>
    ensures { Next (box_of b.now 0) (box_of s.now 0) result }
{
    let mut best: Option<(usize, u32)> = None;
    for f in (0..FIELDS).rev() {
        if high(s, f) < high(b, f) && best.is_none_or(|(_, least)| ranks[f] < least) {
            best = Some((f, ranks[f]));
        }
    }
    best.map(|(f, _)| f)
}
