// Whether a row holds the low corner of a box, and its end.
ghost use Rattle.std.specs.Prelude.{◌≡◌, ◌+◌, ◌≤◌, length};
ghost use Rattle.policy.specs.Box.{inside};
ghost use Rattle.policy.specs.steps.Boxes.{lows};
ghost use Rattle.policy.specs.Header.{arity};
ghost use Rattle.policy.specs.Sides.{box_of};
ghost use Rattle.policy.specs.steps.Rows.{sides};
ghost use Rattle.region.specs.steps.Corner.{reaches};

use policy::sides::{FIELDS, SIDES, high, high_at, is_between, low, low_at};

// Whether the row at a place holds the low corner of b. It is read as far as the first field that misses.
pub fn holds_corner(s: &[u32], at: usize, b: &[u32; SIDES]) -> bool
    requires { at + sides ≤ length s.now }
    ensures { result ≡ inside arity (box_of s.now at) (lows arity (box_of b.now 0)) }
{
    (0..FIELDS).all(|f| is_between(low_at(s, at, f), low(b, f), high_at(s, at, f)))
}

// Whether the row at a place ends nowhere before b does.
pub fn row_reaches(s: &[u32], at: usize, b: &[u32; SIDES]) -> bool
    requires { at + sides ≤ length s.now }
    ensures { result ≡ reaches arity (box_of s.now at) (box_of b.now 0) }
{
    (0..FIELDS).all(|f| high(b, f) <= high_at(s, at, f))
}
