// Whether a number is in a range of a record. The record is read no further than it must be.
ghost use Rattle.std.specs.Prelude.{◌≡◌, ◌+◌, ◌≤◌, length};
ghost use Rattle.policy.specs.Box.{range, within};

use crate::number::Number;

// Whether x is in the range whose low and high stand at two places, each in as many bytes as an N.
pub fn is_within<N: Number>(s: &[u8], low: usize, high: usize, x: u32) -> bool
    requires { (low + N.size ≤ length s.now) × (high + N.size ≤ length s.now) }
    ensures { result ≡ within (range (N.number_at s.now low) (N.number_at s.now high)) x }
{
    if x < N::read(s, low).wide() {
        return false;
    }
    x <= N::read(s, high).wide()
}
