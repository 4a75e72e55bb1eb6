// A box that counts as crossed: a range has its low above its high, or an end of the direction is above 1.
ghost use Rattle.std.specs.Prelude.{◌≡◌};
ghost use Rattle.policy.specs.Direction.{crossed_box};
ghost use Rattle.policy.specs.steps.Directions.{direction_crossed};
ghost use Rattle.policy.specs.Sides.{box_of};

use crate::sides::{SIDES, high, is_proper};

// The number of this field.
const DIRECTION: usize = 5;

// Whether b is crossed. Where its direction ends at most at 1, a low above 1 is above its high.
pub fn is_crossed_box(b: &[u32; SIDES]) -> bool
    ensures { result ≡ crossed_box (box_of b.now 0) }
{
    if 1 < high(b, DIRECTION) {
        return true;
    }
    !is_proper(b)
}

// Whether a direction from low to high is crossed. In one test, of a sum: 0 to 0, 0 to 1 and 1 to 1 come to at most 1, and no others. A shorter test would be put
// together with those before it, so that each entry of a table would go through all of them.
pub fn is_direction_crossed(low: u8, high: u8) -> bool
    ensures { result ≡ direction_crossed low high }
{
    1 < low as u32 + (high as u32 ^ 1)
}
