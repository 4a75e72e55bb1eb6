// Whether a low corner is worth looking at.
ghost use Rattle.std.specs.Prelude.{◌≡◌};
ghost use Rattle.region.specs.steps.Corner.{improves};

use policy::header::{Header, is_before};

// Whether h comes before the finding.
pub fn is_improved(h: Header, best: Option<Header>) -> bool
    ensures { result ≡ improves h best }
{
    match best {
        None => true,
        Some(g) => is_before(h, g),
    }
}
