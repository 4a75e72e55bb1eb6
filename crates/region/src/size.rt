// Which of two parts of a box is searched first. It matters to the speed and to the depth alone.
use policy::sides::{FIELDS, SIDES, high, low};

// How many combinations of numbers b has, headers or not, about.
fn volume(b: &[u32; SIDES]) -> f64 {
    let mut v: f64 = 1.0;
    for f in 0..FIELDS {
        v *= high(b, f).wrapping_sub(low(b, f)) as f64 + 1.0;
    }
    v
}

// How many combinations of x a part may have that is searched by a call: half of them, and a quarter where no levels are left. Of two parts that were
// cut as rank_fields says, one has no more.
pub(crate) fn largest_volume(x: &[u32; SIDES], levels: u32) -> f64 {
    if levels == 0 {
        return volume(x) / 4.0;
    }
    volume(x) / 2.0
}

// Whether the part p, which was cut off in field number f, is searched before the part q, cut off in field number g. The one in the later field has
// the lesser headers, and what is found there can spare the search of the other; but it has to be small enough.
pub(crate) fn goes_first(
    p: &[u32; SIDES],
    f: usize,
    q: &[u32; SIDES],
    g: usize,
    most: f64,
) -> bool {
    if g < f {
        return volume(p) <= most;
    }
    most < volume(q)
}
