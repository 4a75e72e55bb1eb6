// A box is narrowed to its headers. Nothing else in the search knows which combinations of numbers are headers.
ghost use Rattle.std.specs.Prelude.{◌≡◌, true, not, ◌&&◌, length, ◌==◌};
ghost use Rattle.policy.specs.Box.{proper};
ghost use Rattle.policy.specs.Header.{arity, headers};
ghost use Rattle.policy.specs.Sides.{field, box_of};
ghost use Rattle.policy.specs.steps.Rows.{sides};
ghost use Rattle.region.specs.steps.Narrowing.{Fitting, NarrowsTo};

use policy::ports::protocols_with_ports;
use policy::sides::{SIDES, high, low};

// The numbers of these fields.
const LOCAL_PORT: usize = 2;

const REMOTE_PORT: usize = 3;

const PROTOCOL: usize = 4;

// Whether the headers of x need ports: one of them is 0 nowhere in x.
fn needs_ports(x: &[u32; SIDES]) -> bool
    ensures { result ≡ not ((field x.now 0 2).low == 0 && (field x.now 0 3).low == 0) }
{
    if low(x, LOCAL_PORT) != 0 {
        return true;
    }
    low(x, REMOTE_PORT) != 0
}

// Narrows x to its headers, and says whether it has any. Where a port is 0 nowhere, the protocols without ports at both ends are left out; where no protocol
// has ports, they are 0. Then the low corner is a header.
pub(crate) fn narrow_to_headers(x: &mut [u32; SIDES]) -> bool
    requires { (length x.old ≡ sides) × ((proper arity (box_of x.old 0) ≡ true) × Fitting (box_of x.old 0)) }
    ensures { (length x.new ≡ sides) × NarrowsTo headers (box_of x.old 0) (box_of x.new 0) result }
{
    let r = protocols_with_ports(low(x, PROTOCOL), high(x, PROTOCOL));
    if needs_ports(x) {
        if r.last < r.first {
            return false;
        }
        x[2 * PROTOCOL] = r.first;
        x[2 * PROTOCOL + 1] = r.last;
        return true;
    }
    if r.first <= r.last {
        return true;
    }
    x[2 * LOCAL_PORT + 1] = 0;
    x[2 * REMOTE_PORT + 1] = 0;
    true
}
