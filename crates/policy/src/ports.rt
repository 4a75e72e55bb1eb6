// Which protocols have ports, and so which combinations of numbers are headers.
ghost use Rattle.std.specs.Prelude.{◌≡◌, cond, min, max};
ghost use Rattle.policy.specs.Box.{range, within};
ghost use Rattle.policy.specs.Ports.{with_ports, one_of};
ghost use Rattle.policy.specs.Header.{among, headers};
ghost use Rattle.policy.specs.steps.Narrowed.{narrowed};

use crate::header::Header;
use crate::sides::is_between;

// The protocols that have ports: nothing else in the code knows them.
const WITH_PORTS: [u32; 5] = [6, 17, 33, 132, 136];

// Protocols from the first to the last. There are none, if the last is before the first: no Option, since the clause of `protocols_with_ports` has a crossed range for none.
#[derive(Clone, Copy, Debug, PartialEq, Eq)]
pub struct Protocols {
    pub first: u32,
    pub last: u32,
}

// r and protocol q, if q is one of those from low to high.
fn with_protocol(r: Protocols, q: u32, low: u32, high: u32) -> Protocols
    ensures { range result.first result.last ≡ cond (within (range low high) q) (range (min q r.first) (max q r.last)) (range r.first r.last) }
{
    if is_between(low, q, high) {
        return Protocols {
            first: q.min(r.first),
            last: q.max(r.last),
        };
    }
    r
}

// From the first to the last protocol with ports of those from low to high.
pub fn protocols_with_ports(low: u32, high: u32) -> Protocols
    ensures { range result.first result.last ≡ narrowed with_ports (range low high) }
{
    let mut r = Protocols {
        first: 256,
        last: 0,
    };
    for q in WITH_PORTS {
        r = with_protocol(r, q, low, high);
    }
    r
}

// Whether protocol q has ports.
fn has_ports(q: u32) -> bool
    ensures { result ≡ one_of with_ports q }
{
    let r = protocols_with_ports(q, q);
    r.first <= r.last
}

// Whether h is a header: its direction is 0 or 1, and both its ports are 0 or its protocol has ports. What is looked up is mostly a header, so that the protocol
// mostly has ports.
pub fn is_header(h: Header) -> bool
    ensures { result ≡ among headers h }
{
    if 1 < h.direction {
        return false;
    }
    if h.local_port != 0 {
        return has_ports(h.protocol as u32);
    }
    if h.remote_port != 0 {
        return has_ports(h.protocol as u32);
    }
    true
}
