// The numbers of headers, their order, and the box of them all.
ghost use Rattle.std.specs.Prelude.{◌≡◌, true};
ghost use Rattle.policy.specs.steps.Boxes.{fits, lows};
ghost use Rattle.policy.specs.Header.{arity, sizes, header, before, everything};
ghost use Rattle.policy.specs.Refusals.{numbers};
ghost use Rattle.policy.specs.Sides.{box_of};

use crate::sides::{FIELDS, SIDES, low};

// Six numbers, in the sequence that decides the order. Not every combination of them is a header: ports.rt.
#[derive(Clone, Copy, Debug, PartialEq, Eq, PartialOrd, Ord)]
pub struct Header {
    pub local: u32,
    pub remote: u32,
    pub local_port: u16,
    pub remote_port: u16,
    pub protocol: u8,
    // 0 in, 1 out.
    pub direction: u8,
}

// The numbers of h, in the sequence that decides the order. A function and no `From`, which would not say which six numbers an array has; so too the low corner.
pub fn numbers_of(h: Header) -> [u32; FIELDS]
    ensures { result ≡ numbers h }
{
    [
        h.local,
        h.remote,
        h.local_port as u32,
        h.remote_port as u32,
        h.protocol as u32,
        h.direction as u32,
    ]
}

// The low corner of b as a header.
pub fn low_corner(b: &[u32; SIDES]) -> Header
    requires { fits arity sizes (lows arity (box_of b.now 0)) ≡ true }
    ensures { result ≡ header (lows arity (box_of b.now 0)) }
{
    Header {
        local: low(b, 0),
        remote: low(b, 1),
        local_port: low(b, 2) as u16,
        remote_port: low(b, 3) as u16,
        protocol: low(b, 4) as u8,
        direction: low(b, 5) as u8,
    }
}

// Whether h comes before g.
pub fn is_before(h: Header, g: Header) -> bool
    ensures { result ≡ before h g }
{
    h < g
}

// 01's ALL: the box of every header.
pub fn whole() -> [u32; SIDES]
    ensures { box_of result 0 ≡ everything }
{
    [
        0,
        0xffff_ffff,
        0,
        0xffff_ffff,
        0,
        0xffff,
        0,
        0xffff,
        0,
        0xff,
        0,
        1,
    ]
}
