// Entries: the thirteen numbers of a record, at the format's widths.
ghost use Rattle.std.specs.Prelude.{◌≡◌, not, ◌&&◌};
ghost use Rattle.policy.specs.Entry.{selector, matches, crossed};
ghost use Rattle.policy.specs.Header.{among, headers};
ghost use Rattle.policy.specs.Sides.{box_of};
ghost use Rattle.policy.specs.steps.Rows.{numbers_of};

use crate::direction::{is_crossed_box, is_direction_crossed};
use crate::header::{Header, numbers_of};
use crate::ports::is_header;
use crate::sides::{ROW, SIDES, is_inside, row_sides};

// Laid out as in C, which may lend a table of them.
#[repr(C)]
#[derive(Clone, Copy, Debug, PartialEq, Eq)]
pub struct Entry {
    pub local_low: u32,
    pub local_high: u32,
    pub remote_low: u32,
    pub remote_high: u32,
    pub local_port_low: u16,
    pub local_port_high: u16,
    pub remote_port_low: u16,
    pub remote_port_high: u16,
    pub protocol_low: u8,
    pub protocol_high: u8,
    pub direction_low: u8,
    pub direction_high: u8,
    pub actions: u16,
}

// The row of e. Functions and no `From`, since two arrays of numbers are made of an entry, and their types do not say which has what.
pub fn row_of(e: Entry) -> [u32; ROW]
    ensures { result ≡ numbers_of e }
{
    [
        e.local_low,
        e.local_high,
        e.remote_low,
        e.remote_high,
        e.local_port_low as u32,
        e.local_port_high as u32,
        e.remote_port_low as u32,
        e.remote_port_high as u32,
        e.protocol_low as u32,
        e.protocol_high as u32,
        e.direction_low as u32,
        e.direction_high as u32,
        e.actions as u32,
    ]
}

// The sides of e's selector.
pub fn sides_of(e: Entry) -> [u32; SIDES]
    ensures { box_of result 0 ≡ selector e }
{
    let row = row_of(e);
    row_sides(&row, 0)
}

// Whether e matches h.
pub fn matches_header(e: Entry, h: Header) -> bool
    ensures { result ≡ matches e h }
{
    let sides = sides_of(e);
    let numbers = numbers_of(h);
    is_inside(&sides, &numbers)
}

// Whether h is a header that e matches, and e is not crossed: one that matches can be crossed by its direction alone. In a loop over entries the compiler asks the
// first once.
pub fn catches_header(e: Entry, h: Header) -> bool
    ensures { result ≡ (among headers h && (not (crossed e) && matches e h)) }
{
    if !is_header(h) {
        return false;
    }
    if !matches_header(e, h) {
        return false;
    }
    !is_direction_crossed(e.direction_low, e.direction_high)
}

// Whether e is crossed.
pub fn is_crossed(e: Entry) -> bool
    ensures { result ≡ crossed e }
{
    let sides = sides_of(e);
    is_crossed_box(&sides)
}
