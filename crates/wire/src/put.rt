// Values, and an entry's bytes, put into a lent buffer.
ghost use Rattle.std.specs.Prelude.{◌≡◌, ◌+◌, ◌*◌, ◌≤◌, length};
ghost use Rattle.std.proofs.Math.Seq.{paste};
ghost use Rattle.wire.specs.Format.{head_size, record_size, list_limit, head_of, record_of};
ghost use Rattle.wire.specs.Writing.{placed};

use crate::format::{HEAD_SIZE, record_size};
use crate::number::Number;
use crate::record::ranges_of;
use policy::entry::Entry;

// Copies values to a place, by a loop: copy_from_slice asks whether the two overlap, and decoding takes nearly twice the time with it.
pub fn paste<T: Copy>(buffer: &mut [T], at: usize, values: &[T])
    requires { at + length values.now ≤ length buffer.old }
    ensures { buffer.new ≡ paste buffer.old at values.now (length values.now) }
{
    for (i, x) in values.iter().enumerate() {
        buffer[at + i] = *x;
    }
}

// Puts an entry's record at a place, in a file of a version.
pub(crate) fn put_entry(buffer: &mut [u8], at: usize, e: Entry, version: u8)
    requires { at + record_size version ≤ length buffer.old }
    ensures { buffer.new ≡ paste buffer.old at (record_of version e) (record_size version) }
{
    paste(buffer, at, &ranges_of(e));
    let set = e.actions.to_be_bytes();
    if version == 1 {
        paste(buffer, at + 26, &set);
    } else {
        paste(
            buffer,
            at + 26,
            &[e.direction_low, e.direction_high, set[0], set[1]],
        );
    }
}

// The bytes before the records of a file of n entries.
fn head_of(version: u8, n: usize) -> [u8; HEAD_SIZE]
    requires { n ≤ list_limit }
    ensures { result ≡ head_of version n }
{
    let length = 3 + record_size(version) * n;
    let mut bytes = [0; HEAD_SIZE];
    (length as u16).put(&mut bytes, 0);
    version.put(&mut bytes, 2);
    (n as u16).put(&mut bytes, 3);
    bytes
}

// Puts the bytes before the records at the start.
pub(crate) fn put_head(buffer: &mut [u8], version: u8, n: usize)
    requires { (n ≤ list_limit) × (head_size ≤ length buffer.old) }
    ensures { buffer.new ≡ placed (head_of version n) buffer.old }
{
    paste(buffer, 0, &head_of(version, n));
}
