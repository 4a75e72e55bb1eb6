// Records: an entry's bytes.
ghost use Rattle.std.specs.Prelude.{◌≡◌, ◌+◌, ◌≤◌, length};
ghost use Rattle.policy.specs.Box.{range};
ghost use Rattle.wire.specs.Format.{record_size, place_in, records_in, entry_with, entry_at, ranges_of};
ghost use Rattle.wire.specs.steps.Numbered.{entry_in};

use crate::format::{HEAD_SIZE, record_size};
use crate::number::Number;
use policy::entry::Entry;

// The ranges of the record at a place, with that of a direction and with an action set.
fn read_with(s: &[u8], at: usize, low: u8, high: u8, actions: u16) -> Entry
    requires { at + 26 ≤ length s.now }
    ensures { result ≡ entry_with s.now at (range low high) actions }
{
    Entry {
        local_low: u32::read(s, at),
        local_high: u32::read(s, at + 4),
        remote_low: u32::read(s, at + 8),
        remote_high: u32::read(s, at + 12),
        local_port_low: u16::read(s, at + 16),
        local_port_high: u16::read(s, at + 18),
        remote_port_low: u16::read(s, at + 20),
        remote_port_high: u16::read(s, at + 22),
        protocol_low: s[at + 24],
        protocol_high: s[at + 25],
        direction_low: low,
        direction_high: high,
        actions,
    }
}

// The record at a place, in a file of a version. One of version 1 covers both directions.
pub fn read_entry(s: &[u8], at: usize, version: u8) -> Entry
    requires { at + record_size version ≤ length s.now }
    ensures { result ≡ entry_at version s.now at }
{
    if version == 1 {
        return read_with(s, at, 0, 1, u16::read(s, at + 26));
    }
    read_with(s, at, s[at + 26], s[at + 27], u16::read(s, at + 28))
}

// Where record number i of a file starts.
pub fn record_place(file: &[u8], i: usize) -> usize
    requires { place_in file.now i ≤ length file.now }
    ensures { result ≡ place_in file.now i }
{
    HEAD_SIZE + record_size(file[2]) * i
}

// Entry number i of a file.
pub fn entry_in(file: &[u8], i: usize) -> Entry
    requires { place_in file.now (i + 1) ≤ length file.now }
    ensures { result ≡ entry_in file.now i }
{
    read_entry(file, record_place(file, i), file[2])
}

// Its action set: the last two bytes of its record.
pub fn set_in(file: &[u8], i: usize) -> u16
    requires { place_in file.now (i + 1) ≤ length file.now }
    ensures { result ≡ (entry_in file.now i).actions }
{
    let place = record_place(file, i);
    u16::read(file, place + (record_size(file[2]) - 2))
}

// How many whole records there are behind the head of a file.
pub fn records_in(file: &[u8]) -> usize
    ensures { result ≡ records_in file.now }
{
    if file.len() < HEAD_SIZE {
        return 0;
    }
    (file.len() - HEAD_SIZE) / record_size(file[2])
}

// The bytes of an entry's ranges, but for the direction.
pub(crate) fn ranges_of(e: Entry) -> [u8; 26]
    ensures { result ≡ ranges_of e }
{
    let mut bytes = [0; 26];
    e.local_low.put(&mut bytes, 0);
    e.local_high.put(&mut bytes, 4);
    e.remote_low.put(&mut bytes, 8);
    e.remote_high.put(&mut bytes, 12);
    e.local_port_low.put(&mut bytes, 16);
    e.local_port_high.put(&mut bytes, 18);
    e.remote_port_low.put(&mut bytes, 20);
    e.remote_port_high.put(&mut bytes, 22);
    e.protocol_low.put(&mut bytes, 24);
    e.protocol_high.put(&mut bytes, 25);
    bytes
}
