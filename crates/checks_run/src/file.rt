// The files that are checked.
ghost use Rattle.std.specs.Prelude.{◌+◌, ◌*◌, ◌<◌, ◌≤◌};
ghost use Rattle.checks_run.specs.declared.file.TheConstants.{ROOM};

// The length of the longest file, of 257 entries of version 2.
pub const ROOM: usize = 7715;

const HEAD_SIZE: usize = 5;

// The record of every header, with discard, in version 1; in version 2 it has a direction, 0 to 1, before the action set.
const RECORD_1: [u8; 28] = [
    0, 0, 0, 0, 255, 255, 255, 255, 0, 0, 0, 0, 255, 255, 255, 255, 0, 0, 255, 255, 0, 0, 255, 255,
    0, 255, 0, 1,
];

const RECORD_2: [u8; 30] = [
    0, 0, 0, 0, 255, 255, 255, 255, 0, 0, 0, 0, 255, 255, 255, 255, 0, 0, 255, 255, 0, 0, 255, 255,
    0, 255, 0, 1, 0, 1,
];

// A range in a record: where it starts, and the bytes of each of its ends.
#[derive(Clone, Copy)]
pub(crate) struct Range {
    pub name: &'static str,
    pub at: usize,
    pub width: usize,
    ghost some: { 0 < width },
    ghost inside: { at + 2 * width ≤ 26 },
}

pub(crate) const LOCAL: Range = Range {
    name: "local",
    at: 0,
    width: 4,
};

const REMOTE: Range = Range {
    name: "remote",
    at: 8,
    width: 4,
};

const LOCAL_PORT: Range = Range {
    name: "local-port",
    at: 16,
    width: 2,
};

const REMOTE_PORT: Range = Range {
    name: "remote-port",
    at: 20,
    width: 2,
};

pub(crate) const PROTOCOL: Range = Range {
    name: "protocol",
    at: 24,
    width: 1,
};

pub(crate) const RANGES: [Range; 5] = [LOCAL, REMOTE, LOCAL_PORT, REMOTE_PORT, PROTOCOL];

// A file, which is changed in some places.
#[derive(Clone, Copy)]
pub(crate) struct File {
    bytes: [u8; ROOM],
    size: usize,
    ghost within: { size ≤ ROOM },
}

impl File {
    // A good file of a version.
    pub(crate) fn new(version: u8, count: u16) -> File
        requires { count ≤ 257 }
    {
        let record: &[u8] = if version == 1 { &RECORD_1 } else { &RECORD_2 };
        let size = HEAD_SIZE + record.len() * count as usize;
        let mut bytes = [0; ROOM];
        for place in bytes[HEAD_SIZE..size].chunks_exact_mut(record.len()) {
            place.copy_from_slice(record);
        }
        let mut file = File { bytes, size };
        file.set_head((size - 2) as u16, version, count);
        file
    }

    // The head: L, the version and n.
    pub(crate) fn set_head(&mut self, length: u16, version: u8, count: u16) {
        self.bytes[0..2].copy_from_slice(&length.to_be_bytes());
        self.bytes[2] = version;
        self.bytes[3..5].copy_from_slice(&count.to_be_bytes());
    }

    // In an entry of a file of version 1, the high of a range to 0 and its low, 0 before, to a number.
    pub(crate) fn set_range(&mut self, entry: usize, range: Range, low: u8)
        requires { entry ≤ 2 }
    {
        let high = HEAD_SIZE + RECORD_1.len() * entry + range.at + range.width;
        self.bytes[high..high + range.width].fill(0);
        self.bytes[high - 1] = low;
    }

    // The ends of the direction of the third entry of a file of version 2.
    pub(crate) fn set_direction(&mut self, low: u8, high: u8) {
        let at = HEAD_SIZE + RECORD_2.len() * 2 + 26;
        self.bytes[at..at + 2].copy_from_slice(&[low, high]);
    }

    // The bytes of the file.
    pub(crate) fn bytes(&self) -> &[u8] {
        &self.bytes[..self.size]
    }

    // The first n bytes, where a part of the file is lent, or more than the file.
    pub(crate) fn first(&self, n: usize) -> &[u8]
        requires { n ≤ ROOM }
    {
        &self.bytes[..n]
    }
}
