// The numbers of the file format; specs/Format.antt has the same names. Nothing above knows how long a record is.
ghost use Rattle.std.specs.Prelude.{◌≡◌, ◌≤◌};
ghost use Rattle.wire.specs.Format.{is_version, list_limit, record_size, file_size};

pub const MERGED_VERSION: u8 = 2;

pub const HEAD_SIZE: usize = 5;

// The bytes of a header's numbers.
pub const HEADER_SIZE: usize = 14;

pub const FILED_LIMIT: usize = 32;

pub const LIST_LIMIT: usize = 256;

// The bytes of a record in a file of version 1, and of version 2.
const RECORD_1: usize = 28;

const RECORD_2: usize = 30;

// The length of the longest filed file, and of the longest file of all.
pub const FILED_SIZE: usize = HEAD_SIZE + RECORD_2 * FILED_LIMIT;

pub const FILE_SIZE: usize = HEAD_SIZE + RECORD_2 * LIST_LIMIT;

// Whether a file may have the version.
pub fn is_version(v: u8) -> bool
    ensures { result ≡ is_version v }
{
    v == 1 || v == 2
}

// The bytes of a record in a file of a version.
pub fn record_size(version: u8) -> usize
    ensures { result ≡ record_size version }
{
    if version == 1 { RECORD_1 } else { RECORD_2 }
}

// How long a file of n entries is.
pub fn file_size(version: u8, n: usize) -> usize
    requires { n ≤ list_limit }
    ensures { result ≡ file_size version n }
{
    HEAD_SIZE + record_size(version) * n
}
