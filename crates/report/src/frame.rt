// The records of the input: a party byte, then a file.
ghost use Rattle.std.specs.Prelude.{◌≡◌};
ghost use Rattle.report.specs.Report.{file_run};

use std::cmp::min;
use wire::number::Number;

// How long the file is with which the rest of the input begins: its L + 2 bytes, or all that is left if that is less.
pub(crate) fn file_run(left: &[u8]) -> usize
    ensures { result ≡ file_run left.now }
{
    if left.len() < 2 {
        return left.len();
    }
    min(u16::read(left, 0) as usize + 2, left.len())
}
