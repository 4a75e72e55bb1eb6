// The program, from a reader to a writer.
#![tactic(auto)]

ghost use Rattle.std.specs.Prelude.{◌≡◌, ◌+◌, ◌≤◌, ℕ, IfSome, OnErr, OnOk, length, take};
ghost use Rattle.std.specs.Io.KnownBytes.{Appends, WriteAppends};
ghost use Rattle.std.specs.Io.{WritesAtMost};
ghost use Rattle.report.specs.Report.{report_of};

use intake::read_full;
use report::{INPUT_LIMIT, REPORT_SIZE};
use std::io;
use std::io::{ErrorKind, Read, Write};

// One write, made again where a signal interrupts it.
fn write_some<W: Write>(writer: &mut W, text: &[u8]) -> io::Result<usize>
    ensures bound { WritesAtMost result text.now }
    ensures bytes { WriteAppends (W.contents writer.old) (W.contents writer.new) result text.now }
{
    for _ in 0..u64::MAX {
        match writer.write(text) {
            Err(e) if e.kind() == ErrorKind::Interrupted => {}
            answer => return answer,
        }
    }
    Err(io::Error::from(ErrorKind::TimedOut))
}

// Writes the report of an input; some front of it, where a write fails.
fn write_report<W: Write>(writer: &mut W, input: &[u8], text: &[u8]) -> io::Result<()>
    requires { text.now ≡ report_of input.now }
    ensures ok { OnOk result (Appends (W.contents writer.old) (W.contents writer.new) (report_of input.now)) }
    ensures err { OnErr result ((n : ℕ) × Appends (W.contents writer.old) (W.contents writer.new) (take n (report_of input.now))) }
{
    let mut left = text;
    while !left.is_empty() {
        let n = write_some(writer, left)?;
        if n == 0 {
            return Err(io::Error::from(ErrorKind::WriteZero));
        }
        left = &left[n..];
    }
    Ok(())
}

// Reads into one lent buffer, makes the report in the other, and writes it.
fn run_in<R: Read, W: Write>(
    reader: &mut R,
    writer: &mut W,
    buffer: &mut [u8],
    out: &mut [u8],
) -> io::Result<()>
    requires past_limit { length buffer.old ≡ INPUT_LIMIT + 1 }
    requires room { REPORT_SIZE ≤ length out.old }
    ensures ok { OnOk result (IfSome (R.remaining reader.old)
        (λ input. Appends (W.contents writer.old) (W.contents writer.new) (report_of input))) }
    ensures err { OnErr result (IfSome (R.remaining reader.old)
        (λ input. (n : ℕ) × Appends (W.contents writer.old) (W.contents writer.new) (take n (report_of input)))) }
{
    let count = read_full(reader, buffer)?;
    let input = &buffer[0..count];
    let length = report::report(input, out);
    write_report(writer, input, &out[0..length])
}

// Reads one byte past the limit at most, and writes the report of all that the reader has; nothing, where a read fails, and some front of it, where a write does. No contract says what standard input or a file gives: the clause is
// for readers and writers whose bytes are known.
pub fn run<R: Read, W: Write>(reader: &mut R, writer: &mut W) -> io::Result<()>
    ensures ok { OnOk result (IfSome (R.remaining reader.old)
        (λ input. Appends (W.contents writer.old) (W.contents writer.new) (report_of input))) }
    ensures err { OnErr result (IfSome (R.remaining reader.old)
        (λ input. (n : ℕ) × Appends (W.contents writer.old) (W.contents writer.new) (take n (report_of input)))) }
{
    let mut buffer = [0u8; INPUT_LIMIT + 1];
    let mut out = [0u8; REPORT_SIZE];
    run_in(reader, writer, &mut buffer, &mut out)
}

#[cfg(test)]
mod tests {
    use super::*;
    use std::io::ErrorKind;
    use std::test::Fail;

    // Gives its bytes, and fails behind them.
    #[derive(Drop)]
    struct CutOff<'a> {
        left: &'a [u8],
    }

    impl Read for CutOff<'_> {
        fn read(&mut self, buf: &mut [u8]) -> io::Result<usize> {
            if self.left.is_empty() {
                return Err(io::Error::from(ErrorKind::ConnectionReset));
            }
            self.left.read(buf)
        }
    }

    // Takes nothing.
    #[derive(Drop)]
    struct Full;

    impl Write for Full {
        fn write(&mut self, _buf: &[u8]) -> io::Result<usize> {
            Err(io::Error::from(ErrorKind::StorageFull))
        }

        fn flush(&mut self) -> io::Result<()> {
            Ok(())
        }
    }

    #[test]
    fn report_of_nothing(rt: HostRuntime) -> Result<(), Fail> {
        let mut written = Vec::new(rt.alloc());
        run(&mut b"".as_slice(), &mut written)?;
        assert_eq!(rt; written.as_slice(), b"refused 0 8\n".as_slice());
        Ok(())
    }

    #[test]
    fn nothing_after_a_failed_read(rt: HostRuntime) {
        let mut written = Vec::new(rt.alloc());
        let answer = run(&mut CutOff { left: b"\x01\x00" }, &mut written);
        assert_eq!(rt;
            answer.map_err(|e| e.kind()),
            Err(ErrorKind::ConnectionReset)
        );
        assert!(rt; written.is_empty());
    }

    #[test]
    fn failed_write(rt: HostRuntime) {
        let answer = run(&mut b"".as_slice(), &mut Full);
        assert_eq!(rt; answer.map_err(|e| e.kind()), Err(ErrorKind::StorageFull));
    }
}
