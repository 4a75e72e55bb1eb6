// Reading an input into a lent buffer.
#![tactic(auto)]

ghost use Rattle.std.specs.Prelude.{◌≡◌, ◌≢◌, ◌<◌, ◌≤◌, IfErr, IfOk, length, take};
ghost use Rattle.std.specs.Io.KnownBytes.{Consumes, IsAtEnd};
ghost use Rattle.std.specs.IoError.{error_kind};

use std::io;
use std::io::{ErrorKind, Read};

// One read, made again where a signal interrupts it.
fn read_some<R: Read>(reader: &mut R, buffer: &mut [u8]) -> io::Result<usize>
    ensures within { IfOk result (λ n. n ≤ length buffer.new) }
    ensures bytes { IfOk result (λ n. Consumes (R.remaining reader.old) (R.remaining reader.new) (take n buffer.new)) }
    ensures whole { IfOk result (λ n. n ≡ 0 → 0 < length buffer.new → IsAtEnd (R.remaining reader.new)) }
    ensures retried { IfErr result (λ e. error_kind e ≢ ErrorKind.Interrupted) }
{
    for _ in 0..u64::MAX {
        match reader.read(buffer) {
            Err(e) if e.kind() == ErrorKind::Interrupted => {}
            answer => return answer,
        }
    }
    Err(io::Error::from(ErrorKind::TimedOut))
}

// Reads until the buffer is full or the input ends, and answers how many bytes now stand at the buffer's start.
pub fn read_full<R: Read>(reader: &mut R, buffer: &mut [u8]) -> io::Result<usize>
    ensures within { IfOk result (λ n. n ≤ length buffer.new) }
    ensures bytes { IfOk result (λ n. Consumes (R.remaining reader.old) (R.remaining reader.new) (take n buffer.new)) }
    ensures whole { IfOk result (λ n. n < length buffer.new → IsAtEnd (R.remaining reader.new)) }
    ensures retried { IfErr result (λ e. error_kind e ≢ ErrorKind.Interrupted) }
{
    let mut count = 0;
    while count < buffer.len() {
        let n = read_some(reader, &mut buffer[count..])?;
        if n == 0 {
            break;
        }
        count += n;
    }
    Ok(count)
}

#[cfg(test)]
mod tests {
    use super::*;
    use std::test::Fail;

    // Gives two bytes at a time, and fails once.
    #[derive(Drop)]
    struct Pieces<'a> {
        left: &'a [u8],
        turn: u8,
        failing_turn: u8,
        failure: ErrorKind,
    }

    impl Read for Pieces<'_> {
        fn read(&mut self, buf: &mut [u8]) -> io::Result<usize> {
            self.turn = self.turn.saturating_add(1);
            if self.turn == self.failing_turn {
                return Err(io::Error::from(self.failure));
            }
            let n = buf.len().min(2);
            self.left.read(&mut buf[..n])
        }
    }

    // What the read of a buffer of four bytes answers.
    fn read_four(
        given: &[u8],
        failing_turn: u8,
        failure: ErrorKind,
        buffer: &mut [u8; 4],
    ) -> io::Result<usize> {
        let mut reader = Pieces {
            left: given,
            turn: 0,
            failing_turn,
            failure,
        };
        read_full(&mut reader, buffer)
    }

    #[test]
    fn read_in_pieces(rt: HostRuntime) -> Result<(), Fail> {
        let mut buffer = [9; 4];
        assert_eq!(rt;
            read_four(b"abc", 2, ErrorKind::Interrupted, &mut buffer)?,
            3
        );
        assert_eq!(rt; buffer, [97, 98, 99, 9]);
        assert_eq!(rt;
            read_four(b"vwxyz", 0, ErrorKind::Interrupted, &mut buffer)?,
            4
        );
        assert_eq!(rt; buffer, [118, 119, 120, 121]);
        Ok(())
    }

    #[test]
    fn fails_in_between(rt: HostRuntime) {
        let mut buffer = [9; 4];
        let answer = read_four(b"abc", 2, ErrorKind::TimedOut, &mut buffer);
        assert_eq!(rt; answer.map_err(|e| e.kind()), Err(ErrorKind::TimedOut));
    }
}
