// A header's numbers as bytes.
ghost use Rattle.std.specs.Prelude.{◌≡◌};
ghost use Rattle.policy.specs.Refusals.{numbers};
ghost use Rattle.wire.specs.Format.{header_bytes, header_put};

use crate::format::HEADER_SIZE;
use crate::number::Number;
use crate::put::paste;
use policy::header::Header;

// The numbers of h, the highest byte of each first.
pub fn header_bytes(h: Header) -> [u8; HEADER_SIZE]
    ensures { result ≡ header_bytes (numbers h) }
{
    let mut bytes = [0; HEADER_SIZE];
    h.local.put(&mut bytes, 0);
    h.remote.put(&mut bytes, 4);
    h.local_port.put(&mut bytes, 8);
    h.remote_port.put(&mut bytes, 10);
    h.protocol.put(&mut bytes, 12);
    h.direction.put(&mut bytes, 13);
    bytes
}

// Puts the header at the start of the buffer, if it has room.
pub fn put_header(buffer: &mut [u8], h: Header)
    ensures { buffer.new ≡ header_put (numbers h) buffer.old }
{
    if HEADER_SIZE <= buffer.len() {
        paste(buffer, 0, &header_bytes(h));
    }
}
