// Numbers of 1, 2 and 4 bytes in a slice, the highest byte first: read, and put.
ghost use Rattle.std.specs.Prelude.{◌≡◌, ℕ, ◌+◌, ◌≤◌, List, [], ◌∷◌, length, get_or};
ghost use Rattle.std.proofs.Math.Seq.{paste};
ghost use Rattle.wire.specs.Format.{number2, number4, bytes2, bytes4};

use crate::put::paste;

// A number of a fixed count of bytes.
pub trait Number: Copy {
    // How many bytes it has, the number at a place, a value as a number, and its bytes.
    ghost size: { ℕ };

    ghost number_at: { List ℕ → ℕ → ℕ };

    ghost value: { Self → ℕ };

    ghost bytes: { Self → List ℕ };

    // The number at a place.
    fn read(s: &[u8], at: usize) -> Self
        requires { at + size ≤ length s.now }
        ensures { value result ≡ number_at s.now at };

    // Puts it at a place.
    fn put(self, s: &mut [u8], at: usize)
        requires { at + size ≤ length s.old }
        ensures { s.new ≡ paste s.old at (bytes self) size };

    // The same number in 4 bytes.
    fn wide(self) -> u32
        ensures { result ≡ value self };
}

impl Number for u8 {
    ghost size = { 1 };

    ghost number_at = { λ s at. get_or s at 0 };

    ghost value = { λ x. x };

    ghost bytes = { λ x. x ∷ [] };

    fn read(s: &[u8], at: usize) -> u8 {
        s[at]
    }

    fn put(self, s: &mut [u8], at: usize) {
        paste(s, at, &[self]);
    }

    fn wide(self) -> u32 {
        self as u32
    }
}

impl Number for u16 {
    ghost size = { 2 };

    ghost number_at = { number2 };

    ghost value = { λ x. x };

    ghost bytes = { bytes2 };

    fn read(s: &[u8], at: usize) -> u16 {
        u16::from_be_bytes([s[at], s[at + 1]])
    }

    fn put(self, s: &mut [u8], at: usize) {
        paste(s, at, &self.to_be_bytes());
    }

    fn wide(self) -> u32 {
        self as u32
    }
}

impl Number for u32 {
    ghost size = { 4 };

    ghost number_at = { number4 };

    ghost value = { λ x. x };

    ghost bytes = { bytes4 };

    fn read(s: &[u8], at: usize) -> u32 {
        u32::from_be_bytes([s[at], s[at + 1], s[at + 2], s[at + 3]])
    }

    fn put(self, s: &mut [u8], at: usize) {
        paste(s, at, &self.to_be_bytes());
    }

    fn wide(self) -> u32 {
        self
    }
}
