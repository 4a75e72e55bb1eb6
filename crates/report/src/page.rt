// Text put into a lent buffer, as much of it as there is room for.
ghost use Rattle.std.specs.Prelude.{◌≡◌, ◌≤◌, ◌<◌, length};
ghost use Rattle.report.specs.Text.{digit as digitOf};

// The buffer, and the place behind what was put, where the next text goes.
#[derive(Drop)]
pub(crate) struct Page<'a> {
    pub(crate) out: &'a mut [u8],
    pub(crate) at: usize,
    ghost inside: { at ≤ length out.now },
}

// The byte of a digit.
fn digit(d: u8) -> u8
    requires { d < 16 }
    ensures { result ≡ digitOf d }
{
    b"0123456789abcdef"[d as usize]
}

impl Page<'_> {
    ghost use Rattle.std.specs.Prelude.{[], ◌∷◌};
    ghost use Rattle.report.specs.Text.{decimal, hex};
    ghost use Rattle.report.specs.steps.Puts.{Puts};

    fn put_byte(&mut self, b: u8)
        ensures { Puts self.old self.new (b ∷ []) }
    {
        if self.at < self.out.len() {
            self.out[self.at] = b;
            self.at += 1;
        }
    }

    pub(crate) fn put(&mut self, s: &[u8])
        ensures { Puts self.old self.new s.now }
    {
        for b in s {
            self.put_byte(*b);
        }
    }

    // A number in decimal.
    pub(crate) fn put_decimal(&mut self, n: usize)
        ensures { Puts self.old self.new (decimal n) }
    {
        if n >= 10 {
            self.put_decimal(n / 10);
        }
        self.put_byte(digit((n % 10) as u8));
    }

    // Each byte of s as two hexadecimal digits.
    pub(crate) fn put_hex(&mut self, s: &[u8])
        ensures { Puts self.old self.new (hex s.now) }
    {
        for b in s {
            self.put_byte(digit(b / 16));
            self.put_byte(digit(b % 16));
        }
    }
}
