// What is left of the input: numbers, bytes and buffers are taken from its front, one after the other. None where it ends before, or where a number is above
// its limit.
ghost use Rattle.std.specs.Prelude.{◌+◌, ◌≤◌, length, IfSome};
ghost use Rattle.replay.specs.declared.input.TheConstants.{BUFFER_LIMIT};

// The longest buffer that is lent.
pub const BUFFER_LIMIT: usize = 16384;

// A buffer that is lent to a call, and the byte that fills it.
#[derive(Clone, Copy)]
pub(crate) struct Buffer {
    pub size: usize,
    pub filling: u8,
    ghost within: { size ≤ BUFFER_LIMIT },
}

#[derive(Clone, Copy)]
pub(crate) struct Input<'a> {
    pub left: &'a [u8],
}

impl<'a> Input<'a> {
    // The first N bytes.
    fn array<const N: usize>(&mut self) -> Option<[u8; N]>
        ensures shorter { length self.new.left.now ≤ length self.old.left.now }
    {
        let (first, left) = self.left.split_first_chunk::<N>()?;
        self.left = left;
        Some(*first)
    }

    // Numbers of 1, 2 and 4 bytes. Each is a line over `array`, or says more than the others, so that one function over the width would be no plainer.
    pub(crate) fn number1(&mut self) -> Option<u8>
        ensures shorter { length self.new.left.now ≤ length self.old.left.now }
        ensures taken { IfSome result (λ _. length self.new.left.now + 1 ≤ length self.old.left.now) }
    {
        let (first, left) = self.left.split_first()?;
        self.left = left;
        Some(*first)
    }

    pub(crate) fn number2(&mut self) -> Option<u16>
        ensures shorter { length self.new.left.now ≤ length self.old.left.now }
    {
        Some(u16::from_be_bytes(self.array()?))
    }

    pub(crate) fn number4(&mut self) -> Option<u32>
        ensures shorter { length self.new.left.now ≤ length self.old.left.now }
    {
        Some(u32::from_be_bytes(self.array()?))
    }

    // The first n bytes.
    pub(crate) fn part(&mut self, n: usize) -> Option<&'a [u8]>
        ensures shorter { length self.new.left.now ≤ length self.old.left.now }
    {
        let (part, left) = self.left.split_at_checked(n)?;
        self.left = left;
        Some(part)
    }

    // Bytes behind their length.
    pub(crate) fn bytes(&mut self) -> Option<&'a [u8]>
        ensures shorter { length self.new.left.now ≤ length self.old.left.now }
    {
        let n = self.number4()?;
        self.part(n as usize)
    }

    pub(crate) fn buffer(&mut self) -> Option<Buffer>
        ensures shorter { length self.new.left.now ≤ length self.old.left.now }
    {
        let size = self.number4()? as usize;
        let filling = self.number1()?;
        if BUFFER_LIMIT < size {
            return None;
        }
        Some(Buffer { size, filling })
    }
}
