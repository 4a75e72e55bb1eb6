// Calls with their arguments. Their numbers, and what follows each, are those of docs/REPLAY.md.
ghost use Rattle.std.specs.Prelude.{◌<◌, ◌≤◌, length, IfSome};

use crate::input::{Buffer, Input};
use crate::value::{List, Records};
use policy::header::Header;
use policy::sides::SIDES;
use region::search::Want;

// The number of an opening.
pub const OPENING: u8 = 0;

#[derive(Clone, Copy)]
pub(crate) enum Call<'a> {
    Open,
    File {
        party: u8,
        list: &'a [u8],
    },
    Withdraw {
        party: u8,
    },
    Merge {
        buffer: Buffer,
    },
    Read {
        file: &'a [u8],
        buffer: Buffer,
    },
    Write {
        list: List<'a>,
        buffer: Buffer,
    },
    LookUpNumber {
        file: &'a [u8],
        header: Header,
    },
    LookUpRecord {
        file: &'a [u8],
        header: Header,
    },
    LookUpTable {
        table: Records<'a>,
        header: Header,
    },
    Compare {
        first: &'a [u8],
        second: &'a [u8],
    },
    Search {
        file: &'a [u8],
        within: [u32; SIDES],
        want: Want,
    },
    Install {
        ranking: &'a [u8],
        buffer: Buffer,
    },
    Trial {
        party: u8,
        list: &'a [u8],
        buffer: Buffer,
    },
    LookUpForC {
        file: &'a [u8],
        header: Header,
    },
    CompareForC {
        first: &'a [u8],
        second: &'a [u8],
        buffer: Buffer,
    },
}

impl<'a> Input<'a> {
    // What is looked for: a byte that says which of the three, and a number.
    fn want(&mut self) -> Option<Want>
        ensures shorter { length self.new.left.now ≤ length self.old.left.now }
    {
        let kind = self.number1()?;
        let number = self.number2()?;
        match kind {
            0 => Some(Want::Uncaught),
            1 => Some(Want::CaughtBy(number as usize)),
            2 => Some(Want::Differs(number)),
            _ => None,
        }
    }

    // The call at the front. None where it is bad.
    pub(crate) fn call(&mut self) -> Option<Call<'a>>
        ensures { IfSome result (λ _. length self.new.left.now < length self.old.left.now) }
    {
        let call = match self.number1()? {
            OPENING => Call::Open,
            1 => Call::File {
                party: self.number1()?,
                list: self.bytes()?,
            },
            2 => Call::Withdraw {
                party: self.number1()?,
            },
            3 => Call::Merge {
                buffer: self.buffer()?,
            },
            4 => Call::Read {
                file: self.bytes()?,
                buffer: self.buffer()?,
            },
            5 => Call::Write {
                list: self.list()?,
                buffer: self.buffer()?,
            },
            6 => Call::LookUpNumber {
                file: self.bytes()?,
                header: self.header()?,
            },
            7 => Call::LookUpRecord {
                file: self.bytes()?,
                header: self.header()?,
            },
            8 => Call::LookUpTable {
                table: self.table()?,
                header: self.header()?,
            },
            9 => Call::Compare {
                first: self.bytes()?,
                second: self.bytes()?,
            },
            10 => Call::Search {
                file: self.bytes()?,
                within: self.sides()?,
                want: self.want()?,
            },
            11 => Call::Install {
                ranking: self.bytes()?,
                buffer: self.buffer()?,
            },
            12 => Call::Trial {
                party: self.number1()?,
                list: self.bytes()?,
                buffer: self.buffer()?,
            },
            19 => Call::LookUpForC {
                file: self.bytes()?,
                header: self.header()?,
            },
            20 => Call::CompareForC {
                first: self.bytes()?,
                second: self.bytes()?,
                buffer: self.buffer()?,
            },
            _ => return None,
        };
        Some(call)
    }
}
