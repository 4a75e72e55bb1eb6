// Headers, boxes, records, lists and tables in the input, at the widths of a record.
ghost use Rattle.std.specs.Prelude.{◌≤◌, length};
ghost use Rattle.replay.specs.declared.value.TheConstants.{TABLE_LIMIT};

use crate::input::Input;
use policy::entry::{Entry, sides_of};
use policy::header::Header;
use policy::sides::SIDES;
use wire::format::LIST_LIMIT;
use wire::list::{EMPTY, Entries};

// A record in the input has a direction, whatever the version of the list.
const RECORD_SIZE: usize = 30;

// The most entries of a table.
pub const TABLE_LIMIT: usize = 512;

// Records, one behind the other.
#[derive(Clone, Copy)]
pub(crate) struct Records<'a> {
    input: Input<'a>,
}

impl Records<'_> {
    // Reads the entries into the first places, as far as there are places. Answers how many there are.
    pub(crate) fn read(mut self, places: &mut [Entry]) -> usize
        ensures { result ≤ length places.new }
    {
        for (i, place) in places.iter_mut().enumerate() {
            let Some(entry) = self.input.entry() else {
                return i;
            };
            *place = entry;
        }
        places.len()
    }
}

// A list of entries to write. Where the count is above 256, there are 256 records.
#[derive(Clone, Copy)]
pub(crate) struct List<'a> {
    version: u8,
    count: usize,
    records: Records<'a>,
}

impl List<'_> {
    pub(crate) fn entries(self) -> Entries {
        let mut entries = [EMPTY; LIST_LIMIT];
        self.records.read(&mut entries);
        Entries {
            version: self.version,
            entries,
            count: self.count,
        }
    }
}

impl<'a> Input<'a> {
    pub(crate) fn header(&mut self) -> Option<Header>
        ensures shorter { length self.new.left.now ≤ length self.old.left.now }
    {
        Some(Header {
            local: self.number4()?,
            remote: self.number4()?,
            local_port: self.number2()?,
            remote_port: self.number2()?,
            protocol: self.number1()?,
            direction: self.number1()?,
        })
    }

    // The start of a record: a box, as an entry that allows nothing.
    fn selector(&mut self) -> Option<Entry>
        ensures shorter { length self.new.left.now ≤ length self.old.left.now }
    {
        Some(Entry {
            local_low: self.number4()?,
            local_high: self.number4()?,
            remote_low: self.number4()?,
            remote_high: self.number4()?,
            local_port_low: self.number2()?,
            local_port_high: self.number2()?,
            remote_port_low: self.number2()?,
            remote_port_high: self.number2()?,
            protocol_low: self.number1()?,
            protocol_high: self.number1()?,
            direction_low: self.number1()?,
            direction_high: self.number1()?,
            actions: 0,
        })
    }

    // The sides of a box.
    pub(crate) fn sides(&mut self) -> Option<[u32; SIDES]>
        ensures shorter { length self.new.left.now ≤ length self.old.left.now }
    {
        Some(sides_of(self.selector()?))
    }

    fn entry(&mut self) -> Option<Entry> {
        let selector = self.selector()?;
        let actions = self.number2()?;
        Some(Entry {
            actions,
            ..selector
        })
    }

    fn records(&mut self, count: usize) -> Option<Records<'a>>
        requires { count ≤ TABLE_LIMIT }
        ensures shorter { length self.new.left.now ≤ length self.old.left.now }
    {
        let left = self.part(RECORD_SIZE * count)?;
        Some(Records {
            input: Input { left },
        })
    }

    pub(crate) fn list(&mut self) -> Option<List<'a>>
        ensures shorter { length self.new.left.now ≤ length self.old.left.now }
    {
        let version = self.number1()?;
        let count = self.number4()? as usize;
        let records = self.records(count.min(LIST_LIMIT))?;
        Some(List {
            version,
            count,
            records,
        })
    }

    pub(crate) fn table(&mut self) -> Option<Records<'a>>
        ensures shorter { length self.new.left.now ≤ length self.old.left.now }
    {
        let count = self.number4()? as usize;
        if TABLE_LIMIT < count {
            return None;
        }
        self.records(count)
    }
}
