// Lookups.
ghost use Rattle.std.specs.Prelude.{◌≡◌, ◌≤◌, take};
ghost use Rattle.lookup.specs.Lookup.{caught_answer, table_lookup_of};
ghost use Rattle.replay.specs.declared.value.TheConstants.{TABLE_LIMIT};

use crate::answer::{caught, looked_up, numbered};
use crate::print::{end, end_with};
use crate::value::{Records, TABLE_LIMIT};
use gateway::exports::policy_lookup;
use lookup::file::{lookup_number, lookup_record};
use lookup::table::lookup_table;
use policy::entry::Entry;
use policy::header::Header;
use std::io;
use wire::list::EMPTY;

// The entry's number.
pub(crate) fn look_up_number(rt: &impl Print, file: &[u8], h: Header) -> io::Result<()> {
    looked_up(rt, lookup_number(file, h))?;
    end(rt)
}

// The length and the bytes of the record's part.
pub(crate) fn look_up_record(rt: &impl Print, file: &[u8], h: Header) -> io::Result<()> {
    let part = lookup_record(file, h);
    print!(rt; "ok {}", part.len())?;
    end_with(rt, part)
}

// The answer of a lookup in a table of the first n entries.
fn look_up(entries: &[Entry; TABLE_LIMIT], n: usize, h: Header) -> Option<usize>
    requires { n ≤ TABLE_LIMIT }
    ensures { caught_answer result ≡ table_lookup_of (take n entries.now) h }
{
    lookup_table(&entries[..n], h)
}

// In a table.
pub(crate) fn look_up_table(rt: &impl Print, table: Records<'_>, h: Header) -> io::Result<()> {
    let mut entries = [EMPTY; TABLE_LIMIT];
    let count = table.read(&mut entries);
    caught(rt, look_up(&entries, count, h))?;
    end(rt)
}

// As C has it.
pub(crate) fn look_up_for_c(rt: &impl Print, file: &[u8], h: Header) -> io::Result<()> {
    let number = policy_lookup(
        file,
        h.local,
        h.remote,
        h.local_port,
        h.remote_port,
        h.protocol,
        h.direction,
    );
    numbered(rt, number)?;
    end(rt)
}
