// Reading, writing, comparison and search.
use crate::answer::{compared, counted, numbered, refused, searched};
use crate::input::{BUFFER_LIMIT, Buffer};
use crate::print::{end, end_with};
use compare::files::compare_files;
use gateway::exports::policy_compare;
use policy::sides::SIDES;
use region::search::{Want, search_file};
use std::io;
use wire::list::Entries;
use wire::read::read_list;
use wire::write::write_list;

// Reads a file, and writes the list that was read into a lent buffer.
pub(crate) fn read(rt: &impl Print, file: &[u8], buffer: Buffer) -> io::Result<()> {
    let mut room = [buffer.filling; BUFFER_LIMIT];
    let lent = &mut room[..buffer.size];
    match read_list(file) {
        Ok(list) => counted(rt, write_list(list, lent))?,
        Err(r) => refused(rt, r)?,
    }
    end_with(rt, lent)
}

// Writes a list into a lent buffer.
pub(crate) fn write(rt: &impl Print, list: Entries, buffer: Buffer) -> io::Result<()> {
    let mut room = [buffer.filling; BUFFER_LIMIT];
    let lent = &mut room[..buffer.size];
    counted(rt, write_list(list, lent))?;
    end_with(rt, lent)
}

pub(crate) fn compare(rt: &impl Print, first: &[u8], second: &[u8]) -> io::Result<()> {
    compared(rt, compare_files(first, second))?;
    end(rt)
}

// Comparison as C has it, with a lent buffer.
pub(crate) fn compare_for_c(
    rt: &impl Print,
    first: &[u8],
    second: &[u8],
    buffer: Buffer,
) -> io::Result<()> {
    let mut room = [buffer.filling; BUFFER_LIMIT];
    let lent = &mut room[..buffer.size];
    numbered(rt, policy_compare(first, second, lent))?;
    end_with(rt, lent)
}

pub(crate) fn search(
    rt: &impl Print,
    file: &[u8],
    within: &[u32; SIDES],
    want: Want,
) -> io::Result<()> {
    searched(rt, search_file(file, within, want))?;
    end(rt)
}
