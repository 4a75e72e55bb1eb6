// The starts of lines: what was answered.
use crate::print::print_header;
use compare::files::RefusedFile;
use policy::header::Header;
use policy::refusal::Refusal;
use reconcile::ending::Merged;
use region::search::FoundHeader;
use std::io;

pub(crate) fn accepted(rt: &impl Print) -> io::Result<()> {
    print!(rt; "ok")
}

// The number that C gets.
pub(crate) fn numbered(rt: &impl Print, n: u32) -> io::Result<()> {
    print!(rt; "ok {n}")
}

// A refusal's number and what it carries.
fn print_refusal(rt: &impl Print, r: Refusal) -> io::Result<()> {
    print!(rt; " {}", r.number())?;
    match r {
        Refusal::Crossed(i) => print!(rt; " {i}"),
        Refusal::Gap(h) => print_header(rt, h),
        Refusal::Conflict(h) => print_header(rt, h),
        Refusal::Narrow(n) => print!(rt; " {n}"),
        _ => Ok(()),
    }
}

pub(crate) fn refused(rt: &impl Print, r: Refusal) -> io::Result<()> {
    print!(rt; "no")?;
    print_refusal(rt, r)
}

// How many entries were filed, or bytes written.
pub(crate) fn counted(rt: &impl Print, answer: Result<usize, Refusal>) -> io::Result<()> {
    match answer {
        Ok(n) => print!(rt; "ok {n}"),
        Err(r) => refused(rt, r),
    }
}

pub(crate) fn withdrawn(rt: &impl Print, answer: Result<(), Refusal>) -> io::Result<()> {
    match answer {
        Ok(()) => accepted(rt),
        Err(r) => refused(rt, r),
    }
}

// The entries that a conflict names, of party 1 on.
fn print_named(rt: &impl Print, named: [Option<usize>; 8]) -> io::Result<()> {
    for (i, entry) in named.iter().enumerate() {
        if let Some(entry) = *entry {
            print!(rt; " {} {entry}", i + 1)?;
        }
    }
    Ok(())
}

pub(crate) fn merged(
    rt: &impl Print,
    answer: Result<Merged, Refusal>,
    named: [Option<usize>; 8],
) -> io::Result<()> {
    match answer {
        Ok(merged) => print!(rt; "ok {} {}", merged.count, merged.length)?,
        Err(r) => refused(rt, r)?,
    }
    print_named(rt, named)
}

// An entry's number, nothing for uncaught.
fn print_caught(rt: &impl Print, entry: Option<usize>) -> io::Result<()> {
    match entry {
        Some(i) => print!(rt; " {i}"),
        None => Ok(()),
    }
}

pub(crate) fn caught(rt: &impl Print, entry: Option<usize>) -> io::Result<()> {
    accepted(rt)?;
    print_caught(rt, entry)
}

pub(crate) fn looked_up(rt: &impl Print, answer: Result<Option<usize>, Refusal>) -> io::Result<()> {
    match answer {
        Ok(entry) => caught(rt, entry),
        Err(r) => refused(rt, r),
    }
}

// A refusal of the first or the second file.
fn refused_file(rt: &impl Print, file: u8, r: Refusal) -> io::Result<()> {
    print!(rt; "no {file}")?;
    print_refusal(rt, r)
}

pub(crate) fn compared(
    rt: &impl Print,
    answer: Result<Option<Header>, RefusedFile>,
) -> io::Result<()> {
    match answer {
        Ok(None) => accepted(rt),
        Ok(Some(h)) => {
            accepted(rt)?;
            print_header(rt, h)
        }
        Err(RefusedFile::First(r)) => refused_file(rt, 1, r),
        Err(RefusedFile::Second(r)) => refused_file(rt, 2, r),
    }
}

pub(crate) fn searched(
    rt: &impl Print,
    answer: Result<Option<FoundHeader>, Refusal>,
) -> io::Result<()> {
    match answer {
        Ok(None) => accepted(rt),
        Ok(Some(found)) => {
            accepted(rt)?;
            print_header(rt, found.header)?;
            print_caught(rt, found.entry)
        }
        Err(r) => refused(rt, r),
    }
}
