// A lookup's line: the answer, and the bytes of the record that is handed back.
use lookup::file::{lookup_number, lookup_record};
use policy::header::Header;
use policy::refusal::Refusal;
use std::{fmt, io};

// Bytes in hexadecimal.
#[derive(Clone, Copy)]
struct Hexadecimal<'a>(&'a [u8]);

impl fmt::Display for Hexadecimal<'_> {
    fn fmt<W: fmt::Write>(&self, f: &mut fmt::Formatter<W>) -> fmt::Result {
        for b in self.0 {
            write!(f, "{b:02x}")?;
        }
        Ok(())
    }
}

fn print_refusal(rt: &impl Print, r: Refusal) -> io::Result<()> {
    match r {
        Refusal::Missized => print!(rt; "missized"),
        Refusal::Version => print!(rt; "version"),
        Refusal::Count => print!(rt; "count"),
        Refusal::Crossed(i) => print!(rt; "crossed {i}"),
        _ => print!(rt; "another refusal"),
    }
}

fn print_answer(rt: &impl Print, answer: Result<Option<usize>, Refusal>) -> io::Result<()> {
    match answer {
        Ok(Some(i)) => print!(rt; "entry {i}"),
        Ok(None) => print!(rt; "uncaught"),
        Err(r) => print_refusal(rt, r),
    }
}

pub(crate) fn look_up(rt: &impl Print, file: &[u8], h: Header) -> io::Result<()> {
    print_answer(rt, lookup_number(file, h))?;
    println!(rt; ":{}", Hexadecimal(lookup_record(file, h)))
}
