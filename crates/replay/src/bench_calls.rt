// The calls on the bench.
use crate::answer::{accepted, counted, merged, withdrawn};
use crate::input::{BUFFER_LIMIT, Buffer};
use crate::print::{end, end_with};
use bench::calls::{Bench, MergeResult};
use std::io;

pub(crate) fn open(rt: &impl Print, bench: &mut Bench) -> io::Result<()> {
    *bench = Bench::open();
    accepted(rt)?;
    end(rt)
}

pub(crate) fn file(rt: &impl Print, bench: &mut Bench, party: u8, list: &[u8]) -> io::Result<()> {
    let r = bench.file(party, list);
    *bench = r.bench;
    counted(rt, r.answer)?;
    end(rt)
}

pub(crate) fn withdraw(rt: &impl Print, bench: &mut Bench, party: u8) -> io::Result<()> {
    let r = bench.withdraw(party);
    *bench = r.bench;
    withdrawn(rt, r.answer)?;
    end(rt)
}

// Keeps the bench, and writes the line of a merging, an installing or a trial into a lent buffer.
fn finish(rt: &impl Print, bench: &mut Bench, r: MergeResult, lent: &[u8]) -> io::Result<()> {
    *bench = r.bench;
    merged(rt, r.answer, r.named)?;
    end_with(rt, lent)
}

pub(crate) fn merge(rt: &impl Print, bench: &mut Bench, buffer: Buffer) -> io::Result<()> {
    let mut room = [buffer.filling; BUFFER_LIMIT];
    let lent = &mut room[..buffer.size];
    let r = bench.merge(lent);
    finish(rt, bench, r, lent)
}

pub(crate) fn install(
    rt: &impl Print,
    bench: &mut Bench,
    ranking: &[u8],
    buffer: Buffer,
) -> io::Result<()> {
    let mut room = [buffer.filling; BUFFER_LIMIT];
    let lent = &mut room[..buffer.size];
    let r = bench.install(ranking, lent);
    finish(rt, bench, r, lent)
}

pub(crate) fn trial(
    rt: &impl Print,
    bench: &mut Bench,
    party: u8,
    list: &[u8],
    buffer: Buffer,
) -> io::Result<()> {
    let mut room = [buffer.filling; BUFFER_LIMIT];
    let lent = &mut room[..buffer.size];
    let r = bench.trial(party, list, lent);
    finish(rt, bench, r, lent)
}
