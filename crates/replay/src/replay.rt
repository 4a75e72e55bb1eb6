// A list of calls, each on the bench that the last one left.
use crate::bench_calls::{file, install, merge, open, trial, withdraw};
use crate::call::{Call, OPENING};
use crate::file_calls::{compare, compare_for_c, read, search, write};
use crate::input::Input;
use crate::lookup_calls::{look_up_for_c, look_up_number, look_up_record, look_up_table};
use bench::calls::Bench;
use std::io;

// The most bytes of input.
pub const INPUT_LIMIT: usize = 1048576;

// Makes a call, and writes its line.
fn make(rt: &impl Print, b: &mut Bench, call: Call<'_>) -> io::Result<()> {
    match call {
        Call::Open => open(rt, b),
        Call::File { party, list } => file(rt, b, party, list),
        Call::Withdraw { party } => withdraw(rt, b, party),
        Call::Merge { buffer } => merge(rt, b, buffer),
        Call::Read { file, buffer } => read(rt, file, buffer),
        Call::Write { list, buffer } => write(rt, list.entries(), buffer),
        Call::LookUpNumber { file, header } => look_up_number(rt, file, header),
        Call::LookUpRecord { file, header } => look_up_record(rt, file, header),
        Call::LookUpTable { table, header } => look_up_table(rt, table, header),
        Call::Compare { first, second } => compare(rt, first, second),
        Call::Search { file, within, want } => search(rt, file, &within, want),
        Call::Install { ranking, buffer } => install(rt, b, ranking, buffer),
        Call::Trial {
            party,
            list,
            buffer,
        } => trial(rt, b, party, list, buffer),
        Call::LookUpForC { file, header } => look_up_for_c(rt, file, header),
        Call::CompareForC {
            first,
            second,
            buffer,
        } => compare_for_c(rt, first, second, buffer),
    }
}

fn bad(rt: &impl Print) -> io::Result<()> {
    println!(rt; "bad")
}

// Makes the calls of a list that begins with an opening, up to its end or the first bad one.
fn replay_calls(rt: &impl Print, s: &[u8]) -> io::Result<()> {
    let mut input = Input { left: s };
    let mut bench = Bench::open();
    while !input.left.is_empty() {
        let Some(call) = input.call() else {
            return bad(rt);
        };
        make(rt, &mut bench, call)?;
    }
    Ok(())
}

pub(crate) fn replay(rt: &impl Print, s: &[u8]) -> io::Result<()> {
    match s.first() {
        None => Ok(()),
        Some(&OPENING) if s.len() <= INPUT_LIMIT => replay_calls(rt, s),
        Some(_) => bad(rt),
    }
}
