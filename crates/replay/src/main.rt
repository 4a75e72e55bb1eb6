// Replays calls given on standard input, and writes a line for each: see docs/REPLAY.md.
#![tactic(auto)]

mod answer;
mod bench_calls;
mod call;
mod file_calls;
mod input;
mod lookup_calls;
mod print;
mod replay;
mod value;

use crate::replay::{INPUT_LIMIT, replay};
use intake::read_full;
use std::io;

fn main(rt: HostRuntime) -> io::Result<()> {
    let mut buffer = [0u8; INPUT_LIMIT + 1];
    let count = read_full(&mut rt.stdin(), &mut buffer)?;
    replay(&rt, &buffer[0..count])
}
