// The policy list merger: standard input to standard output.
#![tactic(auto)]

use std::io;

fn main(rt: HostRuntime) -> io::Result<()> {
    program::run(&mut rt.stdin(), &mut rt.stdout())
}
