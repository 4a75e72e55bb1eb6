// The program on each input of data/, one after the other.
#![tactic(auto)]

use std::fs::File;
use std::io;
use std::rt::Files;

fn run_file<R: Files + Print>(rt: &R, path: &str) -> io::Result<()> {
    let mut file = File::open(rt, path)?;
    program::run(&mut file, &mut io::writer(rt))
}

fn main(rt: HostRuntime) -> io::Result<()> {
    // No list is in force.
    run_file(&rt, "empty")?;
    // 15 single local ports then ALL, against 15 single remote ports then ALL: 256 entries, none of which can be struck.
    run_file(&rt, "full")?;
    // 16 single local ports: 272 entries.
    run_file(&rt, "crowded")?;
    // A record for each refusal of a filing, then two lists in conflict.
    run_file(&rt, "refused")?;
    // 65,537 bytes.
    run_file(&rt, "long")
}
