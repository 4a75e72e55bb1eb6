// Demand 2's round trips, a short list of calls and installs, on small files of both versions. A line has what was answered, and whether the bytes are the file's own.
#![tactic(auto)]

use bench::calls::Bench;
use bench::round_trips::{reread_list, rewrite_file};
use bench::sequence::file_twice_and_merge;
use policy::refusal::Refusal;
use reconcile::ending::Merged;
use std::io;
use wire::list::Entries;
use wire::read::read_list;
use wire::write::write_list;

// ALL {discard, bypass}.
const EVERYTHING: [u8; 33] = [
    0, 31, 1, 0, 1, 0, 0, 0, 0, 255, 255, 255, 255, 0, 0, 0, 0, 255, 255, 255, 255, 0, 0, 255, 255,
    0, 0, 255, 255, 0, 255, 0, 3,
];

// Local port 80 with protocol 6 {bypass}; ALL {discard}.
const WEB_FIRST: [u8; 61] = [
    0, 59, 1, 0, 2, 0, 0, 0, 0, 255, 255, 255, 255, 0, 0, 0, 0, 255, 255, 255, 255, 0, 80, 0, 80,
    0, 0, 255, 255, 6, 6, 0, 2, 0, 0, 0, 0, 255, 255, 255, 255, 0, 0, 0, 0, 255, 255, 255, 255, 0,
    0, 255, 255, 0, 0, 255, 255, 0, 255, 0, 1,
];

// The same in version 2, for both directions: what merging and installing write.
const WEB_FIRST_2: [u8; 65] = [
    0, 63, 2, 0, 2, 0, 0, 0, 0, 255, 255, 255, 255, 0, 0, 0, 0, 255, 255, 255, 255, 0, 80, 0, 80,
    0, 0, 255, 255, 6, 6, 0, 1, 0, 2, 0, 0, 0, 0, 255, 255, 255, 255, 0, 0, 0, 0, 255, 255, 255,
    255, 0, 0, 255, 255, 0, 0, 255, 255, 0, 255, 0, 1, 0, 1,
];

// Ends a line: whether the bytes are the file's own.
fn print_same(rt: &impl Print, same: bool) -> io::Result<()> {
    if same {
        println!(rt; " same")
    } else {
        println!(rt; " other")
    }
}

// A file is written again in its version.
fn rewrite(rt: &impl Print, file: &[u8]) -> io::Result<()> {
    let mut buffer = [7; 65];
    print!(rt; "rewritten")?;
    match rewrite_file(file, &mut buffer) {
        Ok(n) => print!(rt; " {n}")?,
        Err(_) => print!(rt; " refused")?,
    }
    print_same(rt, buffer.starts_with(file))
}

// The list that is read again is written once more, to be seen.
fn reread(rt: &impl Print, file: &[u8]) -> io::Result<()> {
    let mut buffer = [7; 65];
    let mut out = [7; 65];
    print!(rt; "read again")?;
    match read_again(file, &mut buffer) {
        Ok(again) => {
            print!(rt; " {}", again.count)?;
            let _ = write_list(again, &mut out);
        }
        Err(_) => print!(rt; " refused")?,
    }
    print_same(rt, out.starts_with(file))
}

// A file's list, written and read again.
fn read_again(file: &[u8], buffer: &mut [u8]) -> Result<Entries, Refusal> {
    let list = read_list(file)?;
    reread_list(list, buffer)
}

// How many entries and bytes were written, if any.
fn print_merge_answer(rt: &impl Print, answer: Result<Merged, Refusal>) -> io::Result<()> {
    match answer {
        Ok(merged) => print!(rt; " {} {}", merged.count, merged.length),
        Err(_) => print!(rt; " refused"),
    }
}

// Party 1's list is withdrawn, so party 2's is merged alone; none of its entries can be struck. The file is of version 2.
fn merge(rt: &impl Print) -> io::Result<()> {
    let mut out = [7; 65];
    let m = file_twice_and_merge(&EVERYTHING, &WEB_FIRST, &mut out);
    print!(rt; "merged")?;
    print_merge_answer(rt, m.answer)?;
    print_same(rt, out == WEB_FIRST_2)
}

// The list of one party allows bypass for local port 80 with protocol 6, and for all else both discard and bypass. Where discard is best, the second file is
// installed; where bypass is, the last entry of the two allows all headers that, and is left alone.
fn install(rt: &impl Print, best: u8, next: u8) -> io::Result<()> {
    let mut file = WEB_FIRST;
    file[60] = 3;
    let ranking = [best, next, 2, 3, 4, 5, 6, 7, 8, 9, 10, 11, 12, 13, 14, 15];
    let mut out = [7; 65];
    let bench = Bench::open().file(1, &file).bench;
    let m = bench.install(&ranking, &mut out);
    print!(rt; "installed")?;
    print_merge_answer(rt, m.answer)?;
    print_same(rt, out == WEB_FIRST_2)
}

fn main(rt: HostRuntime) -> io::Result<()> {
    rewrite(&rt, &WEB_FIRST)?;
    rewrite(&rt, &WEB_FIRST_2)?;
    reread(&rt, &WEB_FIRST)?;
    reread(&rt, &WEB_FIRST_2)?;
    merge(&rt)?;
    install(&rt, 0, 1)?;
    install(&rt, 1, 0)?;
    install(&rt, 0, 0)
}
