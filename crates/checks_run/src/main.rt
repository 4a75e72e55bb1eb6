// Checks 1 to 4 at their boundaries.
// A line has the case's name, the refusal's number, 0 for none, and the value that the answer carries: the number of entries, or the first crossed entry.
#![tactic(auto)]

ghost use Rattle.std.specs.Prelude.{◌≤◌};

mod answer;
mod file;

use crate::answer::check;
use crate::file::{File, LOCAL, PROTOCOL, RANGES, Range};
use std::io;

// Fewer than 5 bytes, and 5.
fn check_short(rt: &impl Print) -> io::Result<()> {
    let file = File::new(1, 0);
    for n in 0..=5 {
        check(rt, format_args!("lent-{n}"), file.first(n), 256)?;
    }
    Ok(())
}

// L and the bytes lent, one off each way. The file of one entry has 33 bytes.
fn check_lengths(rt: &impl Print) -> io::Result<()> {
    let mut file = File::new(1, 1);
    for n in 32..=34 {
        check(rt, format_args!("lent-{n}-for-33"), file.first(n), 256)?;
    }
    file.set_head(30, 1, 1);
    check(rt, "lent-33-for-32", file.bytes(), 256)?;
    file.set_head(32, 1, 1);
    check(rt, "lent-33-for-34", file.bytes(), 256)
}

fn check_versions(rt: &impl Print) -> io::Result<()> {
    let mut file = File::new(1, 1);
    for (name, version) in [
        ("version-0", 0),
        ("version-1", 1),
        ("version-2-of-28", 2),
        ("version-3", 3),
        ("version-255", 255),
    ] {
        file.set_head(31, version, 1);
        check(rt, name, file.bytes(), 256)?;
    }
    Ok(())
}

// The record of one entry has 28 bytes in version 1, and 30 in version 2.
fn check_record_sizes(rt: &impl Print) -> io::Result<()> {
    let mut file = File::new(2, 1);
    check(rt, "version-2-of-30", file.bytes(), 256)?;
    file.set_head(33, 1, 1);
    check(rt, "version-1-of-30", file.bytes(), 256)
}

// n against its limits, 32 and 256.
fn check_count(rt: &impl Print, n: u16, limit: usize) -> io::Result<()>
    requires { n ≤ 257 }
{
    let file = File::new(1, n);
    let name = format_args!("entries-{n}-of-{limit}");
    check(rt, name, file.bytes(), limit)
}

fn check_counts(rt: &impl Print) -> io::Result<()> {
    check_count(rt, 0, 32)?;
    check_count(rt, 0, 256)?;
    check_count(rt, 1, 32)?;
    for n in [32, 33, 256, 257] {
        check_count(rt, n, 32)?;
        check_count(rt, n, 256)?;
    }
    Ok(())
}

// The same in version 2.
fn check_wide_counts(rt: &impl Print) -> io::Result<()> {
    for (n, limit) in [(32, 32), (33, 32), (256, 256), (257, 256)] {
        let file = File::new(2, n);
        check(rt, format_args!("wide-{n}-of-{limit}"), file.bytes(), limit)?;
    }
    Ok(())
}

// n against L: one entry, with another n.
fn check_other_counts(rt: &impl Print) -> io::Result<()> {
    let mut file = File::new(1, 1);
    for n in [0, 2, 257] {
        file.set_head(31, 1, n);
        check(rt, format_args!("one-record-n-{n}"), file.bytes(), 256)?;
    }
    Ok(())
}

// And with a byte less or more.
fn check_remainders(rt: &impl Print) -> io::Result<()> {
    let mut file = File::new(1, 1);
    file.set_head(30, 1, 1);
    check(rt, "one-record-less-1", file.first(32), 256)?;
    file.set_head(32, 1, 1);
    check(rt, "one-record-more-1", file.first(34), 256)
}

// A range of an entry of three whose low is 1 and high 0.
fn check_crossed(rt: &impl Print, range: Range, which: &str, entry: usize) -> io::Result<()>
    requires { entry ≤ 2 }
{
    let mut file = File::new(1, 3);
    file.set_range(entry, range, 1);
    let name = range.name;
    check(
        rt,
        format_args!("crossed-{name}-{which}"),
        file.bytes(),
        256,
    )
}

fn check_ranges(rt: &impl Print) -> io::Result<()> {
    for range in RANGES {
        check_crossed(rt, range, "first", 0)?;
        check_crossed(rt, range, "last", 2)?;
    }
    Ok(())
}

// The ends of the direction of the last of three entries. An end above 1 counts as crossed, also where the low is at most the high.
fn check_directions(rt: &impl Print) -> io::Result<()> {
    for (low, high) in [
        (0, 0),
        (0, 1),
        (1, 1),
        (1, 0),
        (0, 2),
        (2, 2),
        (2, 1),
        (0, 255),
    ] {
        let mut file = File::new(2, 3);
        file.set_direction(low, high);
        check(
            rt,
            format_args!("direction-{low}-{high}"),
            file.bytes(),
            256,
        )?;
    }
    Ok(())
}

// Every low of the first entry at its high, and then two crossed entries.
fn check_equal(rt: &impl Print) -> io::Result<()> {
    let mut file = File::new(1, 3);
    for range in RANGES {
        file.set_range(0, range, 0);
    }
    check(rt, "equal-ends", file.bytes(), 256)?;
    file.set_range(2, LOCAL, 1);
    file.set_range(1, PROTOCOL, 1);
    check(rt, "crossed-twice", file.bytes(), 256)
}

// Two conditions hold: the earlier one answers.
fn check_order(rt: &impl Print) -> io::Result<()> {
    let mut file = File::new(1, 33);
    file.set_range(0, LOCAL, 1);
    check(rt, "count-and-crossed", file.bytes(), 32)?;
    file.set_head(927, 3, 33);
    check(rt, "version-and-count", file.bytes(), 32)?;
    check(rt, "missized-and-version", file.first(928), 256)
}

fn main(rt: HostRuntime) -> io::Result<()> {
    check_short(&rt)?;
    check_lengths(&rt)?;
    check_versions(&rt)?;
    check_record_sizes(&rt)?;
    check_counts(&rt)?;
    check_wide_counts(&rt)?;
    check_other_counts(&rt)?;
    check_remainders(&rt)?;
    check_ranges(&rt)?;
    check_directions(&rt)?;
    check_equal(&rt)?;
    check_order(&rt)
}
