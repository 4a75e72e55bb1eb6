// Lookups in good files, of combinations that are no headers too, and in damaged files: a line for each, with the answer and the bytes of the record that is handed back.
#![tactic(auto)]

mod answer;
mod files;

use crate::answer::look_up;
use crate::files::{CROSSED, EVERYTHING, OUTBOUND, WEB_FIRST};
use policy::header::Header;
use std::io;

const ZEROS: Header = Header {
    local: 0,
    remote: 0,
    local_port: 0,
    remote_port: 0,
    protocol: 0,
    direction: 0,
};

// An inbound header of addresses 0.
fn inbound(local_port: u16, remote_port: u16, protocol: u8) -> Header {
    Header {
        local_port,
        remote_port,
        protocol,
        ..ZEROS
    }
}

fn examples(rt: &impl Print) -> io::Result<()> {
    look_up(rt, &EVERYTHING, ZEROS)?;
    for local_port in [80, 79, 81] {
        look_up(rt, &WEB_FIRST, inbound(local_port, 0, 6))?;
    }
    let last = Header {
        local: u32::MAX,
        remote: u32::MAX,
        ..inbound(80, 65535, 6)
    };
    look_up(rt, &WEB_FIRST, last)?;
    look_up(rt, &WEB_FIRST, inbound(80, 0, 17))?;
    look_up(rt, &WEB_FIRST, inbound(80, 0, 7))?;
    look_up(rt, &WEB_FIRST, inbound(0, 1, 7))?;
    look_up(rt, &WEB_FIRST, inbound(0, 0, 7))?;
    look_up(rt, &CROSSED, inbound(0, 0, 5))?;
    let mut good = CROSSED;
    good[30] = 5;
    for protocol in 4..=6 {
        look_up(rt, &good, inbound(0, 0, protocol))?;
    }
    Ok(())
}

// A file of version 1 covers both directions; one of version 2 here the outbound one; with a direction of 0 to 2 it is crossed.
// 2 is no direction.
fn directions(rt: &impl Print) -> io::Result<()> {
    for direction in 0..=2 {
        look_up(rt, &EVERYTHING, Header { direction, ..ZEROS })?;
    }
    for direction in 0..=2 {
        look_up(rt, &OUTBOUND, Header { direction, ..ZEROS })?;
    }
    let mut beyond = OUTBOUND;
    beyond[31] = 0;
    beyond[32] = 2;
    let outward = Header {
        direction: 1,
        ..ZEROS
    };
    look_up(rt, &beyond, outward)
}

// A file with its second entry crossed, asked for a header and for a combination that is none.
fn crossed(rt: &impl Print) -> io::Result<()> {
    let mut file = WEB_FIRST;
    file[57] = 255;
    file[58] = 254;
    look_up(rt, &file, inbound(80, 0, 6))?;
    look_up(rt, &file, inbound(80, 0, 7))
}

// Nothing; 4 bytes; a byte too few and too many.
fn missized(rt: &impl Print) -> io::Result<()> {
    for n in [0, 4, 32] {
        look_up(rt, &EVERYTHING[..n], ZEROS)?;
    }
    let mut longer = [0; 34];
    longer[..33].copy_from_slice(&EVERYTHING);
    look_up(rt, &longer, ZEROS)
}

// Another version.
fn other_version(rt: &impl Print) -> io::Result<()> {
    let mut file = EVERYTHING;
    file[2] = 3;
    look_up(rt, &file, ZEROS)
}

// Counts 0, without a record, 2 and 257.
fn other_counts(rt: &impl Print) -> io::Result<()> {
    look_up(rt, &[0, 3, 1, 0, 0], ZEROS)?;
    for count in [2u16, 257] {
        let mut file = EVERYTHING;
        file[3..5].copy_from_slice(&count.to_be_bytes());
        look_up(rt, &file, ZEROS)?;
    }
    Ok(())
}

fn main(rt: HostRuntime) -> io::Result<()> {
    examples(&rt)?;
    directions(&rt)?;
    crossed(&rt)?;
    missized(&rt)?;
    other_version(&rt)?;
    other_counts(&rt)
}
