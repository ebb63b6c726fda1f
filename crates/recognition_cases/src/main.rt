// Runs the cases for one sector of the recognition sequence. Each line has its first bytes and what it is.
#![tactic(auto)]

use descriptors::recognition::{Structure, structure_of};
use programs::shown::Hex;
use std::io;

fn name_of(s: Structure) -> &'static str {
    match s {
        Structure::Beginning => "beginning",
        Structure::Nsr => "nsr",
        Structure::Terminating => "terminating",
        Structure::Other => "other",
        Structure::Unknown => "unknown",
    }
}

fn sector(rt: &impl Print, s: &[u8]) -> io::Result<()> {
    println!(rt; "sector{}: {}", Hex(s), name_of(structure_of(s)))
}

fn known(rt: &impl Print) -> io::Result<()> {
    sector(rt, b"\x00BEA01\x01")?;
    sector(rt, b"\x00NSR02\x01")?;
    sector(rt, b"\x00NSR03\x01")?;
    sector(rt, b"\x00TEA01\x01")?;
    sector(rt, b"\x00CD001\x01")?;
    sector(rt, b"\x00CDW02\x01")?;
    sector(rt, b"\x00BEA01")
}

// Another type, changed letters, another identifier, and too few bytes.
fn unknown(rt: &impl Print) -> io::Result<()> {
    sector(rt, b"\x01BEA01\x01")?;
    sector(rt, b"\x01CD001\x01")?;
    sector(rt, b"\xffCD001\x01")?;
    sector(rt, b"\x00bEA01\x01")?;
    sector(rt, b"\x00TEB01\x01")?;
    sector(rt, b"\x00NSR01\x01")?;
    sector(rt, b"\x00NSR04\x01")?;
    sector(rt, b"\x00CD002\x01")?;
    sector(rt, b"\x00CDW01\x01")?;
    sector(rt, b"\x00BOOT2\x01")?;
    sector(rt, b"\x00NSR0")?;
    sector(rt, b"\x00")?;
    sector(rt, b"")
}

fn cases(rt: &impl Print) -> io::Result<()> {
    known(rt)?;
    unknown(rt)
}

fn main(rt: HostRuntime) {
    // A line that can't be written doesn't change the exit status.
    let _ = cases(&rt);
}
