// Runs the cases for areas of allocation descriptors. Each line has the question and the answer.
#![tactic(auto)]

use areas::{AdContinuation, AdCursor, AdEnding, AdStep, AllocExtent, ending_of, next_ad};
use programs::shown::{Hex, Partition};
use std::io;

fn say_extent(rt: &impl Print, e: AllocExtent) -> io::Result<()> {
    print!(rt;
        " extent {} {} {} {},",
        e.length,
        e.extent_type,
        e.block.0,
        Partition(e.partition_ref)
    )
}

fn say_continuation(rt: &impl Print, a: AdContinuation) -> io::Result<()> {
    print!(rt;
        " continuation {} {} {}",
        a.length,
        a.block.0,
        Partition(a.partition_ref)
    )
}

fn say_ending(rt: &impl Print, e: AdEnding) -> io::Result<()> {
    match e {
        AdEnding::End => print!(rt; " end"),
        AdEnding::Continuation(a) => say_continuation(rt, a),
        AdEnding::Refused(why) => print!(rt; " refused {}", why.number()),
    }
}

// Prints the extents of an area and how it ends, as the cursor walks it.
fn walk(rt: &impl Print, kind: u8, s: &[u8]) -> io::Result<()> {
    let mut c = AdCursor {
        at: 0,
        left: s.len(),
    };
    // A `loop`, since each step says itself where the next one starts: `for` is no plainer.
    loop {
        match next_ad(s, kind, c) {
            AdStep::Extent(e, next) => {
                say_extent(rt, e)?;
                c = next;
            }
            AdStep::Continuation(a) => return say_continuation(rt, a),
            AdStep::End => return print!(rt; " end"),
            AdStep::Refused(why) => return print!(rt; " refused {}", why.number()),
        }
    }
}

fn area(rt: &impl Print, kind: u8, s: &[u8]) -> io::Result<()> {
    print!(rt; "area {kind}{}:", Hex(s))?;
    walk(rt, kind, s)?;
    print!(rt; "; ends:")?;
    let whole = AdCursor {
        at: 0,
        left: s.len(),
    };
    say_ending(rt, ending_of(s, kind, whole))?;
    println!(rt)
}

fn short_area(rt: &impl Print, s: &[u8]) -> io::Result<()> {
    area(rt, 0, s)
}

fn long_area(rt: &impl Print, s: &[u8]) -> io::Result<()> {
    area(rt, 1, s)
}

fn ext_area(rt: &impl Print, s: &[u8]) -> io::Result<()> {
    area(rt, 2, s)
}

fn say_step(rt: &impl Print, s: AdStep) -> io::Result<()> {
    match s {
        AdStep::Extent(e, next) => {
            say_extent(rt, e)?;
            print!(rt; " {} {}", next.at, next.left)
        }
        AdStep::Continuation(a) => say_continuation(rt, a),
        AdStep::End => print!(rt; " end"),
        AdStep::Refused(why) => print!(rt; " refused {}", why.number()),
    }
}

// A cursor at `at` with `left` bytes left, in an area of two short_ads.
fn step(rt: &impl Print, at: usize, left: usize) -> io::Result<()> {
    let s = b"\x00\x08\x00\x00\x05\x00\x00\x00\x00\x10\x00\x00\x09\x00\x00\x00";
    print!(rt; "short_ads at {at} with {left} left, ends:")?;
    say_ending(rt, ending_of(s, 0, AdCursor { at, left }))?;
    say_step(rt, next_ad(s, 0, AdCursor { at, left }))?;
    println!(rt)
}

// Rows 7 and 8 of the worked table.
fn worked(rt: &impl Print) -> io::Result<()> {
    short_area(rt, b"\x00\x00\x00\xc0\x07\x00\x00\x00")?;
    long_area(
        rt,
        b"\x18\x00\x00\xc0\x09\x00\x00\x00\x01\x00\x00\x00\x00\x00\x00\x00",
    )
}

fn short_areas(rt: &impl Print) -> io::Result<()> {
    short_area(rt, b"")?;
    short_area(rt, b"\x00\x08\x00\x00\x05\x00\x00")?;
    short_area(rt, b"\x00\x08\x00\x00\x05\x00\x00\x00")?;
    short_area(
        rt,
        b"\x00\x08\x00\x00\x05\x00\x00\x00\x01\x00\x00\x40\x06\x00\x00\x00\xff\xff\xff\xbf\x07\x00\x00\x00",
    )?;
    short_area(
        rt,
        b"\x00\x08\x00\x00\x05\x00\x00\x00\x18\x00\x00\xc0\x06\x00\x00\x00\x00\x10\x00\x00\x07\x00\x00\x00",
    )?;
    short_area(
        rt,
        b"\x00\x08\x00\x00\x05\x00\x00\x00\x00\x00\x00\x00\x06\x00\x00\x00\x00\x10\x00\x00\x07\x00\x00\x00",
    )?;
    short_area(
        rt,
        b"\x00\x08\x00\x00\x05\x00\x00\x00\x00\x00\x00\x80\x06\x00\x00\x00\x00\x10\x00\x00\x07\x00\x00\x00",
    )
}

fn long_areas(rt: &impl Print) -> io::Result<()> {
    long_area(
        rt,
        b"\x00\x08\x00\x00\x05\x00\x00\x00\x02\x00\x01\x02\x03\x04\x05",
    )?;
    long_area(
        rt,
        b"\x00\x08\x00\x80\x05\x00\x00\x00\x02\x00\x01\x02\x03\x04\x05\x06",
    )?;
    long_area(
        rt,
        b"\x00\x08\x00\x00\x05\x00\x00\x00\x02\x00\x01\x02\x03\x04\x05\x06\x00\x00\x00\xc0\x06\x00\x00\x00\x03\x00\x01\x02\x03\x04\x05\x06",
    )
}

// Stored, recorded and information lengths that differ; the recorded length keeps 30 bits.
fn ext_areas(rt: &impl Print) -> io::Result<()> {
    ext_area(
        rt,
        b"\x00\x10\x00\x00\x00\x08\x00\x00\x00\x08\x00\x00\x05\x00\x00\x00\x02\x00\x00",
    )?;
    ext_area(
        rt,
        b"\x00\x10\x00\x00\x00\x08\x00\x00\x00\x08\x00\x00\x05\x00\x00\x00\x02\x00\x00\x00",
    )?;
    ext_area(
        rt,
        b"\x00\x10\x00\x40\x00\x08\x00\xc0\x00\x08\x00\x00\x05\x00\x00\x00\x02\x00\x00\x00",
    )?;
    ext_area(
        rt,
        b"\x00\x10\x00\x00\x00\x08\x00\x00\x01\x08\x00\x00\x05\x00\x00\x00\x02\x00\x00\x00",
    )?;
    ext_area(
        rt,
        b"\x00\x10\x00\x00\x00\x08\x00\x40\x00\x08\x00\x40\x05\x00\x00\x00\x02\x00\x00\x00",
    )?;
    ext_area(
        rt,
        b"\x00\x10\x00\x00\x00\x00\x00\x00\x00\x00\x00\x00\x05\x00\x00\x00\x02\x00\x00\x00",
    )?;
    ext_area(
        rt,
        b"\x00\x00\x00\x00\x00\x08\x00\x00\x01\x08\x00\x00\x05\x00\x00\x00\x02\x00\x00\x00",
    )?;
    ext_area(
        rt,
        b"\x20\x00\x00\xc0\x00\x08\x00\x00\x01\x08\x00\x00\x05\x00\x00\x00\x02\x00\x00\x00",
    )?;
    area(
        rt,
        3,
        b"\x00\x10\x00\x00\x00\x08\x00\x00\x00\x08\x00\x00\x05\x00\x00\x00\x02\x00\x00\x00",
    )
}

// Cursors inside the bytes, across their end and past it.
fn steps(rt: &impl Print) -> io::Result<()> {
    step(rt, 0, 16)?;
    step(rt, 8, 8)?;
    step(rt, 8, 7)?;
    step(rt, 8, 16)?;
    step(rt, 12, 8)?;
    step(rt, 16, 8)?;
    step(rt, 100, 800)?;
    step(rt, 0xffff_ffff_ffff_ffff, 8)
}

fn cases(rt: &impl Print) -> io::Result<()> {
    worked(rt)?;
    short_areas(rt)?;
    long_areas(rt)?;
    ext_areas(rt)?;
    steps(rt)
}

fn main(rt: HostRuntime) {
    // A line that can't be written doesn't change the exit status.
    let _ = cases(&rt);
}
