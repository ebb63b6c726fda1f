// Runs tags and small records, good ones and refused ones: one line for each case.
#![tactic(auto)]

mod outputs;
mod small_records;
mod tag_bytes;

use std::io;

fn cases(rt: &impl Print) -> io::Result<()> {
    tag_bytes::ids(rt)?;
    tag_bytes::lengths(rt)?;
    tag_bytes::checks(rt)?;
    tag_bytes::changes(rt)?;
    tag_bytes::places(rt)?;
    small_records::sizes(rt)?;
    small_records::headers(rt)?;
    small_records::kept(rt)
}

fn main(rt: HostRuntime) {
    // A line that can't be written doesn't change the exit status.
    let _ = cases(&rt);
}
