// Where a read goes on: the next extent, the next continuation, or the end. A function here makes a state from another; no sector is looked at.
ghost use Rattle.std.specs.Prelude.{◌≡◌, false, ◌<◌, ◌≤◌, ◌^◌, drop};
ghost use Rattle.drives.specs.Feeds.{crowded_by};
ghost use Rattle.drives.specs.FileFeeds.{extents_feed, chain_feed};
ghost use Rattle.drives.specs.Readings.{extents_in, ending_of};
ghost use Rattle.drives.specs.Inner.Turns.{Ends, ReadingStands, Enters, EntersAt, Chains, ContinuesAt};

use crate::phases::{AT_HEADER, IN_EXTENT, OVER};
use crate::readings::Reading;
use crate::scans::reference_in;
use chains::continuations::{HEADER, LONGEST};
use disc::answers::{DONE, MALFORMED, NO_SLOT, UNSUPPORTED};
use disc::images::sectors_for;
use disc::places::{Block, Sector};

// The end.
pub(crate) fn over(r: Reading, answer: u64) -> Reading
    ensures { Ends r answer result }
{
    let mut x = r;
    x.phase = OVER;
    x.answer = answer;
    x
}

// ---- the extents

// An extent of `size` bytes from a sector on: one without a byte is passed over, unless no byte is missing. None: it is passed over.
fn enter_at(r: Reading, first: Sector, size: u32, next: usize) -> Option<Reading>
    requires { first.0 < 2 ^ 33 }
    ensures { EntersAt r first.0 size next result }
{
    if size == 0 {
        if r.missing == 0 {
            return Some(over(r, DONE));
        }
        return None;
    }
    let mut x = r;
    x.phase = IN_EXTENT;
    x.at = first.0;
    x.left = (sectors_for(size) - 1) as u32;
    x.size = size;
    x.next = next;
    x.answer = DONE;
    Some(x)
}

// An extent of the row: it is recorded, and stands on this volume.
fn enter(r: Reading, w: [u32; 4], next: usize) -> Option<Reading>
    ensures { Enters r w next result }
{
    if w[1] != 0 {
        return Some(over(r, UNSUPPORTED));
    }
    let mount = r.mount;
    match mount.placed(reference_in(w[3]), Block(w[2])) {
        None => Some(over(r, UNSUPPORTED)),
        Some(first) => enter_at(r, first, w[0], next),
    }
}

// From an extent on.
pub(crate) fn find_extent(r: Reading, next: usize, row: &[[u32; 4]]) -> Reading
    ensures { ReadingStands row.now (extents_feed r.mount (drop next (extents_in row.now r.scan.listed)) r.missing) r result }
{
    let n = r.scan.listed.min(row.len());
    for i in next..n {
        if let Some(x) = enter(r, row[i], i + 1) {
            return x;
        }
    }
    over(r, DONE)
}

// ---- the chain

// A continuation of `length` bytes from a sector on.
fn want_continuation(r: Reading, first: Sector, length: u32) -> Reading
    requires { (first.0 < 2 ^ 33) × (1 ≤ r.hops) }
    ensures { ContinuesAt r first.0 length result }
{
    if length < HEADER {
        return over(r, MALFORMED);
    }
    if LONGEST < length {
        return over(r, UNSUPPORTED);
    }
    let mut x = r;
    x.phase = AT_HEADER;
    x.at = first.0;
    x.left = (sectors_for(length) - 1) as u32;
    x.size = length;
    x.hops = r.hops - 1;
    x.answer = DONE;
    x
}

// The continuation that an area ended with.
fn continue_chain(r: Reading) -> Reading
    ensures { Chains r result }
{
    if r.hops == 0 {
        return over(r, MALFORMED);
    }
    let s = r.scan;
    let mount = r.mount;
    match mount.placed(reference_in(s.next_reference), Block(s.next_block)) {
        None => over(r, UNSUPPORTED),
        Some(first) => want_continuation(r, first, s.next_length),
    }
}

// Behind an area that has arrived whole: its own refusal, an extent without a place, then its continuation, or the extents.
pub(crate) fn accept(r: Reading, row: &[[u32; 4]]) -> Reading
    ensures { ReadingStands row.now (crowded_by r.scan.full (chain_feed r.mount r.kind r.hops r.missing (extents_in row.now r.scan.listed) (ending_of r.scan))) r result }
{
    let s = r.scan;
    if 2 < s.closed {
        return over(r, UNSUPPORTED);
    }
    if s.full {
        return over(r, NO_SLOT);
    }
    if s.closed == 2 {
        return continue_chain(r);
    }
    find_extent(r, 0, row)
}
