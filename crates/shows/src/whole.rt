// A whole show.
ghost use Rattle.std.specs.Prelude.{◌≡◌, ◌≤◌, length, replicate};
ghost use Rattle.disc.specs.Budgets.{budgeted};
ghost use Rattle.disc.specs.Ran.{ran};
ghost use Rattle.disc.specs.Images.{disc};
ghost use Rattle.disc.specs.Replies.{Replied};
ghost use Rattle.disc.specs.declared.refusals.Refusal.TheVariants.{NoRoom};
ghost use Rattle.shows.specs.Shows.{nodes_at, tree_records};
ghost use Rattle.shows.specs.Inner.Placings.{node_placed};
ghost use Rattle.shows.specs.Inner.Turns.{start_of, Visited};
ghost use Rattle.shows.specs.Tallies.{tallied, tallies};

use crate::levels::{ShowPlace, visit_level};
use crate::writing::write_level;
use disc::answers::{BAD_SHELF, DONE, OVER_BUDGET};
use disc::counts::left_of;
use disc::moves::clear;
use disc::places::Mount;
use disc::refusals::Refusal;
use disc::replies::{Reply, refusal};
use figures::{PLACE, clear_figures, sectors_in};
use records::allocations::LongAd;

// The most levels that can be asked for.
pub const MOST_LEVELS: u32 = 16;

// Goes over the tree from the directory at root once: it meets every refusal, measures, and tallies where a place is lent.
fn walk(
    image: &[u8],
    mount: Mount,
    root: LongAd,
    levels: u8,
    most: u64,
    work: &mut [u8],
    tally: &mut [u64],
) -> ShowPlace
    ensures { Visited (node_placed (disc image.now) mount most) 0 (ran (disc image.now) (nodes_at mount levels 1 (length work.old) root)) (start_of most) tally.old result tally.new }
{
    let start = ShowPlace {
        answer: DONE,
        count: 0,
        size: 0,
        most,
    };
    visit_level(image, mount, root, levels, start, work, tally)
}

// Goes over the tree twice and counts its sectors once. The first pass meets every refusal and measures. The second is
// lent what was measured and writes it: nothing after that can be written, whatever the image holds by then.
fn show_within(
    image: &[u8],
    mount: Mount,
    root: LongAd,
    levels: u8,
    most: u64,
    out: &mut [u8],
    work: &mut [u8],
) -> Reply
    requires { (1 ≤ levels) × (levels ≤ 16) }
    ensures { Replied NoRoom (ran (disc image.now) (budgeted most (tree_records mount levels (length work.old) root))) out.old out.new result }
{
    let mut none = [0u64; 1];
    let measured = walk(image, mount, root, levels, most, work, &mut none[0..0]);
    if measured.answer != DONE {
        return refusal(measured.answer, measured.count);
    }
    if (out.len() as u64) < measured.size {
        return refusal(Refusal::NoRoom.number(), measured.count);
    }
    let size = measured.size as usize;
    write_level(image, mount, root, 1, levels, 0, work, &mut out[0..size]);
    Reply {
        answer: DONE,
        count: measured.count,
        length: measured.size,
    }
}

// The show, without clearing the work space.
fn show_tree(
    image: &[u8],
    mount: Mount,
    root: LongAd,
    levels: u32,
    most: u64,
    out: &mut [u8],
    work: &mut [u8],
) -> Reply
    ensures { Replied NoRoom (ran (disc image.now) (budgeted most (tree_records mount levels (length work.old) root))) out.old out.new result }
{
    if levels == 0 {
        return refusal(Refusal::TooDeep.number(), 0);
    }
    if MOST_LEVELS < levels {
        return refusal(Refusal::TooDeep.number(), 0);
    }
    show_within(image, mount, root, levels as u8, most, out, work)
}

// Writes the tree from the directory at root to the front of out: for each entry that a path of at most `levels`
// components leads to, a listing's record with its level, before those of what is under it. Refused by 16 instead of
// asking for more than `most` sectors; UNLIMITED is no budget. The work space is all zero on return.
pub fn show(
    image: &[u8],
    mount: Mount,
    root: LongAd,
    levels: u32,
    most: u64,
    out: &mut [u8],
    work: &mut [u8],
) -> Reply
    ensures replied { Replied NoRoom (ran (disc image.now) (budgeted most (tree_records mount levels (length work.old) root))) out.old out.new result }
    ensures work_after { work.new ≡ replicate (length work.old) 0 }
{
    let reply = show_tree(image, mount, root, levels, most, out, work);
    clear(work);
    reply
}

// The figures of the whole tree from the directory at root, without clearing the work space.
fn tally_within(
    image: &[u8],
    mount: Mount,
    root: LongAd,
    most: u64,
    tally: &mut [u64],
    work: &mut [u8],
) -> u64
    ensures { record { answer = result; place = tally.new } ≡ tallied (disc image.now) mount root most (length work.old) tally.old }
{
    if tally.len() != PLACE {
        return BAD_SHELF;
    }
    clear_figures(tally);
    let levels = MOST_LEVELS as u8;
    let visited = walk(image, mount, root, levels, most, work, tally);
    if visited.answer != DONE {
        clear_figures(tally);
        return visited.answer;
    }
    if left_of(most, visited.count) < sectors_in(tally) {
        clear_figures(tally);
        return OVER_BUDGET;
    }
    DONE
}

// Puts the figures of the whole tree from the directory at root, at 16 levels, into a place. The tree and then the
// reads of its files are lent `most` sectors together. The answer is that of the tree, or 16 if the reads want more
// than the tree left; unless it is 0 there are no figures. A slice that is no place is 15, and stays as it is. The
// work space is all zero on return.
pub fn tally_tree(
    image: &[u8],
    mount: Mount,
    root: LongAd,
    most: u64,
    tally: &mut [u64],
    work: &mut [u8],
) -> u64
    ensures { record { answer = result; place = tally.new; work = work.new } ≡ tallies (disc image.now) mount root most tally.old work.old }
{
    let answer = tally_within(image, mount, root, most, tally, work);
    clear(work);
    answer
}
