// The first pass of a show, and the only one of a tally: the visitor of a directory and that of an entry, which call each other with the
// levels left falling.
ghost use Rattle.std.specs.Prelude.{◌≡◌, ℕ, ◌+◌, ◌-◌, ◌≤◌, length, take};
ghost use Rattle.disc.specs.Ran.{ran};
ghost use Rattle.disc.specs.Images.{disc};
ghost use Rattle.shows.specs.Shows.{nodes_at};
ghost use Rattle.shows.specs.Inner.Turns.{stopped_at, Held, Visited, Opens, Handles};
ghost use Rattle.shows.specs.Inner.Placings.{node_placed};

use crate::tallies::tally_entry;
use directories::spaces::read_directory;
use disc::answers::DONE;
use disc::counts::add_counts;
use disc::places::Mount;
use disc::refusals::Refusal;
use identifiers::{LEAST_SIZE, marks_directory};
use listings::directory_entries::look;
use listings::listing::measure;
use records::allocations::{LongAd, long_at};

// A place in a show: the answer, and of the tree before it the sectors and the bytes of its records, both held at 2^64 - 1. `most` is how many
// sectors the show may ask for.
#[derive(Clone, Copy)]
pub(crate) struct ShowPlace {
    pub answer: u64,
    pub count: u64,
    pub size: u64,
    pub most: u64,
}

// The end of a show that is refused.
fn stopped(answer: u64, count: u64) -> ShowPlace
    ensures { result ≡ stopped_at answer count }
{
    ShowPlace {
        answer,
        count,
        size: 0,
        most: 0,
    }
}

// A directory that was read and parsed: the place before its first entry, and how many bytes it has. Of its records the place has counted
// what a listing has of them, so that no name is measured at an entry's turn.
#[derive(Clone, Copy)]
struct OpenedLevel {
    place: ShowPlace,
    length: usize,
}

// Reads the directory at icb to the front of the work space and parses all its entries, so that a bad one refuses the
// show before any of them has its turn. Whether the show may ask for its sectors is known only once they are counted;
// if not, what was read is ignored.
fn open_level(image: &[u8], mount: Mount, icb: LongAd, p: ShowPlace, work: &mut [u8]) -> OpenedLevel
    ensures { Opens (disc image.now) mount icb p work.old work.new result }
{
    let read = read_directory(image, mount, icb, work);
    let count = add_counts(p.count, read.count);
    if p.most < count {
        return OpenedLevel {
            place: stopped(Refusal::OverBudget.number(), p.most),
            length: 0,
        };
    }
    if read.answer != DONE {
        return OpenedLevel {
            place: stopped(read.answer, count),
            length: 0,
        };
    }
    let length = read.length as usize;
    let check = mount.is_checked();
    match measure(check, &work[0..length]) {
        Err(why) => OpenedLevel {
            place: stopped(why.number(), count),
            length: 0,
        },
        Ok(size) => OpenedLevel {
            place: ShowPlace {
                answer: DONE,
                count,
                size: add_counts(p.size, size as u64),
                most: p.most,
            },
            length,
        },
    }
}

// Visits the directory at icb and what stands under it. The bytes of the directories above it stand before what is lent of the work space.
// What is left there is of no use to the caller. Where a place is lent the entries are tallied in it.
#[cycle(visit_entry_visit_level)]
pub(crate) fn visit_level(
    image: &[u8],
    mount: Mount,
    icb: LongAd,
    left: u8,
    p: ShowPlace,
    work: &mut [u8],
    tally: &mut [u64],
) -> ShowPlace
    requires { Held p.most p }
    ensures { (level : ℕ) → Visited (node_placed (disc image.now) mount p.most) 0 (ran (disc image.now) (nodes_at mount left level (length work.old) icb)) p tally.old result tally.new }
{
    if left == 0 {
        return stopped(Refusal::TooDeep.number(), p.count);
    }
    let below = left - 1;
    let opened = open_level(image, mount, icb, p, work);
    let n = opened.length;
    let mut q = opened.place;
    if q.answer != DONE {
        return q;
    }
    let mut at: usize = 0;
    // No `for`: each entry says itself where the next one starts.
    while at + LEAST_SIZE <= n {
        let t = visit_entry(image, mount, n, at, below, q, work, tally);
        q = t.place;
        if q.answer != DONE {
            return q;
        }
        at = t.next;
    }
    q
}

// The place after an entry and what is under it, and where the next entry of its directory starts.
#[derive(Clone, Copy)]
struct EntryTurn {
    place: ShowPlace,
    next: usize,
}

// The turn of the entry at `at` in the directory whose bytes are the first n of the work space, all of them parsed. Its
// record has one byte more than a listing's, the level. What is under it comes before the next entry, and is read into
// the work space after those bytes.
#[cycle(visit_entry_visit_level)]
fn visit_entry(
    image: &[u8],
    mount: Mount,
    n: usize,
    at: usize,
    left: u8,
    p: ShowPlace,
    work: &mut [u8],
    tally: &mut [u64],
) -> EntryTurn
    requires { (at + 38 ≤ n) × (n ≤ length work.old) × Held p.most p }
    ensures handles { Handles (disc image.now) mount left (take n work.old) (length work.old - n) at p tally.old result tally.new }
    ensures work_unchanged { take n work.new ≡ take n work.old }
{
    let e = look(&work[at..n]);
    let next = at + e.next;
    if e.skipped {
        return EntryTurn { place: p, next };
    }
    let behind = ShowPlace {
        answer: DONE,
        count: p.count,
        size: add_counts(p.size, 1),
        most: p.most,
    };
    let directory = marks_directory(e.marks);
    tally_entry(image, mount, directory, &work[at..n], p.most, tally);
    if !directory {
        return EntryTurn {
            place: behind,
            next,
        };
    }
    let icb = long_at(&work[at..n], 20);
    let place = visit_level(image, mount, icb, left, behind, &mut work[n..], tally);
    EntryTurn { place, next }
}
