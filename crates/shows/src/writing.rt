// The second pass of a show: the writer of a directory and that of an entry, which call each other with the levels left falling. The first
// pass has seen that the whole tree is good, so nothing is checked again and no sector is counted.
ghost use Rattle.std.specs.Prelude.{◌≡◌, ◌+◌, ◌-◌, ◌≤◌, length, take};
ghost use Rattle.disc.specs.Ran.{ran};
ghost use Rattle.disc.specs.Images.{disc};
ghost use Rattle.shows.specs.Shows.{nodes_at};
ghost use Rattle.shows.specs.Inner.Writes.{Writes, EntryWrites};

use crate::nodes::put_node;
use directories::spaces::read_directory;
use disc::places::Mount;
use identifiers::LEAST_SIZE;
use records::allocations::{LongAd, long_at};

// Writes the records of the directory at icb, whose entries have this level, and of what is under it, after the first
// `from` bytes of out, and returns where they end. The directories above it are in the work space before the part that
// is lent.
#[cycle(write_entry_write_level)]
pub(crate) fn write_level(
    image: &[u8],
    mount: Mount,
    icb: LongAd,
    level: u8,
    left: u8,
    from: usize,
    work: &mut [u8],
    out: &mut [u8],
) -> usize
    requires { (level + left ≤ 17) × (from ≤ length out.old) }
    ensures { Writes (ran (disc image.now) (nodes_at mount left level (length work.old) icb)) from out.old out.new result }
{
    if left == 0 {
        return from;
    }
    let below = left - 1;
    let read = read_directory(image, mount, icb, work);
    let n = read.length as usize;
    let mut to = from;
    let mut at: usize = 0;
    // No `for`: each entry says itself where the next one starts.
    while at + LEAST_SIZE <= n {
        let t = write_entry(image, mount, n, at, level, below, to, work, out);
        to = t.to;
        at = t.next;
    }
    to
}

// Where the records of an entry and of what stands under it end, and where the next entry of its directory starts.
#[derive(Clone, Copy)]
struct WriteTurn {
    to: usize,
    next: usize,
}

// The turn of the entry at `at` in the directory whose bytes are the first n of the work space: its record, then those of
// what is under it, which is read into the work space after those bytes.
#[cycle(write_entry_write_level)]
fn write_entry(
    image: &[u8],
    mount: Mount,
    n: usize,
    at: usize,
    level: u8,
    left: u8,
    from: usize,
    work: &mut [u8],
    out: &mut [u8],
) -> WriteTurn
    requires { (at + 38 ≤ n) × (n ≤ length work.old) × (level + left ≤ 16) × (from ≤ length out.old) }
    ensures entry_writes { EntryWrites (disc image.now) mount left level (take n work.old) (length work.old - n) at from out.old result out.new }
    ensures work_unchanged { take n work.new ≡ take n work.old }
{
    let e = put_node(level, &work[at..n], &mut out[from..]);
    let next = at + e.next;
    let behind = from + e.wrote;
    if !e.directory {
        return WriteTurn { to: behind, next };
    }
    let icb = long_at(&work[at..n], 20);
    let deeper = level + 1;
    let to = write_level(image, mount, icb, deeper, left, behind, &mut work[n..], out);
    WriteTurn { to, next }
}
