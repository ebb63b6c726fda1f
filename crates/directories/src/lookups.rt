// Looks paths up by a choice of matching, and reads files by path. Each call is lent the image, its `mount`, the ICB of
// the root directory, the path, and `work`, which holds one directory at a time. All but `read_reached` leave the work
// space all zero.
ghost use Rattle.std.specs.Prelude.{◌≡◌, length, replicate};
ghost use Rattle.disc.specs.Ran.{ran};
ghost use Rattle.disc.specs.Images.{disc};
ghost use Rattle.disc.specs.Replies.{Replied};
ghost use Rattle.disc.specs.declared.refusals.Refusal.TheVariants.{NoRoom};
ghost use Rattle.directories.specs.Lookups.{seek_path, lookup_of, read_path_of, found_of, failed_of, failed_reply};
ghost use Rattle.directories.specs.Inner.WorkSpaces.{path_leaves};

use crate::walks::walk;
use disc::answers::DONE;
use disc::counts::add_counts;
use disc::moves::clear;
use disc::places::Mount;
use disc::refusals::Refusal;
use disc::replies::{Reply, refusal};
use files::reads::read_file;
use listings::matchings::Matching;
use records::allocations::LongAd;

// The answer, the count of sectors, and the ICB that a path names.
#[repr(C)]
#[derive(Clone, Copy)]
pub struct Found {
    // A number of the table.
    pub answer: u64,
    // The sectors asked for.
    pub count: u64,
    // Zeros if the lookup was refused.
    pub icb: LongAd,
}

// The ICB that the path names.
pub fn lookup(
    image: &[u8],
    mount: Mount,
    root: LongAd,
    path: &[u8],
    matching: Matching,
    work: &mut [u8],
) -> Found
    ensures value { result ≡ found_of (ran (disc image.now) (lookup_of matching mount (length work.old) root path.now)) }
    ensures work_after { work.new ≡ replicate (length work.old) 0 }
{
    let p = walk(image, mount, root, path, matching, work);
    clear(work);
    let icb = p.icb;
    Found {
        answer: p.answer,
        count: p.count,
        icb,
    }
}

// The length of the component at which a lookup is refused by 3, and its place in the path in `at`; otherwise zeros.
// The answer and the count are the lookup's.
pub fn failed_at(
    image: &[u8],
    mount: Mount,
    root: LongAd,
    path: &[u8],
    matching: Matching,
    work: &mut [u8],
    at: &mut usize,
) -> Reply
    ensures value { result ≡ failed_reply (failed_of (ran (disc image.now) (seek_path matching mount (length work.old) root path.now))) }
    ensures at_after { at.new ≡ (failed_of (ran (disc image.now) (seek_path matching mount (length work.old) root path.now))).component.at }
    ensures work_after { work.new ≡ replicate (length work.old) 0 }
{
    let p = walk(image, mount, root, path, matching, work);
    clear(work);
    *at = p.from;
    Reply {
        answer: p.answer,
        count: p.count,
        length: (p.end - p.from) as u64,
    }
}

// The same component, as a part of the path.
pub fn failed<'i, 'p>(
    image: &'i [u8],
    mount: Mount,
    root: LongAd,
    path: &'p [u8],
    matching: Matching,
    work: &mut [u8],
    answer: &mut u64,
    count: &mut u64,
) -> &'p [u8]
    ensures result_value { result.now ≡ (failed_of (ran (disc image.now) (seek_path matching mount (length work.old) root path.now))).component.bytes }
    ensures answer_after { answer.new ≡ (failed_of (ran (disc image.now) (seek_path matching mount (length work.old) root path.now))).answer }
    ensures count_after { count.new ≡ (failed_of (ran (disc image.now) (seek_path matching mount (length work.old) root path.now))).count }
    ensures work_after { work.new ≡ replicate (length work.old) 0 }
{
    let mut at = 0;
    let reply = failed_at(image, mount, root, path, matching, work, &mut at);
    *answer = reply.answer;
    *count = reply.count;
    let end = at + reply.length as usize;
    &path[at..end]
}

// Writes the bytes of the file that the path names to the front of out, and doesn't clear the work space: for a
// caller that reads several paths and clears it once.
pub fn read_reached(
    image: &[u8],
    mount: Mount,
    root: LongAd,
    path: &[u8],
    matching: Matching,
    out: &mut [u8],
    work: &mut [u8],
) -> Reply
    ensures replied { Replied NoRoom (ran (disc image.now) (read_path_of matching mount (length work.old) root path.now)) out.old out.new result }
    ensures work_after { work.new ≡ path_leaves (disc image.now) matching mount root path.now work.old }
{
    let p = walk(image, mount, root, path, matching, work);
    if p.answer != DONE {
        return refusal(p.answer, p.count);
    }
    let file = p.icb;
    let read = read_file(image, mount, file, out, Refusal::NoRoom);
    Reply {
        answer: read.answer,
        count: add_counts(p.count, read.count),
        length: read.length,
    }
}

// Writes the bytes of the file that the path names to the front of out.
pub fn read_path(
    image: &[u8],
    mount: Mount,
    root: LongAd,
    path: &[u8],
    matching: Matching,
    out: &mut [u8],
    work: &mut [u8],
) -> Reply
    ensures replied { Replied NoRoom (ran (disc image.now) (read_path_of matching mount (length work.old) root path.now)) out.old out.new result }
    ensures work_after { work.new ≡ replicate (length work.old) 0 }
{
    let reply = read_reached(image, mount, root, path, matching, out, work);
    clear(work);
    reply
}
