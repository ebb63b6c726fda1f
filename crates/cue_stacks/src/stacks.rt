// Files read by a list of paths, each into the room that those before it left. The work space is all zero on return.
ghost use Rattle.std.specs.Prelude.{◌≡◌, Some, ◌+◌, ◌<◌, ◌^◌, min, length, set, replicate};
ghost use Rattle.disc.specs.Ran.{ran};
ghost use Rattle.disc.specs.Images.{disc};
ghost use Rattle.directories.specs.Lookups.{read_path_of};
ghost use Rattle.cue_stacks.specs.Stacks.{read_all_of};
ghost use Rattle.cue_stacks.specs.Inner.Turns.{is_last, place_behind, On, Turns, Passes};

use crate::items::{item_end, items_behind};
use directories::lookups::read_reached;
use disc::answers::DONE;
use disc::counts::add_counts;
use disc::moves::clear;
use disc::places::Mount;
use disc::refusals::Refusal;
use disc::replies::{Reply, refusal};
use listings::matchings::Matching;
use records::allocations::LongAd;

// A place among the items. The next item starts at `next`, and None says that there is none. Those before it took
// `places` places of the rows, `filled` bytes of the output and `count` sectors.
#[derive(Clone, Copy)]
struct ItemPlace {
    next: Option<usize>,
    places: usize,
    filled: usize,
    count: u64,
}

// Whether the item that ends at `end`, with which `places` places are taken, is the last to be read: the list ends
// there, or the shorter row does. The list may hold more items now than were counted.
fn is_last(bytes: usize, rows: usize, end: usize, places: usize) -> bool
    ensures { result ≡ is_last bytes rows end places }
{
    (bytes <= end) | (rows <= places)
}

// The place after an item that ends at `end` and was answered with `reply`, in a list of `bytes` bytes.
fn place_behind(bytes: usize, rows: usize, p: ItemPlace, end: usize, reply: Reply) -> ItemPlace
    requires { (p.places + 1 < 2 ^ 64) × (p.filled + reply.length < 2 ^ 64) }
    ensures { result ≡ place_behind bytes rows p end reply }
{
    let places = p.places + 1;
    let filled = p.filled + reply.length as usize;
    let count = add_counts(p.count, reply.count);
    let next = if is_last(bytes, rows, end, places) {
        None
    } else {
        Some(end + 1)
    };
    ItemPlace {
        next,
        places,
        filled,
        count,
    }
}

// Stores the length and the answer of item i in the rows.
fn put_reply(reply: Reply, lengths: &mut [u64], answers: &mut [u32], i: usize)
    requires { (reply.answer < 2 ^ 32) × (i < length lengths.old) × (i < length answers.old) }
    ensures lengths_after { lengths.new ≡ set lengths.old i reply.length }
    ensures answers_after { answers.new ≡ set answers.old i reply.answer }
{
    lengths[i] = reply.length;
    answers[i] = reply.answer as u32;
}

// Reads the item at the place `p` of the list `paths`, which starts at `from`, into the room that is left of `out`, and
// stores its length and its answer in the rows. `out` and the rows are those of the whole call; `work` holds one
// directory at a time.
fn read_item(
    image: &[u8],
    mount: Mount,
    root: LongAd,
    paths: &[u8],
    matching: Matching,
    from: usize,
    p: ItemPlace,
    out: &mut [u8],
    lengths: &mut [u64],
    answers: &mut [u32],
    work: &mut [u8],
) -> ItemPlace
    requires { (p.next ≡ Some from) × On (length paths.now) (length out.old) (min (length lengths.old) (length answers.old)) p }
    ensures { Turns (λ path. ran (disc image.now) (read_path_of matching mount (length work.old) root path)) paths.now p out.old lengths.old answers.old result out.new lengths.new answers.new }
{
    let rows = lengths.len().min(answers.len());
    let filled = p.filled;
    let end = item_end(paths, from);
    let reply = read_reached(
        image,
        mount,
        root,
        &paths[from..end],
        matching,
        &mut out[filled..],
        work,
    );
    put_reply(reply, lengths, answers, p.places);
    place_behind(paths.len(), rows, p, end, reply)
}

// Reads every item that has a place in both rows, one after another. The work space isn't cleared.
fn read_items(
    image: &[u8],
    mount: Mount,
    root: LongAd,
    paths: &[u8],
    matching: Matching,
    out: &mut [u8],
    lengths: &mut [u64],
    answers: &mut [u32],
    work: &mut [u8],
) -> Reply
    requires { (0 < length lengths.old) × (0 < length answers.old) }
    ensures { Passes (λ path. ran (disc image.now) (read_path_of matching mount (length work.old) root path)) paths.now out.old lengths.old answers.old (record { reply = result; out = out.new; lengths = lengths.new; answers = answers.new }) }
{
    let mut p = ItemPlace {
        next: Some(0),
        places: 0,
        filled: 0,
        count: 0,
    };
    while let Some(from) = p.next {
        p = read_item(
            image, mount, root, paths, matching, from, p, out, lengths, answers, work,
        );
    }
    Reply {
        answer: DONE,
        count: p.count,
        length: p.filled as u64,
    }
}

// Writes the files that the paths name to the front of out, one after another. The rows get the length and the answer
// number of each, in the order of the paths.
pub fn read_all(
    image: &[u8],
    mount: Mount,
    root: LongAd,
    paths: &[u8],
    matching: Matching,
    out: &mut [u8],
    lengths: &mut [u64],
    answers: &mut [u32],
    work: &mut [u8],
) -> Reply
    ensures answers_after { record { reply = result; out = out.new; lengths = lengths.new; answers = answers.new } ≡ read_all_of (λ path. ran (disc image.now) (read_path_of matching mount (length work.old) root path)) paths.now out.old lengths.old answers.old }
    ensures work_after { work.new ≡ replicate (length work.old) 0 }
{
    let behind = items_behind(paths);
    if lengths.len().min(answers.len()) <= behind {
        clear(work);
        return refusal(Refusal::TooMany.number(), 0);
    }
    let reply = read_items(
        image, mount, root, paths, matching, out, lengths, answers, work,
    );
    clear(work);
    reply
}
