// A file's extents as a list in a lent row, a slot for each. The chain is followed and its extents are counted before a slot is written;
// then they are stored one at a time from a listing, which is passed by value.
ghost use Rattle.std.specs.Prelude.{◌≡◌, ◌≤◌, length};
ghost use Rattle.disc.specs.Ran.{ran};
ghost use Rattle.disc.specs.Images.{disc};
ghost use Rattle.chains.specs.Inner.Walks.{left};
ghost use Rattle.files.specs.Files.{file_extents};
ghost use Rattle.layouts.specs.Calls.{reference_of, extent_of, fields_of, words_of, Listed};
ghost use Rattle.layouts.specs.Inner.Lists.{ListStands, Planned, listed_run};

use areas::AllocExtent;
use chains::counts::count_left;
use chains::cursors::{ChainCursor, ChainStep, advance};
use disc::answers::DONE;
use disc::places::Mount;
use disc::refusals::Refusal;
use disc::replies::{Reply, refusal};
use files::resolves::{Resolved, front_of, resolve};
use records::allocations::LongAd;

// An extent, as a slot of the extent list gives it.
#[repr(C)]
#[derive(Clone, Copy)]
pub struct Extent {
    // The effective length: how many bytes of its file are in the extent.
    pub length: u32,
    // 0: recorded.
    pub extent_type: u32,
    // Counted from the partition's start.
    pub block: u32,
    // 65,536 if the descriptor names none.
    pub partition: u32,
}

// A list under way: the reply of the whole call, the next extent to store, the cursor after it, and how the entry's
// descriptors are read.
#[derive(Clone, Copy)]
struct Listing {
    reply: Reply,
    mount: Mount,
    kind: u8,
    front: Extent,
    behind: ChainCursor,
}

// The partition that a descriptor names; 65,536 if it names none.
pub fn reference_number(r: Option<u16>) -> u32
    ensures { result ≡ reference_of r }
{
    match r {
        None => 65536,
        Some(p) => p as u32,
    }
}

// The record of an extent.
fn extent_of(e: AllocExtent) -> Extent
    ensures { result ≡ extent_of e }
{
    let reference = e.partition_ref;
    Extent {
        length: e.length,
        extent_type: e.extent_type as u32,
        block: e.block.0,
        partition: reference_number(reference),
    }
}

// What a slot of a lent row holds of an extent: the record itself, or its four numbers.
trait Slot: Copy {
    ghost use Rattle.layouts.specs.declared.lists.Extent.{Extent};

    ghost slot_of: { Extent → Self };

    fn of(e: Extent) -> Self
        ensures { result ≡ slot_of e };
}

impl Slot for Extent {
    ghost slot_of = { λ e. e };

    fn of(e: Extent) -> Extent {
        e
    }
}

impl Slot for [u32; 4] {
    ghost slot_of = { fields_of };

    fn of(e: Extent) -> [u32; 4] {
        [e.length, e.extent_type, e.block, e.partition]
    }
}

// ---- the listing

// A listing with nothing to store.
fn empty(mount: Mount, reply: Reply) -> Listing
    ensures { result.reply ≡ reply }
{
    Listing {
        reply,
        mount,
        kind: 0,
        front: Extent {
            length: 0,
            extent_type: 0,
            block: 0,
            partition: 0,
        },
        behind: ChainCursor {
            at: 0,
            left: 0,
            hops: 0,
        },
    }
}

// The listing of the extents that are left at a cursor.
fn listing_at(image: &[u8], mount: Mount, kind: u8, first: ChainCursor, reply: Reply) -> Listing
    ensures { ListStands image.now (left image.now mount kind first) reply result }
{
    let mut c = first;
    loop {
        match advance(image, mount, kind, c) {
            ChainStep::Ends => return empty(mount, reply),
            ChainStep::Hops(next) => c = next,
            ChainStep::Takes(e, next) => {
                return Listing {
                    reply,
                    mount,
                    kind,
                    front: extent_of(e),
                    behind: next,
                }
            }
        }
    }
}

// The listing without its front.
fn further(image: &[u8], l: Listing) -> Listing
    ensures { ListStands image.now (left image.now l.mount l.kind l.behind) l.reply result }
{
    let behind = l.behind;
    let reply = l.reply;
    let mount = l.mount;
    listing_at(image, mount, l.kind, behind, reply)
}

// The extents of a chain that was followed to its end, after n sectors.
fn list_whole(
    image: &[u8],
    mount: Mount,
    kind: u8,
    first: ChainCursor,
    n: u64,
    room: usize,
) -> Listing
    requires { first.left ≤ 2048 }
    ensures { Planned image.now (listed_run image.now mount kind first n) room result }
{
    let m = count_left(image, mount, kind, first).extents;
    if (room as u64) < m {
        return empty(mount, refusal(Refusal::NoSlot.number(), n));
    }
    listing_at(
        image,
        mount,
        kind,
        first,
        Reply {
            answer: DONE,
            count: n,
            length: m,
        },
    )
}

// The listing of a file for `room` slots. Every refusal is known, and the extents fit.
fn plan(image: &[u8], mount: Mount, icb: LongAd, room: usize) -> Listing
    ensures { Planned image.now (ran (disc image.now) (file_extents mount icb)) room result }
{
    match resolve(image, mount, icb) {
        Err(r) => empty(mount, refusal(r.why.number(), r.count)),
        Ok(Resolved::Embedded(_)) => empty(
            mount,
            Reply {
                answer: DONE,
                count: 1,
                length: 0,
            },
        ),
        Ok(Resolved::Chained(p, n)) => list_whole(
            image,
            mount.at_entry(icb.location.partition_ref),
            p.kind,
            front_of(p),
            n,
            room,
        ),
    }
}

// ---- the two forms of a row

// Lists the file's extents in a row of either form, one to a slot.
fn list_slots<T: Slot>(image: &[u8], mount: Mount, icb: LongAd, row: &mut [T]) -> Reply
    ensures { Listed (λ e. T.slot_of (extent_of e)) (ran (disc image.now) (file_extents mount icb)) row.old row.new result }
{
    let mut l = plan(image, mount, icb, row.len());
    let n = l.reply.length as usize;
    for i in 0..n {
        row[i] = T::of(l.front);
        l = further(image, l);
    }
    l.reply
}

// Lists the effective length, type, block and partition of each extent of the file's chain, four numbers to a slot.
// An embedded file has no extents.
pub fn file_words(image: &[u8], mount: Mount, icb: LongAd, row: &mut [[u32; 4]]) -> Reply
    ensures { Listed words_of (ran (disc image.now) (file_extents mount icb)) row.old row.new result }
{
    list_slots(image, mount, icb, row)
}

// The same in a row of records. Programs and C are lent a row of numbers (`file_words`), and both rows hold the same,
// by `rows_agree`.
pub fn file_rows(image: &[u8], mount: Mount, icb: LongAd, row: &mut [Extent]) -> Reply
    ensures { Listed extent_of (ran (disc image.now) (file_extents mount icb)) row.old row.new result }
{
    list_slots(image, mount, icb, row)
}
