// Measures a file without copying it: what a read would answer, and how long its chain is.
ghost use Rattle.std.specs.Prelude.{◌≡◌, ◌≤◌};
ghost use Rattle.disc.specs.Ran.{ran};
ghost use Rattle.disc.specs.Images.{disc};
ghost use Rattle.disc.specs.Replies.{measured_of};
ghost use Rattle.files.specs.Files.{file_bytes};
ghost use Rattle.files.specs.Sizes.{sizes_of};
ghost use Rattle.files.specs.Inner.Weighings.{uncounted_by, WeighsChain, WeighsFile};

use crate::extents::measure;
use crate::icbs::FilePlace;
use crate::resolves::{MOST_CONTINUATIONS, Resolved, front_of, resolve};
use chains::counts::count_left;
use chains::cursors::ChainCursor;
use disc::answers::DONE;
use disc::counts::{add_counts, lesser};
use disc::places::Mount;
use disc::replies::{Reply, refusal};
use records::allocations::LongAd;

// The reply of a read with room enough, the extents of the whole chain, and the continuations followed.
#[derive(Clone, Copy)]
pub struct FileSizes {
    pub reply: Reply,
    pub extents: u64,
    pub hops: u64,
}

// A file measured as far as a read goes: the reply, the extents begun, the cursor after them, and how the entry's
// descriptors are read.
#[derive(Clone, Copy)]
struct Weighing {
    reply: Reply,
    visits: u64,
    mount: Mount,
    kind: u8,
    behind: ChainCursor,
}

// With no chain to count: the cursor is at its end.
fn uncounted(mount: Mount, reply: Reply) -> Weighing
    ensures { result ≡ uncounted_by mount reply }
{
    Weighing {
        reply,
        visits: 0,
        mount,
        kind: 0,
        behind: ChainCursor {
            at: 0,
            left: 0,
            hops: MOST_CONTINUATIONS,
        },
    }
}

// The extents of a chain that was followed to its end, after `n` sectors.
fn weigh_whole(image: &[u8], mount: Mount, p: FilePlace, n: u64) -> Weighing
    requires { p.size ≤ 2048 }
    ensures { WeighsChain image.now mount p n result }
{
    match measure(image, mount, p.kind, front_of(p), p.information) {
        Err(r) => uncounted(mount, refusal(r.why.number(), add_counts(n, r.count))),
        Ok(s) => {
            let behind = s.behind;
            let reply = Reply {
                answer: DONE,
                count: add_counts(n, s.count),
                length: s.size,
            };
            Weighing {
                reply,
                visits: s.visits,
                mount,
                kind: p.kind,
                behind,
            }
        }
    }
}

// The file up to where a read of it would stop.
fn weigh_file(image: &[u8], mount: Mount, icb: LongAd) -> Weighing
    ensures { WeighsFile image.now mount icb result }
{
    match resolve(image, mount, icb) {
        Err(r) => uncounted(mount, refusal(r.why.number(), r.count)),
        Ok(Resolved::Embedded(p)) => uncounted(
            mount,
            Reply {
                answer: DONE,
                count: 1,
                length: lesser(p.size as u64, p.information),
            },
        ),
        Ok(Resolved::Chained(p, n)) => {
            weigh_whole(image, mount.at_entry(icb.location.partition_ref), p, n)
        }
    }
}

// What a read of the file would answer with room enough; nothing is written.
pub fn measure_file(image: &[u8], mount: Mount, icb: LongAd) -> Reply
    ensures { result ≡ measured_of (ran (disc image.now) (file_bytes mount icb)) }
{
    let w = weigh_file(image, mount, icb);
    w.reply
}

// The same with the extents of its whole chain and the continuations followed, in one walk after the one that
// resolves it. Both are 0 if the read is refused or the file is embedded.
pub fn size_file(image: &[u8], mount: Mount, icb: LongAd) -> FileSizes
    ensures { result ≡ sizes_of (disc image.now) mount icb }
{
    let w = weigh_file(image, mount, icb);
    let reply = w.reply;
    let own = w.mount;
    let behind = w.behind;
    let rest = count_left(image, own, w.kind, behind);
    FileSizes {
        reply,
        extents: w.visits + rest.extents,
        hops: (MOST_CONTINUATIONS - rest.hops) as u64,
    }
}
