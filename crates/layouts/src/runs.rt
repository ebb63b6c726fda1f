// A file as runs of the image, in a lent row, a slot for each: where a read takes its bytes from. The extents are measured as a read measures
// them and the runs are counted before a slot is written; then they are stored one at a time from a listing, which is passed by value.
ghost use Rattle.std.specs.Prelude.{◌≡◌, ◌≤◌};
ghost use Rattle.disc.specs.Ran.{ran};
ghost use Rattle.disc.specs.Images.{disc};
ghost use Rattle.files.specs.Inner.Passes.{sized};
ghost use Rattle.layouts.specs.Runs.{file_runs, RunsListed};
ghost use Rattle.layouts.specs.Inner.RunLists.{runs_at, counted_by, RunsLeft, RunsPlanned, alone_by, EntryPlanned, chain_runs};

use chains::cursors::ChainCursor;
use disc::answers::DONE;
use disc::counts::add_counts;
use disc::places::Mount;
use disc::refusals::{CountedRefusal, Refusal};
use disc::replies::{Reply, refusal};
use files::icbs::FilePlace;
use files::pieces::{Turn, next_piece};
use files::resolves::{Resolved, front_of, resolve};
use records::allocations::LongAd;

// A run, as a slot gives it: a number of bytes of the image, from a place on.
#[repr(C)]
#[derive(Clone, Copy)]
pub struct Run {
    // The offset of its first byte in the image.
    pub at: u64,
    // The number of bytes, at least 1.
    pub length: u64,
}

// How many runs there are, and the sectors asked for.
#[derive(Clone, Copy)]
struct RunCount {
    runs: u64,
    count: u64,
}

// A list under way: the reply of the whole call, the next run to store, the cursor after it, and the bytes still
// wanted.
#[derive(Clone, Copy)]
struct Running {
    reply: Reply,
    mount: Mount,
    kind: u8,
    at: u64,
    length: u64,
    behind: ChainCursor,
    want: u64,
}

// A listing of at most one run, with none after it.
fn alone(mount: Mount, at: u64, length: u64, reply: Reply) -> Running
    ensures { result ≡ alone_by mount at length reply }
{
    Running {
        reply,
        mount,
        kind: 0,
        at,
        length,
        behind: ChainCursor {
            at: 0,
            left: 0,
            hops: 0,
        },
        want: 0,
    }
}

// How many runs hold the `want` bytes from a cursor on. An extent of no bytes is no run.
fn count_runs(
    image: &[u8],
    mount: Mount,
    kind: u8,
    first: ChainCursor,
    want: u64,
) -> Result<RunCount, CountedRefusal>
    requires { first.left ≤ 2048 }
    ensures { counted_by result ≡ sized 0 0 (runs_at image.now mount kind first want) }
{
    let mut c = first;
    let mut missing = want;
    let mut runs: u64 = 0;
    let mut count: u64 = 0;
    loop {
        match next_piece(image, mount, kind, c, missing) {
            Turn::End => return Ok(RunCount { runs, count }),
            Turn::Refused(why, n) => return Err(CountedRefusal {
                why,
                count: add_counts(count, n),
            }),
            Turn::Hop(next) => c = next,
            Turn::Piece {
                from: _,
                sectors,
                bytes,
                next,
            } => {
                count = add_counts(count, sectors);
                runs += bytes.min(1);
                if missing <= bytes {
                    return Ok(RunCount { runs, count });
                }
                missing -= bytes;
                c = next;
            }
        }
    }
}

// The listing from the next run on.
fn further_runs(image: &[u8], l: Running) -> Running
    ensures { RunsLeft image.now l.mount l.kind l.behind l.want l.reply result }
{
    let mount = l.mount;
    let reply = l.reply;
    let want = l.want;
    let mut c = l.behind;
    loop {
        match next_piece(image, mount, l.kind, c, want) {
            Turn::End => return alone(mount, 0, 0, reply),
            Turn::Refused(_, _) => return alone(mount, 0, 0, reply),
            Turn::Hop(next) => c = next,
            Turn::Piece {
                from,
                sectors: _,
                bytes,
                next,
            } => {
                if bytes != 0 {
                    return Running {
                        reply,
                        mount,
                        kind: l.kind,
                        at: from,
                        length: bytes,
                        behind: next,
                        want: want - bytes,
                    };
                }
                if want == 0 {
                    return alone(mount, 0, 0, reply);
                }
                c = next;
            }
        }
    }
}

// An embedded file is one run, or none if it is empty.
fn plan_entry(mount: Mount, p: FilePlace, room: usize) -> Running
    ensures { EntryPlanned p room result }
{
    let n = (p.size as u64).min(p.information);
    let runs = n.min(1);
    if (room as u64) < runs {
        return alone(mount, 0, 0, refusal(Refusal::NoSlot.number(), 1));
    }
    alone(
        mount,
        p.at as u64,
        n,
        Reply {
            answer: DONE,
            count: 1,
            length: runs,
        },
    )
}

// The runs of a chain that was followed to its end, after n sectors.
fn plan_chain(image: &[u8], mount: Mount, p: FilePlace, n: u64, room: usize) -> Running
    requires { p.size ≤ 2048 }
    ensures { RunsPlanned image.now (chain_runs image.now mount p n) room result }
{
    match count_runs(image, mount, p.kind, front_of(p), p.information) {
        Err(r) => alone(mount, 0, 0, refusal(r.why.number(), add_counts(n, r.count))),
        Ok(RunCount { runs, count: read }) => {
            let count = add_counts(n, read);
            if (room as u64) < runs {
                return alone(mount, 0, 0, refusal(Refusal::NoSlot.number(), count));
            }
            let reply = Reply {
                answer: DONE,
                count,
                length: runs,
            };
            let all = Running {
                reply,
                mount,
                kind: p.kind,
                at: 0,
                length: 0,
                behind: front_of(p),
                want: p.information,
            };
            further_runs(image, all)
        }
    }
}

// The listing of a file for `room` slots. Every refusal is known, and the runs fit.
fn plan_runs(image: &[u8], mount: Mount, icb: LongAd, room: usize) -> Running
    ensures { RunsPlanned image.now (ran (disc image.now) (file_runs mount icb)) room result }
{
    match resolve(image, mount, icb) {
        Err(r) => alone(mount, 0, 0, refusal(r.why.number(), r.count)),
        Ok(Resolved::Embedded(p)) => plan_entry(mount, p, room),
        Ok(Resolved::Chained(p, n)) => {
            plan_chain(
                image,
                mount.at_entry(icb.location.partition_ref),
                p,
                n,
                room,
            )
        }
    }
}

// Lists place and length of each run of the image that a read takes its bytes from, in reading order and cut as the
// read is cut, a pair to a slot. Refused by 7, after every other refusal, if there are more runs than slots.
pub fn file_runs(image: &[u8], mount: Mount, icb: LongAd, row: &mut [[u64; 2]]) -> Reply
    ensures { RunsListed (ran (disc image.now) (file_runs mount icb)) row.old row.new result }
{
    let mut l = plan_runs(image, mount, icb, row.len());
    let n = l.reply.length as usize;
    for i in 0..n {
        row[i] = [l.at, l.length];
        l = further_runs(image, l);
    }
    l.reply
}
