// Reads a file: its entry and its chain are resolved, its extents measured and then copied.
ghost use Rattle.std.specs.Prelude.{◌+◌, ◌≤◌, length};
ghost use Rattle.disc.specs.Ran.{ran, after};
ghost use Rattle.disc.specs.Images.{disc};
ghost use Rattle.disc.specs.Replies.{Replied};
ghost use Rattle.files.specs.Files.{file_bytes};
ghost use Rattle.files.specs.Inner.Pieces.{rest_at};
ghost use Rattle.files.specs.Inner.Wholes.{embedded_run};

use crate::extents::{copy, copy_piece, measure};
use crate::icbs::FilePlace;
use crate::resolves::{Resolved, front_of, resolve};
use chains::cursors::ChainCursor;
use disc::answers::DONE;
use disc::counts::{add_counts, lesser};
use disc::places::Mount;
use disc::refusals::Refusal;
use disc::replies::{Reply, refusal};
use records::allocations::LongAd;

// Reads a file that is embedded in its entry.
fn read_embedded(image: &[u8], p: FilePlace, out: &mut [u8], full: Refusal) -> Reply
    requires { p.at + p.size ≤ length image.now }
    ensures { Replied full (embedded_run image.now p) out.old out.new result }
{
    let n = lesser(p.size as u64, p.information);
    if (out.len() as u64) < n {
        return refusal(full.number(), 1);
    }
    copy_piece(image, p.at as u64, n, out);
    Reply {
        answer: DONE,
        count: 1,
        length: n,
    }
}

// Reads the extents of a chain that was followed to its end, after `n` sectors.
fn read_whole(
    image: &[u8],
    mount: Mount,
    kind: u8,
    first: ChainCursor,
    want: u64,
    out: &mut [u8],
    full: Refusal,
    n: u64,
) -> Reply
    requires { first.left ≤ 2048 }
    ensures { Replied full (after n (rest_at image.now mount kind first want)) out.old out.new result }
{
    match measure(image, mount, kind, first, want) {
        Err(r) => refusal(r.why.number(), add_counts(n, r.count)),
        Ok(s) => {
            let size = s.size;
            let count = add_counts(n, s.count);
            if (out.len() as u64) < size {
                return refusal(full.number(), count);
            }
            copy(image, mount, kind, first, size, out);
            Reply {
                answer: DONE,
                count: count,
                length: size,
            }
        }
    }
}

// Writes the file's bytes to the front of out. If they don't fit, the refusal is `full`, after every other.
pub fn read_file(image: &[u8], mount: Mount, icb: LongAd, out: &mut [u8], full: Refusal) -> Reply
    ensures { Replied full (ran (disc image.now) (file_bytes mount icb)) out.old out.new result }
{
    match resolve(image, mount, icb) {
        Err(r) => refusal(r.why.number(), r.count),
        Ok(Resolved::Embedded(p)) => read_embedded(image, p, out, full),
        Ok(Resolved::Chained(p, n)) => read_whole(
            image,
            mount.at_entry(icb.location.partition_ref),
            p.kind,
            front_of(p),
            p.information,
            out,
            full,
            n,
        ),
    }
}
