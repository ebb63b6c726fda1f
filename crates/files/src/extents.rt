// A file's extents in two passes: measured, with the refusals and the count; then copied, which can't fail.
ghost use Rattle.std.specs.Prelude.{◌≡◌, ◌++◌, ◌-◌, ◌≤◌, length, take, drop};
ghost use Rattle.files.specs.Inner.Pieces.{rest_at};
ghost use Rattle.files.specs.Inner.Passes.{Measures, Copied};

use crate::pieces::{Turn, next_piece};
use chains::cursors::ChainCursor;
use disc::counts::add_counts;
use disc::places::Mount;
use disc::refusals::CountedRefusal;

// What extents come to: their bytes, the sectors asked for, how many extents were begun, and the cursor after the
// last of them.
#[derive(Clone, Copy)]
pub(crate) struct Sizes {
    pub size: u64,
    pub count: u64,
    pub visits: u64,
    pub behind: ChainCursor,
}

// Measures the extents from a cursor on, for `want` bytes. A refusal has the sectors asked for with it.
pub(crate) fn measure(
    image: &[u8],
    mount: Mount,
    kind: u8,
    first: ChainCursor,
    want: u64,
) -> Result<Sizes, CountedRefusal>
    requires { first.left ≤ 2048 }
    ensures { Measures image.now mount kind first want result }
{
    let mut c = first;
    let mut size: u64 = 0;
    let mut count: u64 = 0;
    let mut visits: u64 = 0;
    loop {
        match next_piece(image, mount, kind, c, want - size) {
            Turn::End => return Ok(Sizes {
                size,
                count,
                visits,
                behind: c,
            }),
            Turn::Refused(why, n) => return Err(CountedRefusal {
                why,
                count: add_counts(count, n),
            }),
            Turn::Hop(next) => c = next,
            Turn::Piece {
                from: _,
                sectors,
                bytes,
                next,
            } => {
                count = add_counts(count, sectors);
                size += bytes;
                visits += 1;
                if want <= size {
                    return Ok(Sizes {
                        size,
                        count,
                        visits,
                        behind: next,
                    });
                }
                c = next;
            }
        }
    }
}

// Copies n bytes of the image from `from` on to the front of out. If n is 0, `from` may lie past the image.
pub(crate) fn copy_piece(image: &[u8], from: u64, n: u64, out: &mut [u8])
    requires { (n ≤ length image.now - from) × (n ≤ length out.old) }
    ensures { out.new ≡ take n (drop from image.now) ++ drop n out.old }
{
    if n == 0 {
        return;
    }
    let at = from as usize;
    let end = at + n as usize;
    disc::moves::copy(&image[at..end], out);
}

// Writes at most `want` bytes of the extents to the front of out, one extent after another. They were measured with
// an earlier look at the image, which isn't relied on: whatever the image holds by now, nothing after `want` bytes is
// written.
pub(crate) fn copy(
    image: &[u8],
    mount: Mount,
    kind: u8,
    first: ChainCursor,
    want: u64,
    out: &mut [u8],
)
    requires { want ≤ length out.old }
    ensures { Copied (rest_at image.now mount kind first want) want out.old out.new }
{
    let mut c = first;
    let mut filled: usize = 0;
    loop {
        match next_piece(image, mount, kind, c, want - filled as u64) {
            Turn::End => return,
            Turn::Refused(_, _) => return,
            Turn::Hop(next) => c = next,
            Turn::Piece {
                from,
                sectors: _,
                bytes,
                next,
            } => {
                copy_piece(image, from, bytes, &mut out[filled..]);
                filled += bytes as usize;
                if want <= filled as u64 {
                    return;
                }
                c = next;
            }
        }
    }
}
