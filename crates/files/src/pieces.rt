// The next piece of a file: what the next extent at a cursor gives, found in place in the image.
ghost use Rattle.std.specs.Prelude.{◌≡◌, ◌<◌, ◌^◌};
ghost use Rattle.files.specs.Inner.Pieces.{sectors_read, weighed_at};
ghost use Rattle.files.specs.Inner.Turns.{weighed_of, turn_at};

use areas::AllocExtent;
use chains::cursors::{ChainCursor, ChainStep, advance};
use disc::counts::lesser;
use disc::images::{held_from, sectors_for};
use disc::places::{Mount, Sector};
use disc::refusals::{CountedRefusal, Refusal};

// What an extent gives: where it is in the image, the sectors read and the bytes.
#[derive(Clone, Copy)]
pub(crate) struct Piece {
    pub from: u64,
    pub sectors: u64,
    pub bytes: u64,
}

// What one turn of the walk along a chain gives.
#[derive(Clone, Copy)]
pub enum Turn {
    Piece {
        from: u64,
        sectors: u64,
        bytes: u64,
        next: ChainCursor,
    },
    Hop(ChainCursor),
    Refused(Refusal, u64),
    End,
}

// How many sectors of an extent of `size` bytes are read for `want` bytes. The first, if there is one, is read even
// if `want` is 0.
fn sectors_read(size: u32, want: u64) -> u64
    ensures { result ≡ sectors_read size want }
{
    if want == 0 {
        return sectors_for(lesser(size as u64, 1) as u32);
    }
    sectors_for(lesser(size as u64, want) as u32)
}

// An extent of `size` bytes from sector `first` on, measured by one division: the image is one slice, so its sectors
// are all there exactly when the last one is.
fn weigh_at(image: &[u8], first: Sector, size: u32, want: u64) -> Result<Piece, CountedRefusal>
    requires { first.0 < 2 ^ 33 }
    ensures { result ≡ weighed_at image.now first.0 size want }
{
    let n = sectors_read(size, want);
    let held = held_from(image, first);
    if held < n {
        return Err(CountedRefusal {
            why: Refusal::Io,
            count: held + 1,
        });
    }
    Ok(Piece {
        from: 2048 * first.0,
        sectors: n,
        bytes: lesser(size as u64, want),
    })
}

// What an extent gives. It must be recorded, and on this volume.
fn weigh(image: &[u8], mount: Mount, e: AllocExtent, want: u64) -> Result<Piece, CountedRefusal>
    ensures { result ≡ weighed_of image.now mount e want }
{
    let unsupported = CountedRefusal {
        why: Refusal::Unsupported,
        count: 0,
    };
    if e.extent_type != 0 {
        return Err(unsupported);
    }
    match mount.placed(e.partition_ref, e.block) {
        None => Err(unsupported),
        Some(first) => weigh_at(image, first, e.length, want),
    }
}

// The next turn of the walk from c on, with `want` bytes still wanted.
pub fn next_piece(image: &[u8], mount: Mount, kind: u8, c: ChainCursor, want: u64) -> Turn
    ensures { result ≡ turn_at image.now mount kind c want }
{
    match advance(image, mount, kind, c) {
        ChainStep::Ends => Turn::End,
        ChainStep::Hops(next) => Turn::Hop(next),
        ChainStep::Takes(e, next) => match weigh(image, mount, e, want) {
            Err(r) => Turn::Refused(r.why, r.count),
            Ok(
                Piece {
                    from,
                    sectors,
                    bytes,
                },
            ) => Turn::Piece {
                from: from,
                sectors: sectors,
                bytes: bytes,
                next: next,
            },
        },
    }
}
