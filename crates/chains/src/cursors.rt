// A cursor over a file's allocation descriptors, through all areas of its chain. It stands for the extents that are
// left, and is used only once the chain was followed without a refusal.
ghost use Rattle.std.specs.Prelude.{◌≡◌, ◌≤◌, ◌<◌, ◌^◌};
ghost use Rattle.std.specs.Prelude.{Some};
ghost use Rattle.chains.specs.Inner.Walks.{hop_to, hopping, step_of};

use areas::{AdContinuation, AdCursor, AdStep, AllocExtent, next_ad};
use disc::places::{Mount, Sector};
use records::bytes::le32;

// `left` bytes of descriptors are left from `at` on; `hops` more areas may follow.
#[derive(Clone, Copy)]
pub struct ChainCursor {
    pub at: usize,
    pub left: usize,
    pub hops: u8,
}

#[derive(Clone, Copy)]
pub enum ChainStep {
    Takes(AllocExtent, ChainCursor),
    Hops(ChainCursor),
    Ends,
}

// Hops to the area in the sectors from `first` on, past its header of 24 bytes.
fn hop_to(image: &[u8], first: Sector, hops: u8) -> ChainStep
    requires { (first.0 < 2 ^ 33) × (1 ≤ hops) }
    ensures { result ≡ hop_to image.now (Some first.0) hops }
{
    let place = (2048 * first.0) as usize;
    let size = le32(image, place + 20);
    ChainStep::Hops(ChainCursor {
        at: place + 24,
        left: size as usize,
        hops: hops - 1,
    })
}

// Follows a continuation, unless no hop is left.
fn hop(image: &[u8], mount: Mount, a: AdContinuation, hops: u8) -> ChainStep
    ensures { result ≡ hopping image.now mount a hops }
{
    if hops == 0 {
        return ChainStep::Ends;
    }
    let reference = a.partition_ref;
    let block = a.block;
    match mount.placed(reference, block) {
        None => ChainStep::Ends,
        Some(first) => hop_to(image, first, hops),
    }
}

// The next step of a walk: an extent, another area, or the end.
pub fn advance(image: &[u8], mount: Mount, kind: u8, c: ChainCursor) -> ChainStep
    ensures { result ≡ step_of image.now mount kind c }
{
    let here = AdCursor {
        at: c.at,
        left: c.left,
    };
    match next_ad(image, kind, here) {
        AdStep::End => ChainStep::Ends,
        AdStep::Refused(_) => ChainStep::Ends,
        AdStep::Extent(e, next) => ChainStep::Takes(
            e,
            ChainCursor {
                at: next.at,
                left: next.left,
                hops: c.hops,
            },
        ),
        AdStep::Continuation(a) => hop(image, mount, a, c.hops),
    }
}
