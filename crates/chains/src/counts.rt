// How much of a chain is left at a cursor, counted in place in the image.
ghost use Rattle.chains.specs.Inner.Walks.{Counts};

use crate::cursors::{ChainCursor, ChainStep, advance};
use disc::counts::add_counts;
use disc::places::Mount;

#[derive(Clone, Copy)]
pub struct Counted {
    pub extents: u64,
    pub hops: u8,
}

// How many extents are left at a cursor, capped at 2^64 - 1, and how many more areas could follow the last one.
pub fn count_left(image: &[u8], mount: Mount, kind: u8, first: ChainCursor) -> Counted
    ensures { Counts image.now mount kind first result }
{
    let mut c = first;
    let mut n: u64 = 0;
    loop {
        match advance(image, mount, kind, c) {
            ChainStep::Ends => {
                return Counted {
                    extents: n,
                    hops: c.hops,
                }
            }
            ChainStep::Hops(next) => c = next,
            ChainStep::Takes(_, next) => {
                n = add_counts(n, 1);
                c = next;
            }
        }
    }
}
