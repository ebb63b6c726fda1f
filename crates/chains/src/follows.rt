// A chain followed to its end.
ghost use Rattle.chains.specs.Inner.Follows.{Followed};

use crate::continuations::{NextArea, next_area};
use crate::cursors::ChainCursor;
use areas::{AdCursor, AdEnding, ending_of};
use disc::places::Mount;
use disc::refusals::{CountedRefusal, Refusal};

// Follows a chain to its end: the sectors asked for, also in a refusal.
pub fn follow(
    image: &[u8],
    mount: Mount,
    kind: u8,
    first: ChainCursor,
) -> Result<u64, CountedRefusal>
    ensures { Followed image.now mount kind first result }
{
    let mut c = first;
    let mut count: u64 = 0;
    loop {
        let here = AdCursor {
            at: c.at,
            left: c.left,
        };
        match ending_of(image, kind, here) {
            AdEnding::End => return Ok(count),
            AdEnding::Refused(why) => return Err(CountedRefusal {
                why: why,
                count: count,
            }),
            AdEnding::Continuation(a) => {
                let hops = c.hops;
                if hops == 0 {
                    return Err(CountedRefusal {
                        why: Refusal::Malformed,
                        count: count,
                    });
                }
                match next_area(image, mount, a) {
                    Err(r) => {
                        return Err(CountedRefusal {
                            why: r.why,
                            count: count + r.count,
                        });
                    }
                    Ok(NextArea { at, size, sectors }) => {
                        count += sectors;
                        c = ChainCursor {
                            at: at,
                            left: size,
                            hops: hops - 1,
                        };
                    }
                }
            }
        }
    }
}
