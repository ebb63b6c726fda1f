// The area that continues another, found in place in the image.
ghost use Rattle.std.specs.Prelude.{◌<◌, ◌^◌};
ghost use Rattle.chains.specs.Inner.Follows.{Reaches, ReachesFrom};

use areas::AdContinuation;
use disc::images::{held_from, run_part, sectors_for};
use disc::places::{Mount, Sector};
use disc::refusals::{CountedRefusal, Refusal};
use tags::AllocationExtentDescriptor;

// Where the area is, its size, and the sectors asked for.
#[derive(Clone, Copy)]
pub struct NextArea {
    pub at: usize,
    pub size: usize,
    pub sectors: u64,
}

// A continuation has at least its header, and at most LONGEST bytes.
pub const HEADER: u32 = 24;

pub const LONGEST: u32 = 1048576;

// The area in `length` bytes from sector `first` on, checked in the order of the rules. Its sectors are contiguous in
// the image, so nothing is copied.
fn area_from(
    image: &[u8],
    check: bool,
    length: u32,
    first: Sector,
) -> Result<NextArea, CountedRefusal>
    requires { first.0 < 2 ^ 33 }
    ensures { ReachesFrom check image.now length first.0 result }
{
    if length < HEADER {
        return Err(CountedRefusal {
            why: Refusal::Malformed,
            count: 0,
        });
    }
    if LONGEST < length {
        return Err(CountedRefusal {
            why: Refusal::Unsupported,
            count: 0,
        });
    }
    let n = sectors_for(length);
    let held = held_from(image, first);
    if held < n {
        return Err(CountedRefusal {
            why: Refusal::Io,
            count: held + 1,
        });
    }
    match AllocationExtentDescriptor::parse(check, run_part(image, first, n)) {
        Err(why) => Err(CountedRefusal { why: why, count: n }),
        Ok(h) => {
            let size = h.length_of_allocation_descriptors;
            if (length as u64) < 24 + size as u64 {
                return Err(CountedRefusal {
                    why: Refusal::Malformed,
                    count: n,
                });
            }
            Ok(NextArea {
                at: (2048 * first.0) as usize + 24,
                size: size as usize,
                sectors: n,
            })
        }
    }
}

// The area that a continuation leads to. One in a foreign partition is refused before the other checks.
pub(crate) fn next_area(
    image: &[u8],
    mount: Mount,
    a: AdContinuation,
) -> Result<NextArea, CountedRefusal>
    ensures { Reaches image.now mount a result }
{
    let reference = a.partition_ref;
    let block = a.block;
    match mount.placed(reference, block) {
        None => Err(CountedRefusal {
            why: Refusal::Unsupported,
            count: 0,
        }),
        Some(first) => area_from(image, mount.is_checked(), a.length, first),
    }
}
