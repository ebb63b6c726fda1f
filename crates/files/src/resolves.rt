// A file's entry and its chain, which are read before anything else of the file.
ghost use Rattle.std.specs.Prelude.{◌≡◌};
ghost use Rattle.files.specs.Inner.Wholes.{front_of, Resolves};

use crate::icbs::{FilePlace, locate};
use chains::cursors::ChainCursor;
use chains::follows::follow;
use disc::places::Mount;
use disc::refusals::CountedRefusal;
use records::allocations::LongAd;

// The file is embedded in its entry; or in the extents of its chain, which was followed to its end. The number is the
// sectors asked for.
#[derive(Clone, Copy)]
pub enum Resolved {
    Embedded(FilePlace),
    Chained(FilePlace, u64),
}

// The kind of an entry that holds the file itself.
pub const EMBEDDED: u8 = 3;

// At most this many continuations are followed.
pub const MOST_CONTINUATIONS: u8 = 32;

// The cursor at the start of a file's chain.
pub fn front_of(p: FilePlace) -> ChainCursor
    ensures { result ≡ front_of p }
{
    ChainCursor {
        at: p.at,
        left: p.size,
        hops: MOST_CONTINUATIONS,
    }
}

pub fn resolve(image: &[u8], mount: Mount, icb: LongAd) -> Result<Resolved, CountedRefusal>
    ensures { Resolves image.now mount icb result }
{
    let p = locate(image, mount, icb)?;
    if p.kind == EMBEDDED {
        return Ok(Resolved::Embedded(p));
    }
    let own = mount.at_entry(icb.location.partition_ref);
    match follow(image, own, p.kind, front_of(p)) {
        Err(r) => Err(CountedRefusal {
            why: r.why,
            count: r.count + 1,
        }),
        Ok(n) => Ok(Resolved::Chained(p, n + 1)),
    }
}
