// A file's entry, found from its ICB: the parts of it that a call needs.
ghost use Rattle.std.specs.Prelude.{◌≡◌, ◌+◌, ◌≤◌, ◌<◌, ◌^◌, length};
ghost use Rattle.files.specs.Inner.Places.{place_from, place_of};
ghost use Rattle.files.specs.Inner.Wholes.{place_in};

use disc::images::{held_from, sector_at};
use disc::places::{Block, Mount, Sector};
use disc::refusals::{CountedRefusal, Refusal};
use entries::file_entries::FileEntry;
use records::allocations::LongAd;

// The kind of its descriptors, its information length, and where its area of descriptors, or the file itself, is in
// the image.
#[derive(Clone, Copy)]
pub struct FilePlace {
    pub kind: u8,
    pub information: u64,
    pub at: usize,
    pub size: usize,
}

// The entry at the front of the sector `s`, which stands at `from` in the image.
fn place_in(check: bool, s: &[u8], from: usize) -> Result<FilePlace, CountedRefusal>
    requires { (length s.now ≤ 2048) × (from + 2048 < 2 ^ 64) }
    ensures { result ≡ place_in check s.now from }
{
    match FileEntry::parse(check, s) {
        Err(why) => Err(CountedRefusal { why: why, count: 1 }),
        Ok(e) => Ok(FilePlace {
            kind: e.kind,
            information: e.information_length,
            at: from + e.area_at,
            size: e.area_length,
        }),
    }
}

// The entry in a sector of the disc.
fn place_from(image: &[u8], check: bool, sector: Sector) -> Result<FilePlace, CountedRefusal>
    requires { sector.0 < 2 ^ 33 }
    ensures { result ≡ place_from image.now check sector.0 }
{
    if held_from(image, sector) == 0 {
        return Err(CountedRefusal {
            why: Refusal::Io,
            count: 1,
        });
    }
    place_in(check, sector_at(image, sector), (2048 * sector.0) as usize)
}

// The entry that an ICB names. Its block is asked for and parsed if its partition reference is one of this volume.
// The ICB's type isn't looked at.
pub(crate) fn locate(image: &[u8], mount: Mount, icb: LongAd) -> Result<FilePlace, CountedRefusal>
    ensures { result ≡ place_of image.now mount icb }
{
    if icb.length == 0 {
        return Err(CountedRefusal {
            why: Refusal::Malformed,
            count: 0,
        });
    }
    let at = icb.location;
    match mount.icb_placed(at.partition_ref, Block(at.block)) {
        None => Err(CountedRefusal {
            why: Refusal::Unsupported,
            count: 0,
        }),
        Some(sector) => place_from(image, mount.is_checked(), sector),
    }
}
