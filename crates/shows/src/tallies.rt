// What an entry of the tree adds to the figures of its image.
ghost use Rattle.std.specs.Prelude.{◌≡◌};
ghost use Rattle.disc.specs.Images.{disc};
ghost use Rattle.records.specs.Allocations.{long_of};
ghost use Rattle.shows.specs.Inner.Placings.{file_placed, entry_placed};

use disc::places::Mount;
use figures::{PLACE, add_directory, add_file, sectors_in};
use files::sizes::size_file;
use records::allocations::{LongAd, long_at};

// Adds the file at icb, and what reading it comes to. Once the reads have asked for more than `most` sectors, no more
// are made: the image is over its budget, whatever the others come to.
fn tally_file(image: &[u8], mount: Mount, icb: LongAd, most: u64, tally: &mut [u64])
    ensures { tally.new ≡ file_placed (disc image.now) mount most icb tally.old }
{
    if most < sectors_in(tally) {
        return;
    }
    let s = size_file(image, mount, icb);
    let r = s.reply;
    add_file(tally, r.answer, r.length, s.extents, r.count, s.hops);
}

// The entry at the front of s: a directory, or the file at its ICB, which is looked at for that alone. Lent no place, nothing is tallied.
pub(crate) fn tally_entry(
    image: &[u8],
    mount: Mount,
    directory: bool,
    s: &[u8],
    most: u64,
    tally: &mut [u64],
)
    ensures { tally.new ≡ entry_placed (disc image.now) mount most directory (long_of s.now 20) tally.old }
{
    if tally.len() != PLACE {
        return;
    }
    if directory {
        add_directory(tally);
        return;
    }
    tally_file(image, mount, long_at(s, 20), most, tally);
}
