// A directory's bytes in the work space.
ghost use Rattle.std.specs.Prelude.{length};
ghost use Rattle.disc.specs.Ran.{ran};
ghost use Rattle.disc.specs.Images.{disc};
ghost use Rattle.directories.specs.Directories.{directory_bytes};
ghost use Rattle.directories.specs.Inner.Spaces.{Reads};

use disc::places::Mount;
use disc::refusals::Refusal;
use disc::replies::Reply;
use files::reads::read_file;
use records::allocations::LongAd;

// Reads the directory at icb over the front of the work space, and leaves it there.
pub fn read_directory(image: &[u8], mount: Mount, icb: LongAd, work: &mut [u8]) -> Reply
    ensures { Reads (ran (disc image.now) (directory_bytes mount (length work.old) icb)) work.old work.new result }
{
    read_file(image, mount, icb, work, Refusal::NoWork)
}
