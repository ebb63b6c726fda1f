// A directory listed.
ghost use Rattle.std.specs.Prelude.{◌≡◌, length, replicate};
ghost use Rattle.disc.specs.Ran.{ran};
ghost use Rattle.disc.specs.Images.{disc};
ghost use Rattle.disc.specs.Replies.{Replied};
ghost use Rattle.disc.specs.declared.refusals.Refusal.TheVariants.{NoRoom};
ghost use Rattle.directories.specs.Directories.{listing_at};

use crate::spaces::read_directory;
use disc::answers::DONE;
use disc::moves::clear;
use disc::places::Mount;
use disc::replies::Reply;
use listings::listing::list;
use records::allocations::LongAd;

// The listing, with the directory's bytes left in the work space.
fn list_read(image: &[u8], mount: Mount, icb: LongAd, out: &mut [u8], work: &mut [u8]) -> Reply
    ensures { Replied NoRoom (ran (disc image.now) (listing_at mount (length work.old) icb)) out.old out.new result }
{
    let read = read_directory(image, mount, icb, work);
    if read.answer != DONE {
        return read;
    }
    let n = read.length as usize;
    let check = mount.is_checked();
    let listed = list(check, &work[0..n], out);
    Reply {
        answer: listed.answer,
        count: read.count,
        length: listed.length,
    }
}

// Writes the listing of the directory at icb over the front of out. The work space is all zero on return.
pub fn list_directory(
    image: &[u8],
    mount: Mount,
    icb: LongAd,
    out: &mut [u8],
    work: &mut [u8],
) -> Reply
    ensures replied { Replied NoRoom (ran (disc image.now) (listing_at mount (length work.old) icb)) out.old out.new result }
    ensures work_after { work.new ≡ replicate (length work.old) 0 }
{
    let reply = list_read(image, mount, icb, out, work);
    clear(work);
    reply
}
