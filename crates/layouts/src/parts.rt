// The bytes of an embedded file without a copy: their place in the lent image, and the part of it.
ghost use Rattle.std.specs.Prelude.{◌≡◌};
ghost use Rattle.disc.specs.Ran.{ran};
ghost use Rattle.disc.specs.Images.{disc};
ghost use Rattle.files.specs.Files.{file_part};
ghost use Rattle.layouts.specs.Calls.{part_in, part_reply, PartReplied};

use disc::answers::DONE;
use disc::places::Mount;
use disc::replies::{Reply, refusal};
use files::resolves::{Resolved, resolve};
use records::allocations::LongAd;

// How many bytes of an embedded file are read, and in `at` their place in the image; zeros for any other file and on
// a refusal.
pub fn part_at(image: &[u8], mount: Mount, icb: LongAd, at: &mut usize) -> Reply
    ensures value { result ≡ part_reply (ran (disc image.now) (file_part mount icb)) }
    ensures at_after { at.new ≡ (part_in (ran (disc image.now) (file_part mount icb)).outcome).at }
{
    *at = 0;
    match resolve(image, mount, icb) {
        Err(r) => refusal(r.why.number(), r.count),
        Ok(Resolved::Chained(_, n)) => Reply {
            answer: DONE,
            count: n,
            length: 0,
        },
        Ok(Resolved::Embedded(p)) => {
            *at = p.at;
            Reply {
                answer: DONE,
                count: 1,
                length: (p.size as u64).min(p.information),
            }
        }
    }
}

// The same bytes, as a part of the image; empty for any other file and on a refusal. `answer` and `count` are set to
// the answer number and the count of sectors.
pub fn file_part<'i>(
    image: &'i [u8],
    mount: Mount,
    icb: LongAd,
    answer: &mut u64,
    count: &mut u64,
) -> &'i [u8]
    ensures { PartReplied (ran (disc image.now) (file_part mount icb)) result.now answer.new count.new }
{
    let mut at = 0;
    let reply = part_at(image, mount, icb, &mut at);
    *answer = reply.answer;
    *count = reply.count;
    let end = at + reply.length as usize;
    &image[at..end]
}
