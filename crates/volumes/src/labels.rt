// The label of a volume.
ghost use Rattle.std.specs.Prelude.{◌≡◌};
ghost use Rattle.disc.specs.declared.refusals.Refusal.TheVariants.{NoRoom};
ghost use Rattle.disc.specs.Ran.{ran};
ghost use Rattle.disc.specs.Images.{disc};
ghost use Rattle.disc.specs.Replies.{Replied};
ghost use Rattle.volumes.specs.Labels.{labelling};

use crate::openings::{How, open_volume};
use disc::answers::DONE;
use disc::replies::{Reply, refusal};
use names::fields::write_field;

// Opens an image and writes the name in its label, as UTF-8, over the front of out.
pub fn label(image: &[u8], how: How, out: &mut [u8]) -> Reply
    ensures { Replied NoRoom (ran (disc image.now) (labelling how)) out.old out.new result }
{
    let opened = open_volume(image, how);
    if opened.answer != DONE {
        return refusal(opened.answer, opened.count);
    }
    let label = opened.volume.label;
    let r = write_field(&label, out);
    Reply {
        answer: r.answer,
        count: opened.count,
        length: r.length,
    }
}
