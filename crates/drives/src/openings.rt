// The old opening, a sector at a time. The state is passed by value: it stands for a place in the opening's tree of questions, and a step takes one
// branch of it.
ghost use Rattle.std.specs.Prelude.{◌≡◌, true, ◌+◌, ◌<◌};
ghost use Rattle.volumes.specs.Sequences.{nothing};
ghost use Rattle.volumes.specs.Openings.{usual, opening, anchored, no_volume};
ghost use Rattle.drives.specs.Openings.{opening_over, is_wanting, wanted_sector, mounting_from, scanning, behind_sector, behind_wanted, Fed, OpeningStands};
ghost use Rattle.drives.specs.Beginnings.{at_anchor};

use descriptors::anchors::AnchorVolumeDescriptorPointer;
use disc::answers::{DONE, IO, UNSUPPORTED};
use disc::counts::add_counts;
use disc::places::Block;
use disc::refusals::Refusal;
use volumes::mounts::plain_mount;
use volumes::openings::{How, Opened, kept_answer, refused, volume_in};
use volumes::sequences::{Kept, SectorTurn, Wanted, nothing_kept, take_sector};

// The anchor stands in this sector.
const ANCHOR: u64 = 256;

// The phases of an opening: what it wants, and the one in which it has ended.
const WANTS_ANCHOR: u8 = 0;

const WANTS_SEQUENCE: u8 = 1;

const WANTS_FILE_SET: u8 = 2;

const OPENING_OVER: u8 = 3;

// No run of sectors reaches beyond this.
pub(crate) const MOST_SECTORS: u64 = 0x1000_0000_0000;

// An opening in progress.
#[repr(C)]
#[derive(Clone, Copy)]
pub struct Opening {
    // What is wanted: 0, the anchor; 1, a sector of the sequence; 2, the file set descriptor. To find out whether the
    // opening has ended, call is_wanting; don't look at the phase: a state made by hand may have ended in any phase.
    pub phase: u8,
    // The sector wanted.
    pub at: u64,
    // The number of sectors of the sequence after it.
    pub left: u32,
    // What was kept of the descriptors so far.
    pub kept: Kept,
    // The answer, how many sectors were wanted and have come or could not be read, and the volume. All zero, except the
    // count, until the opening has ended.
    pub opened: Opened,
}

// A place that wants a sector, after `count` of them.
fn wanting(phase: u8, at: u64, left: u32, kept: Kept, count: u64) -> Opening
    ensures { result ≡ record { phase = phase; at = at; left = left; kept = kept; opened = record { answer = 0; count = count; volume = no_volume } } }
{
    Opening {
        phase,
        at,
        left,
        kept,
        opened: refused(DONE, count),
    }
}

// The end.
fn over(opened: Opened) -> Opening
    ensures { (result.phase ≡ opening_over) × (result.opened ≡ opened) }
{
    Opening {
        phase: OPENING_OVER,
        at: 0,
        left: 0,
        kept: nothing_kept(),
        opened,
    }
}

// Behind the sequence: whether what was kept leads to a file set descriptor, and where that stands.
fn behind_sequence(kept: Kept, count: u64) -> Opening
    ensures { OpeningStands (mounting_from kept) count result }
{
    if let Err(why) = kept_answer(kept) {
        return over(refused(why.number(), count));
    }
    let place = kept.file_set.location;
    let mount = plain_mount(false, kept);
    match mount.placed(Some(place.partition_ref), Block(place.block)) {
        None => over(refused(UNSUPPORTED, count)),
        Some(sector) => wanting(WANTS_FILE_SET, sector.0, 0, kept, count),
    }
}

// A sequence of n sectors from `first` on: its first sector, if it has one.
fn begin_sequence(first: u32, n: u32, count: u64) -> Opening
    ensures { OpeningStands (scanning nothing n first) count result }
{
    let kept = nothing_kept();
    if n == 0 {
        return behind_sequence(kept, count);
    }
    wanting(WANTS_SEQUENCE, first as u64, n - 1, kept, count)
}

// Behind the anchor: its main sequence.
fn behind_anchor(anchor: Result<AnchorVolumeDescriptorPointer, Refusal>, count: u64) -> Opening
    ensures { OpeningStands (anchored usual anchor) count result }
{
    match anchor {
        Err(why) => over(refused(why.number(), count)),
        Ok(a) => {
            let main = a.main_volume_descriptor_sequence;
            begin_sequence(main.location, main.length / 2048, count)
        }
    }
}

// Behind a sector of the sequence, which stands at `at` and has `left` sectors behind it.
fn behind_sector(kept: Kept, at: u64, left: u32, b: &[u8], count: u64) -> Opening
    requires { at + left < 0x1000_0000_0000 }
    ensures { OpeningStands (behind_sector kept left at b.now) count result }
{
    match take_sector(How::usual(), Wanted::Any, kept, b) {
        SectorTurn::GoesOn(next) => {
            if left == 0 {
                return behind_sequence(next, count);
            }
            wanting(WANTS_SEQUENCE, at + 1, left - 1, next, count)
        }
        SectorTurn::Over(next) => behind_sequence(next, count),
        SectorTurn::Fails(why) => over(refused(why.number(), count)),
    }
}

impl Opening {
    // Before the anchor.
    pub fn start() -> Opening
        ensures opening_stands { OpeningStands (opening usual) 0 result }
        ensures value { result ≡ at_anchor }
    {
        wanting(WANTS_ANCHOR, ANCHOR, 0, nothing_kept(), 0)
    }

    // Whether a sector is wanted; else it has ended.
    pub fn is_wanting(self) -> bool
        ensures { result ≡ is_wanting self }
    {
        if OPENING_OVER <= self.phase {
            return false;
        }
        if MOST_SECTORS <= self.at {
            return false;
        }
        self.at + (self.left as u64) < MOST_SECTORS
    }

    // The sector that is wanted, 0 where it has ended.
    pub fn wants(self) -> u64
        ensures { result ≡ wanted_sector self }
    {
        if !self.is_wanting() {
            return 0;
        }
        if self.phase == WANTS_ANCHOR {
            return ANCHOR;
        }
        self.at
    }

    // What the sector that is wanted leads to.
    fn taken(self, sector: &[u8], count: u64) -> Opening
        requires { is_wanting self ≡ true }
        ensures { OpeningStands (behind_wanted self sector.now) count result }
    {
        let kept = self.kept;
        if self.phase == WANTS_ANCHOR {
            return behind_anchor(AnchorVolumeDescriptorPointer::parse(false, sector), count);
        }
        if self.phase == WANTS_SEQUENCE {
            return behind_sector(kept, self.at, self.left, sector, count);
        }
        over(volume_in(false, kept, plain_mount(false, kept), sector, count))
    }

    // A step: the bytes of the sector that is wanted are lent, or a slice of another length says that it can't be had.
    pub fn step(self, sector: &[u8]) -> Opening
        ensures { Fed self sector.now result }
    {
        if !self.is_wanting() {
            return self;
        }
        let count = add_counts(self.opened.count, 1);
        if sector.len() != 2048 {
            return over(refused(IO, count));
        }
        self.taken(sector, count)
    }
}
