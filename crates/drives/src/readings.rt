// A file's read, a sector at a time. The state is passed by value; with the row in which its extents wait it stands for a place in the read's feed, and a
// step takes one branch of it.
ghost use Rattle.std.specs.Prelude.{◌≡◌, true, length};
ghost use Rattle.disc.specs.Choice.{pick};
ghost use Rattle.drives.specs.FileFeeds.{file_feed};
ghost use Rattle.drives.specs.Readings.{is_sound, is_wanting, wanted_sector, zeroed, Fed, Starts};
ghost use Rattle.drives.specs.Beginnings.{start_of};
ghost use Rattle.drives.specs.Inner.Arrivals.{beginning, wanted_behind, Arrives};

use crate::arrivals::take_extent;
use crate::bodies::{take_head, take_part};
use crate::located::take_entry;
use crate::openings::MOST_SECTORS;
use crate::phases::{AT_ENTRY, AT_HEADER, IN_CONTINUATION, OVER};
use crate::scans::{Scan, begin};
use crate::turns::over;
use areas::size_of;
use disc::answers::{DONE, IO, MALFORMED, UNSUPPORTED};
use disc::counts::add_counts;
use disc::places::{Block, Mount};
use records::allocations::LongAd;
use volumes::openings::VolumeRecord;

// A continuation that arrives in parts: what its header said, and what is still to come of its body and its area.
#[repr(C)]
#[derive(Clone, Copy)]
pub struct Body {
    // The tag is valid.
    pub tagged: bool,
    // The tag is that of a header, and the area that the header gives fits the continuation.
    pub headed: bool,
    // The tag's CRC, the CRC of the body so far, and how many bytes of the body are still to come.
    pub crc: u16,
    pub summed: u16,
    pub body_left: u32,
    // How many bytes of the area are still to come.
    pub area_left: u32,
}

// A read in progress.
#[repr(C)]
#[derive(Clone, Copy)]
pub struct Reading {
    // What is wanted: 0, the file entry; 1, the first sector of a continuation; 2, a further one; 3, a sector of an
    // extent. To find out whether the read has ended, call is_wanting; don't look at the phase: a state made by hand
    // may have ended in any phase.
    pub phase: u8,
    // The sector wanted, and how many after it belong to the same continuation or extent.
    pub at: u64,
    pub left: u32,
    // How the entry's descriptors are read, their kind, and how many continuations may follow.
    pub mount: Mount,
    pub kind: u8,
    pub hops: u8,
    // How many bytes of the information length are still missing.
    pub missing: u64,
    // The bytes of the continuation, or those of the extent from the wanted sector on.
    pub size: u32,
    // The place in the row of the extent after the one being read.
    pub next: usize,
    pub scan: Scan,
    pub body: Body,
    // The answer, 0 until the read has ended; how many sectors were wanted and have come or could not be read; how many
    // bytes have arrived in the output.
    pub answer: u64,
    pub count: u64,
    pub length: usize,
}

// A read whose entry stands in a sector, and is read so.
fn before(mount: Mount, at: u64) -> Reading
    ensures { result ≡ beginning mount at }
{
    Reading {
        phase: AT_ENTRY,
        at,
        left: 0,
        mount,
        kind: 0,
        hops: 0,
        missing: 0,
        size: 0,
        next: 0,
        scan: begin(0),
        body: Body {
            tagged: false,
            headed: false,
            crc: 0,
            summed: 0,
            body_left: 0,
            area_left: 0,
        },
        answer: DONE,
        count: 0,
        length: 0,
    }
}

// Zeroes every place of a row.
fn clear_row(row: &mut [[u32; 4]])
    ensures { row.new ≡ zeroed row.old }
{
    row.fill([0; 4]);
}

// Zeroes the row of a read that has ended.
fn clear_ended(x: Reading, row: &mut [[u32; 4]])
    ensures { row.new ≡ pick (is_wanting x) row.old (zeroed row.old) }
{
    if x.is_wanting() {
        return;
    }
    clear_row(row);
}

impl Reading {
    // Whether its continuation's sectors hold what is to come of it.
    fn is_sound(self) -> bool
        ensures { result ≡ is_sound self }
    {
        let held = 2048 * (self.left as u64 + 1);
        if self.phase == AT_HEADER {
            return self.size as u64 <= held;
        }
        if self.phase != IN_CONTINUATION {
            return true;
        }
        let scan = self.scan;
        let body = self.body;
        if size_of(self.kind) <= scan.carried {
            return false;
        }
        body.area_left as u64 <= held
    }

    // Whether a sector is wanted; else it has ended.
    pub fn is_wanting(self) -> bool
        ensures { result ≡ is_wanting self }
    {
        if OVER <= self.phase {
            return false;
        }
        if MOST_SECTORS <= self.at {
            return false;
        }
        if MOST_SECTORS <= self.at + self.left as u64 {
            return false;
        }
        self.is_sound()
    }

    // The sector that is wanted, 0 where it has ended.
    pub fn wants(self) -> u64
        ensures { result ≡ wanted_sector self }
    {
        if !self.is_wanting() {
            return 0;
        }
        self.at
    }

    // Before the file entry, if the ICB has a length and a place. The row is zeroed.
    pub fn start(volume: VolumeRecord, icb: LongAd, row: &mut [[u32; 4]]) -> Reading
        ensures starts { Starts (file_feed volume.mount icb) row.old row.new result }
        ensures value { (result ≡ start_of volume.mount icb) × (row.new ≡ zeroed row.old) }
    {
        clear_row(row);
        let place = icb.location;
        let mount = volume.mount;
        let of_entry = mount.at_entry(place.partition_ref);
        if icb.length == 0 {
            return over(before(of_entry, 0), MALFORMED);
        }
        match mount.icb_placed(place.partition_ref, Block(place.block)) {
            None => over(before(of_entry, 0), UNSUPPORTED),
            Some(sector) => before(of_entry, sector.0),
        }
    }

    // What the sector that is wanted leads to.
    fn taken(self, sector: &[u8], row: &mut [[u32; 4]], out: &mut [u8]) -> Reading
        requires { (length sector.now ≡ 2048) × (is_wanting self ≡ true) }
        ensures { Arrives (wanted_behind self row.old sector.now) self out.old row.old row.new result out.new }
    {
        if self.phase == AT_ENTRY {
            return take_entry(self, sector, row, out);
        }
        if self.phase == AT_HEADER {
            return take_head(self, sector, row);
        }
        if self.phase == IN_CONTINUATION {
            return take_part(self, sector, row);
        }
        take_extent(self, sector, row, out)
    }

    // A step: the bytes of the sector that is wanted are lent, or a slice of another length says that it can't be had. Row and output are to be the same ones
    // as before, untouched; whatever they are, it stays within them. The row is zeroed once the read has ended.
    pub fn step(self, sector: &[u8], row: &mut [[u32; 4]], out: &mut [u8]) -> Reading
        ensures { Fed self sector.now row.old out.old result row.new out.new }
    {
        if !self.is_wanting() {
            return self;
        }
        let mut r = self;
        r.count = add_counts(self.count, 1);
        if sector.len() != 2048 {
            clear_row(row);
            return over(r, IO);
        }
        let x = r.taken(sector, row, out);
        clear_ended(x, row);
        x
    }
}
