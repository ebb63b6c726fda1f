// Opening a volume.
ghost use Rattle.std.specs.Prelude.{◌≡◌, ◌<◌, ◌^◌};
ghost use Rattle.disc.specs.Ran.{ran, after};
ghost use Rattle.disc.specs.Images.{disc};
ghost use Rattle.disc.specs.Replies.{returned};
ghost use Rattle.descriptors.specs.FileSets.{read_file_set};
ghost use Rattle.volumes.specs.Openings.{usual, no_volume, volume_in, file_set_at, file_set_on, mount_of, mounting_of, anchored, opening, opened_by, opened_of};
ghost use Rattle.volumes.specs.Inner.Steps.{mountable, mount_behind, scanned_in};

use crate::mounts::{chosen_mount, no_mount};
use crate::sequences::{Kept, Wanted, scan_sequence};
use descriptors::anchors::AnchorVolumeDescriptorPointer;
use descriptors::file_sets::FileSetDescriptor;
use disc::answers::{DONE, IO, UNSUPPORTED};
use disc::images::{held_from, sector_at};
use disc::places::{Block, Mount, Sector};
use disc::refusals::Refusal;
use records::allocations::{LongAd, no_long};

// The choices that are made on opening. Which descriptors count leaves no trace in the volume's record, which is what came out; that bodies are
// checked and the maps stay in the record's mount.
#[derive(Clone, Copy)]
pub struct How {
    // Of several descriptors of one kind the one with the highest sequence number counts, the later of equals; else the last one does. The start of a map's
    // partition is by the partition descriptors of its number alone.
    pub highest: bool,
    // The bodies of descriptors are checked, on opening and in every call on the volume.
    pub checked: bool,
    // References are resolved through the logical volume's partition maps.
    pub maps: bool,
}

impl How {
    // Where nothing is chosen.
    pub fn usual() -> How
        ensures { result ≡ usual }
    {
        How {
            highest: false,
            checked: false,
            maps: false,
        }
    }
}

// An opened volume. It holds no pointers: you can copy it, keep it, or make one by hand.
#[repr(C)]
#[derive(Clone, Copy)]
pub struct VolumeRecord {
    // How it is read.
    pub mount: Mount,
    // The root directory.
    pub root: LongAd,
    // The label field as recorded.
    pub label: [u8; 32],
}

// The answer, the count of sectors, and the volume.
#[repr(C)]
#[derive(Clone, Copy)]
pub struct Opened {
    // A number of the table.
    pub answer: u64,
    // The sectors asked for.
    pub count: u64,
    // Zeros if opening was refused.
    pub volume: VolumeRecord,
}

fn no_volume() -> VolumeRecord
    ensures { result ≡ no_volume }
{
    VolumeRecord {
        mount: no_mount(),
        root: no_long(),
        label: [0; 32],
    }
}

// An opening that was refused.
pub fn refused(answer: u64, count: u64) -> Opened
    ensures { result ≡ record { answer = answer; count = count; volume = no_volume } }
{
    Opened {
        answer,
        count,
        volume: no_volume(),
    }
}

// The volume whose file set descriptor stands in the sector b.
pub fn volume_in(check: bool, kept: Kept, mount: Mount, b: &[u8], count: u64) -> Opened
    ensures { result ≡ opened_by count (volume_in mount kept (read_file_set check b.now)) }
{
    match FileSetDescriptor::parse(check, b) {
        Err(why) => refused(why.number(), count),
        Ok(d) => {
            let label = kept.label;
            Opened {
                answer: DONE,
                count,
                volume: VolumeRecord {
                    mount,
                    root: d.root_directory_icb,
                    label,
                },
            }
        }
    }
}

// Whether what was kept leads to a file set descriptor.
pub fn kept_answer(kept: Kept) -> Result<(), Refusal>
    ensures { result ≡ mountable kept }
{
    if !kept.has_primary || !kept.has_partition || !kept.has_logical {
        return Err(Refusal::NotBluray);
    }
    if kept.block_size != 2048 {
        return Err(Refusal::Unsupported);
    }
    Ok(())
}

// The file set descriptor in a sector, `count` sectors having been asked for.
fn file_set_at(
    check: bool,
    image: &[u8],
    kept: Kept,
    mount: Mount,
    sector: Sector,
    count: u64,
) -> Opened
    requires { count < 2 ^ 32 }
    ensures { result ≡ opened_of (after count (ran (disc image.now) (file_set_at check kept mount sector.0))) }
{
    if held_from(image, sector) == 0 {
        return refused(IO, count + 1);
    }
    volume_in(check, kept, mount, sector_at(image, sector), count + 1)
}

// Where the file set descriptor stands, the volume being read so.
fn file_set_on(check: bool, image: &[u8], kept: Kept, mount: Mount, count: u64) -> Opened
    requires { count < 2 ^ 32 }
    ensures { result ≡ opened_of (after count (ran (disc image.now) (file_set_on check kept mount))) }
{
    let place = kept.file_set.location;
    match mount.placed(Some(place.partition_ref), Block(place.block)) {
        None => refused(UNSUPPORTED, count),
        Some(sector) => file_set_at(check, image, kept, mount, sector, count),
    }
}

// How the volume is read, if what was kept leads to a file set descriptor.
fn kept_mount(image: &[u8], how: How, kept: Kept, first: u32, n: u32) -> Result<Mount, Refusal>
    ensures { result ≡ mount_behind (mountable kept) (returned (mount_of how (scanned_in image.now how first n) kept)) }
{
    kept_answer(kept)?;
    chosen_mount(image, how, kept, first, n)
}

// What the descriptors that were kept lead to, of n sectors from `first` on, `count` sectors having been asked for.
fn open_kept(image: &[u8], how: How, kept: Kept, first: u32, n: u32, count: u64) -> Opened
    requires { count < 2 ^ 32 }
    ensures { result ≡ opened_of (after count (ran (disc image.now) (mounting_of how (scanned_in image.now how first n) kept))) }
{
    match kept_mount(image, how, kept, first, n) {
        Err(why) => refused(why.number(), count),
        Ok(mount) => file_set_on(how.checked, image, kept, mount, count),
    }
}

// What the anchor leads to.
fn open_from(
    image: &[u8],
    how: How,
    anchor: Result<AnchorVolumeDescriptorPointer, Refusal>,
) -> Opened
    ensures { result ≡ opened_of (after 1 (ran (disc image.now) (anchored how anchor))) }
{
    match anchor {
        Err(why) => refused(why.number(), 1),
        Ok(a) => {
            let main = a.main_volume_descriptor_sequence;
            let n = main.length / 2048;
            let scanned = scan_sequence(image, how, Wanted::Any, main.location, n);
            let count = scanned.count + 1;
            match scanned.kept {
                Err(why) => refused(why.number(), count),
                Ok(kept) => open_kept(image, how, kept, main.location, n, count),
            }
        }
    }
}

// Opens the volume of an image: the anchor, the main volume descriptor sequence, and the file set descriptor.
pub fn open_volume(image: &[u8], how: How) -> Opened
    ensures { result ≡ opened_of (ran (disc image.now) (opening how)) }
{
    if held_from(image, Sector(256)) == 0 {
        return refused(IO, 1);
    }
    open_from(
        image,
        how,
        AnchorVolumeDescriptorPointer::parse(how.checked, sector_at(image, Sector(256))),
    )
}
