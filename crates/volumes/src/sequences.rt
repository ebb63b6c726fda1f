// The volume descriptor sequence: one pass over its sectors, each looked at where it stands in the image.
ghost use Rattle.std.specs.Prelude.{◌≡◌, true};
ghost use Rattle.disc.specs.Choice.{pick};
ghost use Rattle.disc.specs.Ran.{ran};
ghost use Rattle.disc.specs.Images.{disc};
ghost use Rattle.descriptors.specs.Volumes.{read_primary, read_partition, read_logical};
ghost use Rattle.volumes.specs.Sequences.{nothing, order_of, any_partition, wanted_of, primary_in, partition_in, logical_in, says_in, turned, turned_on, turn_of, scan, scanned_of};

use crate::openings::How;
use descriptors::logicals::LogicalVolumeDescriptor;
use descriptors::partitions::PartitionDescriptor;
use descriptors::primaries::PrimaryVolumeDescriptor;
use disc::images::{held_from, sector_at};
use disc::places::Sector;
use disc::refusals::Refusal;
use records::allocations::{LongAd, no_long};
use records::bytes::le16;

// What is kept of the three descriptors between sectors, each with its volume descriptor sequence number.
#[repr(C)]
#[derive(Clone, Copy)]
pub struct Kept {
    pub has_primary: bool,
    pub primary_sequence: u32,
    pub label: [u8; 32],
    pub has_partition: bool,
    pub partition_sequence: u32,
    pub partition_number: u16,
    pub partition_start: u32,
    pub has_logical: bool,
    pub logical_sequence: u32,
    pub block_size: u32,
    pub file_set: LongAd,
    // The front of the map table as recorded, its length in bytes, and its number of maps.
    pub map_table_length: u32,
    pub map_count: u32,
    pub maps: [u8; 24],
}

// Which partition descriptors count. No Option: `Any` is a choice, where None would read as no partition.
#[derive(Clone, Copy)]
pub enum Wanted {
    Any,
    // Those of one partition number.
    Numbered(u16),
}

// What one sector of the sequence comes to.
#[derive(Clone, Copy)]
pub enum SectorTurn {
    // The scan goes on, with what is kept so far.
    GoesOn(Kept),
    // The sequence ends here.
    Over(Kept),
    Fails(Refusal),
}

// What a scan comes to.
#[derive(Clone, Copy)]
pub struct Scanned {
    // The sectors asked for.
    pub count: u64,
    pub kept: Result<Kept, Refusal>,
}

// Before the first descriptor.
pub fn nothing_kept() -> Kept
    ensures { result ≡ nothing }
{
    Kept {
        has_primary: false,
        primary_sequence: 0,
        label: [0; 32],
        has_partition: false,
        partition_sequence: 0,
        partition_number: 0,
        partition_start: 0,
        has_logical: false,
        logical_sequence: 0,
        block_size: 0,
        file_set: no_long(),
        map_table_length: 0,
        map_count: 0,
        maps: [0; 24],
    }
}

// Whether the later of two descriptors of one kind counts, by their sequence numbers.
fn is_prevailing(how: How, earlier: u32, later: u32) -> bool
    ensures { result ≡ order_of how earlier later }
{
    if how.highest {
        return earlier <= later;
    }
    true
}

// Whether a descriptor counts: none of its kind was kept before, or it prevails over the one that was.
fn is_taken(how: How, kept: bool, earlier: u32, later: u32) -> bool
    ensures { result ≡ pick kept (order_of how earlier later) true }
{
    if kept {
        return is_prevailing(how, earlier, later);
    }
    true
}

// Whether partition descriptors of a number count.
fn is_wanted(wanted: Wanted, number: u16) -> bool
    ensures { result ≡ wanted_of wanted number }
{
    match wanted {
        Wanted::Any => true,
        Wanted::Numbered(n) => n == number,
    }
}

// A descriptor that counts takes the place of the one that is kept of its kind.
fn take_primary(how: How, k: &mut Kept, b: &[u8]) -> Result<(), Refusal>
    ensures { turned result k.new ≡ turn_of (order_of how) any_partition k.old (primary_in (read_primary how.checked b.now)) }
{
    let d = PrimaryVolumeDescriptor::parse(how.checked, b)?;
    let number = d.volume_descriptor_sequence_number;
    if is_taken(how, k.has_primary, k.primary_sequence, number) {
        let label = d.volume_identifier;
        k.has_primary = true;
        k.primary_sequence = number;
        k.label = label;
    }
    Ok(())
}

fn take_partition(how: How, wanted: Wanted, k: &mut Kept, b: &[u8]) -> Result<(), Refusal>
    ensures { turned result k.new ≡ turn_of (order_of how) (wanted_of wanted) k.old (partition_in (read_partition how.checked b.now)) }
{
    let d = PartitionDescriptor::parse(how.checked, b)?;
    if !is_wanted(wanted, d.partition_number) {
        return Ok(());
    }
    let number = d.volume_descriptor_sequence_number;
    if is_taken(how, k.has_partition, k.partition_sequence, number) {
        k.has_partition = true;
        k.partition_sequence = number;
        k.partition_number = d.partition_number;
        k.partition_start = d.partition_starting_location;
    }
    Ok(())
}

fn take_logical(how: How, k: &mut Kept, b: &[u8]) -> Result<(), Refusal>
    ensures { turned result k.new ≡ turn_of (order_of how) any_partition k.old (logical_in (read_logical how.checked b.now)) }
{
    let d = LogicalVolumeDescriptor::parse(how.checked, b)?;
    let number = d.volume_descriptor_sequence_number;
    if is_taken(how, k.has_logical, k.logical_sequence, number) {
        let maps = d.partition_maps;
        k.has_logical = true;
        k.logical_sequence = number;
        k.block_size = d.logical_block_size;
        k.file_set = d.file_set_descriptor_location;
        k.map_table_length = d.map_table_length;
        k.map_count = d.number_of_partition_maps;
        k.maps = maps;
    }
    Ok(())
}

// What one sector of the sequence, by its id, does to what is kept, in place: whether the scan goes on.
fn take_into(how: How, wanted: Wanted, k: &mut Kept, b: &[u8]) -> Result<bool, Refusal>
    ensures { turned_on result k.new ≡ turn_of (order_of how) (wanted_of wanted) k.old (says_in how.checked b.now) }
{
    match le16(b, 0) {
        1 => take_primary(how, k, b)?,
        5 => take_partition(how, wanted, k, b)?,
        6 => take_logical(how, k, b)?,
        8 => return Ok(false),
        _ => {}
    }
    Ok(true)
}

// One sector of the sequence.
pub fn take_sector(how: How, wanted: Wanted, mut k: Kept, b: &[u8]) -> SectorTurn
    ensures { result ≡ turn_of (order_of how) (wanted_of wanted) k (says_in how.checked b.now) }
{
    match take_into(how, wanted, &mut k, b) {
        Ok(true) => SectorTurn::GoesOn(k),
        Ok(false) => SectorTurn::Over(k),
        Err(why) => SectorTurn::Fails(why),
    }
}

// n sectors of the sequence, from `first` on.
pub fn scan_sequence(image: &[u8], how: How, wanted: Wanted, first: u32, n: u32) -> Scanned
    ensures { result ≡ scanned_of (order_of how) (wanted_of wanted) nothing (ran (disc image.now) (scan how.checked n first)) }
{
    let mut kept = nothing_kept();
    for i in 0..n {
        let at = Sector(first as u64 + i as u64);
        let count = i as u64 + 1;
        if held_from(image, at) == 0 {
            return Scanned {
                count,
                kept: Err(Refusal::Io),
            };
        }
        match take_into(how, wanted, &mut kept, sector_at(image, at)) {
            Ok(true) => {}
            Ok(false) => {
                return Scanned {
                    count,
                    kept: Ok(kept),
                };
            }
            Err(why) => {
                return Scanned {
                    count,
                    kept: Err(why),
                };
            }
        }
    }
    Scanned {
        count: n as u64,
        kept: Ok(kept),
    }
}
