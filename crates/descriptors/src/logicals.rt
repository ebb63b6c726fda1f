// The logical volume descriptor: the size of a block, where the file set descriptor is, and the partition maps.
ghost use Rattle.std.specs.Prelude.{◌≡◌, ◌≤◌, length};
ghost use Rattle.disc.specs.Replies.{returned};
ghost use Rattle.descriptors.specs.Volumes.{maps_in, logical_behind, read_logical};

use crate::labels::label_at;
use disc::moves::copy;
use disc::refusals::Refusal;
use names::fields::field_size;
use records::allocations::{LongAd, long_at};
use records::bytes::le32;
use tags::DescriptorTag;
use tags::heads::read_head;

// ECMA-167 3/10.6.
const ID: u16 = 6;

const SIZE: usize = 440;

// The identifier is the label field as recorded.
#[repr(C)]
#[derive(Clone, Copy)]
pub struct LogicalVolumeDescriptor {
    pub tag: DescriptorTag,
    pub volume_descriptor_sequence_number: u32,
    pub logical_volume_identifier: [u8; 128],
    // In bytes.
    pub logical_block_size: u32,
    pub file_set_descriptor_location: LongAd,
    // In bytes.
    pub map_table_length: u32,
    pub number_of_partition_maps: u32,
    // The first 24 bytes of the map table, as recorded; zeros past the end of the given bytes.
    pub partition_maps: [u8; 24],
}

// The first 24 bytes of the map table.
fn first_maps(s: &[u8]) -> [u8; 24]
    requires { 440 ≤ length s.now }
    ensures { result ≡ maps_in s.now }
{
    let mut maps = [0u8; 24];
    copy(&s[440..], &mut maps);
    maps
}

// The descriptor in `s`, whose tag is `t`. The label is copied first: the copy is checked and kept.
fn logical_behind(s: &[u8], t: DescriptorTag) -> Result<LogicalVolumeDescriptor, Refusal>
    requires { 440 ≤ length s.now }
    ensures { result ≡ returned (logical_behind s.now t) }
{
    let label = label_at::<128>(s, 84);
    field_size(&label)?;
    Ok(LogicalVolumeDescriptor {
        tag: t,
        volume_descriptor_sequence_number: le32(s, 16),
        logical_volume_identifier: label,
        logical_block_size: le32(s, 212),
        file_set_descriptor_location: long_at(s, 248),
        map_table_length: le32(s, 264),
        number_of_partition_maps: le32(s, 268),
        partition_maps: first_maps(s),
    })
}

impl LogicalVolumeDescriptor {
    pub fn parse(check: bool, s: &[u8]) -> Result<LogicalVolumeDescriptor, Refusal>
        ensures { result ≡ returned (read_logical check s.now) }
    {
        logical_behind(s, read_head(check, s, ID, SIZE)?)
    }
}
