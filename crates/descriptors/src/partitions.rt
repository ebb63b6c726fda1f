// The partition descriptor: where the partition's blocks begin on the disc.
ghost use Rattle.std.specs.Prelude.{◌≡◌};
ghost use Rattle.descriptors.specs.Volumes.{read_partition};

use disc::refusals::Refusal;
use records::bytes::{le16, le32};
use tags::DescriptorTag;
use tags::heads::read_head;

// ECMA-167 3/10.5.
const ID: u16 = 5;

const SIZE: usize = 196;

// The start and the length are in logical sectors.
#[repr(C)]
#[derive(Clone, Copy)]
pub struct PartitionDescriptor {
    pub tag: DescriptorTag,
    pub volume_descriptor_sequence_number: u32,
    pub partition_flags: u16,
    pub partition_number: u16,
    pub partition_starting_location: u32,
    pub partition_length: u32,
}

impl PartitionDescriptor {
    pub fn parse(check: bool, s: &[u8]) -> Result<PartitionDescriptor, Refusal>
        ensures { result ≡ read_partition check s.now }
    {
        let t = read_head(check, s, ID, SIZE)?;
        Ok(PartitionDescriptor {
            tag: t,
            volume_descriptor_sequence_number: le32(s, 16),
            partition_flags: le16(s, 20),
            partition_number: le16(s, 22),
            partition_starting_location: le32(s, 188),
            partition_length: le32(s, 192),
        })
    }
}
