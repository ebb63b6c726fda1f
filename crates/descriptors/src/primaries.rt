// The primary volume descriptor: the volume's label.
ghost use Rattle.std.specs.Prelude.{◌≡◌, ◌≤◌, length};
ghost use Rattle.disc.specs.Replies.{returned};
ghost use Rattle.descriptors.specs.Volumes.{primary_behind, read_primary};

use crate::labels::label_at;
use disc::refusals::Refusal;
use names::fields::field_size;
use records::bytes::le32;
use tags::DescriptorTag;
use tags::heads::read_head;

// ECMA-167 3/10.1.
const ID: u16 = 1;

const SIZE: usize = 56;

// The volume identifier is the label field as recorded.
#[repr(C)]
#[derive(Clone, Copy)]
pub struct PrimaryVolumeDescriptor {
    pub tag: DescriptorTag,
    pub volume_descriptor_sequence_number: u32,
    pub primary_volume_descriptor_number: u32,
    pub volume_identifier: [u8; 32],
}

// The descriptor in `s`, whose tag is `t`. The label is copied first: the copy is checked and kept.
fn primary_behind(s: &[u8], t: DescriptorTag) -> Result<PrimaryVolumeDescriptor, Refusal>
    requires { 56 ≤ length s.now }
    ensures { result ≡ returned (primary_behind s.now t) }
{
    let label = label_at::<32>(s, 24);
    field_size(&label)?;
    Ok(PrimaryVolumeDescriptor {
        tag: t,
        volume_descriptor_sequence_number: le32(s, 16),
        primary_volume_descriptor_number: le32(s, 20),
        volume_identifier: label,
    })
}

impl PrimaryVolumeDescriptor {
    pub fn parse(check: bool, s: &[u8]) -> Result<PrimaryVolumeDescriptor, Refusal>
        ensures { result ≡ returned (read_primary check s.now) }
    {
        primary_behind(s, read_head(check, s, ID, SIZE)?)
    }
}
