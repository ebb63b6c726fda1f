// The anchor volume descriptor pointer: where the volume descriptor sequences are.
ghost use Rattle.std.specs.Prelude.{◌≡◌};
ghost use Rattle.descriptors.specs.Volumes.{read_anchor};

use disc::refusals::Refusal;
use records::allocations::{ExtentAd, extent_at};
use tags::DescriptorTag;
use tags::heads::read_head;

// ECMA-167 3/10.2.
const ID: u16 = 2;

const SIZE: usize = 32;

#[repr(C)]
#[derive(Clone, Copy)]
pub struct AnchorVolumeDescriptorPointer {
    pub tag: DescriptorTag,
    pub main_volume_descriptor_sequence: ExtentAd,
    pub reserve_volume_descriptor_sequence: ExtentAd,
}

impl AnchorVolumeDescriptorPointer {
    pub fn parse(check: bool, s: &[u8]) -> Result<AnchorVolumeDescriptorPointer, Refusal>
        ensures { result ≡ read_anchor check s.now }
    {
        let t = read_head(check, s, ID, SIZE)?;
        Ok(AnchorVolumeDescriptorPointer {
            tag: t,
            main_volume_descriptor_sequence: extent_at(s, 16),
            reserve_volume_descriptor_sequence: extent_at(s, 24),
        })
    }
}
