// The descriptor tag, its CRC, and the header of an allocation extent.
//
// A tag is refused unless its id is 1 to 9 or 256 to 266, its reserved byte is 0 and its checksum is right. Only
// records_tag_body checks the CRC. Encoding takes any id and computes the checksum. A header is a tag with id 258 and
// two numbers.
ghost use Rattle.std.specs.Prelude.{◌≡◌, false};
ghost use Rattle.crcs.specs.Crcs.{crc_of};
ghost use Rattle.tags.specs.Answers.{tag_answer, aed_answer};
ghost use Rattle.tags.specs.Tags.{read_tag, encode_tag, in_place, body_right, read_aed, encode_aed};

use crate::answers::told;
use crcs::crc;
use disc::places::{Block, Sector};
use tags::{AllocationExtentDescriptor, DescriptorTag, no_tag};

#[repr(C)]
#[derive(Clone, Copy)]
pub struct TagBytes {
    pub bytes: [u8; 16],
}

#[repr(C)]
#[derive(Clone, Copy)]
pub struct AedBytes {
    pub bytes: [u8; 24],
}

#[repr(C)]
#[derive(Clone, Copy)]
pub struct TagAnswer {
    pub answer: u64,
    pub value: DescriptorTag,
}

#[repr(C)]
#[derive(Clone, Copy)]
pub struct AedAnswer {
    pub answer: u64,
    pub value: AllocationExtentDescriptor,
}

#[unsafe(no_mangle)]
pub extern "C" fn records_parse_tag(bytes: &[u8]) -> TagAnswer
    ensures { record { number = result.answer; value = result.value } ≡ tag_answer (read_tag bytes.now) }
{
    let (answer, value) = told(DescriptorTag::parse(bytes), no_tag());
    TagAnswer { answer, value }
}

#[unsafe(no_mangle)]
pub extern "C" fn records_encode_tag(value: DescriptorTag) -> TagBytes
    ensures { result.bytes ≡ encode_tag value }
{
    TagBytes {
        bytes: value.encode(),
    }
}

// The place check: whether the tag's location is the number that it must be. `sector` and `block` are those that hold
// the descriptor's first byte, counted from the start of the disc and of its partition. Ids 256 to 266 go by the block,
// all others by the sector.
#[unsafe(no_mangle)]
pub extern "C" fn records_tag_in_place(tag: DescriptorTag, sector: u64, block: u32) -> bool
    ensures { result ≡ in_place tag sector block }
{
    tag.is_in_place(Sector(sector), Block(block))
}

// The CRC of `bytes`, as a tag holds it for its descriptor's body: x^16 + x^12 + x^5 + 1, starting at 0, highest bit of
// a byte first.
#[unsafe(no_mangle)]
pub extern "C" fn records_crc(bytes: &[u8]) -> u16
    ensures { result ≡ crc_of bytes.now }
{
    crc(bytes)
}

// The body check: whether `bytes`, which start with the descriptor's tag in the first 16, hold as many bytes after it
// as the tag's CRC length says, and these have the tag's CRC. A CRC length of 0 has the CRC 0.
#[unsafe(no_mangle)]
pub extern "C" fn records_tag_body(tag: DescriptorTag, bytes: &[u8]) -> bool
    ensures { result ≡ body_right bytes.now tag }
{
    tag.has_right_body(bytes)
}

#[unsafe(no_mangle)]
pub extern "C" fn records_parse_aed(bytes: &[u8]) -> AedAnswer
    ensures { record { number = result.answer; value = result.value } ≡ aed_answer (read_aed false bytes.now) }
{
    let (answer, value) = told(
        AllocationExtentDescriptor::parse(false, bytes),
        AllocationExtentDescriptor {
            tag: no_tag(),
            previous_allocation_extent_location: 0,
            length_of_allocation_descriptors: 0,
        },
    );
    AedAnswer { answer, value }
}

#[unsafe(no_mangle)]
pub extern "C" fn records_encode_aed(value: AllocationExtentDescriptor) -> AedBytes
    ensures { result.bytes ≡ encode_aed value }
{
    AedBytes {
        bytes: value.encode(),
    }
}
