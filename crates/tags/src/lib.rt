// Descriptor tags, the place check, the body check, the gate that every descriptor goes through, and the header of an allocation extent.
//
// All eight readers of descriptors go through `heads::read_head`: enough bytes, a good tag, with `check` a right body, the id. Opening takes the
// choice to check and leaves it in the volume's `Mount`. Each call on the volume takes it from there (`Mount::is_checked`) and hands it to the
// readers of entries, of continuations' headers and of directory entries.
//
// A call with the check is the call without it, except for refusal 10. To prove that, one tree stands for both calls, with a mark wherever a
// descriptor is parsed (`disc` specs/Marks.antt). Without the marks it is the one call (`plain`); with each mark tested it is the other (`guarded`).
// `Guards` says that two trees are such a pair, and the GuardLaws of each crate build it along the definitions.
#![tactic(auto)]

pub mod heads;

ghost use Rattle.std.specs.Prelude.{◌≡◌, ◌++◌, ◌+◌, ◌%◌, ◌≤◌, ◌<◌, length};
ghost use Rattle.records.specs.Bytes.{le32, sixteen, sum4};
ghost use Rattle.tags.specs.Answers.{no_tag};
ghost use Rattle.tags.specs.Tags.{of_volume, of_partition, listed, checksum, accepted, tag_of, read_tag, tag_bytes, encode_tag, in_place, body_right, read_aed, encode_aed};

use crate::heads::read_head;
use crcs::crc;
use disc::places::{Block, Sector};
use disc::refusals::Refusal;
use records::bytes::{le16, le32};

// The id is a number. Parsing accepts only the ids above.
#[repr(C)]
#[derive(Clone, Copy)]
pub struct DescriptorTag {
    pub id: u16,
    pub descriptor_version: u16,
    pub serial_number: u16,
    pub crc: u16,
    pub crc_length: u16,
    pub location: u32,
}

// Whether an id is that of a descriptor of the volume structure.
fn is_of_volume(id: u16) -> bool
    ensures { result ≡ of_volume id }
{
    (1 <= id) & (id <= 9)
}

// Whether an id is that of a descriptor recorded in a partition, whose location is a block there.
fn is_of_partition(id: u16) -> bool
    ensures { result ≡ of_partition id }
{
    (256 <= id) & (id <= 266)
}

// Whether an id is one of those that are known.
pub fn is_listed(id: u16) -> bool
    ensures { result ≡ listed id }
{
    is_of_volume(id) | is_of_partition(id)
}

// All zeros.
pub fn no_tag() -> DescriptorTag
    ensures { result ≡ no_tag }
{
    DescriptorTag {
        id: 0,
        descriptor_version: 0,
        serial_number: 0,
        crc: 0,
        crc_length: 0,
        location: 0,
    }
}

fn add4(a: u8, b: u8, c: u8, d: u8) -> u32
    ensures { (result ≡ a + b + c + d) × (result < 1024) }
{
    a as u32 + b as u32 + c as u32 + d as u32
}

// The sum of the four bytes at `i`.
fn sum_at(s: &[u8], i: usize) -> u32
    requires { i + 4 ≤ length s.now }
    ensures { (result ≡ sum4 s.now i) × (result < 1024) }
{
    add4(s[i], s[i + 1], s[i + 2], s[i + 3])
}

fn total(a: u32, b: u8, c: u8, d: u8, e: u32, f: u32) -> u8
    requires { (a < 1024) × (e < 1024) × (f < 1024) }
    ensures { result ≡ (a + b + c + d + e + f) % 256 }
{
    ((a + b as u32 + c as u32 + d as u32 + e + f) % 256) as u8
}

fn sum_of(s: &[u8]) -> u8
    requires { 16 ≤ length s.now }
    ensures { result ≡ checksum s.now }
{
    total(sum_at(s, 0), s[5], s[6], s[7], sum_at(s, 8), sum_at(s, 12))
}

fn is_accepted(s: &[u8]) -> bool
    requires { 16 ≤ length s.now }
    ensures { result ≡ accepted s.now }
{
    is_listed(le16(s, 0)) & (s[5] == 0) & (s[4] == sum_of(s))
}

fn tag_of(s: &[u8]) -> DescriptorTag
    ensures { result ≡ tag_of s.now }
{
    DescriptorTag {
        id: le16(s, 0),
        descriptor_version: le16(s, 2),
        serial_number: le16(s, 6),
        crc: le16(s, 8),
        crc_length: le16(s, 10),
        location: le32(s, 12),
    }
}

// The bytes of a tag, each fetched once: what is checked is what is decoded, even if the lent bytes change meanwhile.
fn fetch(s: &[u8]) -> [u8; 16]
    requires { 16 ≤ length s.now }
    ensures { result ≡ sixteen s.now }
{
    [
        s[0], s[1], s[2], s[3], s[4], s[5], s[6], s[7], s[8], s[9], s[10], s[11], s[12], s[13],
        s[14], s[15],
    ]
}

// A tag's bytes with the checksum `sum`.
fn tag_bytes(t: DescriptorTag, sum: u8) -> [u8; 16]
    ensures { result ≡ tag_bytes t sum }
{
    let [a, b] = t.id.to_le_bytes();
    let [c, d] = t.descriptor_version.to_le_bytes();
    let [e, f] = t.serial_number.to_le_bytes();
    let [g, h] = t.crc.to_le_bytes();
    let [i, j] = t.crc_length.to_le_bytes();
    let [k, l, m, n] = t.location.to_le_bytes();
    [a, b, c, d, sum, 0, e, f, g, h, i, j, k, l, m, n]
}

impl DescriptorTag {
    pub fn parse(s: &[u8]) -> Result<DescriptorTag, Refusal>
        ensures { result ≡ read_tag s.now }
    {
        if s.len() < 16 {
            return Err(Refusal::Malformed);
        }
        let fetched = fetch(s);
        if is_accepted(&fetched) {
            Ok(tag_of(&fetched))
        } else {
            Err(Refusal::Malformed)
        }
    }

    pub fn encode(self) -> [u8; 16]
        ensures { result ≡ encode_tag self }
    {
        let blank = tag_bytes(self, 0);
        let sum = sum_of(&blank);
        tag_bytes(self, sum)
    }

    // The place check. The sector and the block are those that hold the descriptor's first byte; the id says which of
    // them is compared.
    pub fn is_in_place(self, sector: Sector, block: Block) -> bool
        ensures { result ≡ in_place self sector.0 block.0 }
    {
        if is_of_partition(self.id) {
            return self.location == block.0;
        }
        self.location as u64 == sector.0
    }

    // The body check: whether the bytes at hand, which start with this tag, have as many after it as its CRC length
    // says, and these have its CRC.
    pub fn has_right_body(self, s: &[u8]) -> bool
        ensures { result ≡ body_right s.now self }
    {
        let end = 16 + self.crc_length as usize;
        if s.len() < end {
            return false;
        }
        crc(&s[16..end]) == self.crc
    }
}

// The header of an allocation extent, ECMA-167 4/14.5.
pub const AED_ID: u16 = 258;

const AED_SIZE: usize = 24;

#[repr(C)]
#[derive(Clone, Copy)]
pub struct AllocationExtentDescriptor {
    pub tag: DescriptorTag,
    pub previous_allocation_extent_location: u32,
    pub length_of_allocation_descriptors: u32,
}

impl AllocationExtentDescriptor {
    pub fn parse(check: bool, s: &[u8]) -> Result<AllocationExtentDescriptor, Refusal>
        ensures { result ≡ read_aed check s.now }
    {
        let t = read_head(check, s, AED_ID, AED_SIZE)?;
        Ok(AllocationExtentDescriptor {
            tag: t,
            previous_allocation_extent_location: le32(s, 16),
            length_of_allocation_descriptors: le32(s, 20),
        })
    }

    pub fn encode(self) -> [u8; 24]
        ensures { result ≡ encode_aed self }
    {
        let [a, b, c, d, e, f, g, h, i, j, k, l, m, n, o, p] = self.tag.encode();
        let [q, r, t, u] = self.previous_allocation_extent_location.to_le_bytes();
        let [v, w, x, y] = self.length_of_allocation_descriptors.to_le_bytes();
        [
            a, b, c, d, e, f, g, h, i, j, k, l, m, n, o, p, q, r, t, u, v, w, x, y,
        ]
    }
}
