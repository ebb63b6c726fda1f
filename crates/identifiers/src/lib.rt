// File identifiers: one entry of a directory.
#![tactic(auto)]

ghost use Rattle.std.specs.Prelude.{◌≡◌, ◌+◌, ◌/◌, ◌%◌, ◌<◌};
ghost use Rattle.disc.specs.Replies.{returned};
ghost use Rattle.identifiers.specs.Identifiers.{name_at, identifier_of, identifier_sized, identifier_named, read_identifier, bit, is_deleted, is_directory, is_parent};

use disc::refusals::Refusal;
use names::dstrings::name_size;
use records::allocations::{LongAd, long_at};
use records::bytes::{byte_at, le16};
use tags::DescriptorTag;
use tags::heads::read_head;

// ECMA-167 4/14.4.
const ID: u16 = 257;

// The least size of an identifier: all before its implementation use and its name.
pub const LEAST_SIZE: usize = 38;

// An entry of a directory (id 257). Its name, a d-string of `name_length` bytes, is at `name_at`; as UTF-8 it has
// `name_size` bytes. The next entry starts `total_size` bytes further.
#[repr(C)]
#[derive(Clone, Copy)]
pub struct FileIdentifierDescriptor {
    pub tag: DescriptorTag,
    pub file_version_number: u16,
    // 2: a directory; 4: deleted; 8: the parent.
    pub file_characteristics: u8,
    pub icb: LongAd,
    pub name_at: usize,
    pub name_length: usize,
    pub name_size: usize,
    pub total_size: usize,
}

// Where the name starts: after the implementation use.
pub fn name_at(s: &[u8]) -> usize
    ensures { (result ≡ name_at s.now) × (result < 65574) }
{
    LEAST_SIZE + le16(s, 36) as usize
}

// The fields at their offsets. The name has `n` bytes at `at`, and `size` bytes as UTF-8.
fn identifier_of(
    s: &[u8],
    t: DescriptorTag,
    at: usize,
    n: usize,
    size: usize,
) -> FileIdentifierDescriptor
    requires { at + n < 0x1_0000_0000 }
    ensures { result ≡ identifier_of s.now t at n size }
{
    FileIdentifierDescriptor {
        tag: t,
        file_version_number: le16(s, 16),
        file_characteristics: byte_at(s, 18),
        icb: long_at(s, 20),
        name_at: at,
        name_length: n,
        name_size: size,
        total_size: (at + n + 3) / 4 * 4,
    }
}

// The identifier, unless its name isn't a d-string.
fn identifier_sized(
    s: &[u8],
    t: DescriptorTag,
    at: usize,
    n: usize,
    size: Result<usize, Refusal>,
) -> Result<FileIdentifierDescriptor, Refusal>
    requires { at + n < 0x1_0000_0000 }
    ensures { result ≡ returned (identifier_sized s.now t at n size) }
{
    Ok(identifier_of(s, t, at, n, size?))
}

// The same, unless its name ends past the bytes given. The name's place and length are fetched here, once.
fn identifier_named(s: &[u8], t: DescriptorTag) -> Result<FileIdentifierDescriptor, Refusal>
    ensures { result ≡ returned (identifier_named s.now t) }
{
    let at = name_at(s);
    let n = byte_at(s, 19) as usize;
    let end = at + n;
    if s.len() < end {
        return Err(Refusal::Malformed);
    }
    identifier_sized(s, t, at, n, name_size(&s[at..end]))
}

// The bits of the characteristics (4/14.4.3): a directory, deleted, the parent.
pub fn marks_directory(characteristics: u8) -> bool
    ensures { result ≡ bit 2 characteristics }
{
    characteristics / 2 % 2 == 1
}

pub fn marks_deleted(characteristics: u8) -> bool
    ensures { result ≡ bit 4 characteristics }
{
    characteristics / 4 % 2 == 1
}

pub fn marks_parent(characteristics: u8) -> bool
    ensures { result ≡ bit 8 characteristics }
{
    characteristics / 8 % 2 == 1
}

// The directory bit as a number.
pub fn directory_bit(characteristics: u8) -> u8
    ensures { result ≡ characteristics / 2 % 2 }
{
    characteristics / 2 % 2
}

impl FileIdentifierDescriptor {
    // If bodies are checked, the bytes at hand are those of `s`: the directory's from the entry on.
    pub fn parse(check: bool, s: &[u8]) -> Result<FileIdentifierDescriptor, Refusal>
        ensures { result ≡ returned (read_identifier check s.now) }
    {
        identifier_named(s, read_head(check, s, ID, LEAST_SIZE)?)
    }

    pub fn is_directory(self) -> bool
        ensures { result ≡ is_directory self }
    {
        marks_directory(self.file_characteristics)
    }

    pub fn is_deleted(self) -> bool
        ensures { result ≡ is_deleted self }
    {
        marks_deleted(self.file_characteristics)
    }

    pub fn is_parent(self) -> bool
        ensures { result ≡ is_parent self }
    {
        marks_parent(self.file_characteristics)
    }
}
