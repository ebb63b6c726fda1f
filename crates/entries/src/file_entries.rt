// The entry of a file: a file entry or an extended one, read as one record.
ghost use Rattle.std.specs.Prelude.{◌≡◌, ◌+◌, ◌≤◌, ◌<◌, length};
ghost use Rattle.entries.specs.FileEntries.{plain_tail, extended_tail, entry_of, entry_with, entry_id, entry_behind, read_entry, is_directory, is_extended};

use crate::icb_tags::{IcbTag, icb_tag_at};
use disc::refusals::Refusal;
use records::bytes::{byte_at, le16, le32, le64};
use tags::DescriptorTag;
use tags::heads::read_head;

// A plain entry, ECMA-167 4/14.9, and an extended one, 4/14.17. The sizes end where the attributes start.
const PLAIN_ID: u16 = 261;

const PLAIN_SIZE: usize = 176;

const EXTENDED_ID: u16 = 266;

const EXTENDED_SIZE: usize = 216;

// `area_at` and `area_length` say where the area of allocation descriptors, or the embedded file, is in the bytes
// given.
#[derive(Clone, Copy)]
pub struct FileEntry {
    pub tag: DescriptorTag,
    pub icb_tag: IcbTag,
    pub uid: u32,
    pub gid: u32,
    pub permissions: u32,
    pub file_link_count: u16,
    pub record_format: u8,
    pub record_display_attributes: u8,
    pub record_length: u32,
    pub information_length: u64,
    pub logical_blocks_recorded: u64,
    pub object_size: Option<u64>,
    pub length_of_extended_attributes: u32,
    pub length_of_allocation_descriptors: u32,
    pub kind: u8,
    pub area_at: usize,
    pub area_length: usize,
}

// The fields from 64 on, where the two forms differ. The attributes start at `prefix`.
#[derive(Clone, Copy)]
struct EntryTail {
    prefix: usize,
    logical_blocks_recorded: u64,
    object_size: Option<u64>,
    attributes: u32,
    descriptors: u32,
}

fn plain_tail(s: &[u8]) -> EntryTail
    ensures { result ≡ plain_tail s.now }
{
    EntryTail {
        prefix: PLAIN_SIZE,
        logical_blocks_recorded: le64(s, 64),
        object_size: None,
        attributes: le32(s, 168),
        descriptors: le32(s, 172),
    }
}

fn extended_tail(s: &[u8]) -> EntryTail
    ensures { result ≡ extended_tail s.now }
{
    EntryTail {
        prefix: EXTENDED_SIZE,
        logical_blocks_recorded: le64(s, 72),
        object_size: Some(le64(s, 64)),
        attributes: le32(s, 208),
        descriptors: le32(s, 212),
    }
}

// Where the area starts: after the attributes.
fn area_start(d: EntryTail) -> usize
    requires { d.prefix ≤ 216 }
    ensures { (result ≡ d.prefix + d.attributes) × (result < 0x1_0000_0100) }
{
    d.prefix + d.attributes as usize
}

// The entry, with the other fields read at their offsets.
fn entry_of(s: &[u8], t: DescriptorTag, icb: IcbTag, d: EntryTail) -> FileEntry
    requires { d.prefix ≤ 216 }
    ensures { result ≡ entry_of s.now t icb d }
{
    let object_size = d.object_size;
    FileEntry {
        tag: t,
        icb_tag: icb,
        uid: le32(s, 36),
        gid: le32(s, 40),
        permissions: le32(s, 44),
        file_link_count: le16(s, 48),
        record_format: byte_at(s, 50),
        record_display_attributes: byte_at(s, 51),
        record_length: le32(s, 52),
        information_length: le64(s, 56),
        logical_blocks_recorded: d.logical_blocks_recorded,
        object_size: object_size,
        length_of_extended_attributes: d.attributes,
        length_of_allocation_descriptors: d.descriptors,
        kind: (icb.flags % 8) as u8,
        area_at: area_start(d),
        area_length: d.descriptors as usize,
    }
}

// The entry, unless its kind is over 3 or its area ends past the bytes given.
fn entry_with(s: &[u8], t: DescriptorTag, icb: IcbTag, d: EntryTail) -> Result<FileEntry, Refusal>
    requires { d.prefix ≤ 216 }
    ensures { result ≡ entry_with s.now t icb d }
{
    if 3 < icb.flags % 8 {
        return Err(Refusal::Malformed);
    }
    if s.len() < area_start(d) + d.descriptors as usize {
        return Err(Refusal::Malformed);
    }
    Ok(entry_of(s, t, icb, d))
}

// The id that the entry at the front of `s` must have: an extended one's if that is recorded, otherwise a plain
// one's.
fn entry_id(s: &[u8]) -> u16
    ensures { result ≡ entry_id s.now }
{
    if le16(s, 0) == EXTENDED_ID {
        return EXTENDED_ID;
    }
    PLAIN_ID
}

// The entry in `s`, whose tag is `t`.
fn entry_behind(s: &[u8], t: DescriptorTag) -> Result<FileEntry, Refusal>
    requires { 176 ≤ length s.now }
    ensures { result ≡ entry_behind s.now t }
{
    let icb = icb_tag_at(s, 16);
    if t.id == EXTENDED_ID {
        if s.len() < EXTENDED_SIZE {
            return Err(Refusal::Malformed);
        }
        return entry_with(s, t, icb, extended_tail(s));
    }
    entry_with(s, t, icb, plain_tail(s))
}

impl FileEntry {
    pub fn parse(check: bool, s: &[u8]) -> Result<FileEntry, Refusal>
        ensures { result ≡ read_entry check s.now }
    {
        let t = read_head(check, s, entry_id(s), PLAIN_SIZE)?;
        entry_behind(s, t)
    }

    pub fn is_directory(self) -> bool
        ensures { result ≡ is_directory self }
    {
        self.icb_tag.file_type == 4
    }

    pub fn is_extended(self) -> bool
        ensures { result ≡ is_extended self }
    {
        self.tag.id == EXTENDED_ID
    }
}
