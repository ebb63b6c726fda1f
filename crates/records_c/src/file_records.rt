// File structure: the ICB tag, the entry of a file, and the entry of a directory.
ghost use Rattle.std.specs.Prelude.{◌≡◌, false};
ghost use Rattle.entries.specs.Answers.{no_icb_tag, icb_tag_answer, entry_answer};
ghost use Rattle.entries.specs.FileEntries.{read_entry};
ghost use Rattle.entries.specs.IcbTags.{read_icb_tag};
ghost use Rattle.identifiers.specs.Answers.{no_identifier, identifier_answer};
ghost use Rattle.identifiers.specs.Identifiers.{read_identifier};
ghost use Rattle.records_c.specs.Entries.{fields_of, no_fields, fields_answer};

use crate::answers::told;
use disc::answers::DONE;
use entries::file_entries::FileEntry;
use entries::icb_tags::IcbTag;
use identifiers::FileIdentifierDescriptor;
use records::allocations::{LbAddr, no_long};
use tags::{DescriptorTag, no_tag};

#[repr(C)]
#[derive(Clone, Copy)]
pub struct IcbTagAnswer {
    pub answer: u64,
    pub value: IcbTag,
}

fn no_icb_tag() -> IcbTag
    ensures { result ≡ no_icb_tag }
{
    IcbTag {
        prior_recorded_entries: 0,
        strategy_type: 0,
        strategy_parameter: 0,
        max_entries: 0,
        file_type: 0,
        parent_icb: LbAddr {
            block: 0,
            partition_ref: 0,
        },
        flags: 0,
    }
}

#[unsafe(no_mangle)]
pub extern "C" fn records_parse_icb_tag(bytes: &[u8]) -> IcbTagAnswer
    ensures { record { number = result.answer; value = result.value } ≡ icb_tag_answer (read_icb_tag bytes.now) }
{
    let (answer, value) = told(IcbTag::parse(bytes), no_icb_tag());
    IcbTagAnswer { answer, value }
}

// A file entry (id 261) or an extended one (266). The area of allocation descriptors, or the embedded file, is in
// `bytes` from `area_at` on. It is inside `bytes`, and is not looked at here. The object size, an enum in the entry, is
// passed as a bool and a number.
#[repr(C)]
#[derive(Clone, Copy)]
pub struct EntryFields {
    pub tag: DescriptorTag,
    pub icb_tag: IcbTag,
    pub uid: u32,
    pub gid: u32,
    pub permissions: u32,
    pub file_link_count: u16,
    pub record_format: u8,
    pub record_display_attributes: u8,
    pub record_length: u32,
    pub information_length: u64,
    pub logical_blocks_recorded: u64,
    // Whether there is one: an extended entry has it.
    pub has_object_size: bool,
    // 0 if there is none.
    pub object_size: u64,
    pub length_of_extended_attributes: u32,
    pub length_of_allocation_descriptors: u32,
    // The kind of the area: 0 short_ad, 1 long_ad, 2 ext_ad, 3 the file itself.
    pub kind: u8,
    pub area_at: usize,
    pub area_length: usize,
}

#[repr(C)]
#[derive(Clone, Copy)]
pub struct EntryAnswer {
    pub answer: u64,
    pub value: EntryFields,
}

fn fields_of(e: FileEntry) -> EntryFields
    ensures { result ≡ fields_of e }
{
    let tag = e.tag;
    let icb_tag = e.icb_tag;
    let size = e.object_size;
    EntryFields {
        tag,
        icb_tag,
        uid: e.uid,
        gid: e.gid,
        permissions: e.permissions,
        file_link_count: e.file_link_count,
        record_format: e.record_format,
        record_display_attributes: e.record_display_attributes,
        record_length: e.record_length,
        information_length: e.information_length,
        logical_blocks_recorded: e.logical_blocks_recorded,
        has_object_size: size.is_some(),
        object_size: size.unwrap_or(0),
        length_of_extended_attributes: e.length_of_extended_attributes,
        length_of_allocation_descriptors: e.length_of_allocation_descriptors,
        kind: e.kind,
        area_at: e.area_at,
        area_length: e.area_length,
    }
}

fn no_fields() -> EntryFields
    ensures { result ≡ no_fields }
{
    EntryFields {
        tag: no_tag(),
        icb_tag: no_icb_tag(),
        uid: 0,
        gid: 0,
        permissions: 0,
        file_link_count: 0,
        record_format: 0,
        record_display_attributes: 0,
        record_length: 0,
        information_length: 0,
        logical_blocks_recorded: 0,
        has_object_size: false,
        object_size: 0,
        length_of_extended_attributes: 0,
        length_of_allocation_descriptors: 0,
        kind: 0,
        area_at: 0,
        area_length: 0,
    }
}

#[unsafe(no_mangle)]
pub extern "C" fn records_parse_file_entry(bytes: &[u8]) -> EntryAnswer
    ensures { result ≡ fields_answer (entry_answer (read_entry false bytes.now)) }
{
    match FileEntry::parse(false, bytes) {
        Ok(e) => EntryAnswer {
            answer: DONE,
            value: fields_of(e),
        },
        Err(why) => EntryAnswer {
            answer: why.number(),
            value: no_fields(),
        },
    }
}

#[repr(C)]
#[derive(Clone, Copy)]
pub struct IdentifierAnswer {
    pub answer: u64,
    pub value: FileIdentifierDescriptor,
}

fn no_identifier() -> FileIdentifierDescriptor
    ensures { result ≡ no_identifier }
{
    FileIdentifierDescriptor {
        tag: no_tag(),
        file_version_number: 0,
        file_characteristics: 0,
        icb: no_long(),
        name_at: 0,
        name_length: 0,
        name_size: 0,
        total_size: 0,
    }
}

#[unsafe(no_mangle)]
pub extern "C" fn records_parse_file_identifier(bytes: &[u8]) -> IdentifierAnswer
    ensures { record { number = result.answer; value = result.value } ≡ identifier_answer (read_identifier false bytes.now) }
{
    let (answer, value) = told(
        FileIdentifierDescriptor::parse(false, bytes),
        no_identifier(),
    );
    IdentifierAnswer { answer, value }
}
