// Runs the cases for ICB tags, file entries and file identifiers. Each line has the question and the answer, field by
// field in the order of the record.
#![tactic(auto)]

use disc::answers::DONE;
use disc::moves::copy;
use disc::refusals::Refusal;
use entries::file_entries::FileEntry;
use entries::icb_tags::IcbTag;
use identifiers::FileIdentifierDescriptor;
use programs::lent::front;
use programs::shown::Hex;
use records::allocations::{LbAddr, LongAd, no_long};
use records::bytes::le64;
use std::io;
use tags::{DescriptorTag, no_tag};

// A word behind a space if `holds`, else nothing.
fn word_if(holds: bool, word: &str) -> &str {
    if holds { word } else { "" }
}

// ---- bytes to be told apart: each is its own offset, modulo 256

fn fill(out: &mut [u8]) {
    for (b, i) in out.iter_mut().zip((0..=255).cycle()) {
        *b = i;
    }
}

// Puts bytes into out from `at` on.
fn put(text: &[u8], out: &mut [u8], at: usize) {
    if out.len() < at {
        return;
    }
    copy(text, &mut out[at..]);
}

// Puts a tag with this id and the right checksum at the front of out.
fn put_tag(id: u16, out: &mut [u8]) {
    let t = DescriptorTag {
        id,
        descriptor_version: 3,
        serial_number: 0x0706,
        crc: 0x0908,
        crc_length: 0x0b0a,
        location: 0x0f0e0d0c,
    };
    copy(&t.encode(), out);
}

// ---- what was read

fn say_tag(rt: &impl Print, t: DescriptorTag) -> io::Result<()> {
    print!(rt;
        " {} {} {} {} {} {}",
        t.id, t.descriptor_version, t.serial_number, t.crc, t.crc_length, t.location
    )
}

fn say_address(rt: &impl Print, a: LbAddr) -> io::Result<()> {
    print!(rt; " {} {}", a.block, a.partition_ref)
}

fn say_icb_tag(rt: &impl Print, t: IcbTag) -> io::Result<()> {
    print!(rt;
        " {} {} {} {} {}",
        t.prior_recorded_entries, t.strategy_type, t.strategy_parameter, t.max_entries, t.file_type
    )?;
    say_address(rt, t.parent_icb)?;
    print!(rt; " {}", t.flags)
}

fn say_object(rt: &impl Print, o: Option<u64>) -> io::Result<()> {
    match o {
        Some(n) => print!(rt; " {n}"),
        None => print!(rt; " none"),
    }
}

fn say_tail(rt: &impl Print, e: FileEntry) -> io::Result<()> {
    print!(rt; " {}", e.logical_blocks_recorded)?;
    say_object(rt, e.object_size)?;
    let directory = word_if(e.is_directory(), " directory");
    let extended = word_if(e.is_extended(), " extended");
    print!(rt;
        " {} {} {} {} {}{directory}{extended}",
        e.length_of_extended_attributes,
        e.length_of_allocation_descriptors,
        e.kind,
        e.area_at,
        e.area_length
    )
}

fn say_entry(rt: &impl Print, e: FileEntry) -> io::Result<()> {
    say_tag(rt, e.tag)?;
    say_icb_tag(rt, e.icb_tag)?;
    print!(rt;
        " {} {} {} {} {} {} {} {}",
        e.uid,
        e.gid,
        e.permissions,
        e.file_link_count,
        e.record_format,
        e.record_display_attributes,
        e.record_length,
        e.information_length
    )?;
    say_tail(rt, e)
}

fn say_long(rt: &impl Print, a: LongAd) -> io::Result<()> {
    print!(rt; " {} {}", a.length, a.extent_type)?;
    say_address(rt, a.location)?;
    let used = a.implementation_use;
    print!(rt; "{}", Hex(&used))
}

fn say_identifier(rt: &impl Print, f: FileIdentifierDescriptor) -> io::Result<()> {
    say_tag(rt, f.tag)?;
    print!(rt; " {} {}", f.file_version_number, f.file_characteristics)?;
    say_long(rt, f.icb)?;
    print!(rt;
        " {} {} {} {}",
        f.name_at, f.name_length, f.name_size, f.total_size
    )
}

fn say_bits(rt: &impl Print, f: FileIdentifierDescriptor) -> io::Result<()> {
    let directory = word_if(f.is_directory(), " directory");
    let deleted = word_if(f.is_deleted(), " deleted");
    let parent = word_if(f.is_parent(), " parent");
    print!(rt; "{directory}{deleted}{parent}")
}

// ---- one case each

// The eight bytes at i, in a slice of nine.
fn eight_at(rt: &impl Print, i: usize) -> io::Result<()> {
    let b = [0, 1, 2, 3, 4, 5, 6, 7, 8];
    println!(rt; "le64 at {i}: {}", le64(&b, i))
}

// An ICB tag in the first n bytes.
fn icb_tag(rt: &impl Print, n: usize) -> io::Result<()> {
    let mut b = [0; 24];
    fill(&mut b);
    print!(rt; "icb tag of {n}:")?;
    match IcbTag::parse(front(&b, n)) {
        Ok(t) => say_icb_tag(rt, t)?,
        Err(why) => print!(rt; " refused {}", why.number())?,
    }
    println!(rt)
}

// Prints what was read as an entry.
fn answer_entry(rt: &impl Print, r: Result<FileEntry, Refusal>) -> io::Result<()> {
    match r {
        Ok(e) => say_entry(rt, e)?,
        Err(why) => print!(rt; " refused {}", why.number())?,
    }
    println!(rt)
}

// An entry in the first n bytes, of an id, file type and flags, with the lengths of its attributes and of its area.
fn entry(
    rt: &impl Print,
    id: u16,
    file_type: u8,
    flags: u8,
    attributes: u8,
    descriptors: u8,
    n: usize,
) -> io::Result<()> {
    let mut b = [0; 256];
    fill(&mut b);
    put_tag(id, &mut b);
    b[27] = file_type;
    b[34] = flags;
    let lengths = [attributes, 0, 0, 0, descriptors, 0, 0, 0];
    put(&lengths, &mut b, 168);
    put(&lengths, &mut b, 208);
    print!(rt; "entry {id} {file_type} {flags} {attributes} {descriptors} of {n}:")?;
    answer_entry(rt, FileEntry::parse(false, front(&b, n)))
}

// An entry whose tag has another checksum.
fn bad_checksum(rt: &impl Print) -> io::Result<()> {
    let mut b = [0; 176];
    put_tag(261, &mut b);
    b[4] = 0;
    print!(rt; "entry with another checksum:")?;
    answer_entry(rt, FileEntry::parse(false, &b))
}

// An entry whose area length has its highest byte set.
fn huge_area(rt: &impl Print) -> io::Result<()> {
    let mut b = [0; 176];
    put_tag(261, &mut b);
    b[175] = 0x80;
    print!(rt; "entry with an area of 2 GiB:")?;
    answer_entry(rt, FileEntry::parse(false, &b))
}

// The identifier that a refused one is shown as: zeros.
fn no_identifier() -> FileIdentifierDescriptor {
    FileIdentifierDescriptor {
        tag: no_tag(),
        file_version_number: 0,
        file_characteristics: 0,
        icb: no_long(),
        name_at: 0,
        name_length: 0,
        name_size: 0,
        total_size: 0,
    }
}

fn answer_identifier(
    rt: &impl Print,
    r: Result<FileIdentifierDescriptor, Refusal>,
) -> io::Result<()> {
    let (answer, f) = match r {
        Ok(f) => (DONE, f),
        Err(why) => (why.number(), no_identifier()),
    };
    print!(rt; ": answer {answer}")?;
    say_identifier(rt, f)?;
    say_bits(rt, f)?;
    println!(rt)
}

// An identifier in the first n bytes, of an id and characteristics, with the lengths of its implementation use and of its name.
fn identifier(
    rt: &impl Print,
    id: u16,
    characteristics: u8,
    uses: u8,
    name: &[u8],
    name_length: u8,
    n: usize,
) -> io::Result<()> {
    let mut b = [0; 64];
    fill(&mut b);
    put_tag(id, &mut b);
    b[18] = characteristics;
    b[19] = name_length;
    b[36] = uses;
    b[37] = 0;
    put(name, &mut b, 38 + usize::from(uses));
    print!(rt;
        "identifier {id} {characteristics} {uses} {name_length} of {n}{}",
        Hex(name)
    )?;
    answer_identifier(rt, FileIdentifierDescriptor::parse(false, front(&b, n)))
}

// An identifier with these characteristics and no name.
fn characterised(rt: &impl Print, characteristics: u8) -> io::Result<()> {
    identifier(rt, 257, characteristics, 0, b"", 0, 64)
}

// An identifier with a name of n bytes.
fn sized(rt: &impl Print, n: u8) -> io::Result<()> {
    identifier(rt, 257, 0, 0, b"\x08abcdefg", n, 64)
}

// ---- the cases

fn numbers(rt: &impl Print) -> io::Result<()> {
    for i in [0, 1, 2, 8, 9] {
        eight_at(rt, i)?;
    }
    for n in [0, 19, 20, 24] {
        icb_tag(rt, n)?;
    }
    Ok(())
}

// One byte short of each size, and the sizes.
fn entry_sizes(rt: &impl Print) -> io::Result<()> {
    entry(rt, 261, 5, 0, 0, 0, 175)?;
    entry(rt, 261, 5, 0, 0, 0, 176)?;
    entry(rt, 261, 4, 0, 0, 0, 256)?;
    entry(rt, 266, 5, 0, 0, 0, 175)?;
    entry(rt, 266, 5, 0, 0, 0, 176)?;
    entry(rt, 266, 5, 0, 0, 0, 215)?;
    entry(rt, 266, 5, 0, 0, 0, 216)?;
    entry(rt, 266, 4, 0, 0, 0, 256)
}

// Ids that are no entry's, listed or not, and a tag that is refused.
fn entry_ids(rt: &impl Print) -> io::Result<()> {
    entry(rt, 1, 5, 0, 0, 0, 256)?;
    entry(rt, 256, 5, 0, 0, 0, 256)?;
    entry(rt, 257, 5, 0, 0, 0, 256)?;
    entry(rt, 258, 5, 0, 0, 0, 256)?;
    entry(rt, 260, 5, 0, 0, 0, 256)?;
    entry(rt, 262, 5, 0, 0, 0, 256)?;
    entry(rt, 265, 5, 0, 0, 0, 256)?;
    entry(rt, 267, 5, 0, 0, 0, 256)?;
    entry(rt, 0, 5, 0, 0, 0, 256)?;
    bad_checksum(rt)
}

// The four kinds of descriptors, and the flags that are none; the other bits aren't looked at.
fn entry_kinds(rt: &impl Print) -> io::Result<()> {
    entry(rt, 261, 5, 1, 0, 0, 176)?;
    entry(rt, 261, 5, 2, 0, 0, 176)?;
    entry(rt, 261, 5, 3, 0, 0, 176)?;
    entry(rt, 261, 5, 0xf8, 0, 0, 176)?;
    entry(rt, 261, 5, 0xfb, 0, 0, 176)?;
    entry(rt, 261, 5, 4, 0, 0, 176)?;
    entry(rt, 261, 5, 5, 0, 0, 176)?;
    entry(rt, 261, 5, 6, 0, 0, 176)?;
    entry(rt, 261, 5, 7, 0, 0, 176)?;
    entry(rt, 266, 5, 4, 0, 0, 256)
}

// Areas that fit exactly, and that are one byte too long.
fn entry_areas(rt: &impl Print) -> io::Result<()> {
    entry(rt, 261, 5, 0, 0, 80, 256)?;
    entry(rt, 261, 5, 0, 0, 81, 256)?;
    entry(rt, 261, 5, 0, 80, 0, 256)?;
    entry(rt, 261, 5, 0, 81, 0, 256)?;
    entry(rt, 261, 5, 0, 30, 50, 256)?;
    entry(rt, 261, 5, 0, 30, 51, 256)?;
    entry(rt, 266, 5, 0, 16, 24, 256)?;
    entry(rt, 266, 5, 0, 16, 25, 256)?;
    entry(rt, 266, 5, 0, 17, 24, 256)?;
    huge_area(rt)
}

fn identifier_sizes(rt: &impl Print) -> io::Result<()> {
    identifier(rt, 257, 0, 0, b"", 0, 37)?;
    identifier(rt, 257, 0, 0, b"", 0, 38)?;
    identifier(rt, 257, 0, 0, b"\x08a", 2, 39)?;
    identifier(rt, 257, 0, 0, b"\x08a", 2, 40)?;
    identifier(rt, 257, 0, 20, b"\x08a", 2, 59)?;
    identifier(rt, 257, 0, 20, b"\x08a", 2, 60)?;
    identifier(rt, 257, 0, 0, b"\x08a", 255, 64)?;
    identifier(rt, 256, 0, 0, b"", 0, 64)?;
    identifier(rt, 258, 0, 0, b"", 0, 64)?;
    identifier(rt, 267, 0, 0, b"", 0, 64)
}

// The end rounded up to 4, for names of 0 to 8 bytes.
fn roundings(rt: &impl Print) -> io::Result<()> {
    for n in 0..=8 {
        sized(rt, n)?;
    }
    identifier(rt, 257, 0, 3, b"\x08abc", 4, 64)
}

fn identifier_names(rt: &impl Print) -> io::Result<()> {
    identifier(rt, 257, 0, 0, b"\x10\x00a\x00b", 5, 64)?;
    identifier(rt, 257, 0, 0, b"\x10\x00a\x00", 4, 64)?;
    identifier(rt, 257, 0, 0, b"\x10\x20\xac", 3, 64)?;
    identifier(rt, 257, 0, 0, b"\x08\xe9", 2, 64)?;
    identifier(rt, 257, 0, 0, b"\x08a\x00b", 4, 64)?;
    identifier(rt, 257, 0, 0, b"\x00a", 2, 64)?;
    identifier(rt, 257, 0, 0, b"\xfd", 1, 64)?;
    identifier(rt, 257, 0, 0, b"\xfe", 1, 64)?;
    identifier(rt, 257, 4, 0, b"\xff\x00a\x00", 4, 64)?;
    identifier(rt, 257, 0, 0, b"\x09a", 2, 64)
}

// Bits of the characteristics, alone and together.
fn characteristics(rt: &impl Print) -> io::Result<()> {
    for bits in [1, 2, 4, 8, 16, 0xf1, 10, 255] {
        characterised(rt, bits)?;
    }
    Ok(())
}

fn cases(rt: &impl Print) -> io::Result<()> {
    numbers(rt)?;
    entry_sizes(rt)?;
    entry_ids(rt)?;
    entry_kinds(rt)?;
    entry_areas(rt)?;
    identifier_sizes(rt)?;
    roundings(rt)?;
    identifier_names(rt)?;
    characteristics(rt)
}

fn main(rt: HostRuntime) {
    // A line that can't be written doesn't change the exit status.
    let _ = cases(&rt);
}
