// Runs the cases for the volume's descriptors. Each line has what was read, its id, its size, the byte that was
// changed, and the answer.
#![tactic(auto)]

use descriptors::anchors::AnchorVolumeDescriptorPointer;
use descriptors::file_sets::FileSetDescriptor;
use descriptors::logicals::LogicalVolumeDescriptor;
use descriptors::partitions::PartitionDescriptor;
use descriptors::primaries::PrimaryVolumeDescriptor;
use disc::answers::DONE;
use disc::moves::copy;
use disc::refusals::Refusal;
use programs::lent::front;
use programs::shown::Hex;
use records::allocations::{ExtentAd, LongAd, no_long};
use std::io;
use tags::{DescriptorTag, no_tag};

fn refuse(rt: &impl Print, why: Refusal) -> io::Result<()> {
    println!(rt; " refused {}", why.number())
}

fn say_tag(rt: &impl Print, t: DescriptorTag) -> io::Result<()> {
    print!(rt;
        " id {} version {} serial {} crc {} crc_length {} location {}",
        t.id, t.descriptor_version, t.serial_number, t.crc, t.crc_length, t.location
    )
}

fn say_extent(rt: &impl Print, name: &str, e: ExtentAd) -> io::Result<()> {
    print!(rt; " {name} {} at {}", e.length, e.location)
}

fn say_long(rt: &impl Print, name: &str, a: LongAd) -> io::Result<()> {
    let at = a.location;
    let used = a.implementation_use;
    print!(rt;
        " {name} {} type {} block {} partition {} use{}",
        a.length,
        a.extent_type,
        at.block,
        at.partition_ref,
        Hex(&used)
    )
}

// ---- what is read

// Byte i is i modulo 251, so that no two fields are alike.
fn fill(d: &mut [u8]) {
    for (b, i) in d.iter_mut().zip((0..251).cycle()) {
        *b = i;
    }
}

fn put(d: &mut [u8], at: usize, b: u8) {
    if at < d.len() {
        d[at] = b;
    }
}

fn put_tag(d: &mut [u8], id: u16) {
    let t = DescriptorTag {
        id,
        descriptor_version: 3,
        serial_number: 7,
        crc: 4660,
        crc_length: 496,
        location: 65794,
    };
    copy(&t.encode(), d);
}

// A descriptor with this id and good label fields, in which byte `at` is then set to b.
fn build(d: &mut [u8], id: u16, at: usize, b: u8) {
    fill(d);
    put_tag(d, id);
    put(d, 24, 8);
    put(d, 55, 5);
    put(d, 84, 8);
    put(d, 211, 6);
    put(d, at, b);
}

// Prints what is read, and what was changed.
fn asked(rt: &impl Print, name: &str, id: u16, n: usize, at: usize, b: u8) -> io::Result<()> {
    print!(rt; "{name} id {id} size {n} byte {at} is {b}:")
}

// ---- the descriptors

fn say_anchor(
    rt: &impl Print,
    r: Result<AnchorVolumeDescriptorPointer, Refusal>,
) -> io::Result<()> {
    match r {
        Err(why) => refuse(rt, why),
        Ok(a) => {
            say_tag(rt, a.tag)?;
            say_extent(rt, "main", a.main_volume_descriptor_sequence)?;
            say_extent(rt, "reserve", a.reserve_volume_descriptor_sequence)?;
            println!(rt)
        }
    }
}

fn anchor(rt: &impl Print, s: &[u8]) -> io::Result<()> {
    say_anchor(rt, AnchorVolumeDescriptorPointer::parse(false, s))
}

// What is shown: the answer and the descriptor that was read, or the answer of a refusal and a descriptor of zeros.
fn shown<T: Drop>(r: Result<T, Refusal>, zeros: T) -> (u64, T) {
    match r {
        Ok(d) => (DONE, d),
        Err(why) => (why.number(), zeros),
    }
}

fn no_primary() -> PrimaryVolumeDescriptor {
    PrimaryVolumeDescriptor {
        tag: no_tag(),
        volume_descriptor_sequence_number: 0,
        primary_volume_descriptor_number: 0,
        volume_identifier: [0; 32],
    }
}

fn no_logical() -> LogicalVolumeDescriptor {
    LogicalVolumeDescriptor {
        tag: no_tag(),
        volume_descriptor_sequence_number: 0,
        logical_volume_identifier: [0; 128],
        logical_block_size: 0,
        file_set_descriptor_location: no_long(),
        map_table_length: 0,
        number_of_partition_maps: 0,
        partition_maps: [0; 24],
    }
}

fn no_file_set() -> FileSetDescriptor {
    FileSetDescriptor {
        tag: no_tag(),
        root_directory_icb: no_long(),
    }
}

fn primary(rt: &impl Print, s: &[u8]) -> io::Result<()> {
    let (answer, d) = shown(PrimaryVolumeDescriptor::parse(false, s), no_primary());
    let label = d.volume_identifier;
    print!(rt; " answer {answer}")?;
    say_tag(rt, d.tag)?;
    println!(rt;
        " sequence {} number {} label{}",
        d.volume_descriptor_sequence_number,
        d.primary_volume_descriptor_number,
        Hex(&label)
    )
}

fn say_partition(rt: &impl Print, r: Result<PartitionDescriptor, Refusal>) -> io::Result<()> {
    match r {
        Err(why) => refuse(rt, why),
        Ok(p) => {
            say_tag(rt, p.tag)?;
            println!(rt;
                " sequence {} flags {} number {} start {} length {}",
                p.volume_descriptor_sequence_number,
                p.partition_flags,
                p.partition_number,
                p.partition_starting_location,
                p.partition_length
            )
        }
    }
}

fn partition(rt: &impl Print, s: &[u8]) -> io::Result<()> {
    say_partition(rt, PartitionDescriptor::parse(false, s))
}

fn logical(rt: &impl Print, s: &[u8]) -> io::Result<()> {
    let (answer, d) = shown(LogicalVolumeDescriptor::parse(false, s), no_logical());
    let label = d.logical_volume_identifier;
    print!(rt; " answer {answer}")?;
    say_tag(rt, d.tag)?;
    print!(rt;
        " sequence {} label{} block_size {}",
        d.volume_descriptor_sequence_number,
        Hex(&label),
        d.logical_block_size
    )?;
    say_long(rt, "file_set", d.file_set_descriptor_location)?;
    println!(rt)
}

fn map_table(rt: &impl Print, s: &[u8]) -> io::Result<()> {
    let (answer, d) = shown(LogicalVolumeDescriptor::parse(false, s), no_logical());
    let maps = d.partition_maps;
    println!(rt;
        " answer {answer} table {} number {} maps{}",
        d.map_table_length,
        d.number_of_partition_maps,
        Hex(&maps)
    )
}

fn file_set(rt: &impl Print, s: &[u8]) -> io::Result<()> {
    let (answer, d) = shown(FileSetDescriptor::parse(false, s), no_file_set());
    print!(rt; " answer {answer}")?;
    say_tag(rt, d.tag)?;
    say_long(rt, "root", d.root_directory_icb)?;
    println!(rt)
}

fn anchor_case(
    rt: &impl Print,
    d: &mut [u8],
    id: u16,
    n: usize,
    at: usize,
    b: u8,
) -> io::Result<()> {
    build(d, id, at, b);
    asked(rt, "anchor", id, n, at, b)?;
    anchor(rt, front(d, n))
}

fn primary_case(
    rt: &impl Print,
    d: &mut [u8],
    id: u16,
    n: usize,
    at: usize,
    b: u8,
) -> io::Result<()> {
    build(d, id, at, b);
    asked(rt, "primary", id, n, at, b)?;
    primary(rt, front(d, n))
}

fn partition_case(
    rt: &impl Print,
    d: &mut [u8],
    id: u16,
    n: usize,
    at: usize,
    b: u8,
) -> io::Result<()> {
    build(d, id, at, b);
    asked(rt, "partition", id, n, at, b)?;
    partition(rt, front(d, n))
}

fn logical_case(
    rt: &impl Print,
    d: &mut [u8],
    id: u16,
    n: usize,
    at: usize,
    b: u8,
) -> io::Result<()> {
    build(d, id, at, b);
    asked(rt, "logical", id, n, at, b)?;
    logical(rt, front(d, n))
}

fn map_case(rt: &impl Print, d: &mut [u8], n: usize, at: usize, b: u8) -> io::Result<()> {
    build(d, 6, at, b);
    asked(rt, "map_table", 6, n, at, b)?;
    map_table(rt, front(d, n))
}

fn file_set_case(
    rt: &impl Print,
    d: &mut [u8],
    id: u16,
    n: usize,
    at: usize,
    b: u8,
) -> io::Result<()> {
    build(d, id, at, b);
    asked(rt, "file_set", id, n, at, b)?;
    file_set(rt, front(d, n))
}

// ---- the cases: the last byte of the memory, 511, is in none of the descriptors

// The cases of every descriptor: whole, a byte short, two other ids and a wrong checksum.
fn anchors(rt: &impl Print, d: &mut [u8]) -> io::Result<()> {
    anchor_case(rt, d, 2, 32, 511, 0)?;
    anchor_case(rt, d, 2, 31, 511, 0)?;
    anchor_case(rt, d, 1, 32, 511, 0)?;
    anchor_case(rt, d, 3, 32, 511, 0)?;
    anchor_case(rt, d, 2, 32, 4, 0)
}

// More bytes than are needed, an id that isn't listed, and a reserved byte that isn't 0.
fn odd_anchors(rt: &impl Print, d: &mut [u8]) -> io::Result<()> {
    anchor_case(rt, d, 2, 512, 511, 0)?;
    anchor_case(rt, d, 10, 32, 511, 0)?;
    anchor_case(rt, d, 2, 32, 5, 1)
}

fn primaries(rt: &impl Print, d: &mut [u8]) -> io::Result<()> {
    primary_case(rt, d, 1, 56, 511, 0)?;
    primary_case(rt, d, 1, 55, 511, 0)?;
    primary_case(rt, d, 2, 56, 511, 0)?;
    primary_case(rt, d, 6, 56, 511, 0)?;
    primary_case(rt, d, 1, 56, 4, 0)
}

// The label's length: none, one below the field's size, the size, and the most that a byte can say.
fn primary_lengths(rt: &impl Print, d: &mut [u8]) -> io::Result<()> {
    primary_case(rt, d, 1, 56, 55, 0)?;
    primary_case(rt, d, 1, 56, 55, 31)?;
    primary_case(rt, d, 1, 56, 55, 32)?;
    primary_case(rt, d, 1, 56, 55, 255)
}

// The label's compression id, followed by an even number of bytes.
fn primary_labels(rt: &impl Print, d: &mut [u8]) -> io::Result<()> {
    primary_case(rt, d, 1, 56, 24, 0)?;
    primary_case(rt, d, 1, 56, 24, 7)?;
    primary_case(rt, d, 1, 56, 24, 9)?;
    primary_case(rt, d, 1, 56, 24, 16)?;
    deleted_primary_labels(rt, d)
}

// The ids of deleted names, and the one before them.
fn deleted_primary_labels(rt: &impl Print, d: &mut [u8]) -> io::Result<()> {
    primary_case(rt, d, 1, 56, 24, 253)?;
    primary_case(rt, d, 1, 56, 24, 254)?;
    primary_case(rt, d, 1, 56, 24, 255)
}

fn partitions(rt: &impl Print, d: &mut [u8]) -> io::Result<()> {
    partition_case(rt, d, 5, 196, 511, 0)?;
    partition_case(rt, d, 5, 195, 511, 0)?;
    partition_case(rt, d, 6, 196, 511, 0)?;
    partition_case(rt, d, 1, 196, 511, 0)?;
    partition_case(rt, d, 5, 196, 4, 0)?;
    partition_case(rt, d, 5, 196, 55, 255)
}

fn logicals(rt: &impl Print, d: &mut [u8]) -> io::Result<()> {
    logical_case(rt, d, 6, 440, 511, 0)?;
    logical_case(rt, d, 6, 439, 511, 0)?;
    logical_case(rt, d, 5, 440, 511, 0)?;
    logical_case(rt, d, 256, 440, 511, 0)?;
    logical_case(rt, d, 6, 440, 4, 0)
}

// The same for the other label, with an odd number of bytes after its compression id.
fn logical_labels(rt: &impl Print, d: &mut [u8]) -> io::Result<()> {
    logical_case(rt, d, 6, 440, 211, 0)?;
    logical_case(rt, d, 6, 440, 211, 127)?;
    logical_case(rt, d, 6, 440, 211, 128)?;
    logical_case(rt, d, 6, 440, 84, 0)?;
    logical_case(rt, d, 6, 440, 84, 9)?;
    logical_case(rt, d, 6, 440, 84, 16)?;
    deleted_logical_labels(rt, d)
}

fn deleted_logical_labels(rt: &impl Print, d: &mut [u8]) -> io::Result<()> {
    logical_case(rt, d, 6, 440, 84, 253)?;
    logical_case(rt, d, 6, 440, 84, 254)?;
    logical_case(rt, d, 6, 440, 84, 255)
}

fn file_sets(rt: &impl Print, d: &mut [u8]) -> io::Result<()> {
    file_set_case(rt, d, 256, 416, 511, 0)?;
    file_set_case(rt, d, 256, 415, 511, 0)?;
    file_set_case(rt, d, 257, 416, 511, 0)?;
    file_set_case(rt, d, 2, 416, 511, 0)?;
    file_set_case(rt, d, 256, 416, 4, 0)
}

// The map table: none of it given, its first byte, a part, all but a byte, all, and more; and a descriptor that is
// refused.
fn map_tables(rt: &impl Print, d: &mut [u8]) -> io::Result<()> {
    map_case(rt, d, 440, 511, 0)?;
    map_case(rt, d, 441, 511, 0)?;
    map_case(rt, d, 453, 440, 1)?;
    map_case(rt, d, 463, 511, 0)?;
    map_case(rt, d, 464, 463, 255)?;
    map_case(rt, d, 512, 268, 0)?;
    map_case(rt, d, 464, 4, 0)
}

fn cases(rt: &impl Print) -> io::Result<()> {
    let mut d = [0; 512];
    anchors(rt, &mut d)?;
    odd_anchors(rt, &mut d)?;
    primaries(rt, &mut d)?;
    primary_lengths(rt, &mut d)?;
    primary_labels(rt, &mut d)?;
    partitions(rt, &mut d)?;
    logicals(rt, &mut d)?;
    logical_labels(rt, &mut d)?;
    file_sets(rt, &mut d)?;
    map_tables(rt, &mut d)
}

fn main(rt: HostRuntime) {
    // A line that can't be written doesn't change the exit status.
    let _ = cases(&rt);
}
