// Tags: the ids at the ends of the ranges, every length, every refusal, every change of one byte, and the place check.
ghost use Rattle.std.specs.Prelude.{◌≤◌, ◌<◌};

use crate::outputs::refused;
use disc::places::{Block, Sector};
use disc::refusals::Refusal;
use std::io;
use tags::DescriptorTag;

fn show(rt: &impl Print, t: DescriptorTag) -> io::Result<()> {
    println!(rt;
        ": read {} {} {} {} {} {}",
        t.id, t.descriptor_version, t.serial_number, t.crc, t.crc_length, t.location
    )
}

fn answer(rt: &impl Print, r: Result<DescriptorTag, Refusal>) -> io::Result<()> {
    match r {
        Ok(t) => show(rt, t),
        Err(why) => refused(rt, why),
    }
}

// A tag with these fields; version and location are those of case 1 of the worked table.
fn tag_with(id: u16, serial_number: u16, crc: u16, crc_length: u16) -> DescriptorTag {
    DescriptorTag {
        id,
        descriptor_version: 3,
        serial_number,
        crc,
        crc_length,
        location: 256,
    }
}

fn case_1() -> [u8; 16] {
    tag_with(2, 0, 0, 0).encode()
}

// A tag with this id and the right checksum.
fn id(rt: &impl Print, n: u16) -> io::Result<()> {
    print!(rt; "id {n}")?;
    let bytes = tag_with(n, 513, 1027, 1541).encode();
    answer(rt, DescriptorTag::parse(&bytes))
}

pub(crate) fn ids(rt: &impl Print) -> io::Result<()> {
    for n in [0, 1, 9, 10, 255, 256, 266, 267, 65535] {
        id(rt, n)?;
    }
    Ok(())
}

// The first bytes of case 1.
pub(crate) fn lengths(rt: &impl Print) -> io::Result<()> {
    let bytes = case_1();
    for n in 0..=bytes.len() {
        print!(rt; "length {n}")?;
        answer(rt, DescriptorTag::parse(&bytes[..n]))?;
    }
    Ok(())
}

// Case 1 with this reserved byte and this checksum. Each of the two checks fails alone once.
fn checked(rt: &impl Print, reserved: u8, checksum: u8) -> io::Result<()> {
    let mut bytes = case_1();
    bytes[4] = checksum;
    bytes[5] = reserved;
    print!(rt; "reserved {reserved} checksum {checksum}")?;
    answer(rt, DescriptorTag::parse(&bytes))
}

pub(crate) fn checks(rt: &impl Print) -> io::Result<()> {
    checked(rt, 0, 6)?;
    checked(rt, 0, 7)?;
    checked(rt, 1, 6)?;
    checked(rt, 1, 7)?;
    print!(rt; "sixteen zeros")?;
    answer(rt, DescriptorTag::parse(&[0; 16]))
}

fn is_refused(r: Result<DescriptorTag, Refusal>) -> bool {
    match r {
        Ok(_) => false,
        Err(_) => true,
    }
}

fn is_refused_changed(at: usize, by: u8) -> bool
    requires { at < 16 }
{
    let mut bytes = case_1();
    bytes[at] = bytes[at].wrapping_add(by);
    is_refused(DescriptorTag::parse(&bytes))
}

// How many of the 255 other values of a byte are refused.
fn changes_at(at: usize) -> usize
    requires { at < 16 }
{
    (1..=255u8).filter(|by| is_refused_changed(at, *by)).count()
}

pub(crate) fn changes(rt: &impl Print) -> io::Result<()> {
    for at in 0..16 {
        println!(rt; "changes of byte {at} refused: {}", changes_at(at))?;
    }
    Ok(())
}

fn placed(rt: &impl Print, id: u16, sector: u64, block: u32) -> io::Result<()> {
    let is_there = tag_with(id, 0, 0, 0).is_in_place(Sector(sector), Block(block));
    let said = if is_there { "yes" } else { "no" };
    println!(rt; "id {id} location 256 at sector {sector} block {block}: {said}")
}

// The sector's number is equal, the block's, both, neither; then numbers that are equal in their low 16 bits, and a
// sector's in its low 32: it can pass 2^32, and a location can't.
fn places_of(rt: &impl Print, id: u16) -> io::Result<()> {
    placed(rt, id, 256, 7)?;
    placed(rt, id, 7, 256)?;
    placed(rt, id, 256, 256)?;
    placed(rt, id, 255, 257)?;
    placed(rt, id, 65792, 7)?;
    placed(rt, id, 7, 65792)?;
    placed(rt, id, 4294967552, 7)
}

// The ids at the ends of the ranges.
pub(crate) fn places(rt: &impl Print) -> io::Result<()> {
    for id in [0, 1, 9, 10, 255, 256, 266, 267] {
        places_of(rt, id)?;
    }
    Ok(())
}
