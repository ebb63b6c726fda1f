// The parts of the image, each behind the one before it.
ghost use Rattle.std.specs.Prelude.{◌≡◌, true, ◌++◌, ◌+◌, ◌*◌, ◌≤◌, ◌<◌, length};
ghost use Rattle.writers.specs.Layout.{zeros, names_size, joined, recognition_part, sequence, integrity_part, root_part, front, identifiers, directory_part, entries, entries_part, anchor_at};
ghost use Rattle.writers.specs.Refusing.{names_in, are_short};
ghost use Rattle.writers.specs.Inner.Pours.{Poured, Kept, Named};

use crate::bodies::{ANCHOR, FILE_SET, INFO, LOGICAL, PARENT, PRIMARY, TERMINATING, UNALLOCATED};
use crate::contents::held;
use crate::namings::Names;
use crate::seals::{blank, blank_sectors, put_sector, seal, seal_sector};
use crate::structures::{file_entry, identifier, integrity_body, partition_body, root_entry};

// Sectors 0 to 31: the recognition sequence.
fn pour_recognition(image: &mut [u8], at: usize) -> usize
    requires { at + 65536 ≤ length image.old }
    ensures { Poured (joined recognition_part) 65536 at image.old image.new result }
{
    let first = blank_sectors(16, image, at);
    let second = put_sector(b"\0BEA01\x01", image, first);
    let third = put_sector(b"\0NSR02\x01", image, second);
    let behind = put_sector(b"\0TEA01\x01", image, third);
    blank_sectors(13, image, behind)
}

// A volume descriptor sequence, of a partition of so many blocks.
fn pour_sequence(location: u32, size: u32, image: &mut [u8], at: usize) -> usize
    requires { (location < 256) × (at + 32768 ≤ length image.old) }
    ensures { Poured (joined (sequence location size)) 32768 at image.old image.new result }
{
    let second = seal_sector(1, location, &PRIMARY, image, at);
    let third = seal_sector(4, location + 1, &INFO, image, second);
    let fourth = seal_sector(5, location + 2, &partition_body(size), image, third);
    let fifth = seal_sector(6, location + 3, &LOGICAL, image, fourth);
    let sixth = seal_sector(7, location + 4, &UNALLOCATED, image, fifth);
    let behind = seal_sector(8, location + 5, &TERMINATING, image, sixth);
    blank_sectors(10, image, behind)
}

// Sectors 64 to 271: the integrity sequence and the anchor.
fn pour_integrity(size: u32, files: u32, image: &mut [u8], at: usize) -> usize
    requires { (files ≤ 64) × (at + 425984 ≤ length image.old) }
    ensures { Poured (joined (integrity_part size files)) 425984 at image.old image.new result }
{
    let second = seal_sector(9, 64, &integrity_body(size, files), image, at);
    let third = seal_sector(8, 65, &TERMINATING, image, second);
    let fourth = blank_sectors(190, image, third);
    let behind = seal_sector(2, 256, &ANCHOR, image, fourth);
    blank_sectors(15, image, behind)
}

// Sectors 272 to 279: the file set and the root's entry.
fn pour_root(size: u32, image: &mut [u8], at: usize) -> usize
    requires { at + 16384 ≤ length image.old }
    ensures { Poured (joined (root_part size)) 16384 at image.old image.new result }
{
    let second = seal_sector(256, 0, &FILE_SET, image, at);
    let third = blank_sectors(1, image, second);
    let behind = root_entry(size, image, third);
    blank_sectors(5, image, behind)
}

// Sectors 0 to 279.
pub(crate) fn pour_front(size: u32, files: u32, directory: u32, image: &mut [u8]) -> usize
    requires { (files ≤ 64) × (573440 ≤ length image.old) }
    ensures { Poured (joined (front size files directory)) 573440 0 image.old image.new result }
{
    let main = pour_recognition(image, 0);
    let reserve = pour_sequence(32, size, image, main);
    let behind = pour_sequence(48, size, image, reserve);
    let root = pour_integrity(size, files, image, behind);
    pour_root(directory, image, root)
}

// The files' identifiers, behind the parent's: of 64 names at most.
fn pour_identifiers(names: &[u8], image: &mut [u8], at: usize) -> usize
    requires { at + 10752 ≤ length image.old }
    ensures { Kept (Named names.now) (identifiers 0 40 (names_in names.now)) (names_size (names_in names.now)) at (at + 10752) image.old image.new result }
{
    let mut place = at;
    for (i, name) in Names(names).take(64).enumerate() {
        let o = (place - at + 40) as u32;
        place = identifier(&name[..name.len().min(127)], i as u32, o, image, place);
    }
    place
}

// The directory, in eight sectors.
pub(crate) fn pour_directory(names: &[u8], image: &mut [u8], at: usize) -> usize
    requires { at + 16384 ≤ length image.old }
    ensures { Kept (Named names.now) (directory_part (names_in names.now)) 16384 at (at + 16384) image.old image.new result }
{
    let first = seal(257, 8, &PARENT, image, at);
    let behind = pour_identifiers(names, image, first);
    blank(at + 16384 - behind, image, behind)
}

// The files' entries, of which the first begins in block 80.
fn pour_entry_row(lengths: &[u64], image: &mut [u8], at: usize) -> usize
    requires { (length lengths.now ≤ 64) × (at + 2048 * length lengths.now ≤ length image.old) }
    ensures { Kept (are_short lengths.now ≡ true) (joined (entries 0 80 lengths.now)) (2048 * length lengths.now) at (at + 2048 * length lengths.now) image.old image.new result }
{
    let mut place = at;
    let mut block: u32 = 80;
    for (i, length) in lengths.iter().enumerate() {
        let size = held(*length) as u32;
        place = file_entry(i as u32, size, block, image, place);
        block += size.div_ceil(2048);
    }
    place
}

// The entries, in 64 sectors.
pub(crate) fn pour_entries(lengths: &[u64], image: &mut [u8], at: usize) -> usize
    requires { (length lengths.now ≤ 64) × (at + 131072 ≤ length image.old) }
    ensures { Kept (are_short lengths.now ≡ true) (joined (entries_part lengths.now)) 131072 at (at + 131072) image.old image.new result }
{
    let behind = pour_entry_row(lengths, image, at);
    blank_sectors(64 - lengths.len(), image, behind)
}

// So many zeros, up to the last sector, and the anchor in it.
pub(crate) fn pour_end(n: usize, location: u32, image: &mut [u8], at: usize) -> usize
    requires { at + n + 2048 ≤ length image.old }
    ensures { Poured (zeros n ++ anchor_at location) (n + 2048) at image.old image.new result }
{
    let last = blank(n, image, at);
    seal_sector(2, location, &ANCHOR, image, last)
}
