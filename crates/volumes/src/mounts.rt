// How a volume is read: by the partition that was kept, or through the partition maps of the logical volume.
ghost use Rattle.std.specs.Prelude.{◌≡◌, ◌≤◌, ◌<◌};
ghost use Rattle.disc.specs.Choice.{pick};
ghost use Rattle.disc.specs.Replies.{returned};
ghost use Rattle.volumes.specs.Openings.{plain_mount, map_at, is_plain_map, start_of_map, map_starts, file_set_ref, mount_from_starts, mapped_mount, mount_of, no_mount};
ghost use Rattle.volumes.specs.Inner.Steps.{scanned_in, tabled, word_in, words_in, map_starts_by};

use crate::openings::How;
use crate::sequences::{Kept, Wanted, scan_sequence};
use disc::places::Mount;
use disc::refusals::Refusal;
use records::bytes::{byte_at, le16};

pub(crate) fn no_mount() -> Mount
    ensures { result ≡ no_mount }
{
    Mount {
        start: 0,
        partition: 0,
        checked: 0,
        maps: 0,
        volumes: [0; 4],
        numbers: [0; 4],
        starts: [0; 4],
    }
}

// The number of a choice in the volume's record.
fn number_of(check: bool) -> u32
    ensures { result ≡ pick check 1 0 }
{
    u32::from(check)
}

// Without maps: by the partition that was kept, and with bodies checked or not.
pub fn plain_mount(check: bool, kept: Kept) -> Mount
    ensures { result ≡ plain_mount check kept }
{
    Mount {
        start: kept.partition_start,
        partition: kept.partition_number,
        checked: number_of(check),
        maps: 0,
        volumes: [0; 4],
        numbers: [0; 4],
        starts: [0; 4],
    }
}

// ---- a map

// Its six bytes.
fn map_at(maps: &[u8; 24], i: usize) -> &[u8]
    requires { i < 4 }
    ensures { result.now ≡ map_at maps.now i }
{
    &maps[6 * i..6 * i + 6]
}

// Whether it is of type 1, which has six bytes.
fn is_plain_map(b: &[u8]) -> bool
    ensures { result ≡ is_plain_map b.now }
{
    byte_at(b, 0) == 1 && byte_at(b, 1) == 6
}

// Where its partition starts, if it is one that is read: the sequence is looked at once more, for the partition descriptors of its number.
fn map_start(image: &[u8], how: How, b: &[u8], first: u32, n: u32) -> Option<u32>
    ensures { result ≡ start_of_map how (scanned_in image.now how first n) b.now }
{
    if !is_plain_map(b) {
        return None;
    }
    let scanned = scan_sequence(image, how, Wanted::Numbered(le16(b, 4)), first, n);
    match scanned.kept {
        Ok(kept) if kept.has_partition => Some(kept.partition_start),
        _ => None,
    }
}

// The number of its two bytes at j; 0 where there is no such map.
fn map_word(kept: Kept, j: usize, i: usize) -> u16
    requires { i < 4 }
    ensures { result ≡ word_in kept j i }
{
    if kept.map_count as usize <= i {
        return 0;
    }
    le16(map_at(&kept.maps, i), j)
}

// ---- all of them

// Of each map the number of its two bytes at j.
fn map_words(kept: Kept, j: usize) -> [u16; 4]
    ensures { result ≡ words_in kept j }
{
    [
        map_word(kept, j, 0),
        map_word(kept, j, 1),
        map_word(kept, j, 2),
        map_word(kept, j, 3),
    ]
}

// Where the partition of each map starts, zeros behind them.
fn map_starts(image: &[u8], how: How, kept: Kept, first: u32, n: u32) -> Option<[u32; 4]>
    requires { kept.map_count ≤ 4 }
    ensures { result ≡ map_starts_by kept.map_count (map_starts how (scanned_in image.now how first n) kept kept.map_count) }
{
    let mut starts = [0u32; 4];
    for i in 0..kept.map_count as usize {
        starts[i] = map_start(image, how, map_at(&kept.maps, i), first, n)?;
    }
    Some(starts)
}

// Whether the map table is one that is read.
#[tactic(auto, unfolding(crate::specs::Inner::Steps::tabled))]
fn table_answer(kept: Kept) -> Result<(), Refusal>
    ensures { result ≡ tabled kept }
{
    if 4 < kept.map_count {
        return Err(Refusal::Unsupported);
    }
    if kept.map_table_length < 6 * kept.map_count {
        return Err(Refusal::Malformed);
    }
    if 2048 < 440 + kept.map_table_length as u64 {
        return Err(Refusal::Malformed);
    }
    Ok(())
}

// By the starts of the maps: the partition of the file set's map is the mount's own.
fn mount_from_starts(check: bool, kept: Kept, starts: [u32; 4]) -> Mount
    requires { file_set_ref kept < 4 }
    ensures { result ≡ mount_from_starts check kept starts }
{
    let numbers = map_words(kept, 4);
    let at = kept.file_set.location.partition_ref as usize;
    let checked = number_of(check);
    Mount {
        start: starts[at],
        partition: numbers[at],
        checked,
        maps: kept.map_count,
        volumes: map_words(kept, 2),
        numbers,
        starts,
    }
}

// Through the maps.
fn mapped_mount(image: &[u8], how: How, kept: Kept, first: u32, n: u32) -> Result<Mount, Refusal>
    ensures { result ≡ returned (mapped_mount how (scanned_in image.now how first n) kept) }
{
    table_answer(kept)?;
    let starts = map_starts(image, how, kept, first, n).ok_or(Refusal::Unsupported)?;
    if kept.map_count <= kept.file_set.location.partition_ref as u32 {
        return Err(Refusal::Unsupported);
    }
    Ok(mount_from_starts(how.checked, kept, starts))
}

// How the volume is read, whose sequence was scanned: n sectors from `first` on.
#[tactic(auto, unfolding(crate::specs::Openings::mount_of))]
pub(crate) fn chosen_mount(
    image: &[u8],
    how: How,
    kept: Kept,
    first: u32,
    n: u32,
) -> Result<Mount, Refusal>
    ensures { result ≡ returned (mount_of how (scanned_in image.now how first n) kept) }
{
    if how.maps {
        return mapped_mount(image, how, kept, first, n);
    }
    Ok(plain_mount(how.checked, kept))
}
