// A query as stored in a file: nine numbers, an ICB, a budget of sectors, the length of a text, and the text.
// tools/asked.py says what each of them means.
use disc::places::Mount;
use listings::matchings::{Matching, matching_of};
use programs::lent::part;
use records::allocations::{LongAd, long_at};
use records::bytes::{le16, le32, le64};
use vault::volume::Volume;
use volumes::openings::{How, VolumeRecord};

// In place of a length: the image is watched as it grows.
pub(crate) const WATCHED: u32 = 4294967295;

// The size of a query before its text, and of a volume made by hand.
pub(crate) const HEAD: usize = 64;

pub(crate) const BY_HAND: usize = 62;

// The most that is lent: bytes of output and of work space, and places of a row.
pub(crate) const BYTES: usize = 65536;

pub(crate) const PLACES: usize = 1024;

// A number above every set of calls, a bit for each call; how many ways of opening there are.
const BITS: u32 = 65536;

const WAYS: u32 = 8;

// ---- the fields

// The calls that are asked, a bit for each.
pub(crate) fn calls(q: &[u8]) -> u32 {
    le32(q, 0)
}

pub(crate) fn volume(q: &[u8]) -> u32 {
    le32(q, 4)
}

pub(crate) fn there(q: &[u8]) -> u32 {
    le32(q, 8)
}

pub(crate) fn matching(q: &[u8]) -> Matching {
    matching_of(le32(q, 12))
}

pub(crate) fn levels(q: &[u8]) -> u32 {
    le32(q, 16)
}

pub(crate) fn room(q: &[u8]) -> usize {
    le32(q, 20) as usize
}

pub(crate) fn space(q: &[u8]) -> usize {
    le32(q, 24) as usize
}

pub(crate) fn slots(q: &[u8]) -> usize {
    le32(q, 28) as usize
}

pub(crate) fn answers(q: &[u8]) -> usize {
    le32(q, 32) as usize
}

pub(crate) fn icb(q: &[u8]) -> LongAd {
    long_at(q, 36)
}

pub(crate) fn most(q: &[u8]) -> u64 {
    le64(q, 52)
}

pub(crate) fn text(q: &[u8]) -> &[u8] {
    part(q, HEAD, q.len())
}

// ---- whether a query means something

// The image has that many bytes, or it is watched.
fn is_there(there: u32, length: usize) -> bool {
    (there as usize <= length) | (there == WATCHED)
}

// A way of opening, or a volume made by hand. Calls 1 and 2, opening and the label, take a way of opening only.
fn is_known(calls: u32, volume: u32, by_hand: usize) -> bool {
    if volume < WAYS {
        return true;
    }
    (((volume - WAYS) as usize) < by_hand) & (calls / 2 % 4 == 0)
}

// That much can be lent.
fn is_lent(q: &[u8]) -> bool {
    (room(q) <= BYTES) & (space(q) <= BYTES) & (slots(q) <= PLACES) & (answers(q) <= PLACES)
}

// Whether a query means something, on an image of `length` bytes with `by_hand` volumes made by hand.
pub(crate) fn is_meant(q: &[u8], length: usize, by_hand: usize) -> bool {
    let calls = calls(q);
    let is_call = (0 < calls) & (calls < BITS);
    is_call & is_lent(q) & is_there(there(q), length) & is_known(calls, volume(q), by_hand)
}

// ---- the volume

// A way of opening is a sum: 1 to check bodies, 2 to go through the maps, 4 to take the highest sequence numbers.
pub(crate) fn how_of(number: u32) -> How {
    How {
        highest: number / 4 % 2 == 1,
        checked: number % 2 == 1,
        maps: number / 2 % 2 == 1,
    }
}

fn four16(b: &[u8]) -> [u16; 4] {
    [le16(b, 0), le16(b, 2), le16(b, 4), le16(b, 6)]
}

fn four32(b: &[u8]) -> [u32; 4] {
    [le32(b, 0), le32(b, 4), le32(b, 8), le32(b, 12)]
}

fn by_hand(b: &[u8]) -> VolumeRecord {
    VolumeRecord {
        mount: Mount {
            start: le32(b, 0),
            partition: le16(b, 4),
            checked: le32(b, 6),
            maps: le32(b, 10),
            volumes: four16(part(b, 14, 22)),
            numbers: four16(part(b, 22, 30)),
            starts: four32(part(b, 30, 46)),
        },
        root: long_at(b, 46),
        label: [0; 32],
    }
}

// The volume of a query: opened from the whole image, or made by hand.
pub(crate) fn volume_of(image: &[u8], q: &[u8], made: &[u8]) -> VolumeRecord {
    let number = volume(q);
    if number < WAYS {
        let opened = Volume::open(image, how_of(number));
        return opened.volume;
    }
    let at = (number - WAYS) as usize * BY_HAND;
    by_hand(part(made, at, at + BY_HAND))
}
