// A disc written from a staging area: a complete image in what is lent, front to back.
//
// `write` tests the names, the files, the staging area and the room, in this order, and writes nothing before the last test. `pour` then writes from
// front to back, at a place that only rises: 280 sectors up to the directory, the directory, the entries, the files, zeros and the last anchor.
// Descriptors are constant arrays (`bodies`), with the numbers that vary stored into a copy, and `seals::seal` makes every tag. Names and lengths
// are looked at again, without relying on the first look: each is held to the most that is allowed, and a file that has no room is left out.
//
// specs/Layout.antt has the image as a list of bytes, in the order of docs/LAYOUT.md, and specs/Refusing.antt the whole call (`writes`). The
// contract of a piece says that its bytes stand at a place, so what was poured is that list. Tag, CRC and equal names are the reader's own
// definitions, which keeps the proof short that the reader reads the image.
#![tactic(auto)]

mod bodies;
pub mod contents;
pub mod namings;
pub mod parts;
pub mod seals;
pub mod structures;

ghost use Rattle.std.specs.Prelude.{◌≡◌, ◌*◌, ◌≤◌, length};
ghost use Rattle.writers.specs.Layout.{image as layout};
ghost use Rattle.writers.specs.Refusing.{names_in, good_files, total_of, writes};
ghost use Rattle.writers.specs.Inner.Pours.{Kept, Heads, Ready, head};
ghost use Rattle.writers.specs.Inner.Replies.{reply_of};

use crate::contents::{are_short, blocks_of, pour_files, sum_of};
use crate::namings::{are_good, count_of, directory_size};
use crate::parts::{pour_directory, pour_end, pour_entries, pour_front};
use disc::answers::DONE;
use disc::refusals::Refusal;

// The answer, and how many sectors the image has; 0 if the call was refused.
#[repr(C)]
#[derive(Clone, Copy)]
pub struct WriteReply {
    pub answer: u64,
    pub sectors: u64,
}

// What is answered.
fn reply(sectors: Result<u64, Refusal>) -> WriteReply
    ensures { result ≡ reply_of sectors }
{
    match sectors {
        Ok(sectors) => WriteReply {
            answer: DONE,
            sectors,
        },
        Err(why) => WriteReply {
            answer: why.number(),
            sectors: 0,
        },
    }
}

// Whether there are at most 64 files, as many names as lengths, and none is too long.
fn are_files(names: &[u8], lengths: &[u64]) -> bool
    ensures { result ≡ good_files names.now lengths.now }
{
    let count = count_of(names);
    count <= 64 && count == lengths.len() && are_short(lengths)
}

// The sectors of an image of these files: 352 before the files, the files, and the last anchor's, filled up to whole blocks of 32.
fn try_total(names: &[u8], lengths: &[u64]) -> Result<u64, Refusal>
    ensures { reply_of result ≡ total_of names.now lengths.now }
{
    if !are_good(names) {
        return Err(Refusal::BadName);
    }
    if !are_files(names, lengths) {
        return Err(Refusal::BadFiles);
    }
    Ok((353 + blocks_of(lengths)).next_multiple_of(32))
}

// The sectors of an image of these files: the refusals of writing it, but for those of the memory that is lent.
pub fn total(names: &[u8], lengths: &[u64]) -> WriteReply
    ensures { result ≡ total_of names.now lengths.now }
{
    reply(try_total(names, lengths))
}

// What stands before the files, sectors 0 to 351: of a partition of so many blocks.
fn pour_head(names: &[u8], lengths: &[u64], size: u32, image: &mut [u8]) -> usize
    requires { (length lengths.now ≤ 64) × (720896 ≤ length image.old) }
    ensures { Kept (Heads names.now lengths.now) (head (names_in names.now) lengths.now size) 720896 0 720896 image.old image.new result }
{
    let bytes = directory_size(names);
    let behind = pour_front(size, lengths.len() as u32, bytes as u32, image);
    let entries = pour_directory(names, image, behind);
    pour_entries(lengths, image, entries)
}

// The image over all that is lent, part by part. Names and lengths are looked at again, and what they hold by now may be other than what was tested: then
// it is no vault's image, but each part stays in its place, and the files before the last sector.
fn pour(names: &[u8], lengths: &[u64], staging: &[u8], sectors: u64, image: &mut [u8])
    requires { (length lengths.now ≤ 64) × (384 ≤ sectors) × (sectors ≤ 67108864) × (length image.old ≡ 2048 * sectors) }
    ensures { Ready names.now lengths.now staging.now sectors → image.new ≡ layout (names_in names.now) lengths.now staging.now }
{
    let last = image.len() - 2048;
    let data = pour_head(names, lengths, (sectors - 273) as u32, image);
    let rest = pour_files(lengths, staging, &mut image[..last], data);
    pour_end(last - rest, (sectors - 1) as u32, image, rest);
}

// The image, written after all tests; how many sectors it has.
fn try_write(
    names: &[u8],
    lengths: &[u64],
    staging: &[u8],
    image: &mut [u8],
) -> Result<u64, Refusal>
    ensures { record { reply = reply_of result; image = image.new } ≡ writes names.now lengths.now staging.now image.old }
{
    let sectors = try_total(names, lengths)?;
    if (staging.len() as u64) < sum_of(lengths) {
        return Err(Refusal::BadFiles);
    }
    if ((image.len() / 2048) as u64) < sectors {
        return Err(Refusal::NoRoom);
    }
    let end = sectors as usize * 2048;
    pour(names, lengths, staging, sectors, &mut image[..end]);
    Ok(sectors)
}

// A vault of these files: names, each ended by a zero byte; the length of each; the staging area, in which the files stand one behind another. The image
// is written over the front of what is lent, and the bytes behind it stay. A refusal writes nothing.
pub fn write(names: &[u8], lengths: &[u64], staging: &[u8], image: &mut [u8]) -> WriteReply
    ensures { record { reply = result; image = image.new } ≡ writes names.now lengths.now staging.now image.old }
{
    reply(try_write(names, lengths, staging, image))
}
