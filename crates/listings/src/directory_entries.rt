// One entry of a directory, at the front of its bytes.
ghost use Rattle.std.specs.Prelude.{◌≡◌, ◌||◌, ◌+◌, ◌≤◌, ◌<◌, length};
ghost use Rattle.disc.specs.Choice.{pick};
ghost use Rattle.names.specs.Names.{name_of, written, fold_of};
ghost use Rattle.identifiers.specs.Identifiers.{bit};
ghost use Rattle.identifiers.specs.Inner.Wholes.{Whole};
ghost use Rattle.listings.specs.Entries.{entry_of, is_skipped};
ghost use Rattle.listings.specs.Listings.{answers_to};
ghost use Rattle.listings.specs.Inner.Passes.{seen_of, Comes, Recorded, Puts, head_in};

use disc::moves::copy;
use disc::refusals::Refusal;
use identifiers::{FileIdentifierDescriptor, directory_bit, marks_deleted, marks_parent, name_at};
use names::dstrings::put_name;
use names::matching::{Fold, is_named};
use records::bytes::byte_at;

// The size of a record before its name.
const HEAD: usize = 21;

// Reads the entry at `at` in a directory's bytes, for the passes that check.
pub(crate) fn entry_at(
    check: bool,
    raw: &[u8],
    at: usize,
) -> Result<FileIdentifierDescriptor, Refusal>
    requires { at + 38 ≤ length raw.now }
    ensures { Comes check raw.now at result }
{
    FileIdentifierDescriptor::parse(check, &raw[at..])
}

// Whether an entry of these characteristics is left out of listings and lookups: it is deleted, or the parent's.
fn is_left_out(marks: u8) -> bool
    ensures { result ≡ (bit 4 marks || bit 8 marks) }
{
    let deleted = marks_deleted(marks);
    let parent = marks_parent(marks);
    deleted | parent
}

// The same for an entry that was read.
pub fn is_skipped(f: FileIdentifierDescriptor) -> bool
    ensures { result ≡ is_skipped f }
{
    is_left_out(f.file_characteristics)
}

// How many bytes the entry's record takes in a listing.
pub(crate) fn record_size(f: FileIdentifierDescriptor) -> usize
    requires { 21 + f.name_size < 18446744073709551616 }
    ensures { result ≡ pick (is_skipped f) 0 (21 + f.name_size) }
{
    if is_skipped(f) {
        return 0;
    }
    HEAD + f.name_size
}

// What is seen of an entry: whether it is skipped, its characteristics, where its name starts and ends, and how far from
// its start the next entry starts.
#[derive(Clone, Copy)]
pub struct EntrySeen {
    pub skipped: bool,
    pub marks: u8,
    pub from: usize,
    pub end: usize,
    pub next: usize,
}

// Looks at the entry at the front of s, in a directory that was parsed before. Its tag and its name are not checked again, and each of its
// fields is looked at once. Where the name ends past the bytes, they are not those that were parsed: it is skipped, and there is no next entry.
pub fn look(s: &[u8]) -> EntrySeen
    ensures { result ≡ seen_of s.now }
{
    let marks = byte_at(s, 18);
    let from = name_at(s);
    let end = from + byte_at(s, 19) as usize;
    if s.len() < end {
        return EntrySeen {
            skipped: true,
            marks,
            from: 0,
            end: 0,
            next: s.len(),
        };
    }
    EntrySeen {
        skipped: is_left_out(marks),
        marks,
        from,
        end,
        next: (end + 3) / 4 * 4,
    }
}

// The record of the entry at the front of s without its name, of n bytes. The ICB goes over as it is recorded. A show puts a level into it.
// The length's two bytes are made by hand, since to_le_bytes of a usize gives eight (and name_length_in_one_byte.edit quotes the line).
pub fn record_head(directory: u8, s: &[u8], n: usize) -> [u8; 21]
    ensures { result ≡ head_in directory s.now n }
{
    [
        0x44,
        0x45,
        directory,
        byte_at(s, 20),
        byte_at(s, 21),
        byte_at(s, 22),
        byte_at(s, 23),
        byte_at(s, 24),
        byte_at(s, 25),
        byte_at(s, 26),
        byte_at(s, 27),
        byte_at(s, 28),
        byte_at(s, 29),
        byte_at(s, 30),
        byte_at(s, 31),
        byte_at(s, 32),
        byte_at(s, 33),
        byte_at(s, 34),
        byte_at(s, 35),
        (n % 256) as u8,
        (n / 256 % 256) as u8,
    ]
}

// Writes the record of the entry at the front of s to the front of out, and returns its length. The name is written
// first, since the head before it, of 21 bytes, has its length. A record without room is left out; one that was
// measured has room.
fn put_record(marks: u8, s: &[u8], recorded: &[u8], out: &mut [u8]) -> usize
    ensures { Recorded marks s.now (written (name_of recorded.now)) out.old out.new result }
{
    if out.len() < HEAD {
        return 0;
    }
    let n = put_name(recorded, &mut out[HEAD..]);
    if out.len() - HEAD < n {
        return 0;
    }
    let h = record_head(directory_bit(marks), s, n);
    copy(&h, out);
    HEAD + n
}

// How many bytes were written for an entry, and how far from its start the next one starts.
#[derive(Clone, Copy)]
pub(crate) struct Put {
    pub wrote: usize,
    pub next: usize,
}

// Writes the record of the entry at the front of s, which is looked at without checking it again.
pub(crate) fn put_entry(s: &[u8], out: &mut [u8]) -> Put
    requires { 38 ≤ length s.now }
    ensures { Puts s.now out.old out.new result }
{
    let e = look(s);
    let next = e.next;
    if e.skipped {
        return Put { wrote: 0, next };
    }
    let from = e.from;
    let end = e.end;
    let wrote = put_record(e.marks, s, &s[from..end], out);
    Put { wrote, next }
}

// Whether the entry f, read at the front of s, isn't skipped and has the name that is looked for, under a fold.
pub(crate) fn answers_to(
    fold: Fold,
    s: &[u8],
    f: FileIdentifierDescriptor,
    component: &[u8],
) -> bool
    requires { f.name_at + f.name_length ≤ length s.now }
    ensures { Whole s.now f → result ≡ answers_to (fold_of fold) component.now (entry_of s.now f) }
{
    if is_skipped(f) {
        return false;
    }
    let from = f.name_at;
    let end = from + f.name_length;
    is_named(fold, &s[from..end], component)
}
