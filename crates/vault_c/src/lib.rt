// Reads UDF discs (ECMA-167, OSTA UDF) from memory, and writes disc images to memory, for C.
//
// Link target/staticlib/libvault_c.a, which `tools/archives proved` makes from the proved sources. To read straight from
// a drive, link libdrives_c.a; for surveys, libsurveys_c.a. Both are made in the same way. Each call has the contract
// of the call that it passes on, of crate vault, writers, drives, figures or surveys.
//
// Nothing here allocates, keeps or frees memory. The caller lends the image, the output and the work space for the
// duration of the call, each as a pointer and a length. Lent pieces must not overlap. A piece of length 0 may have a
// null pointer. A piece has at most PTRDIFF_MAX bytes: no object is larger. Every call writes to `component_at` and
// `part_at`, so they must not be null. If the image changes during a call, the result may match no state of the image.
// The call still ends, with a number of the table, and stays inside the memory that it was lent.
//
// Stack: a call takes at most these bytes on x86-64, with bodies unchecked and checked. tools/stack.py measures them, on
// a tree of 16 levels where that matters. A call that the table doesn't name takes at most 512.
//
//     vault_open                   1,664    1,792
//     vault_label                  1,664    1,664
//     vault_lookup                 2,048    2,048
//     vault_failed                 2,048    2,048
//     vault_list                   1,536    1,536
//     vault_show                   7,296    7,296
//     vault_read                   1,408    1,408
//     vault_part                     768      768
//     vault_extents                1,152    1,152
//     vault_runs                   1,664    1,664
//     vault_read_path              2,048    2,048
//     vault_read_all               2,176    2,176
//     vault_write                  1,280    1,280
//     vault_opening_step           1,664    1,664
//     vault_reading_step           2,432    2,432
//     vault_list_bytes               512      640
//     vault_match                    768      768
//     vault_measure                1,024    1,024
//     vault_survey                13,184   13,184
//
// Every call on an image except vault_probe returns an answer, one of the numbers named below, and a count: how many
// sectors of 2,048 bytes it asked for. A call with an answer other than 0 is refused. It returns zeros in every value
// except the count, and leaves `out` and the slots unchanged. (One exception: on VAULT_NOT_BLURAY, vault_failed returns
// the component.) A call that is done writes the front of `out` and nothing after it. Every call, refused or not,
// leaves `work` all zero. It clears all of `work` for that, some 30 microseconds for each MiB: lend what the largest
// directory needs, and not more.
//
// The time of each call is bounded, whatever the image holds: it is proportional to what the table gives. A file's
// descriptors are in its entry and in a chain of at most 32 continuations of 1 MiB, together at most 16,385 sectors. A
// directory that has more bytes than `work` is refused.
//
//     vault_open, vault_label     the main sequence, at most 2,097,151 sectors; once more for each map with VAULT_MAPS
//     vault_probe                 8 sectors
//     vault_lookup, vault_failed  for each component of the path: a directory's bytes, entry and chain
//     vault_list                  the directory's bytes, entry and chain
//     vault_read                  the bytes returned, and the file's entry and chain
//     vault_measure, vault_part   the file's entry and chain; none of its bytes is read
//     vault_extents, vault_runs   the same, and the slots written
//     vault_read_path             the lookup and the read
//     vault_read_all              the sum of its items
//     vault_show                  most + 1 times the bytes of `work` and 2,048; one more directory's entry and chain
//     vault_survey                for each image: the opening, the show, and one more file's entry and chain
//     vault_opening_step          one sector
//     vault_reading_step          one sector; when the chain or the read ends, also the slots of the row
//     vault_list_bytes            the bytes lent; also vault_match and vault_next_component
//     vault_write                 the image written, and the names
//
// With VAULT_UNLIMITED as `most`, only the number of paths bounds vault_show and vault_survey. A malicious disc may
// have more paths than anyone could ever walk.
//
// You may pass any volume and any ICB, even one made by hand. Fields are not masked: a length of 2^30 counts as
// non-zero.
#![tactic(auto)]

ghost use Rattle.std.specs.Prelude.{◌≡◌};
ghost use Rattle.layouts.specs.Calls.{words_of};
ghost use Rattle.listings.specs.Listings.{matching_of};
ghost use Rattle.probes.specs.Probes.{probed};
ghost use Rattle.vault_c.specs.Choosing.{opens_as, labels_as};
ghost use Rattle.vault.specs.Calls.{reads, measures, lists, shows, reads_path, reads_all, finds, fails_at, parts_at, extents, runs};

use directories::lookups::Found;
use disc::answers::UNSUPPORTED;
use disc::counts::UNLIMITED;
use disc::replies::{Reply, refusal};
use listings::matchings::{AS_WRITTEN, CASE_IGNORED, UNAMBIGUOUS, matching_of};
use records::allocations::LongAd;
use vault::volume::{Volume, label, probe};
use volumes::choices::{CHECKED, HIGHEST, MAPS, chosen};
use volumes::openings::{Opened, refused};

pub mod writing;

// Ignores ASCII case and takes the first entry that matches.
pub const VAULT_CASE_IGNORED: u32 = CASE_IGNORED;

// Matches byte for byte and takes the first entry that matches.
pub const VAULT_AS_WRITTEN: u32 = AS_WRITTEN;

// Ignores ASCII case; a component that two or more entries match is refused with VAULT_AMBIGUOUS.
pub const VAULT_UNAMBIGUOUS: u32 = UNAMBIGUOUS;

// A choice for `how`: check the CRC of each descriptor that is parsed, on opening and in every call on the volume. If
// one is wrong, the call is refused with VAULT_BAD_CRC.
pub const VAULT_CHECKED: u32 = CHECKED;

// A choice for `how`: a partition reference in a descriptor or an ICB is an index into the logical volume's partition
// maps, up to four, all of type 1. Without it, references are compared with the partition's number, and those of ICBs
// are ignored.
pub const VAULT_MAPS: u32 = MAPS;

// A choice for `how`: of several primary volume, partition or logical volume descriptors, the one with the highest
// volume descriptor sequence number counts, the later of equals. Without it, the last one counts. Partition descriptors
// are compared whatever their partition numbers; but with VAULT_MAPS only those of a map's own partition number decide
// where its partition starts, with this choice or without.
pub const VAULT_HIGHEST: u32 = HIGHEST;

// For `most`: no limit. Use it for images that you trust.
pub const VAULT_UNLIMITED: u64 = UNLIMITED;

// The number of bytes in a sector, and in a block.
pub const VAULT_SECTOR_SIZE: usize = 2048;

// Increases whenever a struct or a call changes.
pub const VAULT_VERSION: u32 = 12;

// The VAULT_VERSION of the archive. It must equal that of the header.
#[unsafe(no_mangle)]
pub extern "C" fn vault_version() -> u32
    ensures { result ≡ 12 }
{
    VAULT_VERSION
}

// Whether the image has a volume recognition sequence. Opening does not depend on it.
#[unsafe(no_mangle)]
pub extern "C" fn vault_probe(image: &[u8]) -> bool
    ensures { result ≡ probed image.now }
{
    probe(image)
}

// Opens the volume of an image. `how` is the sum of the choices, or 0 for none; any other bit is VAULT_UNSUPPORTED with
// a count of 0. VAULT_CHECKED and VAULT_MAPS are kept in the volume's mount and apply to every call on the volume.
// VAULT_HIGHEST leaves no trace in it.
#[unsafe(no_mangle)]
pub extern "C" fn vault_open(image: &[u8], how: u32) -> Opened
    ensures { result ≡ opens_as image.now how }
{
    match chosen(how) {
        None => refused(UNSUPPORTED, 0),
        Some(choices) => Volume::open(image, choices),
    }
}

// Opens an image, as vault_open does, and writes its label to `out` as UTF-8, with no terminating zero. `length` is the
// length of the label.
#[unsafe(no_mangle)]
pub extern "C" fn vault_label(image: &[u8], how: u32, out: &mut [u8]) -> Reply
    ensures { record { reply = result; out = out.new } ≡ labels_as image.now how out.old }
{
    match chosen(how) {
        None => refusal(UNSUPPORTED, 0),
        Some(choices) => label(image, choices, out),
    }
}

// Finds the ICB that a path names. Slashes separate the components; empty components are dropped, and the empty path
// names the root. `matching` says how a component is matched with the names of a directory's entries, except deleted
// entries and the parent: VAULT_CASE_IGNORED, VAULT_AS_WRITTEN or VAULT_UNAMBIGUOUS. Any other number counts as
// VAULT_UNAMBIGUOUS. A component that does not exist, or is below a file, is VAULT_NOT_BLURAY.
#[unsafe(no_mangle)]
pub extern "C" fn vault_lookup(
    volume: Volume,
    image: &[u8],
    path: &[u8],
    matching: u32,
    work: &mut [u8],
) -> Found
    ensures { record { found = result; work = work.new } ≡ finds image.now volume.0 path.now (matching_of matching) work.old }
{
    volume.lookup(image, path, matching_of(matching), work)
}

// Finds the component at which that lookup is refused with VAULT_NOT_BLURAY. `length` is the length of the component,
// and its offset in the path goes to `*component_at`. Both are 0 if no component was refused in this way, for example
// on VAULT_AMBIGUOUS. The answer and the count are those of the lookup.
#[unsafe(no_mangle)]
pub extern "C" fn vault_failed(
    volume: Volume,
    image: &[u8],
    path: &[u8],
    matching: u32,
    work: &mut [u8],
    component_at: &mut usize,
) -> Reply
    ensures { record { reply = result; at = component_at.new; work = work.new } ≡ fails_at image.now volume.0 path.now (matching_of matching) work.old }
{
    volume.failed_at(image, path, matching_of(matching), work, component_at)
}

// Lists a directory: one record for each entry except deleted entries and the parent, one after another. A record is:
//
//     44 45   1 for a directory, else 0   the ICB's 16 bytes as recorded
//     the name's length (2 bytes, little-endian)   the name, as UTF-8
#[unsafe(no_mangle)]
pub extern "C" fn vault_list(
    volume: Volume,
    image: &[u8],
    icb: LongAd,
    out: &mut [u8],
    work: &mut [u8],
) -> Reply
    ensures { record { reply = result; out = out.new; work = work.new } ≡ lists image.now volume.0 icb out.old work.old }
{
    volume.list(image, icb, out, work)
}

// Lists the volume's whole tree from its root, down to `levels` levels, 1 to 16: one record for each entry that a path
// of at most that many components leads to. An entry comes before what is below it, and the entries of a directory come
// in the order of the disc. A record is that of vault_list with the level after the mark; the level is 1 for the root's
// entries:
//
//     44 45   the level   1 for a directory, else 0   the ICB's 16 bytes as recorded
//     the name's length (2 bytes, little-endian)   the name, as UTF-8
//
// A directory at the last level, even an empty one, is VAULT_TOO_DEEP when its turn comes, before it is read. Any other
// number of levels is VAULT_TOO_DEEP at once. `work` holds the directories on the way down together, one after another:
// VAULT_NO_WORK counts those above. A directory that contains itself reaches the last level and is VAULT_TOO_DEEP,
// unless it is VAULT_NO_WORK before that.
//
// A directory is read and shown once for each path to it, and a few directories may have more paths than anyone could
// ever walk. So `most` is the number of sectors that the call may ask for. Instead of asking for one more, it is
// refused with VAULT_OVER_BUDGET, and the count is then `most`; refusals that it meets earlier are unchanged. A call
// that stays within `most` gives the same result as with VAULT_UNLIMITED. On a sound disc each sector of a directory is
// asked for once, so the number of sectors of the image is enough.
#[unsafe(no_mangle)]
pub extern "C" fn vault_show(
    volume: Volume,
    image: &[u8],
    levels: u32,
    most: u64,
    out: &mut [u8],
    work: &mut [u8],
) -> Reply
    ensures { record { reply = result; out = out.new; work = work.new } ≡ shows image.now volume.0 levels most out.old work.old }
{
    volume.show(image, levels, most, out, work)
}

// Reads a file, or the bytes of a directory itself, to `out`.
#[unsafe(no_mangle)]
pub extern "C" fn vault_read(volume: Volume, image: &[u8], icb: LongAd, out: &mut [u8]) -> Reply
    ensures { record { reply = result; out = out.new } ≡ reads image.now volume.0 icb out.old }
{
    volume.read(image, icb, out)
}

// Returns in `length` how many bytes vault_read gives for that file if there is room. The answer and the count are
// those of the read. Nothing is written.
#[unsafe(no_mangle)]
pub extern "C" fn vault_measure(volume: Volume, image: &[u8], icb: LongAd) -> Reply
    ensures { result ≡ measures image.now volume.0 icb }
{
    volume.measure(image, icb)
}

// Finds the bytes of an embedded file in the image: `length` bytes from `*part_at` on. For any other file that can be
// read, the answer is VAULT_DONE and both are 0; they are also 0 if the call is refused. An embedded file of no bytes
// still has a place.
#[unsafe(no_mangle)]
pub extern "C" fn vault_part(
    volume: Volume,
    image: &[u8],
    icb: LongAd,
    part_at: &mut usize,
) -> Reply
    ensures { record { reply = result; at = part_at.new } ≡ parts_at image.now volume.0 icb }
{
    volume.part_at(image, icb, part_at)
}

// Lists the extents of a file in reading order, one per slot of `row`; `length` is their number. An embedded file has
// none. An extent's partition is the reference as recorded. Its first sector is its block plus the start of its
// partition. Without maps in the mount, that start is `start`. With maps, it is the entry of `starts` for the
// reference; for 65,536 (none), the one for the ICB's reference.
#[unsafe(no_mangle)]
pub extern "C" fn vault_extents(
    volume: Volume,
    image: &[u8],
    icb: LongAd,
    row: &mut [[u32; 4]],
) -> Reply
    ensures { record { reply = result; row = row.new } ≡ extents words_of image.now volume.0 icb row.old }
{
    volume.extent_words(image, icb, row)
}

// Lists the runs of a file: the offset and length of each run of the image that vault_read takes the file's bytes from,
// in reading order, one per slot of `row`; `length` is their number. Runs are cut as the read is cut. Each has at least
// one byte and is inside the image, and joined they are what vault_read gives. An empty file has none. Two runs may
// follow each other in the image, overlap or be equal. The answer and the count are those of the read, except that more
// runs than slots are VAULT_NO_SLOT, which comes last and takes the place of VAULT_NO_ROOM.
#[unsafe(no_mangle)]
pub extern "C" fn vault_runs(
    volume: Volume,
    image: &[u8],
    icb: LongAd,
    row: &mut [[u64; 2]],
) -> Reply
    ensures { record { reply = result; row = row.new } ≡ runs image.now volume.0 icb row.old }
{
    volume.runs(image, icb, row)
}

// Looks a path up and reads what it names to `out`. The count covers both.
#[unsafe(no_mangle)]
pub extern "C" fn vault_read_path(
    volume: Volume,
    image: &[u8],
    path: &[u8],
    matching: u32,
    out: &mut [u8],
    work: &mut [u8],
) -> Reply
    ensures { record { reply = result; out = out.new; work = work.new } ≡ reads_path image.now volume.0 path.now (matching_of matching) out.old work.old }
{
    volume.read_path(image, path, matching_of(matching), out, work)
}

// Reads many files to `out`, one after another. `paths` holds their paths, separated by zero bytes: n zeros make n + 1
// paths, so no bytes are one path. An empty path reads the bytes of the root. For each path in turn, `lengths` and
// `answers` get its number of bytes and its answer, as vault_read_path gives them for the room that is left. A path
// that is refused has length 0 and takes no room, and the rest go on. So the answer is VAULT_DONE even if every path
// was refused; the count is the sum of all, and `length` the bytes of all. If there are more paths than places in
// either row, the answer is VAULT_TOO_MANY: no sector is asked for, and nothing is written except the zeros of `work`.
#[unsafe(no_mangle)]
pub extern "C" fn vault_read_all(
    volume: Volume,
    image: &[u8],
    paths: &[u8],
    matching: u32,
    out: &mut [u8],
    lengths: &mut [u64],
    answers: &mut [u32],
    work: &mut [u8],
) -> Reply
    ensures { record { reply = result; out = out.new; lengths = lengths.new; answers = answers.new; work = work.new } ≡ reads_all image.now volume.0 paths.now (matching_of matching) out.old lengths.old answers.old work.old }
{
    volume.read_all(
        image,
        paths,
        matching_of(matching),
        out,
        lengths,
        answers,
        work,
    )
}
