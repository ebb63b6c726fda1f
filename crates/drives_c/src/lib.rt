// Reading straight from a drive, with no image in memory: a state names the sector that it wants, is lent its bytes,
// and continues.
//
// A state is passed by value and holds no pointers. While it wants a sector, lend a step the 2,048 bytes of that
// sector. Any other length, such as that of (NULL, 0), means that the sector can't be read, which is VAULT_IO. A state
// that has ended has its answer, and a step does not change it. You may step any state, even one made by hand whose
// bools are 0 or 1: the step stays inside what it was lent, and every state reaches its end.
//
// The sectors wanted, the answer and the count are those of vault_open without choices, and of vault_read. One
// difference: in a read, VAULT_NO_SLOT and VAULT_NO_ROOM may come before a later refusal; the sectors wanted are then
// the front of that list. Another: what is said above of `out` and the slots after a refusal does not hold for a read
// by steps. What had arrived stays in `out`, and the row is zeroed. The steps have the contracts of crate drives.
//
// A file of any length fits through a buffer of 2,048 bytes, the most that a step delivers. After each step, take the
// `length` bytes that have arrived out of the buffer, set `length` to 0, and lend the next step the same buffer. All
// extents of the file wait in the row, however many there are. A sector names at most 256, and the first `scan.listed`
// slots are in use: before a step, lengthen the row if fewer than 256 are left. The row may move, as with realloc, and
// its new slots may hold anything. packaging/window.c does all of this.
#![tactic(auto)]

ghost use Rattle.std.specs.Prelude.{◌≡◌};
ghost use Rattle.volumes.specs.Openings.{usual, opening};
ghost use Rattle.listings.specs.Listings.{matching_of};
ghost use Rattle.drives.specs.FileFeeds.{file_feed};
ghost use Rattle.drives.specs.Openings.{is_wanting as is_opening_wanting, wanted_sector as wanted_on_opening, Fed as FedOnOpening, OpeningStands};
ghost use Rattle.drives.specs.Readings.{is_wanting, wanted_sector, zeroed, Fed, Starts};
ghost use Rattle.drives.specs.Beginnings.{at_anchor, start_of};
ghost use Rattle.vault.specs.Calls.{lists_bytes, finds_in, next_component};

use disc::replies::Reply;
use drives::openings::Opening;
use drives::readings::Reading;
use listings::finds::Named;
use listings::matchings::matching_of;
use records::allocations::LongAd;
use vault::paths::{Component, next_component};
use vault::volume::Volume;

// Starts an opening, as vault_open with a `how` of 0. When it has ended, `opened` is the result.
#[unsafe(no_mangle)]
pub extern "C" fn vault_opening_start() -> Opening
    ensures opening_stands { OpeningStands (opening usual) 0 result }
    ensures value { result ≡ at_anchor }
{
    Opening::start()
}

// Whether a sector is wanted. If not, the opening has ended.
#[unsafe(no_mangle)]
pub extern "C" fn vault_opening_is_wanting(opening: Opening) -> bool
    ensures { result ≡ is_opening_wanting opening }
{
    opening.is_wanting()
}

// The sector wanted, counted from the start of the disc; 0 if the opening has ended.
#[unsafe(no_mangle)]
pub extern "C" fn vault_opening_wants(opening: Opening) -> u64
    ensures { result ≡ wanted_on_opening opening }
{
    opening.wants()
}

// Takes the sector wanted and returns the next state.
#[unsafe(no_mangle)]
pub extern "C" fn vault_opening_step(opening: Opening, sector: &[u8]) -> Opening
    ensures { FedOnOpening opening sector.now result }
{
    opening.step(sector)
}

// Starts a read of a file or of the bytes of a directory itself, as vault_read. It ends at once if the ICB has no
// length or no place.
//
// The file's extents wait in `row`, one per slot. The row is zeroed here: lend every step the same row, unchanged. It
// may grow between steps, and so may the output. An extent that finds no free slot ends the read with VAULT_NO_SLOT,
// once its entry or continuation has arrived completely and is valid.
#[unsafe(no_mangle)]
pub extern "C" fn vault_reading_start(volume: Volume, icb: LongAd, row: &mut [[u32; 4]]) -> Reading
    ensures starts { Starts (file_feed volume.0.mount icb) row.old row.new result }
    ensures value { (result ≡ start_of volume.0.mount icb) × (row.new ≡ zeroed row.old) }
{
    Reading::start(volume.0, icb, row)
}

// Whether a sector is wanted. If not, the read has ended.
#[unsafe(no_mangle)]
pub extern "C" fn vault_reading_is_wanting(reading: Reading) -> bool
    ensures { result ≡ is_wanting reading }
{
    reading.is_wanting()
}

// The sector wanted, counted from the start of the disc; 0 if the read has ended.
#[unsafe(no_mangle)]
pub extern "C" fn vault_reading_wants(reading: Reading) -> u64
    ensures { result ≡ wanted_sector reading }
{
    reading.wants()
}

// Takes the sector wanted and returns the next state. The bytes of the file in this sector go to `out` after the
// `length` bytes that have arrived, as many as fit; a byte that does not fit ends the read with VAULT_NO_ROOM. Nothing
// after them is written, and what has arrived stays even after a refusal. The whole row is zeroed when the read ends,
// whatever the answer.
#[unsafe(no_mangle)]
pub extern "C" fn vault_reading_step(
    reading: Reading,
    sector: &[u8],
    row: &mut [[u32; 4]],
    out: &mut [u8],
) -> Reading
    ensures { Fed reading sector.now row.old out.old result row.new out.new }
{
    reading.step(sector, row, out)
}

// Lists a directory whose bytes you have, as vault_list does; the count is 0. Of `volume`, only whether descriptors are
// checked is used.
#[unsafe(no_mangle)]
pub extern "C" fn vault_list_bytes(volume: Volume, bytes: &[u8], out: &mut [u8]) -> Reply
    ensures { record { reply = result; out = out.new } ≡ lists_bytes volume.0 bytes.now out.old }
{
    volume.list_bytes(bytes, out)
}

// Finds the entry that a component of a path names in a directory whose bytes you have, as vault_lookup matches it. If
// no entry has the name, the answer is VAULT_DONE and `found` is false. Two or more entries under VAULT_UNAMBIGUOUS are
// VAULT_AMBIGUOUS. One bad entry refuses the directory. The empty component is the name of an entry without a name.
#[unsafe(no_mangle)]
pub extern "C" fn vault_match(
    volume: Volume,
    bytes: &[u8],
    component: &[u8],
    matching: u32,
) -> Named
    ensures { result ≡ finds_in volume.0 bytes.now component.now (matching_of matching) }
{
    volume.find_in(bytes, component, matching_of(matching))
}

// Finds the first component of a path from `at` on; its length is 0 if there is none. Start at 0 and continue from the
// end of each component: they come in the order in which vault_lookup takes them.
#[unsafe(no_mangle)]
pub extern "C" fn vault_next_component(path: &[u8], at: usize) -> Component
    ensures { result ≡ next_component path.now at }
{
    next_component(path, at)
}
