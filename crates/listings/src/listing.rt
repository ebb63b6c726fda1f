// A directory's listing: a record for each entry that is not skipped.
ghost use Rattle.std.specs.Prelude.{◌≡◌, false, List, length};
ghost use Rattle.disc.specs.Ran.{told};
ghost use Rattle.disc.specs.Ask.Outcome.{answered};
ghost use Rattle.disc.specs.Replies.{Replied};
ghost use Rattle.disc.specs.declared.refusals.Refusal.TheVariants.{NoRoom};
ghost use Rattle.listings.specs.Entries.{Entry, entries};
ghost use Rattle.listings.specs.Listings.{records, listing};
ghost use Rattle.listings.specs.Inner.Passes.{size_of_listing};

use crate::directory_entries::{entry_at, put_entry, record_size};
use disc::answers::DONE;
use disc::refusals::Refusal;
use disc::replies::{Reply, refusal};
use identifiers::LEAST_SIZE;

// How many bytes the listing of a directory's bytes takes. Every entry is parsed.
pub fn measure(check: bool, raw: &[u8]) -> Result<usize, Refusal>
    ensures { result ≡ size_of_listing (entries check raw.now) }
{
    let mut n: usize = 0;
    let mut at: usize = 0;
    // No `for`: each entry says itself where the next one starts.
    while at + LEAST_SIZE <= raw.len() {
        let f = entry_at(check, raw, at)?;
        n += record_size(f);
        at += f.total_size;
    }
    Ok(n)
}

// Writes the records of the entries over out, one after another. The entries aren't checked again, so only the room
// that was measured is lent: nothing after it can be written, whatever the bytes are by now.
fn put_entries(raw: &[u8], out: &mut [u8])
    ensures { (es : List Entry) → entries false raw.now ≡ answered es → length (records es) ≡ length out.old → out.new ≡ records es }
{
    let mut n: usize = 0;
    let mut at: usize = 0;
    // No `for`: each entry says itself where the next one starts.
    while at + LEAST_SIZE <= raw.len() {
        let p = put_entry(&raw[at..], &mut out[n..]);
        n += p.wrote;
        at += p.next;
    }
}

// Writes the listing of a directory's bytes to the front of out.
pub fn list(check: bool, raw: &[u8], out: &mut [u8]) -> Reply
    ensures { Replied NoRoom (told (listing check raw.now)) out.old out.new result }
{
    match measure(check, raw) {
        Err(why) => refusal(why.number(), 0),
        Ok(size) => {
            if out.len() < size {
                return refusal(Refusal::NoRoom.number(), 0);
            }
            put_entries(raw, &mut out[0..size]);
            Reply {
                answer: DONE,
                count: 0,
                length: size as u64,
            }
        }
    }
}
