// The entry of a name, by a choice of matching.
ghost use Rattle.std.specs.Prelude.{◌≡◌, ◌+◌, ◌≤◌, length};
ghost use Rattle.identifiers.specs.Inner.Wholes.{Whole};
ghost use Rattle.listings.specs.Entries.{entry_of};
ghost use Rattle.listings.specs.Listings.{find_in, named_of, unnamed};
ghost use Rattle.listings.specs.Inner.Passes.{settled, joined_of, noted_of};

use crate::directory_entries::{answers_to, entry_at};
use crate::matchings::{Matching, fold_for};
use disc::answers::DONE;
use disc::refusals::Refusal;
use identifiers::{FileIdentifierDescriptor, LEAST_SIZE};
use records::allocations::{LongAd, no_long};

// The ICB of an entry, and whether it is a directory. Zeros if no entry has the name, or if the directory is refused.
#[repr(C)]
#[derive(Clone, Copy)]
pub struct Named {
    // A number of the table; 0 also if no entry has the name.
    pub answer: u64,
    // Whether an entry has the name.
    pub found: bool,
    pub icb: LongAd,
    // Whether the entry is a directory.
    pub directory: bool,
}

pub fn no_entry(answer: u64) -> Named
    ensures { result ≡ unnamed answer }
{
    Named {
        answer,
        found: false,
        icb: no_long(),
        directory: false,
    }
}

// Whether no further entry can change what was found.
fn is_settled(matching: Matching, found: Named) -> bool
    ensures { result ≡ settled matching found }
{
    match matching {
        Matching::CaseIgnored => found.found,
        Matching::AsWritten => found.found,
        Matching::Unambiguous => found.answer != DONE,
    }
}

// What is found with one more entry that matches.
fn joined(found: Named, f: FileIdentifierDescriptor) -> Named
    ensures { result ≡ joined_of found f }
{
    if found.found {
        return no_entry(Refusal::Ambiguous.number());
    }
    let icb = f.icb;
    Named {
        answer: DONE,
        found: true,
        icb,
        directory: f.is_directory(),
    }
}

// What is found with the entry f, read at the front of s.
fn noted(
    matching: Matching,
    found: Named,
    s: &[u8],
    f: FileIdentifierDescriptor,
    component: &[u8],
) -> Named
    requires { f.name_at + f.name_length ≤ length s.now }
    ensures { Whole s.now f → result ≡ noted_of matching found component.now (entry_of s.now f) }
{
    if is_settled(matching, found) {
        return found;
    }
    if answers_to(fold_for(matching), s, f, component) {
        return joined(found, f);
    }
    found
}

// The entry of a name in a directory's bytes. The walk goes on past the entry, since one bad entry refuses the
// directory.
pub fn find(check: bool, matching: Matching, raw: &[u8], component: &[u8]) -> Named
    ensures { result ≡ named_of (find_in check matching component.now raw.now) }
{
    let mut found = no_entry(0);
    let mut at: usize = 0;
    // No `for`: each entry says itself where the next one starts.
    while at + LEAST_SIZE <= raw.len() {
        match entry_at(check, raw, at) {
            Err(why) => return no_entry(why.number()),
            Ok(f) => {
                let s = &raw[at..];
                at += f.total_size;
                found = noted(matching, found, s, f, component);
            }
        }
    }
    found
}
