// How a component of a path is matched with the names of a directory's entries.
ghost use Rattle.std.specs.Prelude.{◌≡◌};
ghost use Rattle.listings.specs.Listings.{fold_for, matching_of};

use names::matching::Fold;

// Ignores ASCII case and takes the first entry that matches.
pub const CASE_IGNORED: u32 = 0;

// Matches byte for byte and takes the first entry that matches.
pub const AS_WRITTEN: u32 = 1;

// ASCII case is ignored, and a component that two or more entries match is refused.
pub const UNAMBIGUOUS: u32 = 2;

#[derive(Clone, Copy)]
pub enum Matching {
    CaseIgnored,
    AsWritten,
    Unambiguous,
}

// The choice with this number. Any other number is the choice that refuses most.
pub fn matching_of(number: u32) -> Matching
    ensures { result ≡ matching_of number }
{
    if number == CASE_IGNORED {
        return Matching::CaseIgnored;
    }
    if number == AS_WRITTEN {
        return Matching::AsWritten;
    }
    Matching::Unambiguous
}

// How the bytes of a name and of a component are folded before they are compared.
pub(crate) fn fold_for(matching: Matching) -> Fold
    ensures { result ≡ fold_for matching }
{
    match matching {
        Matching::CaseIgnored => Fold::Lower,
        Matching::AsWritten => Fold::AsIs,
        Matching::Unambiguous => Fold::Lower,
    }
}
