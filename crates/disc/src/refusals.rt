// Why a call is refused.
ghost use Rattle.std.specs.Prelude.{◌≡◌};
ghost use Rattle.disc.specs.Refusals.{number};

use crate::answers::{
    AMBIGUOUS, BAD_CRC, BAD_FILES, BAD_NAME, BAD_SHELF, IO, MALFORMED, NO_ROOM, NO_SLOT, NO_WORK,
    NOT_BLURAY, OVER_BUDGET, TOO_DEEP, TOO_MANY, UNSUPPORTED,
};

#[derive(Clone, Copy)]
pub enum Refusal {
    // A sector that was asked for isn't wholly inside the image.
    Io,
    Malformed,
    NotBluray,
    Unsupported,
    // The answer has more bytes than the output holds.
    NoRoom,
    // A directory is larger than the work space; in a show, than what the directories above it leave of it.
    NoWork,
    // There are more extents, or runs, than slots.
    NoSlot,
    // A component of the path matches two or more entries of its directory.
    Ambiguous,
    // A descriptor that is checked has a wrong CRC or CRC length.
    BadCrc,
    // A directory is found at the last level asked for, or the number of levels is 0 or over 16.
    TooDeep,
    // There are more paths than places in one of the two rows.
    TooMany,
    // On writing: a name is bad, or two are equal with ASCII case ignored.
    BadName,
    // On writing: files that can't be written (RULES 15.6 to 15.9).
    BadFiles,
    // The lengths of a shelf's images pass its bytes, or there are too few places for the figures.
    BadShelf,
    // The call would ask for more sectors than it was lent.
    OverBudget,
}

// A refusal, and how many sectors had been asked for by then.
#[derive(Clone, Copy)]
pub struct CountedRefusal {
    pub why: Refusal,
    pub count: u64,
}

impl Refusal {
    // The answer number. No refusal has number 0, which is "done".
    pub fn number(self) -> u64
        ensures { result ≡ number self }
    {
        match self {
            Refusal::Io => IO,
            Refusal::Malformed => MALFORMED,
            Refusal::NotBluray => NOT_BLURAY,
            Refusal::Unsupported => UNSUPPORTED,
            Refusal::NoRoom => NO_ROOM,
            Refusal::NoWork => NO_WORK,
            Refusal::NoSlot => NO_SLOT,
            Refusal::Ambiguous => AMBIGUOUS,
            Refusal::BadCrc => BAD_CRC,
            Refusal::TooDeep => TOO_DEEP,
            Refusal::TooMany => TOO_MANY,
            Refusal::BadName => BAD_NAME,
            Refusal::BadFiles => BAD_FILES,
            Refusal::BadShelf => BAD_SHELF,
            Refusal::OverBudget => OVER_BUDGET,
        }
    }
}
