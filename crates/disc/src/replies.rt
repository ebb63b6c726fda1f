// The answer of a call that writes bytes into lent memory.
ghost use Rattle.std.specs.Prelude.{◌≡◌};

// The answer, the count of sectors, and a length.
#[repr(C)]
#[derive(Clone, Copy)]
pub struct Reply {
    // A number of the table.
    pub answer: u64,
    // The sectors asked for.
    pub count: u64,
    // The number of bytes or slots of the result. 0 if the call was refused, except for the component that failed.
    pub length: u64,
}

// A refusal.
pub fn refusal(answer: u64, count: u64) -> Reply
    ensures { result ≡ record { answer = answer; count = count; length = 0 } }
{
    Reply {
        answer,
        count,
        length: 0,
    }
}
