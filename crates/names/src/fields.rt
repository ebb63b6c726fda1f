// A d-string field: a d-string in a field of fixed size, whose last byte is the d-string's length (ECMA-167
// 1/7.2.12).
ghost use Rattle.std.specs.Prelude.{◌≡◌};
ghost use Rattle.disc.specs.Ran.{told};
ghost use Rattle.disc.specs.Replies.{Replied};
ghost use Rattle.disc.specs.declared.refusals.Refusal.TheVariants.{NoRoom};
ghost use Rattle.names.specs.Names.{name_of_field, size_of};
ghost use Rattle.names.specs.Inner.Units.{FieldMeasured};

use crate::dstrings::{name_size, write_name};
use disc::answers::MALFORMED;
use disc::refusals::Refusal;
use disc::replies::{Reply, refusal};

fn measured(f: &[u8]) -> Option<usize>
    ensures { FieldMeasured f.now result }
{
    if f.len() == 0 {
        return Some(0);
    }
    let last = f.len() - 1;
    let n = f[last] as usize;
    if last < n {
        return None;
    }
    Some(n)
}

// How many bytes of UTF-8 the name in the field f has.
pub fn field_size(f: &[u8]) -> Result<usize, Refusal>
    ensures { result ≡ size_of (name_of_field f.now) }
{
    match measured(f) {
        Some(n) => name_size(&f[..n]),
        None => Err(Refusal::Malformed),
    }
}

// Writes the name in the field f to the front of out; one that is refused or has no room writes nothing.
pub fn write_field(f: &[u8], out: &mut [u8]) -> Reply
    ensures { Replied NoRoom (told (name_of_field f.now)) out.old out.new result }
{
    match measured(f) {
        Some(n) => write_name(&f[..n], out),
        None => refusal(MALFORMED, 0),
    }
}
