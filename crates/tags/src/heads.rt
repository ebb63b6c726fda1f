// The gate that every descriptor goes through: enough bytes, a good tag, a right body if bodies are checked, and the
// descriptor's id.
ghost use Rattle.std.specs.Prelude.{◌≡◌, true, Err};
ghost use Rattle.disc.specs.Choice.{pick};
ghost use Rattle.disc.specs.declared.refusals.Refusal.TheVariants.{BadCrc};
ghost use Rattle.tags.specs.Tags.{read_tag, with_body, with_id, read_head};

use crate::DescriptorTag;
use disc::refusals::Refusal;

// Whether `s` starts with a good tag whose body isn't right. Each callee is lent the bytes anew, so that the compiler
// passes `s` in registers and its caller needs no memory for it.
fn is_ruined(s: &[u8]) -> bool
    ensures { with_body true s.now (read_tag s.now) ≡ pick result (Err BadCrc) (read_tag s.now) }
{
    match DescriptorTag::parse(&s[0..]) {
        Err(_) => false,
        Ok(t) => !t.has_right_body(&s[0..]),
    }
}

// A tag that was read, unless its id isn't the descriptor's.
fn with_id(id: u16, r: Result<DescriptorTag, Refusal>) -> Result<DescriptorTag, Refusal>
    ensures { result ≡ with_id id r }
{
    let t = r?;
    if t.id != id {
        return Err(Refusal::Malformed);
    }
    Ok(t)
}

// The tag of the descriptor at the front of `s`, which must have this id and at least this many bytes.
//
// `is_ruined` is called in two places, for the ids of the volume structure and for those of a partition. From one
// place alone, an older compiler inlined it here, with the CRC and its table, and this function was too large to
// inline into each reader. Today's keeps both functions apart in the archive, and where no body is checked
// `is_ruined` isn't called.
pub fn read_head(check: bool, s: &[u8], id: u16, size: usize) -> Result<DescriptorTag, Refusal>
    ensures { result ≡ read_head check s.now id size }
{
    if s.len() < size {
        return Err(Refusal::Malformed);
    }
    if check {
        if id < 256 {
            if is_ruined(s) {
                return Err(Refusal::BadCrc);
            }
        } else {
            if is_ruined(s) {
                return Err(Refusal::BadCrc);
            }
        }
    }
    with_id(id, DescriptorTag::parse(s))
}
