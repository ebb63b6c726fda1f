// A recorded d-string as UTF-8: OSTA UDF 2.1.3.
ghost use Rattle.std.specs.Prelude.{◌≡◌, length, drop};
ghost use Rattle.disc.specs.Ran.{told};
ghost use Rattle.disc.specs.Replies.{Replied};
ghost use Rattle.disc.specs.declared.refusals.Refusal.TheVariants.{NoRoom};
ghost use Rattle.names.specs.Names.{Wrote, nameless, name_of, written, size_of};
ghost use Rattle.names.specs.Inner.Units.{Body, Formed, text_of};

use crate::units::{put, unit, unit_size};
use disc::answers::{DONE, NO_ROOM};
use disc::refusals::Refusal;
use disc::replies::{Reply, refusal};

// The form of a d-string: empty, in units of this many bytes, or bad.
#[derive(Clone, Copy)]
pub(crate) enum Form {
    Empty,
    Units(usize),
    Bad,
}

// Whether a compression id says that the name is empty: 0, and those of deleted names (OSTA UDF 2.1.1 of 2.01).
fn is_nameless(id: u8) -> bool
    ensures { result ≡ nameless id }
{
    (id == 0) | (id == 254) | (id == 255)
}

// The form of the d-string s, by its first byte, the compression id.
pub(crate) fn form_of(s: &[u8]) -> Form
    ensures { Formed s.now result }
{
    if s.len() == 0 {
        return Form::Empty;
    }
    let id = s[0];
    if is_nameless(id) {
        return Form::Empty;
    }
    if id == 8 {
        return Form::Units(1);
    }
    if id == 16 {
        // The id, followed by an odd number of bytes.
        if s.len() % 2 == 0 {
            return Form::Bad;
        }
        return Form::Units(2);
    }
    Form::Bad
}

// How many bytes of UTF-8 the units of s from its second byte on take.
fn text_size(s: &[u8], step: usize) -> usize
    requires { Body s.now step }
    ensures { result ≡ length (text_of step (drop 1 s.now)) }
{
    let mut n: usize = 0;
    for bytes in s[1..].chunks_exact(step) {
        let u = unit(bytes, 0, step);
        if u == 0 {
            return n;
        }
        n += unit_size(u);
    }
    n
}

// Writes the UTF-8 of the units of s from its second byte on to the front of out, and returns how many bytes it has.
fn put_text(s: &[u8], step: usize, out: &mut [u8]) -> usize
    requires { Body s.now step }
    ensures { Wrote (text_of step (drop 1 s.now)) out.old out.new result }
{
    let mut n: usize = 0;
    for bytes in s[1..].chunks_exact(step) {
        let code = unit(bytes, 0, step);
        if code == 0 {
            return n;
        }
        n = put(out, n, code);
    }
    n
}

// How many bytes of UTF-8 the name of the d-string s has.
pub fn name_size(s: &[u8]) -> Result<usize, Refusal>
    ensures { result ≡ size_of (name_of s.now) }
{
    match form_of(s) {
        Form::Empty => Ok(0),
        Form::Units(step) => Ok(text_size(s, step)),
        Form::Bad => Err(Refusal::Malformed),
    }
}

// Writes the name of the d-string s to the front of out, as far as there is room, and returns how many bytes the
// whole name has. A d-string that is refused writes nothing.
pub fn put_name(s: &[u8], out: &mut [u8]) -> usize
    ensures { Wrote (written (name_of s.now)) out.old out.new result }
{
    match form_of(s) {
        Form::Empty => 0,
        Form::Units(step) => put_text(s, step, out),
        Form::Bad => 0,
    }
}

// Writes the name of the d-string s to the front of out. It is measured first, so one that is refused or has no room
// writes nothing. No more is lent than was measured, so a d-string that changes meanwhile isn't written past the
// answered length.
pub fn write_name(s: &[u8], out: &mut [u8]) -> Reply
    ensures { Replied NoRoom (told (name_of s.now)) out.old out.new result }
{
    match name_size(s) {
        Err(why) => refusal(why.number(), 0),
        Ok(n) => {
            if out.len() < n {
                return refusal(NO_ROOM, 0);
            }
            put_name(s, &mut out[0..n]);
            Reply {
                answer: DONE,
                count: 0,
                length: n as u64,
            }
        }
    }
}
