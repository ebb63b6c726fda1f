// Compares a recorded name with a component of a path under a fold: straight from the d-string, one code point at a
// time.
ghost use Rattle.std.specs.Prelude.{◌≡◌, true, [], ◌∷◌, ◌+◌, ◌*◌, ◌≤◌, eqb, drop};
ghost use Rattle.names.specs.Names.{encode, lower, fold_of, same_name, is_named};
ghost use Rattle.names.specs.Inner.Units.{Body, At, text_of, unit_bytes};
ghost use Rattle.names.specs.Inner.Matching.{Matched, Plain, Comparing};

use crate::dstrings::{Form, form_of};
use crate::units::{surrogate, unit};

// Whether all that was compared is the same, and how far into the component that is.
#[derive(Clone, Copy)]
pub(crate) struct NamePlace {
    same: bool,
    at: usize,
}

// How a byte is folded before it is compared.
#[derive(Clone, Copy)]
pub enum Fold {
    // A to Z as a to z: ASCII case is ignored.
    Lower,
    // As it is: byte for byte.
    AsIs,
}

fn lower(b: u8) -> u8
    ensures { result ≡ lower b }
{
    if b < 0x41 {
        return b;
    }
    if b < 0x5b {
        return b + 0x20;
    }
    b
}

// Whether two bytes are equal under a fold. Most bytes that match are equal as they are, so the fold is looked at only
// where two differ.
pub fn same_byte(fold: Fold, a: u8, b: u8) -> bool
    ensures { result ≡ eqb (fold_of fold a) (fold_of fold b) }
{
    if a == b {
        return true;
    }
    match fold {
        Fold::Lower => lower(a) == lower(b),
        Fold::AsIs => false,
    }
}

// Compares a byte of a name with the component t at `at`.
fn match_byte(fold: Fold, b: u8, t: &[u8], at: usize) -> NamePlace
    ensures { Matched (fold_of fold) (b ∷ []) t.now at result }
{
    if t.len() <= at {
        return NamePlace { same: false, at };
    }
    let same = same_byte(fold, b, t[at]);
    NamePlace { same, at: at + 1 }
}

// Compares the UTF-8 of u, of two or three bytes, with the component t from `at` on.
fn match_long(fold: Fold, u: u16, t: &[u8], at: usize) -> NamePlace
    requires { 0x80 ≤ u }
    ensures { Matched (fold_of fold) (encode u) t.now at result }
{
    if u < 0x800 {
        let p = match_byte(fold, (0xc0 + u / 64) as u8, t, at);
        if !p.same {
            return p;
        }
        return match_byte(fold, (0x80 + u % 64) as u8, t, p.at);
    }
    let p = match_byte(fold, (0xe0 + u / 4096) as u8, t, at);
    if !p.same {
        return p;
    }
    let q = match_byte(fold, (0x80 + u / 64 % 64) as u8, t, p.at);
    if !q.same {
        return q;
    }
    match_byte(fold, (0x80 + u % 64) as u8, t, q.at)
}

// Compares a unit that is not 0 with the component t from `at` on. ASCII comes first, since most names have nothing else.
fn match_unit(fold: Fold, u: u16, t: &[u8], at: usize) -> NamePlace
    ensures { Matched (fold_of fold) (unit_bytes u) t.now at result }
{
    if u < 0x80 {
        return match_byte(fold, u as u8, t, at);
    }
    if surrogate(u) {
        return NamePlace { same: true, at };
    }
    match_long(fold, u, t, at)
}

// Whether u is ASCII, not 0, and matches the byte b of a component.
fn is_plain(fold: Fold, u: u16, b: u8) -> bool
    ensures { result ≡ true → Plain (fold_of fold) u b }
{
    if u == 0 {
        return false;
    }
    if 0x7f < u {
        return false;
    }
    same_byte(fold, u as u8, b)
}

// How many units at the front of s are ASCII and match the component t. Most names are told apart here, where a unit
// is a byte and no code point is made. A unit that doesn't match is left to `is_rest`.
fn front(fold: Fold, s: &[u8], step: usize, t: &[u8]) -> usize
    requires { Body s.now step }
    ensures { Comparing (fold_of fold) step s.now t.now 1 0 (result * step + 1) result }
{
    let n = ((s.len() - 1) / step).min(t.len());
    for at in 0..n {
        let u = unit(s, at * step + 1, step);
        if !is_plain(fold, u, t[at]) {
            return at;
        }
    }
    n
}

// Whether the UTF-8 of s after its first n units matches the component t after its first n bytes. Ends at the first
// unit that differs.
fn is_rest(fold: Fold, s: &[u8], step: usize, n: usize, t: &[u8]) -> bool
    requires { At step s.now (n * step + 1) }
    ensures { result ≡ same_name (fold_of fold) (text_of step (drop (n * step + 1) s.now)) (drop n t.now) }
{
    let mut at = n;
    for bytes in s[n * step + 1..].chunks_exact(step) {
        let u = unit(bytes, 0, step);
        if u == 0 {
            return t.len() <= at;
        }
        let p = match_unit(fold, u, t, at);
        if !p.same {
            return false;
        }
        at = p.at;
    }
    t.len() <= at
}

// Whether the d-string s names a component of a path, both compared under a fold.
pub fn is_named(fold: Fold, s: &[u8], component: &[u8]) -> bool
    ensures { result ≡ is_named (fold_of fold) s.now component.now }
{
    if 255 < s.len() {
        return false;
    }
    match form_of(s) {
        Form::Bad => false,
        Form::Empty => component.len() == 0,
        Form::Units(step) => {
            let n = front(fold, s, step, component);
            is_rest(fold, s, step, n, component)
        }
    }
}
