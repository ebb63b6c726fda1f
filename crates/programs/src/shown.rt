// How the programs show bytes and numbers.
ghost use Rattle.std.specs.Prelude.{◌≡◌, ◌<◌, ◌/◌, ◌%◌, ◌∷◌, Some};
ghost use Rattle.std.specs.Fmt.{WritesOnOk};
ghost use Rattle.programs.specs.Shown.{hex_digit, hex_pair, shown_hex, is_plain, escaped_byte, escaped, shown_numbers, shown_partition, shown_work};

use crate::lent::is_zero;
use std::fmt::{Display, Formatter, Write};
use std::{fmt, str};

// The character of a hex digit.
fn digit(d: u8) -> u8
    requires { d < 16 }
    ensures { (result ≡ hex_digit d) × (result < 128) }
{
    if d < 10 { b'0' + d } else { b'a' + (d - 10) }
}

// The first of a byte's two hex digits.
pub fn high_digit(b: u8) -> u8
    ensures { (result ≡ hex_digit (b / 16)) × (result < 128) }
{
    digit(b / 16)
}

// The second.
pub fn low_digit(b: u8) -> u8
    ensures { (result ≡ hex_digit (b % 16)) × (result < 128) }
{
    digit(b % 16)
}

// A character, and a byte's two hex digits, as one text: `{:02x}` takes several times as long a byte.
fn write_pair<W: Write>(f: &mut Formatter<W>, front: u8, b: u8) -> fmt::Result
    ensures writes { WritesOnOk W.write_str_gives f.old result (front ∷ hex_pair b) f.new }
{
    let text = [front, high_digit(b), low_digit(b)];
    match str::from_utf8(&text) {
        Ok(text) => f.write_str(text),
        Err(_) => Err(fmt::Error),
    }
}

// Each byte as a space and two hex digits.
#[derive(Clone, Copy)]
pub struct Hex<'a>(pub &'a [u8]);

impl Display for Hex<'_> {
    ghost output = { λ h. Some (shown_hex h.0.now) };

    fn fmt<W: Write>(&self, f: &mut Formatter<W>) -> fmt::Result {
        for &b in self.0 {
            write_pair(f, b' ', b)?;
        }
        Ok(())
    }
}

// Whether a byte of a text stands for itself: it is printable, and no backslash.
pub fn stays(b: u8) -> bool
    ensures { result ≡ is_plain b }
{
    !matches!(b, b'\\' | 0..=0x1f | 0x7f..=0xff)
}

// A byte of a text.
#[tactic(auto, using(crate::proofs::ShownLaws::plain_shown, crate::proofs::ShownLaws::escape_shown))]
fn write_escaped<W: Write>(f: &mut Formatter<W>, b: u8) -> fmt::Result
    ensures writes { WritesOnOk W.write_str_gives f.old result (escaped_byte b) f.new }
{
    if stays(b) {
        return f.write_char(char::from(b));
    }
    write_pair(f, b'\\', b)
}

// A text, in which a backslash, or a byte that isn't printable, is \ and two hex digits.
#[derive(Clone, Copy)]
pub struct Escaped<'a>(pub &'a [u8]);

impl Display for Escaped<'_> {
    ghost output = { λ e. Some (escaped e.0.now) };

    fn fmt<W: Write>(&self, f: &mut Formatter<W>) -> fmt::Result {
        for &b in self.0 {
            write_escaped(f, b)?;
        }
        Ok(())
    }
}

// Each number behind a space.
#[derive(Clone, Copy)]
pub struct Numbers<'a, T>(pub &'a [T]);

impl<T: Display> Display for Numbers<'_, T> {
    ghost output = { λ n. shown_numbers T.output n.0.now };

    fn fmt<W: Write>(&self, f: &mut Formatter<W>) -> fmt::Result {
        for n in self.0 {
            write!(f, " {n}")?;
        }
        Ok(())
    }
}

// A partition's number, or that none is named.
#[derive(Clone, Copy)]
pub struct Partition(pub Option<u16>);

impl Display for Partition {
    ghost output = { λ p. Some (shown_partition p.0) };

    fn fmt<W: Write>(&self, f: &mut Formatter<W>) -> fmt::Result {
        match self.0 {
            None => f.write_str("none"),
            Some(n) => write!(f, "{n}"),
        }
    }
}

// Whether a work space came back all zero.
#[derive(Clone, Copy)]
pub struct WorkSpace<'a>(pub &'a [u8]);

impl Display for WorkSpace<'_> {
    ghost output = { λ w. Some (shown_work w.0.now) };

    fn fmt<W: Write>(&self, f: &mut Formatter<W>) -> fmt::Result {
        f.write_str(if is_zero(self.0) { "zero" } else { "dirty" })
    }
}
