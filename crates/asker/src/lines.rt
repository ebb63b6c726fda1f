// A line, and the parts that several lines have.
ghost use Rattle.std.specs.Prelude.{◌≡◌, [], ◌∷◌, ◌++◌, take};
ghost use Rattle.programs.specs.Shown.{hex_pair, escaped_byte, escaped};

use disc::moves::copy;
use disc::replies::Reply;
// 65,536 zeros: the room of a line, and of what is lent.
pub(crate) use io::large_buffer;
use programs::lent::{LENT, front, sum};
use programs::shown::{high_digit, low_digit, stays};
use std::fmt;
use std::fmt::{Display, Formatter, Write};

// The most bytes of a line.
const LINE: usize = 65536;

// A line is put together in memory of its own, so that it can be compared with the one before it, and nothing is
// allocated. What has no room is left out.
#[derive(Drop)]
pub(crate) struct Line {
    bytes: [u8; 65536],
    length: usize,
}

impl Line {
    pub(crate) fn new() -> Line
        ensures { take result.length result.bytes ≡ [] }
    {
        Line {
            bytes: large_buffer(),
            length: 0,
        }
    }

    pub(crate) fn clear(&mut self)
        ensures { take self.new.length self.new.bytes ≡ [] }
    {
        self.length = 0;
    }

    // What is in it.
    pub(crate) fn text(&self) -> &[u8]
        ensures { result.now ≡ take self.now.length self.now.bytes }
    {
        front(&self.bytes, self.length)
    }

    fn push(&mut self, b: u8)
        ensures { take self.new.length self.new.bytes ≡ take 65536 (take self.old.length self.old.bytes ++ (b ∷ [])) }
    {
        if self.length < LINE {
            self.bytes[self.length] = b;
            self.length += 1;
        }
    }

    pub(crate) fn put(&mut self, text: &[u8])
        ensures { take self.new.length self.new.bytes ≡ take 65536 (take self.old.length self.old.bytes ++ text.now) }
    {
        let from = self.length.min(LINE);
        let room = &mut self.bytes[..];
        copy(text, &mut room[from..]);
        self.length = from + text.len().min(LINE - from);
    }
}

impl Write for Line {
    ghost write_str_gives = { λ s bs t. take t.length t.bytes ≡ take 65536 (take s.length s.bytes ++ bs) };

    fn write_str(&mut self, s: &str) -> fmt::Result {
        self.put(s.as_bytes());
        Ok(())
    }
}

// What every call answers.
#[derive(Clone, Copy)]
pub(crate) struct Answered(pub(crate) Reply);

impl Display for Answered {
    fn fmt<W: Write>(&self, f: &mut Formatter<W>) -> fmt::Result {
        let r = self.0;
        write!(f, "{} count {} length {}", r.answer, r.count, r.length)
    }
}

// The sum of the first bytes of an output, and whether the bytes after them are as they were lent.
#[derive(Clone, Copy)]
pub(crate) struct Written<'a>(pub(crate) &'a [u8], pub(crate) usize);

impl Display for Written<'_> {
    fn fmt<W: Write>(&self, f: &mut Formatter<W>) -> fmt::Result {
        let is_kept = self.0.iter().skip(self.1).all(|b| *b == LENT);
        write!(f, "sum {} {}", sum(front(self.0, self.1)), kept(is_kept))
    }
}

pub(crate) fn kept(is_kept: bool) -> &'static str {
    if is_kept { "kept" } else { "changed" }
}

// A byte that doesn't stand for itself.
fn put_escape(line: &mut Line, b: u8)
    ensures { take line.new.length line.new.bytes ≡ take 65536 (take line.old.length line.old.bytes ++ (0x5c ∷ hex_pair b)) }
{
    line.push(b'\\');
    line.push(high_digit(b));
    line.push(low_digit(b));
}

fn put_byte(line: &mut Line, b: u8)
    ensures { take line.new.length line.new.bytes ≡ take 65536 (take line.old.length line.old.bytes ++ escaped_byte b) }
{
    if stays(b) {
        line.push(b);
        return;
    }
    put_escape(line, b);
}

// Puts a text behind a line, as `Escaped` shows it. That takes each byte through a formatter, which takes several times
// as long. A line that is full takes no more.
pub(crate) fn put_text(line: &mut Line, text: &[u8])
    ensures { take line.new.length line.new.bytes ≡ take 65536 (take line.old.length line.old.bytes ++ escaped text.now) }
{
    for &b in text {
        if LINE <= line.text().len() {
            return;
        }
        put_byte(line, b);
    }
}
