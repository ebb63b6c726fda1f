// What a program prints, and how much of it: how many bytes a text has, or how many digits a number. No contract here
// can say what reaches standard output, since that of the toolchain's `write_all` doesn't. So each function returns what
// it made of its argument.
//
// It stays beside `shown` and `println!`, since what it promises can't be said of `println!`.
ghost use Rattle.std.specs.Prelude.{◌≡◌, length};
ghost use Rattle.io.specs.Digits.{IsDigitCount};
ghost use Rattle.disc.specs.Refusals.{number as number_of};
ghost use Rattle.programs.specs.Words.{PartitionDigits};
ghost use Rattle.programs.specs.Lent.{all_zero};

use crate::lent::{is_zero, wide};
use disc::refusals::Refusal;

// The descriptor that is standard output.
const STDOUT_FILENO: i32 = 1;

pub fn say(text: &[u8]) -> usize
    ensures { result ≡ length text.now }
{
    io::write_all(STDOUT_FILENO, text);
    text.len()
}

pub fn end_line() -> usize
    ensures { result ≡ 1 }
{
    say(b"\n")
}

pub fn say_decimal(n: u64) -> usize
    ensures { IsDigitCount 10 1 n result }
{
    let mut text = [0u8; 20];
    let k = io::decimal(n, &mut text);
    say(&text[..k]);
    k
}

// A word directly followed by a number.
pub fn say_named(word: &[u8], n: u64) -> usize
    ensures { IsDigitCount 10 1 n result }
{
    say(word);
    say_decimal(n)
}

pub fn number(n: u64) -> usize
    ensures { IsDigitCount 10 1 n result }
{
    say_named(b" ", n)
}

// For narrower numbers, so that a caller needs no cast. They aren't one generic function over `Into<u64>`: what `into`
// gives is a relation there, so its contract would leave more than one result.
pub fn number8(n: u8) -> usize
    ensures { IsDigitCount 10 1 n result }
{
    number(n as u64)
}

pub fn number16(n: u16) -> usize
    ensures { IsDigitCount 10 1 n result }
{
    number(n as u64)
}

pub fn number32(n: u32) -> usize
    ensures { IsDigitCount 10 1 n result }
{
    number(n as u64)
}

// A space, and two hex digits.
pub fn say_byte(b: u8) -> usize
    ensures { IsDigitCount 16 2 b result }
{
    say(b" ");
    let mut text = [0u8; 16];
    let k = io::hex(wide(b), 2, &mut text);
    say(&text[..k]);
    k
}

// Prints all bytes; returns how many there are.
pub fn say_bytes(s: &[u8]) -> usize
    ensures { result ≡ length s.now }
{
    for b in s {
        say_byte(*b);
    }
    s.len()
}

pub fn say_refused(answer: u64) -> usize
    ensures { IsDigitCount 10 1 answer result }
{
    say(b" refused");
    number(answer)
}

pub fn say_refusal(why: Refusal) -> usize
    ensures { IsDigitCount 10 1 (number_of why) result }
{
    say_refused(why.number())
}

pub fn say_partition(p: Option<u16>) -> usize
    ensures { PartitionDigits p result }
{
    match p {
        None => {
            say(b" none");
            0
        }
        Some(n) => number16(n),
    }
}

// A call's name, which ends in a space, and what every call answers. The digits returned are the count's.
pub fn say_answer(call: &[u8], answer: u64, count: u64) -> usize
    ensures { IsDigitCount 10 1 count result }
{
    say_named(call, answer);
    say_named(b" count ", count)
}

// A backslash, or a byte that isn't printable, becomes \ and two hex digits.
fn say_character(b: u8) {
    if (b < 0x20) | (b > 0x7e) | (b == b'\\') {
        say(b"\\");
        io::print_hex(STDOUT_FILENO, wide(b), 2);
        return;
    }
    let one = [b];
    say(&one);
}

// A word followed by a text; returns how many bytes the text has.
pub fn say_text(name: &[u8], text: &[u8]) -> usize
    ensures { result ≡ length text.now }
{
    say(name);
    for b in text {
        say_character(*b);
    }
    text.len()
}

// Whether the work space came back all zero.
pub fn say_zero(work: &[u8]) -> bool
    ensures { result ≡ all_zero work.now }
{
    if is_zero(work) {
        say(b" zero\n");
        return true;
    }
    say(b" dirty\n");
    false
}
