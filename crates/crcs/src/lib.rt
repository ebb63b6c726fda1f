// The CRC of a descriptor's body, from a table of 256 remainders, and four bytes at a time with three further tables.
#![tactic(auto)]

mod further;
mod table;

ghost use Rattle.std.specs.Prelude.{◌≡◌};
ghost use Rattle.crcs.specs.Crcs.{crc_from, crc_of};
ghost use Rattle.crcs.specs.Inner.Tables.{byte_by, bytes_by, four_by, crc_by};

use crate::further::FURTHER;
use crate::table::REMAINDERS;

// The register c after the byte b: its low byte moves up; its high byte, XORed with b, moves out and leaves its
// remainder.
fn take_byte(t: &[u16; 256], c: u16, b: u8) -> u16
    ensures { result ≡ byte_by t.now c b }
{
    let out = c as usize / 256 ^ b as usize;
    c % 256 * 256 ^ t[out]
}

// The register `from` after the bytes of s, one by one.
fn take_bytes(t: &[u16; 256], from: u16, s: &[u8]) -> u16
    ensures { result ≡ bytes_by t.now from s.now }
{
    let mut c = from;
    for b in s {
        c = take_byte(t, c, *b);
    }
    c
}

// The register c after four bytes. Both its bytes move out, XORed with the first two. Each of the four leaves the
// remainder of itself followed by as many zero bytes as it has bytes after it. No lookup waits for another.
fn take_four(t: &[u16; 256], further: &[u16; 768], c: u16, b0: u8, b1: u8, b2: u8, b3: u8) -> u16
    ensures { result ≡ four_by t.now further.now c b0 b1 b2 b3 }
{
    let high = 512 + (c as usize / 256 ^ b0 as usize);
    let low = 256 + (c as usize % 256 ^ b1 as usize);
    let third = b2 as usize;
    let last = b3 as usize;
    further[high] ^ further[low] ^ (further[third] ^ t[last])
}

// The register `from` after the bytes of s, four at a time, and one by one those that are left.
fn take_fours(t: &[u16; 256], further: &[u16; 768], from: u16, s: &[u8]) -> u16
    ensures { result ≡ crc_by t.now further.now from s.now }
{
    let (fours, rest) = s.as_chunks::<4>();
    let mut c = from;
    for [b0, b1, b2, b3] in fours {
        c = take_four(t, further, c, *b0, *b1, *b2, *b3);
    }
    take_bytes(t, c, rest)
}

// The CRC of s, continued from `front`, by the first table alone.
fn by_bytes(front: u16, s: &[u8]) -> u16
    ensures { result ≡ crc_from front s.now }
{
    take_bytes(&REMAINDERS, front, s)
}

// The same by all four.
fn by_fours(front: u16, s: &[u8]) -> u16
    ensures { result ≡ crc_from front s.now }
{
    take_fours(&REMAINDERS, &FURTHER, front, s)
}

// The CRC of s, continued from `front`, the CRC of the bytes before it. Below 16 bytes it takes a byte in a turn: an
// older toolchain stored the tables on the stack at each call, and the further ones (1,536 bytes) took longer than they saved.
pub fn crc_behind(front: u16, s: &[u8]) -> u16
    ensures { result ≡ crc_from front s.now }
{
    if s.len() < 16 {
        return by_bytes(front, s);
    }
    by_fours(front, s)
}

// The CRC of the bytes of s.
pub fn crc(s: &[u8]) -> u16
    ensures { result ≡ crc_of s.now }
{
    crc_behind(0, s)
}
