// Runs the CRC, a line each: the bytes, or how many of a pattern, and their CRC, the high byte first.
#![tactic(auto)]

ghost use Rattle.std.specs.Prelude.{◌≡◌, length};

use crcs::crc;
use programs::lent::front;
use programs::shown::Hex;
use std::io;

fn bytes(rt: &impl Print, s: &[u8]) -> io::Result<()> {
    println!(rt; "bytes{}:{}", Hex(s), Hex(&crc(s).to_be_bytes()))
}

// Published: no bytes; the example of ECMA-167 3/7.2.6; the check value of catalogues of CRCs, where this one is CRC-16/XMODEM; two keys of
// Redis's documentation of CLUSTER KEYSLOT, whose slots, 11058 and 2515, are the CRC modulo 16,384.
fn published(rt: &impl Print) -> io::Result<()> {
    bytes(rt, b"")?;
    bytes(rt, b"\x70\x6a\x77")?;
    bytes(rt, b"123456789")?;
    bytes(rt, b"somekey")?;
    bytes(rt, b"hash_tag")
}

// One bit, at the ends of a byte and of two: the polynomial, and what is left of its multiples.
fn bits(rt: &impl Print) -> io::Result<()> {
    bytes(rt, b"\x01")?;
    bytes(rt, b"\x80")?;
    bytes(rt, b"\x00\x01")?;
    bytes(rt, b"\x01\x00")?;
    bytes(rt, b"\x80\x00")?;
    bytes(rt, b"\x10\x21")?;
    bytes(rt, b"\x01\x10\x21")
}

// The body of an anchor in 496 bytes: the main sequence in 16 sectors from `main` on, the reserve sequence in as many from `reserve` on.
fn anchor(rt: &impl Print, main: u8, reserve: u16) -> io::Result<()> {
    let mut body = [0u8; 496];
    body[1] = 0x80;
    body[4] = main;
    body[9] = 0x80;
    body[12..14].copy_from_slice(&reserve.to_le_bytes());
    println!(rt;
        "anchor {main} {reserve}:{}",
        Hex(&crc(&body).to_be_bytes())
    )
}

// As mkudffs 2.3 and genisoimage 1.1.11 write it, which give it the CRCs 9317 and D701.
fn anchors(rt: &impl Print) -> io::Result<()> {
    anchor(rt, 96, 3936)?;
    anchor(rt, 32, 48)
}

// Byte i is i + 1 + 59 (i div 256), modulo 256: each byte once, and then each again from another one on.
fn pattern() -> [u8; 4100]
    ensures { 4100 ≡ length result }
{
    let mut made = [0u8; 4100];
    for i in 0..4100 {
        made[i] = ((i + 1 + i / 256 * 59) % 256) as u8;
    }
    made
}

// The first bytes of the pattern. From 16 bytes on four are taken at a time, and up to three are left. The most that stands behind a tag in its sector is 2,032 bytes.
fn patterns(rt: &impl Print, whole: &[u8]) -> io::Result<()> {
    for n in [
        0, 1, 2, 15, 16, 17, 18, 19, 20, 255, 256, 257, 2031, 2032, 2048, 2049, 4100,
    ] {
        println!(rt; "pattern {n}:{}", Hex(&crc(front(whole, n)).to_be_bytes()))?;
    }
    Ok(())
}

fn cases(rt: &impl Print, whole: &[u8]) -> io::Result<()> {
    published(rt)?;
    bits(rt)?;
    anchors(rt)?;
    patterns(rt, whole)
}

fn main(rt: HostRuntime) -> io::Result<()> {
    let whole = pattern();
    // A line that can't be written doesn't change the exit status.
    let _ = cases(&rt, &whole);
    Ok(())
}
