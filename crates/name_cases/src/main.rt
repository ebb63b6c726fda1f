// Runs the cases for names: d-strings and d-string fields as UTF-8, outputs with too little room, and matching. Each
// line has what was asked, its bytes in hex, and the answer: a name's size and bytes.
#![tactic(auto)]

ghost use Rattle.std.specs.Prelude.{◌≤◌, length};

use disc::refusals::Refusal;
use names::dstrings::{name_size, put_name};
use names::fields::{field_size, write_field};
use names::matching::{Fold, is_named};
use programs::lent::front;
use programs::shown::Hex;
use std::io;

// Prints the answer for a name, and the name, which is at the front of b.
fn say_name(rt: &impl Print, size: Result<usize, Refusal>, b: &[u8]) -> io::Result<()> {
    match size {
        Ok(n) => println!(rt; ": {n}{}", Hex(front(b, n))),
        Err(_) => println!(rt; ": refused"),
    }
}

fn say_match(rt: &impl Print, yes: bool) -> io::Result<()> {
    println!(rt; ": {}", if yes { "match" } else { "no match" })
}

// The name of a d-string.
fn name(rt: &impl Print, s: &[u8]) -> io::Result<()> {
    let mut out = [0; 64];
    put_name(s, &mut out);
    print!(rt; "name{}", Hex(s))?;
    say_name(rt, name_size(s), &out)
}

// The name in a d-string field.
fn field(rt: &impl Print, f: &[u8]) -> io::Result<()> {
    let mut out = [0; 64];
    write_field(f, &mut out);
    print!(rt; "field{}", Hex(f))?;
    say_name(rt, field_size(f), &out)
}

// The same for a field of 32 bytes with id 8, full of the letter A, and with `length` as its last byte.
fn full_field(rt: &impl Print, length: u8) -> io::Result<()> {
    let mut f = [b'A'; 32];
    f[0] = 8;
    f[31] = length;
    field(rt, &f)
}

// The name of a d-string in the first `room` of eight bytes EE: what has no room is left out, and the bytes after it
// stay.
fn into(rt: &impl Print, room: usize, s: &[u8]) -> io::Result<()>
    requires { room ≤ 8 }
{
    let mut out = [0xee; 8];
    let n = put_name(s, &mut out[..room]);
    println!(rt; "into{}: {n}{}", Hex(s), Hex(&out))
}

// Whether the name of a d-string, which is printed, matches another.
fn same(rt: &impl Print, s: &[u8], b: &[u8]) -> io::Result<()> {
    let mut out = [0; 64];
    let n = put_name(s, &mut out);
    print!(rt; "same{},{}", Hex(front(&out, n)), Hex(b))?;
    say_match(rt, is_named(Fold::Lower, s, b))
}

// Whether a d-string names a component.
fn named(rt: &impl Print, s: &[u8], component: &[u8]) -> io::Result<()> {
    print!(rt; "named{},{}", Hex(s), Hex(component))?;
    say_match(rt, is_named(Fold::Lower, s, component))
}

// The same byte for byte.
fn written(rt: &impl Print, s: &[u8], component: &[u8]) -> io::Result<()> {
    print!(rt; "written{},{}", Hex(s), Hex(component))?;
    say_match(rt, is_named(Fold::AsIs, s, component))
}

// Cases 9 to 13 of the worked table.
fn worked(rt: &impl Print) -> io::Result<()> {
    name(rt, b"\x08A\x00B")?;
    name(rt, b"\x10\x00A\xd8\x00\x00B")?;
    name(rt, b"\x10\x00A\x00")?;
    name(rt, b"\x08\xe9")?;
    name(rt, b"\xfe")
}

// No bytes, and the ids that are read.
fn read_ids(rt: &impl Print) -> io::Result<()> {
    name(rt, b"")?;
    name(rt, b"\x00A")?;
    name(rt, b"\x08A")?;
    name(rt, b"\x10\x00A")
}

fn refused_ids(rt: &impl Print) -> io::Result<()> {
    name(rt, b"\x01A")?;
    name(rt, b"\x07A")?;
    name(rt, b"\x09A")?;
    name(rt, b"\x0f\x00A")?;
    name(rt, b"\x11\x00A")?;
    name(rt, b"\xfdA")
}

// The ids of deleted names, alone and followed by bodies of even and odd length.
fn deleted_ids(rt: &impl Print) -> io::Result<()> {
    name(rt, b"\xfeA")?;
    name(rt, b"\xffA")?;
    name(rt, b"\xff")?;
    name(rt, b"\xfeA\x00B")?;
    name(rt, b"\xff\x00A")?;
    name(rt, b"\xff\x00A\x00")?;
    name(rt, b"\xff\xd8\x00")
}

// Even and odd numbers of bytes after id 16.
fn counts(rt: &impl Print) -> io::Result<()> {
    name(rt, b"\x10")?;
    name(rt, b"\x10\x00")?;
    name(rt, b"\x10\x00A\x00")?;
    name(rt, b"\x10\x00A\x00B")?;
    name(rt, b"\x10\x00\x00\x00A\x00")
}

// Code points on both sides of each size in UTF-8.
fn points(rt: &impl Print) -> io::Result<()> {
    name(rt, b"\x08\x7f")?;
    name(rt, b"\x08\x80")?;
    name(rt, b"\x08\xff")?;
    name(rt, b"\x10\x00\x7f")?;
    name(rt, b"\x10\x00\x80")?;
    name(rt, b"\x10\x07\xff")?;
    name(rt, b"\x10\x08\x00")
}

// Around the surrogates, and the last value.
fn surrogates(rt: &impl Print) -> io::Result<()> {
    name(rt, b"\x10\xd7\xff")?;
    name(rt, b"\x10\xd8\x00")?;
    name(rt, b"\x10\xdf\xff")?;
    name(rt, b"\x10\xe0\x00")?;
    name(rt, b"\x10\xff\xff")
}

fn zeros(rt: &impl Print) -> io::Result<()> {
    name(rt, b"\x08\x00A")?;
    name(rt, b"\x08AB\x00C")?;
    name(rt, b"\x10\x00\x00\x00A")?;
    name(rt, b"\x10\x00A\x00\x00\x00B")?;
    name(rt, b"\x10\x01\x00\x00A")
}

fn fields(rt: &impl Print) -> io::Result<()> {
    field(rt, b"")?;
    field(rt, b"\x00")?;
    field(rt, b"\x01")?;
    field(rt, b"\x09A\x02")?;
    field(rt, b"\xfeA\x02")?;
    field(rt, b"\xff\x00A\x03")?;
    field(rt, b"\xff\x00A\x04")?;
    full_field(rt, 0)?;
    full_field(rt, 1)?;
    full_field(rt, 2)?;
    full_field(rt, 31)?;
    full_field(rt, 32)?;
    full_field(rt, 255)
}

fn rooms(rt: &impl Print) -> io::Result<()> {
    into(rt, 4, b"\x08ABCD")?;
    into(rt, 3, b"\x08ABCD")?;
    into(rt, 3, b"\x08\xe9\xe8")?;
    into(rt, 3, b"\x10\xff\xff")?;
    into(rt, 4, b"\x10\xff\xff\x20\xac")?;
    into(rt, 4, b"\x09ABCD")?;
    into(rt, 4, b"\xfeABCD")?;
    into(rt, 0, b"\x08A")
}

fn matches(rt: &impl Print) -> io::Result<()> {
    same(rt, b"\x08BDMV", b"BDMV")?;
    same(rt, b"\x08BDMV", b"bdmv")?;
    same(rt, b"\x0810.1A", b"10.1a")?;
    same(rt, b"\x08AZ", b"az")?;
    same(rt, b"\x08", b"")
}

fn no_matches(rt: &impl Print) -> io::Result<()> {
    same(rt, b"\x08@", b"`")?;
    same(rt, b"\x08[", b"{")?;
    same(rt, b"\x08BDMV", b"BDM")?;
    same(rt, b"\x08BDM", b"BDMV")?;
    same(rt, b"\x08BDMV", b"BDMW")?;
    same(rt, b"\x08\xe9", b"\xc3\x89")
}

fn components(rt: &impl Print) -> io::Result<()> {
    named(rt, b"\x08BDMV", b"bdmv")?;
    named(rt, b"\x10\x20\xac", b"\xe2\x82\xac")?;
    named(rt, b"\x08BDMV", b"BDM")?;
    named(rt, b"", b"")?;
    named(rt, b"\xfe", b"")
}

// A d-string with the id of a deleted name names no component that has a byte.
fn deleted_components(rt: &impl Print) -> io::Result<()> {
    named(rt, b"\xfeBDMV", b"BDMV")?;
    named(rt, b"\xff\x00B", b"B")?;
    named(rt, b"\xffB", b"")?;
    named(rt, b"\xfe", b"\xfe")
}

// The longest d-string of a directory entry, and one byte more.
fn long_component(rt: &impl Print) -> io::Result<()> {
    let mut s = [b'A'; 256];
    s[0] = 8;
    let component = [b'a'; 255];
    print!(rt; "named, 255 bytes")?;
    say_match(rt, is_named(Fold::Lower, &s[..255], &component[..254]))?;
    print!(rt; "named, 256 bytes")?;
    say_match(rt, is_named(Fold::Lower, &s, &component))
}

// Byte for byte: case counts, and bytes outside ASCII are compared as UTF-8.
fn written_components(rt: &impl Print) -> io::Result<()> {
    written(rt, b"\x0810.1A", b"10.1A")?;
    written(rt, b"\x0810.1A", b"10.1a")?;
    written(rt, b"\x10\x00A\x00b", b"Ab")?;
    written(rt, b"\x10\x00A\x00b", b"AB")?;
    written(rt, b"\x08\xe9", b"\xc3\xa9")?;
    written(rt, b"\x08\xe9", b"\xe9")?;
    written(rt, b"\x10\x20\xac\x00Z", b"\xe2\x82\xacZ")?;
    written(rt, b"\x10\x20\xac\x00Z", b"\xe2\x82\xacz")?;
    written(rt, b"\x08BDMV", b"BDM")?;
    written(rt, b"\xfe", b"")
}

fn cases(rt: &impl Print) -> io::Result<()> {
    worked(rt)?;
    read_ids(rt)?;
    refused_ids(rt)?;
    deleted_ids(rt)?;
    counts(rt)?;
    points(rt)?;
    surrogates(rt)?;
    zeros(rt)?;
    fields(rt)?;
    rooms(rt)?;
    matches(rt)?;
    no_matches(rt)?;
    components(rt)?;
    deleted_components(rt)?;
    long_component(rt)?;
    written_components(rt)
}

fn main(rt: HostRuntime) {
    // A line that can't be written doesn't change the exit status.
    let _ = cases(&rt);
}
