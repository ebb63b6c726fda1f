// Makes every call of `vault` on stored images. It reads the files of queries that its arguments name, makes each
// call with the memory that its query lends, and prints what came back, a line for each. tools/asked.py describes the
// files and the lines, and computes what is expected from the files and the rules.
//
// A file that is cut off, or has a number that means nothing, is refused with a line that says where. The rest of it
// isn't asked.
#![tactic(auto)]

mod calls;
mod lines;
mod queries;
mod rows;

ghost use Rattle.std.specs.Prelude.{◌<◌, ◌≤◌, length, IfOk, IfSome};

use calls::{CALLS, Call, line_of};
use disc::counts::UNLIMITED;
use lines::{Line, large_buffer, put_text};
use programs::lent::{front, is_zero, part, two_mebibytes};
use programs::read_full;
use queries::{
    BY_HAND, BYTES, HEAD, WATCHED, calls, is_meant, most, room, space, text, there, volume,
    volume_of,
};
use records::bytes::{byte_at, le16, le32};
use sparse::{expand, lay_runs};
use std::fmt::Write;
use std::fs::File;
use std::os::fd::AsRawFd;
use std::rt::Files;
use std::{env, fmt, fs, io};
use vault::volume::Volume;

// What is lent to the calls, the line that was put together last, and the last one of a watched call that was printed.
#[derive(Drop)]
struct Memory {
    out: [u8; BYTES],
    work: [u8; BYTES],
    line: Line,
    before: Line,
}

// ---- a call, on an image or on every cut of it

// Each sector's end, a byte before it and a byte after it. No image has more than 1,024 sectors.
fn cut_of(i: usize) -> usize {
    2047 + 1024.min(i / 3) * 2048 + i % 3
}

// Prints a line. Its bytes are written at once: `println!` would write each 1,024 of them.
fn say(rt: &impl Print, line: &Line) -> io::Result<()> {
    rt.write_all(line.text())?;
    println!(rt)
}

// A line is always put together, since what has no room is left out: no error comes by here.
fn written(r: fmt::Result) -> io::Result<()> {
    r.map_err(|_| io::Error::from(io::ErrorKind::Other))
}

// Makes a call with the memory that its query lends.
fn make(call: Call, v: Volume, image: &[u8], q: &[u8], memory: &mut Memory) -> io::Result<()> {
    let out = &mut memory.out[..];
    let work = &mut memory.work[..];
    written(line_of(
        call,
        v,
        image,
        q,
        &mut out[..BYTES.min(room(q))],
        &mut work[..BYTES.min(space(q))],
        &mut memory.line,
    ))
}

// Prints the line of each cut that differs from the line before.
fn watch(
    rt: &impl Print,
    call: Call,
    v: Volume,
    image: &[u8],
    q: &[u8],
    memory: &mut Memory,
) -> io::Result<()> {
    memory.before.clear();
    for i in 0..image.len() / 2048 * 3 {
        let cut = front(image, cut_of(i));
        make(call, v, cut, q, memory)?;
        if memory.line.text() != memory.before.text() {
            print!(rt; "at {} ", cut.len())?;
            say(rt, &memory.line)?;
            memory.before.clear();
            memory.before.put(memory.line.text());
        }
    }
    Ok(())
}

fn ask(
    rt: &impl Print,
    call: Call,
    v: Volume,
    image: &[u8],
    q: &[u8],
    memory: &mut Memory,
) -> io::Result<()> {
    if there(q) == WATCHED {
        return watch(rt, call, v, image, q, memory);
    }
    make(call, v, front(image, there(q) as usize), q, memory)?;
    say(rt, &memory.line)
}

// ---- a query

// A word and a number, unless the number is 0.
fn put_set(line: &mut Line, word: &str, n: u32) -> fmt::Result {
    if n == 0 {
        return Ok(());
    }
    write!(line, " {word} {n}")
}

// A word and a text, unless all its bytes are 0.
fn put_held(line: &mut Line, word: &str, text: &[u8]) -> fmt::Result {
    if is_zero(text) {
        return Ok(());
    }
    write!(line, " {word} ")?;
    put_text(line, text);
    Ok(())
}

// What is asked. Zeros are left out, and `there` if it is the whole length.
fn put_numbers(line: &mut Line, q: &[u8], length: usize) -> fmt::Result {
    put_set(line, "volume", volume(q))?;
    if there(q) as usize != length {
        write!(line, " there {}", there(q))?;
    }
    put_set(line, "matching", le32(q, 12))?;
    put_set(line, "levels", le32(q, 16))
}

// What is lent. Zeros are left out, and a budget of UNLIMITED.
fn put_lent(line: &mut Line, q: &[u8]) -> fmt::Result {
    if most(q) != UNLIMITED {
        write!(line, " most {}", most(q))?;
    }
    put_set(line, "room", le32(q, 20))?;
    put_set(line, "work", le32(q, 24))?;
    put_set(line, "slots", le32(q, 28))?;
    put_set(line, "answers", le32(q, 32))
}

fn put_query(line: &mut Line, q: &[u8], length: usize) -> fmt::Result {
    line.clear();
    line.put(b"query");
    put_numbers(line, q, length)?;
    put_lent(line, q)?;
    put_held(line, "icb", part(q, 36, 52))?;
    put_held(line, "text", text(q))
}

// Makes each call of a query, in order.
fn query(
    rt: &impl Print,
    image: &[u8],
    made: &[u8],
    q: &[u8],
    memory: &mut Memory,
) -> io::Result<()> {
    written(put_query(&mut memory.line, q, image.len()))?;
    say(rt, &memory.line)?;
    let v = Volume(volume_of(image, q, made));
    for (bit, call) in CALLS.iter().enumerate() {
        if calls(q) >> bit & 1 == 1 {
            ask(rt, *call, v, image, q, memory)?;
        }
    }
    Ok(())
}

fn refuse(rt: &impl Print, at: usize, why: &str) -> io::Result<()> {
    println!(rt; "refused at byte {at}: {why}")
}

// Runs the query at i, in a record that ends where `all` ends. Returns where the next one starts, or nothing if it is
// refused.
fn next_query(
    rt: &impl Print,
    image: &[u8],
    made: &[u8],
    all: &[u8],
    i: usize,
    memory: &mut Memory,
) -> io::Result<Option<usize>>
    requires { i < length all.now }
    ensures { IfOk result (λ next. IfSome next (λ n. i < n)) }
{
    let end = i + HEAD + le32(all, i + 60) as usize;
    if all.len() < end {
        refuse(rt, i, "it is cut")?;
        return Ok(None);
    }
    let q = part(all, i, end);
    if !is_meant(q, image.len(), made.len() / BY_HAND) {
        refuse(rt, i, "a number means nothing")?;
        return Ok(None);
    }
    query(rt, image, made, q, memory)?;
    Ok(Some(end))
}

// Runs the queries in order; false if one is refused.
fn ask_queries(
    rt: &impl Print,
    image: &[u8],
    made: &[u8],
    all: &[u8],
    from: usize,
    memory: &mut Memory,
) -> io::Result<bool> {
    let mut i = from;
    // A `while`, since each query says itself where the next one starts: `for` is no plainer.
    while i < all.len() {
        match next_query(rt, image, made, all, i, memory)? {
            Some(next) => i = next,
            None => return Ok(false),
        }
    }
    Ok(true)
}

// ---- an image

// Offsets in an image's record: the end of its name; start and end of the packed image, of the volumes made by hand
// and of the queries.
#[derive(Clone, Copy)]
struct Record {
    name: usize,
    image: usize,
    image_end: usize,
    made: usize,
    made_end: usize,
    queries: usize,
    end: usize,
}

// The record at i. A length past the end of the file reads as 0, so a record that is cut off ends past the end of the
// file.
fn record_at(all: &[u8], i: usize) -> Record
    requires { i < length all.now }
    ensures { i < result.end }
{
    let name = i + 2 + le16(all, i) as usize;
    let image_end = name + 5 + le32(all, name + 1) as usize;
    let made_end = image_end + 2 + le16(all, image_end) as usize * BY_HAND;
    let end = made_end + 4 + le32(all, made_end) as usize;
    Record {
        name,
        image: name + 5,
        image_end,
        made: image_end + 2,
        made_end,
        queries: made_end + 4,
        end,
    }
}

// Whether a packed image has exactly its runs, each of them within the image.
fn is_packed(packed: &[u8]) -> bool {
    let mut i = 8;
    for _ in 0..le32(packed, 4) {
        if packed.len() <= i {
            return false;
        }
        let n = le32(packed, i + 4) as usize;
        if (le32(packed, 0) as usize) < le32(packed, i) as usize + n {
            return false;
        }
        i = i + 8 + n;
    }
    i == packed.len()
}

// How a record's image is made: alone, or over the last image before it that is.
#[derive(Clone, Copy)]
enum Making {
    Alone,
    Over,
}

// The way that a record's number says, if it is one.
fn making_of(all: &[u8], r: Record) -> Option<Making> {
    match byte_at(all, r.name) {
        0 => Some(Making::Alone),
        1 => Some(Making::Over),
        _ => None,
    }
}

fn packed_in(all: &[u8], r: Record) -> &[u8] {
    part(all, r.image, r.image_end)
}

// Whether the record at i says how to make its image. The image that it is made over is that of the record at `base`,
// which comes before it.
fn is_image(all: &[u8], i: usize, base: usize, most: usize) -> bool
    requires { i < length all.now }
{
    let r = record_at(all, i);
    let packed = packed_in(all, r);
    let is_made = match making_of(all, r) {
        Some(Making::Alone) => true,
        Some(Making::Over) => base < i,
        None => false,
    };
    is_packed(packed) & (le32(packed, 0) as usize <= most) & is_made
}

// Makes the image of a record in lent memory; returns its length.
fn image_of(packed: &[u8], good: &[u8], how: Option<Making>, image: &mut [u8]) -> usize {
    match how {
        Some(Making::Alone) => expand(packed, image),
        _ => {
            expand(good, image);
            lay_runs(packed, image);
            le32(packed, 0) as usize
        }
    }
}

// Runs the queries of the image at i. Returns where the next image's record starts, or nothing if it is refused.
fn run(
    rt: &impl Print,
    all: &[u8],
    i: usize,
    base: usize,
    image: &mut [u8],
    memory: &mut Memory,
) -> io::Result<Option<usize>>
    requires { (i < length all.now) × (base < length all.now) }
    ensures { IfOk result (λ next. IfSome next (λ n. i < n)) }
{
    let r = record_at(all, i);
    if all.len() < r.end {
        refuse(rt, i, "it is cut")?;
        return Ok(None);
    }
    if !is_image(all, i, base, image.len()) {
        refuse(rt, i, "no such image")?;
        return Ok(None);
    }
    // The name is shown as it is stored, whatever its bytes are.
    print!(rt; "image ")?;
    rt.write_all(part(all, i + 2, r.name))?;
    println!(rt)?;
    let good = packed_in(all, record_at(all, base));
    let n = image_of(packed_in(all, r), good, making_of(all, r), image);
    let made = part(all, r.made, r.made_end);
    let is_done = ask_queries(
        rt,
        front(image, n),
        made,
        front(all, r.end),
        r.queries,
        memory,
    )?;
    Ok(is_done.then_some(r.end))
}

// The last record up to i whose image stands alone.
fn base_at(all: &[u8], i: usize, base: usize) -> usize
    requires { (i < length all.now) × (base ≤ i) }
    ensures { result ≤ i }
{
    let r = record_at(all, i);
    match making_of(all, r) {
        Some(Making::Alone) => i,
        _ => base,
    }
}

fn run_all(rt: &impl Print, all: &[u8], image: &mut [u8], memory: &mut Memory) -> io::Result<()> {
    let mut base = 0;
    let mut i = 0;
    // A `while`, since each image says itself where the next one starts: `for` is no plainer.
    while i < all.len() {
        base = base_at(all, i, base);
        match run(rt, all, i, base, image, memory)? {
            Some(next) => i = next,
            None => return Ok(()),
        }
    }
    Ok(())
}

// ---- the files

fn ask_file(
    rt: &(impl Files<File = File> + Print),
    name: &str,
    image: &mut [u8],
    memory: &mut Memory,
) -> io::Result<()> {
    println!(rt; "file {name}")?;
    let Ok(file) = fs::open(rt, name) else {
        return refuse(rt, 0, "it isn't there");
    };
    // A read that fails ends the file.
    let mut all = two_mebibytes();
    let n = read_full(file.as_raw_fd(), &mut all);
    if n == all.len() {
        return refuse(rt, n, "there is no room for more");
    }
    run_all(rt, front(&all, n), image, memory)
}

// Runs the files that the arguments name, in order.
fn main(rt: HostRuntime) -> io::Result<()> {
    let mut image = two_mebibytes();
    let mut memory = Memory {
        out: large_buffer(),
        work: large_buffer(),
        line: Line::new(),
        before: Line::new(),
    };
    for name in env::args(&rt)?.skip(1) {
        // A line that can't be written doesn't change the exit status.
        let _ = ask_file(&rt, name.as_str(), &mut image, &mut memory);
    }
    Ok(())
}
