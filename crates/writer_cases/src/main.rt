// Writes the discs of data/cases, which tools/writer_cases.py writes. Each prints its title, the answer for its
// sector total, the answer for the writing, and `sum`, over the whole lent slice. A disc that was written also prints
// the sums of its parts, and what opening, listing and reading each file give, with no choice on opening and with all
// three. Slice, output and work space are lent full of A5; `zero`: the work space came back all zero. Byte k of the
// staging area is 7 k + k / 2,048, modulo 256. Last, a disc is written and compared with data/written.
//
// tools/writer_model.py computes what is expected, from the cases, docs/LAYOUT.md and the rules.
#![tactic(auto)]

ghost use Rattle.std.specs.Prelude.{◌<◌, length, IfOk};

use disc::answers::DONE;
use disc::replies::Reply;
use listings::matchings::Matching;
use programs::lent::{LENT, fill, front, mebibyte, part, sum, two_mebibytes};
use programs::read_full;
use programs::words::{say_answer, say_named, say_zero};
use records::bytes::{le16, le32, le64};
use sparse::expand;
use std::fs::File;
use std::os::fd::AsRawFd;
use std::rt::Files;
use std::{fs, io};
use vault::volume::Volume;
use volumes::openings::{How, VolumeRecord};
use writers::{WriteReply, total, write};

// The bytes of output and of work space that are lent, and the most bytes of the stored disc.
const SPACE: usize = 65536;

// The most lengths of a case.
const LENGTHS: usize = 80;

// ---- the staging area

fn staged(k: usize) -> u8 {
    ((k % 256 * 7 + k / 2048) % 256) as u8
}

// In place: an array that is filled and then handed over is copied.
fn stage(staging: &mut [u8]) {
    for (k, byte) in staging.iter_mut().enumerate() {
        *byte = staged(k);
    }
}

// ---- reading back

fn say_left(call: &[u8], reply: Reply, out: &[u8], work: &[u8]) {
    say_answer(call, reply.answer, reply.count);
    say_named(b" length ", reply.length);
    say_named(b" sum ", sum(out));
    say_zero(work);
}

fn list(v: VolumeRecord, image: &[u8]) {
    let mut out = [LENT; SPACE];
    let mut work = [LENT; SPACE];
    let root = v.root;
    let reply = Volume(v).list(image, root, &mut out, &mut work);
    say_left(b"list ", reply, &out, &work);
}

fn read(v: VolumeRecord, image: &[u8], name: &[u8]) {
    let mut out = [LENT; SPACE];
    let mut work = [LENT; SPACE];
    let matching = Matching::Unambiguous;
    let reply = Volume(v).read_path(image, name, matching, &mut out, &mut work);
    say_left(b"read ", reply, &out, &work);
}

// Reads the file of each name. A zero ends each.
fn read_each(v: VolumeRecord, image: &[u8], names: &[u8]) {
    for name in names.split_inclusive(|b| *b == 0) {
        read(v, image, name.strip_suffix(b"\0").unwrap_or(name));
    }
}

fn read_back(rt: &impl Print, image: &[u8], names: &[u8], how: How) -> io::Result<()> {
    let opened = Volume::open(image, how);
    let v = opened.volume;
    println!(rt; "open {} count {}", opened.answer, opened.count)?;
    list(v, image);
    read_each(v, image, names);
    Ok(())
}

fn every_choice() -> How {
    How {
        highest: true,
        checked: true,
        maps: true,
    }
}

// ---- writing

fn say_reply(rt: &impl Print, call: &str, reply: WriteReply) -> io::Result<()> {
    print!(rt; "{call} {} sectors {}", reply.answer, reply.sectors)
}

// Sectors 0 to 279, the directory, the entries, the files with the last anchor, and what is after the image.
fn say_parts(rt: &impl Print, image: &[u8], end: usize) -> io::Result<()> {
    println!(rt;
        "front {} directory {} entries {} files {} behind {}",
        sum(part(image, 0, 573440)),
        sum(part(image, 573440, 589824)),
        sum(part(image, 589824, 720896)),
        sum(part(image, 720896, end)),
        sum(part(image, end, image.len()))
    )
}

// The bytes of this many sectors, at most `most`.
fn bytes_of(sectors: u64, most: usize) -> usize {
    most.min((sectors % 1048576) as usize * 2048)
}

fn write_one(
    rt: &impl Print,
    names: &[u8],
    lengths: &[u64],
    staging: &[u8],
    image: &mut [u8],
) -> io::Result<WriteReply> {
    fill(image);
    let reply = write(names, lengths, staging, image);
    say_reply(rt, "write", reply)?;
    println!(rt; " sum {}", sum(image))?;
    Ok(reply)
}

fn one(
    rt: &impl Print,
    names: &[u8],
    lengths: &[u64],
    staging: &[u8],
    image: &mut [u8],
) -> io::Result<()> {
    say_reply(rt, "total", total(names, lengths))?;
    println!(rt)?;
    let reply = write_one(rt, names, lengths, staging, image)?;
    if reply.answer != DONE {
        return Ok(());
    }
    say_parts(rt, image, bytes_of(reply.sectors, image.len()))?;
    read_back(rt, image, names, How::usual())?;
    read_back(rt, image, names, every_choice())
}

// ---- the file of cases

// Puts the lengths of a case at the front of a row, as far as both go; how many that is.
fn take_lengths(bytes: &[u8], row: &mut [u64]) -> usize {
    for (place, n) in row.iter_mut().zip(bytes.chunks_exact(8)) {
        *place = le64(n, 0);
    }
    row.len().min(bytes.len() / 8)
}

// Runs a case with its lengths, and with the sizes of its staging area and its slice.
fn with_row(
    rt: &impl Print,
    names: &[u8],
    sizes: &[u8],
    row: &[u8],
    staging: &[u8],
    image: &mut [u8],
) -> io::Result<()> {
    let mut held = [0u64; LENGTHS];
    let n = take_lengths(row, &mut held);
    let lengths = &held[..LENGTHS.min(n)];
    let bytes = front(staging, le32(sizes, 0) as usize);
    let room = image.len().min(le32(sizes, 4) as usize);
    one(rt, names, lengths, bytes, &mut image[..room])
}

// Runs the case at i; returns where the next one is.
fn run(rt: &impl Print, all: &[u8], i: usize, staging: &[u8], image: &mut [u8]) -> io::Result<usize>
    requires { i < length all.now }
    ensures { IfOk result (λ next. i < next) }
{
    let names = i + 2 + le16(all, i) as usize;
    // The title is shown as it is stored, whatever its bytes are.
    print!(rt; "case ")?;
    rt.write_all(part(all, i + 2, names))?;
    println!(rt)?;
    let row = names + 4 + le32(all, names) as usize;
    let sizes = row + 4 + le32(all, row) as usize;
    let next = sizes + 8;
    with_row(
        rt,
        part(all, names + 4, row),
        part(all, sizes, next),
        part(all, row + 4, sizes),
        staging,
        image,
    )?;
    Ok(next)
}

fn run_all(rt: &impl Print, all: &[u8], staging: &[u8], image: &mut [u8]) -> io::Result<()> {
    let mut i = 0;
    // A `while`, since each case says itself where the next one starts: `for` is no plainer.
    while i < all.len() {
        i = run(rt, all, i, staging, image)?;
    }
    Ok(())
}

// ---- the stored disc

// Writes a disc into `image`, and unpacks the stored one into `stored`.
fn compare(
    rt: &impl Print,
    packed: &[u8],
    staging: &[u8],
    stored: &mut [u8],
    image: &mut [u8],
) -> io::Result<()> {
    let n = expand(packed, stored);
    let reply = write(
        b"9\x0010.1A\x00Interval.look\x0011\x00",
        &[0, 2049, 2048, 5000],
        staging,
        image,
    );
    say_reply(rt, "written", reply)?;
    let is_same = front(stored, n) == front(image, n);
    println!(rt; " {}", if is_same { "same" } else { "another" })
}

// Reads as much of a file as there is room for. A read that fails ends it.
fn read_file(rt: &impl Files<File = File>, name: &str, bytes: &mut [u8]) -> io::Result<usize> {
    let file = fs::open(rt, name)?;
    Ok(read_full(file.as_raw_fd(), bytes))
}

// A line that can't be written doesn't change the exit status.
fn main(rt: HostRuntime) -> io::Result<()> {
    let mut staging = mebibyte();
    stage(&mut staging);
    // A mebibyte of the cases is looked at, and of the stored disc.
    let mut all = mebibyte();
    let n = read_file(&rt, "cases", &mut all)?;
    let mut image = two_mebibytes();
    let _ = run_all(&rt, front(&all, n), &staging, &mut image);
    let mut packed = [0; SPACE];
    let m = read_file(&rt, "written", &mut packed)?;
    let _ = compare(&rt, front(&packed, m), &staging, &mut all, &mut image);
    Ok(())
}
