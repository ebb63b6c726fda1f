// Opens and reads the discs in data/images, which tools/drive_images.py writes, straight from a drive: a sector at a
// time, next to the call that has the whole image. An image without queries is opened.
//
// Each query prints what is asked and what the call answers. Then comes the fed read with slots and room enough, with
// as many as it needs, with one slot fewer, with none, with a byte less room, and with none: a line for each that
// says something other than the line before. `sum` is over the bytes that arrived, `list` over the sectors that were
// wanted, in order. `zero`: the row came back all zero. `kept`: the output after what arrived is still full of A5.
// `still`: one more step changed nothing. `same`: answer, count and bytes are the call's. `denied` is a sum over the
// same with one sector of the list denied, each in turn. A denied sector is a slice of 0, 2,047 or 2,049 bytes.
//
// tools/drive_model.py computes what is expected, from the images and the rules.
#![tactic(auto)]

ghost use Rattle.std.specs.Prelude.{◌<◌, ◌≤◌, length, IfOk};

use disc::places::Mount;
use disc::refusals::Refusal;
use disc::replies::Reply;
use drives::openings::Opening;
use drives::readings::Reading;
use files::reads::read_file;
use programs::lent::{LENT, fill, front, part, sum, two_mebibytes};
use programs::read_full;
use records::allocations::{LongAd, long_at, no_long};
use records::bytes::{le16, le32};
use sparse::expand;
use std::os::fd::AsRawFd;
use std::{fs, io};
use volumes::openings::{How, Opened, VolumeRecord, open_volume};

// More than the sectors of any list here.
const MOST: usize = 2000;

// No sector here has so high a number.
const FAR: u64 = 1048576;

// The slots of the row.
const SLOTS: usize = 1024;

// Each number of the row, as lent.
const FREE: u32 = 4294901760;

// The most bytes of output that are lent.
const ROOM: usize = 65536;

// The most bytes of the file of images that are looked at.
const IMAGES: usize = 262144;

// A sum, continued by a number.
fn mixed(sum: u64, n: u64) -> u64 {
    (sum % 4294967296 * 31 + n % 4294967296) % 4294967296
}

// ---- the drive

// How many bytes a denied sector has.
fn wrong_size(i: usize) -> usize
    ensures { result ≤ 2049 }
{
    match i % 3 {
        0 => 0,
        1 => 2047,
        _ => 2049,
    }
}

// What is lent as the i-th sector that is wanted: nothing if the image doesn't have it, a wrong number of bytes if it
// is denied.
fn lent(image: &[u8], sector: u64, i: usize, denied: usize) -> &[u8] {
    if FAR < sector {
        return part(image, 0, 0);
    }
    let at = sector as usize * 2048;
    let size = if i == denied { wrong_size(i) } else { 2048 };
    part(image, at, at + size)
}

// ---- opening

// What an opening says: the volume by its partition and by sums of its root and its label.
#[derive(Clone, Copy, PartialEq, Eq)]
struct OpenSaid {
    answer: u64,
    count: u64,
    start: u64,
    partition: u64,
    root: u64,
    label: u64,
}

fn of_opened(o: Opened) -> OpenSaid {
    let v = o.volume;
    let mount = v.mount;
    let label = v.label;
    OpenSaid {
        answer: o.answer,
        count: o.count,
        start: u64::from(mount.start),
        partition: u64::from(mount.partition),
        root: sum(&v.root.encode()),
        label: sum(&label),
    }
}

// How an opening ended, and the sum of what it wanted.
#[derive(Clone, Copy)]
struct OpenWalk {
    opening: Opening,
    list: u64,
}

fn walk_opening(image: &[u8], denied: usize) -> OpenWalk {
    let mut opening = Opening::start();
    let mut list = 0;
    for i in 0..MOST {
        if !opening.is_wanting() {
            break;
        }
        let s = opening.wants();
        list = mixed(list, s);
        opening = opening.step(lent(image, s, i, denied));
    }
    OpenWalk { opening, list }
}

// Whether the opening has ended, and one more step changes nothing.
fn is_still_open(image: &[u8], o: Opening) -> bool {
    let x = o.step(part(image, 0, 2048));
    let is_same = of_opened(x.opened) == of_opened(o.opened);
    !o.is_wanting() & (o.wants() == 0) & (x.phase == o.phase) & is_same
}

fn say_open_said(rt: &impl Print, word: &str, s: OpenSaid) -> io::Result<()> {
    print!(rt;
        "{word} {} count {} start {} partition {} root {} label {}",
        s.answer, s.count, s.start, s.partition, s.root, s.label
    )
}

// The sum of an opening whose i-th sector is denied.
fn denied_opening(image: &[u8], i: usize) -> u64 {
    let w = walk_opening(image, i);
    let s = of_opened(w.opening.opened);
    let still = is_still_open(image, w.opening);
    [
        s.answer,
        s.count,
        s.start,
        s.partition,
        s.root,
        s.label,
        u64::from(still),
    ]
    .into_iter()
    .fold(w.list, mixed)
}

// Denies each sector of a list of n in turn.
fn say_denied_openings(rt: &impl Print, image: &[u8], n: usize) -> io::Result<()> {
    let total = (0..n).map(|i| denied_opening(image, i)).fold(0, mixed);
    println!(rt; "denied {total}")
}

fn say_opening(rt: &impl Print, image: &[u8]) -> io::Result<()> {
    let call = of_opened(open_volume(image, How::usual()));
    say_open_said(rt, "call", call)?;
    println!(rt)?;
    let w = walk_opening(image, MOST);
    let s = of_opened(w.opening.opened);
    say_open_said(rt, "fed", s)?;
    let still = word_if(is_still_open(image, w.opening), " still");
    let same = word_if(s == call, " same");
    println!(rt; " list {}{still}{same}", w.list)?;
    say_denied_openings(rt, image, MOST.min(s.count as usize))
}

fn word_if(is_so: bool, word: &str) -> &str {
    if is_so { word } else { "" }
}

// ---- reading

// A query: how the volume is read, the ICB, and the room of the output.
#[derive(Clone, Copy)]
struct Question {
    volume: VolumeRecord,
    icb: LongAd,
    room: usize,
}

// What a read says, and what it leaves in the memory that is lent.
#[derive(Clone, Copy, PartialEq, Eq)]
struct Said {
    answer: u64,
    count: u64,
    length: usize,
    sum: u64,
    list: u64,
    zero: bool,
    kept: bool,
    still: bool,
}

// How a read ended, and the sum of what it wanted.
#[derive(Clone, Copy)]
struct ReadWalk {
    reading: Reading,
    list: u64,
}

fn walk_reading(
    image: &[u8],
    start: Reading,
    denied: usize,
    row: &mut [[u32; 4]],
    out: &mut [u8],
) -> ReadWalk {
    let mut reading = start;
    let mut list = 0;
    for i in 0..MOST {
        if !reading.is_wanting() {
            break;
        }
        let s = reading.wants();
        list = mixed(list, s);
        reading = reading.step(lent(image, s, i, denied), row, out);
    }
    ReadWalk { reading, list }
}

fn is_same_place(r: Reading, x: Reading) -> bool {
    (x.phase == r.phase) & (x.answer == r.answer) & (x.count == r.count) & (x.length == r.length)
}

// How a read ended, what one more step made of it, and the sum of what it wanted.
#[derive(Clone, Copy)]
struct Ended {
    reading: Reading,
    more: Reading,
    list: u64,
}

fn read_whole(
    image: &[u8],
    q: Question,
    denied: usize,
    row: &mut [[u32; 4]],
    out: &mut [u8],
) -> Ended {
    let volume = q.volume;
    let icb = q.icb;
    let start = Reading::start(volume, icb, row);
    let w = walk_reading(image, start, denied, row, out);
    let r = w.reading;
    let more = r.step(part(image, 0, 2048), row, out);
    Ended {
        reading: r,
        more,
        list: w.list,
    }
}

// What is said of a read, from the memory that it leaves after one more step.
fn said_of(e: Ended, row: &[[u32; 4]], out: &[u8]) -> Said {
    let r = e.reading;
    let more = e.more;
    Said {
        answer: r.answer,
        count: r.count,
        length: r.length,
        sum: sum(front(out, r.length)),
        list: e.list,
        zero: row.iter().all(|slot| *slot == [0; 4]),
        kept: out.iter().skip(r.length).all(|b| *b == LENT),
        still: !r.is_wanting() & (r.wants() == 0) & is_same_place(r, more),
    }
}

// A read with this many slots and this much room.
fn read_within(
    image: &[u8],
    q: Question,
    denied: usize,
    slots: usize,
    room: usize,
    out: &mut [u8],
) -> Said {
    let mut row = [[FREE; 4]; SLOTS];
    let row = &mut row[..SLOTS.min(slots)];
    let room = room.min(out.len());
    let out = &mut out[..room];
    fill(out);
    let e = read_whole(image, q, denied, row, out);
    said_of(e, row, out)
}

// ---- compared with the call

fn is_as_called(s: Said, call: Reply, total: u64) -> bool {
    (s.answer == call.answer)
        & (s.count == call.count)
        & (s.length as u64 == call.length)
        & (s.sum == total)
}

fn say_said(rt: &impl Print, slots: usize, room: usize, s: Said) -> io::Result<()> {
    let zero = word_if(s.zero, " zero");
    let kept = word_if(s.kept, " kept");
    let still = word_if(s.still, " still");
    print!(rt;
        "slots {slots} room {room} fed {} count {}",
        s.answer, s.count
    )?;
    print!(rt;
        " length {} sum {} list {}{zero}{kept}{still}",
        s.length, s.sum, s.list
    )
}

// A read with this many slots and this much room, and a line for it if it says something other than the one before.
// Returns what it says.
fn turn(
    rt: &impl Print,
    image: &[u8],
    q: Question,
    slots: usize,
    room: usize,
    before: Said,
    out: &mut [u8],
) -> io::Result<Said> {
    let s = read_within(image, q, MOST, slots, room, out);
    if s != before {
        say_said(rt, slots, room, s)?;
        println!(rt)?;
    }
    Ok(s)
}

// The sum of a read whose i-th sector is denied.
fn denied_reading(image: &[u8], q: Question, i: usize, out: &mut [u8]) -> u64 {
    let s = read_within(image, q, i, SLOTS, q.room, out);
    [
        s.answer,
        s.count,
        s.length as u64,
        s.sum,
        u64::from(s.zero),
        u64::from(s.kept),
        u64::from(s.still),
    ]
    .into_iter()
    .fold(s.list, mixed)
}

// Denies each sector of the list in turn.
fn say_denied_readings(
    rt: &impl Print,
    image: &[u8],
    q: Question,
    n: usize,
    out: &mut [u8],
) -> io::Result<()> {
    let mut total = 0;
    for i in 0..n {
        total = mixed(total, denied_reading(image, q, i, out));
    }
    println!(rt; "denied {total}")
}

// The fewest slots with which the read says the same as with all.
fn slots_needed(image: &[u8], q: Question, enough: Said, out: &mut [u8]) -> usize {
    for n in 0..SLOTS {
        if read_within(image, q, MOST, n, q.room, out) == enough {
            return n;
        }
    }
    SLOTS
}

// The read with as many slots and bytes as it needs, with a slot fewer, and with none. Returns what the last one
// says.
fn say_fewer_slots(
    rt: &impl Print,
    image: &[u8],
    q: Question,
    s: Said,
    needed: usize,
    out: &mut [u8],
) -> io::Result<Said> {
    let exact = turn(rt, image, q, needed, s.length, s, out)?;
    let short = turn(rt, image, q, needed.saturating_sub(1), q.room, exact, out)?;
    turn(rt, image, q, 0, q.room, short, out)
}

// The read with a byte less room, and with none.
fn say_less_room(
    rt: &impl Print,
    image: &[u8],
    q: Question,
    s: Said,
    before: Said,
    out: &mut [u8],
) -> io::Result<()> {
    let short = turn(rt, image, q, SLOTS, s.length.saturating_sub(1), before, out)?;
    turn(rt, image, q, SLOTS, 0, short, out)?;
    Ok(())
}

// The other reads, after the one with slots and room enough.
fn say_turns(
    rt: &impl Print,
    image: &[u8],
    q: Question,
    s: Said,
    out: &mut [u8],
) -> io::Result<()> {
    let needed = slots_needed(image, q, s, out);
    println!(rt; "needs {needed}")?;
    let before = say_fewer_slots(rt, image, q, s, needed, out)?;
    say_less_room(rt, image, q, s, before, out)?;
    say_denied_readings(rt, image, q, MOST.min(s.count as usize), out)
}

fn say_reading(
    rt: &impl Print,
    image: &[u8],
    q: Question,
    call: Reply,
    total: u64,
    out: &mut [u8],
) -> io::Result<()> {
    let s = read_within(image, q, MOST, SLOTS, q.room, out);
    say_said(rt, SLOTS, q.room, s)?;
    println!(rt; "{}", word_if(is_as_called(s, call, total), " same"))?;
    say_turns(rt, image, q, s, out)
}

// ---- the queries

fn say_query(rt: &impl Print, q: Question) -> io::Result<()> {
    let icb = q.icb;
    let at = icb.location;
    let mount = q.volume.mount;
    print!(rt;
        "icb {} {} {} {}",
        icb.length, icb.extent_type, at.block, at.partition_ref
    )?;
    println!(rt;
        " start {} partition {} checked {} maps {} room {}",
        mount.start, mount.partition, mount.checked, mount.maps, q.room
    )
}

// The volume of a query. The comment on `queries` has the fields.
fn volume_of(q: &[u8]) -> VolumeRecord {
    VolumeRecord {
        mount: Mount {
            start: le32(q, 0),
            partition: le16(q, 4),
            checked: le32(q, 6),
            maps: le32(q, 10),
            volumes: [0; 4],
            numbers: [0; 4],
            starts: [le32(q, 14), le32(q, 18), le32(q, 22), le32(q, 26)],
        },
        root: no_long(),
        label: [0; 32],
    }
}

// Reads the file by the call that has the whole image; the sum is that of the bytes that it wrote.
fn say_call(
    rt: &impl Print,
    image: &[u8],
    q: Question,
    out: &mut [u8],
) -> io::Result<(Reply, u64)> {
    let mount = q.volume.mount;
    let room = q.room.min(out.len());
    let call = read_file(image, mount, q.icb, &mut out[..room], Refusal::NoRoom);
    let total = sum(front(out, call.length as usize));
    println!(rt;
        "call {} count {} length {} sum {total}",
        call.answer, call.count, call.length
    )?;
    Ok((call, total))
}

fn query(rt: &impl Print, image: &[u8], b: &[u8], out: &mut [u8]) -> io::Result<()> {
    let q = Question {
        volume: volume_of(b),
        icb: long_at(b, 30),
        room: le32(b, 46) as usize,
    };
    say_query(rt, q)?;
    let (call, total) = say_call(rt, image, q, out)?;
    say_reading(rt, image, q, call, total, out)
}

// The bytes of a query.
const QUERY: usize = 50;

// The queries, of 50 bytes each: the partition's start (32 bits), its number (16), whether bodies are checked and how
// many maps there are (32 each), the starts of four maps (32 each), an ICB's 16 bytes, and the room of the output
// (32).
fn queries(rt: &impl Print, image: &[u8], all: &[u8], out: &mut [u8]) -> io::Result<()> {
    for q in all.chunks_exact(QUERY) {
        query(rt, image, q, out)?;
    }
    Ok(())
}

fn ask(rt: &impl Print, image: &[u8], all: &[u8], out: &mut [u8]) -> io::Result<()> {
    if all.is_empty() {
        say_opening(rt, image)?;
    }
    queries(rt, image, all, out)
}

// ---- the file of images

// Runs the image at i with its queries; returns where the next image is.
fn run(rt: &impl Print, all: &[u8], i: usize, image: &mut [u8], out: &mut [u8]) -> io::Result<usize>
    requires { i < length all.now }
    ensures { IfOk result (λ next. i < next) }
{
    let packed = i + 2 + le16(all, i) as usize;
    // The name is shown as it is stored, whatever its bytes are.
    print!(rt; "image ")?;
    rt.write_all(part(all, i + 2, packed))?;
    println!(rt)?;
    let end = packed + 4 + le32(all, packed) as usize;
    let n = expand(part(all, packed + 4, end), image);
    let next = end + 2 + QUERY * le16(all, end) as usize;
    ask(rt, front(image, n), part(all, end + 2, next), out)?;
    Ok(next)
}

fn run_all(rt: &impl Print, all: &[u8], image: &mut [u8], out: &mut [u8]) -> io::Result<()> {
    let mut i = 0;
    // A `while`, since each image says itself where the next one starts: `for` is no plainer.
    while i < all.len() {
        i = run(rt, all, i, image, out)?;
    }
    Ok(())
}

fn main(rt: HostRuntime) -> io::Result<()> {
    let file = fs::open(&rt, "images")?;
    // A read that fails ends the file.
    let mut all = [0; IMAGES];
    let n = read_full(file.as_raw_fd(), &mut all);
    let mut image = two_mebibytes();
    let mut out = [0; ROOM];
    // A line that can't be written doesn't change the exit status.
    let _ = run_all(&rt, front(&all, n), &mut image, &mut out);
    Ok(())
}
