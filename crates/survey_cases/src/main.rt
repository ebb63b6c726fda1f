// Surveys the shelves in data/shelves, which tools/survey_images.py writes, and totals the rows stored there. Each
// shelf prints its name. Each query prints what is asked, the answer, how many numbers after the places are as they
// came, and for each place the figures that aren't 0: the index, the figure, and after a `!` a mark that isn't 0.
// `zero`: the work space came back all zero. Row and work space are lent full of A5.
//
// tools/survey_model.py computes what is expected, from the shelves and the rules.
#![tactic(auto)]

ghost use Rattle.std.specs.Prelude.{◌≡◌, ◌<◌, ◌≤◌, length, IfOk};

use disc::answers::DONE;
use disc::counts::UNLIMITED;
use figures::{PLACE, total};
use programs::lent::{fill, front, mebibyte, part};
use programs::read_full;
use programs::shown::{Numbers, WorkSpace};
use records::bytes::{le16, le32, le64};
use sparse::expand;
use std::os::fd::AsRawFd;
use std::{fs, io};
use surveys::survey;
use volumes::choices::chosen;

// A number of a row that the call leaves alone.
const FREE: u64 = 0xa5a5_a5a5_a5a5_a5a5;

// The size of a query before its numbers.
const HEAD: usize = 28;

// Room for a shelf of five volumes.
fn three_mebibytes() -> [u8; 3145728]
    ensures { 3145728 ≡ length result }
{
    [0; 3145728]
}

// The most lengths of a survey.
const LENGTHS: usize = 64;

// The most that is lent: numbers of a row, and bytes of work space.
const NUMBERS: usize = 2048;

// The most numbers of a query: a row's, and in front of them how many places a total has.
const ASKED: usize = 2049;

// Room for the work space of a query.
fn work_space() -> [u8; 65536]
    ensures { 65536 ≡ length result }
{
    [0; 65536]
}

// ---- rows

// Puts the numbers of a query at the front of a row, as far as both go; how many that is.
fn take_numbers(bytes: &[u8], row: &mut [u64]) -> usize {
    for (place, n) in row.iter_mut().zip(bytes.chunks_exact(8)) {
        *place = le64(n, 0);
    }
    row.len().min(bytes.len() / 8)
}

// How many numbers are as they came.
fn count_free(row: &[u64]) -> usize {
    row.iter().filter(|n| **n == FREE).count()
}

// ---- places

fn say_figure(rt: &impl Print, i: usize, figure: u64, mark: u64) -> io::Result<()> {
    if (figure == 0) & (mark == 0) {
        return Ok(());
    }
    print!(rt; " {i}:{figure}")?;
    if mark != 0 {
        print!(rt; "!{mark}")?;
    }
    Ok(())
}

fn say_place(rt: &impl Print, place: &[u64]) -> io::Result<()> {
    print!(rt; "place")?;
    for (i, pair) in place.chunks_exact(2).enumerate() {
        if let [figure, mark] = pair {
            say_figure(rt, i, *figure, *mark)?;
        }
    }
    println!(rt)
}

// Every whole place of a row.
fn say_places(rt: &impl Print, row: &[u64]) -> io::Result<()> {
    for place in row.chunks_exact(PLACE) {
        say_place(rt, place)?;
    }
    Ok(())
}

// How many numbers the first n places of a row have, or all its places if they are fewer.
fn in_places(numbers: usize, n: usize) -> usize
    ensures { result ≤ numbers }
{
    PLACE * n.min(numbers / PLACE)
}

// ---- the queries

fn say_asked(
    rt: &impl Print,
    how: u32,
    most: u64,
    lengths: &[u64],
    numbers: usize,
    work: usize,
) -> io::Result<()> {
    print!(rt; "survey how {how} numbers {numbers} work {work}")?;
    if most != UNLIMITED {
        print!(rt; " most {most}")?;
    }
    println!(rt; " lengths{}", Numbers(lengths))
}

// The answer, and how many numbers behind the first `whole` are as they came.
fn say_answer(rt: &impl Print, answer: u64, row: &[u64], whole: usize) -> io::Result<()>
    requires { whole ≤ length row.now }
{
    print!(rt; "answer {answer} kept {}", count_free(&row[whole..]))
}

fn ask_survey(
    rt: &impl Print,
    shelf: &[u8],
    q: &[u8],
    lengths: &[u64],
    row: &mut [u64],
    work: &mut [u8],
) -> io::Result<()> {
    let how = le32(q, 4);
    let most = le64(q, 16);
    say_asked(rt, how, most, lengths, row.len(), work.len())?;
    fill(work);
    let answer = survey(shelf, lengths, chosen(how), most, row, work);
    let places = if answer == DONE { lengths.len() + 1 } else { 0 };
    let whole = in_places(row.len(), places);
    say_answer(rt, answer, row, whole)?;
    println!(rt; " {}", WorkSpace(work))?;
    say_places(rt, &row[..whole])
}

// The first number says how many places the row has, or none if there are no numbers. The others are put at its front,
// as far as both go.
fn ask_total(rt: &impl Print, numbers: &[u64], row: &mut [u64]) -> io::Result<()> {
    let (places, stored) = numbers.split_first().unwrap_or((&0, &[]));
    for (place, number) in row.iter_mut().zip(stored.iter()) {
        *place = *number;
    }
    println!(rt; "total {places} numbers {}", row.len())?;
    let answer = total(row, *places as usize);
    let whole = in_places(row.len(), row.len());
    say_answer(rt, answer, row, whole)?;
    println!(rt)?;
    say_places(rt, &row[..whole])
}

// ---- the queries

// What a query asks.
#[derive(Clone, Copy)]
enum Question {
    Survey,
    Total,
}

impl From<u32> for Question {
    fn from(number: u32) -> Self {
        match number {
            0 => Question::Survey,
            _ => Question::Total,
        }
    }
}

// A query: what is asked, how images are opened, how many numbers the row has, the work space's size (32 bits each),
// how many sectors an image is lent (64 bits), how many numbers follow (32 bits), and these (64 bits each).
// Of the row and the work space as much is lent as it asks for.
fn query(rt: &impl Print, shelf: &[u8], q: &[u8], work: &mut [u8]) -> io::Result<()> {
    let mut places = [FREE; NUMBERS];
    let row = &mut places[..NUMBERS.min(le32(q, 8) as usize)];
    let mut held = [0u64; ASKED];
    let n = take_numbers(part(q, HEAD, q.len()), &mut held);
    let numbers = &held[..ASKED.min(n)];
    match Question::from(le32(q, 0)) {
        Question::Survey => {
            let lengths = &numbers[..LENGTHS.min(numbers.len())];
            let space = work.len().min(le32(q, 12) as usize);
            ask_survey(rt, shelf, q, lengths, row, &mut work[..space])
        }
        Question::Total => ask_total(rt, numbers, row),
    }
}

// Each query in turn: a head, whose last four bytes say how many numbers follow, and these.
fn queries(rt: &impl Print, shelf: &[u8], all: &[u8], work: &mut [u8]) -> io::Result<()> {
    let mut i = 0;
    // A `while`, since each query says itself where the next one starts: `for` is no plainer.
    while i < all.len() {
        let end = i + HEAD + 8 * le32(all, i + 24) as usize;
        query(rt, shelf, part(all, i, end), work)?;
        i = end;
    }
    Ok(())
}

// ---- the file of shelves

// Runs the shelf at i with its queries; returns where the next shelf is.
fn run(
    rt: &impl Print,
    all: &[u8],
    i: usize,
    shelf: &mut [u8],
    work: &mut [u8],
) -> io::Result<usize>
    requires { i < length all.now }
    ensures { IfOk result (λ next. i < next) }
{
    let packed = i + 2 + le16(all, i) as usize;
    // The name is shown as it is stored, whatever its bytes are.
    print!(rt; "shelf ")?;
    rt.write_all(part(all, i + 2, packed))?;
    println!(rt)?;
    let end = packed + 4 + le32(all, packed) as usize;
    let n = expand(part(all, packed + 4, end), shelf);
    let next = end + 4 + le32(all, end) as usize;
    queries(rt, front(shelf, n), part(all, end + 4, next), work)?;
    Ok(next)
}

fn run_all(rt: &impl Print, all: &[u8], shelf: &mut [u8], work: &mut [u8]) -> io::Result<()> {
    let mut i = 0;
    // A `while`, since each shelf says itself where the next one starts: `for` is no plainer.
    while i < all.len() {
        i = run(rt, all, i, shelf, work)?;
    }
    Ok(())
}

fn main(rt: HostRuntime) -> io::Result<()> {
    let file = fs::open(&rt, "shelves")?;
    // A mebibyte of the file is looked at. A read that fails ends it.
    let mut all = mebibyte();
    let n = read_full(file.as_raw_fd(), &mut all);
    let mut shelf = three_mebibytes();
    let mut work = work_space();
    // A line that can't be written doesn't change the exit status.
    let _ = run_all(&rt, front(&all, n), &mut shelf, &mut work);
    Ok(())
}
