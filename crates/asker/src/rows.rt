// The calls that are lent rows: a file's extents, its runs, and a list of paths. A row is lent full of A5.
use crate::lines::{Answered, Line, Written, kept};
use crate::queries::{PLACES, answers, icb, matching, slots, text};
use programs::lent::fill;
use programs::shown::{Numbers, WorkSpace};
use std::fmt;
use std::fmt::Write;
use vault::volume::Volume;

const FREE: u32 = 0xa5a5_a5a5;

const FREE_LONG: u64 = 0xa5a5_a5a5_a5a5_a5a5;

pub(crate) fn line_of_extents(v: Volume, image: &[u8], q: &[u8], line: &mut Line) -> fmt::Result {
    let mut places = [[FREE; 4]; PLACES];
    let row = &mut places[..PLACES.min(slots(q))];
    let r = v.extent_words(image, icb(q), row);
    let listed = r.length as usize;
    write!(line, "extents {}", Answered(r))?;
    for slot in row.iter().take(listed) {
        write!(line, " ({} {} {} {})", slot[0], slot[1], slot[2], slot[3])?;
    }
    let is_kept = row.iter().skip(listed).all(|slot| *slot == [FREE; 4]);
    write!(line, " {}", kept(is_kept))
}

pub(crate) fn line_of_runs(v: Volume, image: &[u8], q: &[u8], line: &mut Line) -> fmt::Result {
    let mut places = [[FREE_LONG; 2]; PLACES];
    let row = &mut places[..PLACES.min(slots(q))];
    let r = v.runs(image, icb(q), row);
    let listed = r.length as usize;
    write!(line, "runs {}", Answered(r))?;
    for run in row.iter().take(listed) {
        write!(line, " ({} {})", run[0], run[1])?;
    }
    let is_kept = row.iter().skip(listed).all(|run| *run == [FREE_LONG; 2]);
    write!(line, " {}", kept(is_kept))
}

pub(crate) fn line_of_read_all(
    v: Volume,
    image: &[u8],
    q: &[u8],
    out: &mut [u8],
    work: &mut [u8],
    line: &mut Line,
) -> fmt::Result {
    fill(out);
    fill(work);
    let mut places = [FREE_LONG; PLACES];
    let lengths = &mut places[..PLACES.min(slots(q))];
    let mut numbers = [FREE; PLACES];
    let told = &mut numbers[..PLACES.min(answers(q))];
    let r = v.read_all(image, text(q), matching(q), out, lengths, told, work);
    write!(
        line,
        "read_all {} {} lengths{} answers{} {}",
        Answered(r),
        Written(out, r.length as usize),
        Numbers(lengths),
        Numbers(told),
        WorkSpace(work)
    )
}
