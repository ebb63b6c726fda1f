// Makes each call, and gives its line. A call is lent exactly what its query says, all of it full of A5.
use crate::lines::{Answered, Line, Written, put_text};
use crate::queries::{how_of, icb, levels, matching, most, text, volume};
use crate::rows::{line_of_extents, line_of_read_all, line_of_runs};
use disc::replies::Reply;
use programs::lent::{fill, front, sum};
use programs::shown::{Escaped, Numbers, WorkSpace};
use std::fmt;
use std::fmt::Write;
use vault::volume::{Volume, label, probe};

#[derive(Clone, Copy)]
pub(crate) enum Call {
    Probe,
    Open,
    Label,
    Lookup,
    Failed,
    List,
    Read,
    Part,
    Extents,
    ReadPath,
    ReadAll,
    Show,
    Measure,
    Runs,
    FailedAt,
    PartAt,
}

// Every call, each at the place of its bit in a query.
pub(crate) const CALLS: [Call; 16] = [
    Call::Probe,
    Call::Open,
    Call::Label,
    Call::Lookup,
    Call::Failed,
    Call::List,
    Call::Read,
    Call::Part,
    Call::Extents,
    Call::ReadPath,
    Call::ReadAll,
    Call::Show,
    Call::Measure,
    Call::Runs,
    Call::FailedAt,
    Call::PartAt,
];

// ---- opening

fn line_of_probe(image: &[u8], line: &mut Line) -> fmt::Result {
    line.write_str(if probe(image) {
        "probe yes"
    } else {
        "probe no"
    })
}

fn line_of_open(image: &[u8], way: u32, line: &mut Line) -> fmt::Result {
    let opened = Volume::open(image, how_of(way));
    let v = opened.volume;
    let m = v.mount;
    let (volumes, numbers, starts) = (m.volumes, m.numbers, m.starts);
    let (root, name) = (v.root.encode(), v.label);
    write!(
        line,
        "open {} count {} start {} partition {} checked {} maps {} volumes{} numbers{} starts{} root ",
        opened.answer,
        opened.count,
        m.start,
        m.partition,
        m.checked,
        m.maps,
        Numbers(&volumes),
        Numbers(&numbers),
        Numbers(&starts)
    )?;
    put_text(line, &root);
    line.put(b" label ");
    put_text(line, &name);
    Ok(())
}

fn line_of_label(image: &[u8], q: &[u8], out: &mut [u8], line: &mut Line) -> fmt::Result {
    fill(out);
    let r = label(image, how_of(volume(q)), out);
    let n = r.length as usize;
    let name = Escaped(front(out, n));
    write!(
        line,
        "label {} {} text {name}",
        Answered(r),
        Written(out, n)
    )
}

// ---- by a path

fn line_of_lookup(
    v: Volume,
    image: &[u8],
    q: &[u8],
    work: &mut [u8],
    line: &mut Line,
) -> fmt::Result {
    fill(work);
    let r = v.lookup(image, text(q), matching(q), work);
    let icb = r.icb.encode();
    write!(line, "lookup {} count {} icb ", r.answer, r.count)?;
    put_text(line, &icb);
    write!(line, " {}", WorkSpace(work))
}

fn line_of_failed(
    v: Volume,
    image: &[u8],
    q: &[u8],
    work: &mut [u8],
    line: &mut Line,
) -> fmt::Result {
    fill(work);
    let mut answer: u64 = 99;
    let mut count: u64 = 99;
    let component = v.failed(image, text(q), matching(q), work, &mut answer, &mut count);
    let length = component.len();
    write!(
        line,
        "failed {answer} count {count} length {length} component "
    )?;
    put_text(line, component);
    write!(line, " {}", WorkSpace(work))
}

fn line_of_failed_at(
    v: Volume,
    image: &[u8],
    q: &[u8],
    work: &mut [u8],
    line: &mut Line,
) -> fmt::Result {
    fill(work);
    let mut place: usize = 99;
    let r = v.failed_at(image, text(q), matching(q), work, &mut place);
    write!(
        line,
        "failed_at {} at {place} {}",
        Answered(r),
        WorkSpace(work)
    )
}

// ---- by an ICB

fn line_of_read(v: Volume, image: &[u8], q: &[u8], out: &mut [u8], line: &mut Line) -> fmt::Result {
    fill(out);
    let r = v.read(image, icb(q), out);
    write!(
        line,
        "read {} {}",
        Answered(r),
        Written(out, r.length as usize)
    )
}

fn line_of_measure(v: Volume, image: &[u8], q: &[u8], line: &mut Line) -> fmt::Result {
    write!(line, "measure {}", Answered(v.measure(image, icb(q))))
}

fn line_of_part(v: Volume, image: &[u8], q: &[u8], line: &mut Line) -> fmt::Result {
    let mut answer: u64 = 99;
    let mut count: u64 = 99;
    let bytes = v.part(image, icb(q), &mut answer, &mut count);
    let length = bytes.len();
    write!(
        line,
        "part {answer} count {count} length {length} sum {}",
        sum(bytes)
    )
}

fn line_of_part_at(v: Volume, image: &[u8], q: &[u8], line: &mut Line) -> fmt::Result {
    let mut place: usize = 99;
    let r = v.part_at(image, icb(q), &mut place);
    write!(line, "part_at {} at {place}", Answered(r))
}

// ---- calls that are lent output and work space

fn made(call: Call, v: Volume, image: &[u8], q: &[u8], out: &mut [u8], work: &mut [u8]) -> Reply {
    match call {
        Call::List => v.list(image, icb(q), out, work),
        Call::ReadPath => v.read_path(image, text(q), matching(q), out, work),
        _ => v.show(image, levels(q), most(q), out, work),
    }
}

fn line_of_written(
    call: Call,
    name: &str,
    v: Volume,
    image: &[u8],
    q: &[u8],
    out: &mut [u8],
    work: &mut [u8],
    line: &mut Line,
) -> fmt::Result {
    fill(out);
    fill(work);
    let r = made(call, v, image, q, out, work);
    let written = Written(out, r.length as usize);
    write!(line, "{name} {} {written} {}", Answered(r), WorkSpace(work))
}

// ---- any call

// Makes a call, and has its line in place of what was in `line`. Only what the call is lent is filled.
pub(crate) fn line_of(
    call: Call,
    v: Volume,
    image: &[u8],
    q: &[u8],
    out: &mut [u8],
    work: &mut [u8],
    line: &mut Line,
) -> fmt::Result {
    line.clear();
    match call {
        Call::Probe => line_of_probe(image, line),
        Call::Open => line_of_open(image, volume(q), line),
        Call::Label => line_of_label(image, q, out, line),
        Call::Lookup => line_of_lookup(v, image, q, work, line),
        Call::Failed => line_of_failed(v, image, q, work, line),
        Call::List => line_of_written(call, "list", v, image, q, out, work, line),
        Call::Read => line_of_read(v, image, q, out, line),
        Call::Part => line_of_part(v, image, q, line),
        Call::Extents => line_of_extents(v, image, q, line),
        Call::ReadPath => line_of_written(call, "read_path", v, image, q, out, work, line),
        Call::ReadAll => line_of_read_all(v, image, q, out, work, line),
        Call::Show => line_of_written(call, "show", v, image, q, out, work, line),
        Call::Measure => line_of_measure(v, image, q, line),
        Call::Runs => line_of_runs(v, image, q, line),
        Call::FailedAt => line_of_failed_at(v, image, q, work, line),
        Call::PartAt => line_of_part_at(v, image, q, line),
    }
}
