// One entry of a directory in a show: its record, written in its place.
ghost use Rattle.std.specs.Prelude.{◌≤◌, length};
ghost use Rattle.names.specs.Names.{name_of, written};
ghost use Rattle.shows.specs.Inner.Writes.{Leveled, NodePuts};

use disc::moves::copy;
use identifiers::{directory_bit, marks_directory};
use listings::directory_entries::{look, record_head};
use names::dstrings::put_name;

// What a record has before its name: that of a listing, and the level.
const HEAD: usize = 22;

// Writes the record of the entry at the front of s over the front of out, and returns its length. First the name; then,
// from the second byte on, a listing's head; and over its mark the mark with the level. A record without room is left
// out; none that was measured is.
fn put_record(level: u8, marks: u8, s: &[u8], recorded: &[u8], out: &mut [u8]) -> usize
    ensures { Leveled level marks s.now (written (name_of recorded.now)) out.old out.new result }
{
    if out.len() < HEAD {
        return 0;
    }
    let n = put_name(recorded, &mut out[HEAD..]);
    if out.len() - HEAD < n {
        return 0;
    }
    let h = record_head(directory_bit(marks), s, n);
    copy(&h, &mut out[1..]);
    let mark = [0x44, 0x45, level];
    copy(&mark, out);
    HEAD + n
}

// How many bytes were written for an entry, whether they are a directory's record, and how far from its start the next
// entry starts.
#[derive(Clone, Copy)]
pub(crate) struct NodePut {
    pub wrote: usize,
    pub directory: bool,
    pub next: usize,
}

// Writes the record of the entry at the front of s over the front of out. The entry isn't checked again. A directory
// whose record has no room isn't reported as one: only directories with a written record are read, so what was measured
// bounds their number, whatever the image holds by then.
pub(crate) fn put_node(level: u8, s: &[u8], out: &mut [u8]) -> NodePut
    requires { 38 ≤ length s.now }
    ensures { NodePuts level s.now out.old out.new result }
{
    let e = look(s);
    let next = e.next;
    if e.skipped {
        return NodePut {
            wrote: 0,
            directory: false,
            next,
        };
    }
    let from = e.from;
    let end = e.end;
    let marks = e.marks;
    let wrote = put_record(level, marks, s, &s[from..end], out);
    NodePut {
        wrote,
        directory: marks_directory(marks) & (0 < wrote),
        next,
    }
}
