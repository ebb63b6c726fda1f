// An area of allocation descriptors whose bytes come one at a time: a descriptor may stand across two sectors. Its extents go into a lent row.
ghost use Rattle.std.specs.Prelude.{◌≡◌, [], ◌∷◌, ◌<◌};
ghost use Rattle.areas.specs.Areas.{size_of};
ghost use Rattle.drives.specs.Readings.{reference_in, extent_in};
ghost use Rattle.drives.specs.Inner.Scans.{begun, Stores, Closes, Continues, Whole, Scans};

use areas::{AdContinuation, AdCursor, AdStep, AllocExtent, next_ad, size_of};

// A place in an area.
#[repr(C)]
#[derive(Clone, Copy)]
pub struct Scan {
    // The number of places of the row that hold extents.
    pub listed: usize,
    // An extent of this area found no free place.
    pub full: bool,
    // 0: the area continues; 1: it has ended; 2: it has ended with a continuation; any other: it is refused with 4.
    pub closed: u8,
    // The bytes of the descriptor that has begun to arrive, and their number.
    pub carried: usize,
    pub carry: [u8; 20],
    // The continuation.
    pub next_length: u32,
    pub next_block: u32,
    pub next_reference: u32,
}

// The reference of a number of the row.
pub(crate) fn reference_in(n: u32) -> Option<u16>
    ensures { result ≡ reference_in n }
{
    if n < 65536 {
        return Some(n as u16);
    }
    None
}

// The number of a reference, which comes back from it.
fn number_in(r: Option<u16>) -> u32
    ensures { reference_in result ≡ r }
{
    match r {
        None => 65536,
        Some(p) => p as u32,
    }
}

// At the front of an area, behind the extents of those before it.
pub(crate) fn begin(listed: usize) -> Scan
    ensures { result ≡ begun listed }
{
    Scan {
        listed,
        full: false,
        closed: 0,
        carried: 0,
        carry: [0; 20],
        next_length: 0,
        next_block: 0,
        next_reference: 0,
    }
}

// An extent as four numbers.
fn words(e: AllocExtent) -> [u32; 4]
    ensures { extent_in result ≡ e }
{
    let reference = e.partition_ref;
    [
        e.length,
        e.extent_type as u32,
        e.block.0,
        number_in(reference),
    ]
}

// Puts an extent into the next place of the row, if there is one.
fn store(s: Scan, e: AllocExtent, row: &mut [[u32; 4]]) -> Scan
    ensures { Stores row.old s e row.new result }
{
    let mut r = s;
    r.carried = 0;
    let i = s.listed;
    if i < row.len() {
        row[i] = words(e);
        r.listed = i + 1;
        return r;
    }
    r.full = true;
    r
}

// The area has ended: 1, or by a refusal.
fn close(s: Scan, closed: u8) -> Scan
    ensures { Closes s closed result }
{
    let mut r = s;
    r.carried = 0;
    r.closed = closed;
    r
}

// The area has ended with a continuation.
fn continues(s: Scan, a: AdContinuation) -> Scan
    ensures { Continues s a result }
{
    let mut r = s;
    r.carried = 0;
    r.closed = 2;
    r.next_length = a.length;
    r.next_block = a.block.0;
    let reference = a.partition_ref;
    r.next_reference = number_in(reference);
    r
}

// A descriptor that has arrived whole.
fn take_descriptor(kind: u8, s: Scan, carry: [u8; 20], row: &mut [[u32; 4]]) -> Scan
    requires { s.closed ≡ 0 }
    ensures { Whole kind row.old s carry row.new result }
{
    let front = AdCursor {
        at: 0,
        left: size_of(kind),
    };
    match next_ad(&carry, kind, front) {
        AdStep::Extent(e, _) => store(s, e, row),
        AdStep::Continuation(a) => continues(s, a),
        AdStep::End => close(s, 1),
        AdStep::Refused(_) => close(s, 3),
    }
}

// A byte of the area.
fn take_byte(kind: u8, s: Scan, b: u8, row: &mut [[u32; 4]]) -> Scan
    requires { s.carried < size_of kind }
    ensures { Scans kind row.old s (b ∷ []) row.new result }
{
    if s.closed != 0 {
        return s;
    }
    let i = s.carried;
    let mut carry = s.carry;
    carry[i] = b;
    if size_of(kind) <= i + 1 {
        return take_descriptor(kind, s, carry, row);
    }
    let mut r = s;
    r.carried = i + 1;
    r.carry = carry;
    r
}

// Bytes of the area, in turn.
pub(crate) fn take_bytes(kind: u8, first: Scan, bytes: &[u8], row: &mut [[u32; 4]]) -> Scan
    requires { first.carried < size_of kind }
    ensures { Scans kind row.old first bytes.now row.new result }
{
    let mut s = first;
    for b in bytes {
        s = take_byte(kind, s, *b, row);
    }
    s
}
