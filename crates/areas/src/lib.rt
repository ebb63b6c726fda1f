// Areas of allocation descriptors, read where they stand by a cursor that is passed by value.
#![tactic(auto)]

ghost use Rattle.std.specs.Prelude.{◌≡◌};
ghost use Rattle.records.specs.Allocations.{short_of, long_of, ext_of};
ghost use Rattle.areas.specs.Areas.{size_of, descriptor_of, short_descriptor, long_descriptor, ext_descriptor, descriptor_at, next_of, area_at};

use disc::places::Block;
use disc::refusals::Refusal;
use records::allocations::{ext_at, long_at, short_at};

// `length` is the effective length: an ext_ad's information length, otherwise the stored length.
#[derive(Clone, Copy)]
pub struct AllocExtent {
    pub length: u32,
    pub extent_type: u8,
    pub block: Block,
    pub partition_ref: Option<u16>,
}

// Where the next area is.
#[derive(Clone, Copy)]
pub struct AdContinuation {
    pub length: u32,
    pub block: Block,
    pub partition_ref: Option<u16>,
}

// `left` bytes of descriptors are left, from `at` on.
#[derive(Clone, Copy)]
pub struct AdCursor {
    pub at: usize,
    pub left: usize,
}

#[derive(Clone, Copy)]
pub enum AdStep {
    Extent(AllocExtent, AdCursor),
    Continuation(AdContinuation),
    End,
    Refused(Refusal),
}

// How an area ends.
#[derive(Clone, Copy)]
pub enum AdEnding {
    End,
    Continuation(AdContinuation),
    Refused(Refusal),
}

// What one descriptor says.
#[derive(Clone, Copy)]
enum Descriptor {
    Stop,
    Data(AllocExtent),
    Continued(AdContinuation),
    Compressed,
}

// The size of a descriptor: kind 0 is short_ad, 1 is long_ad, any other ext_ad.
pub fn size_of(kind: u8) -> usize
    ensures { result ≡ size_of kind }
{
    if kind == 0 {
        return 8;
    }
    if kind == 1 {
        return 16;
    }
    20
}

// `stored` is the extent as recorded; `effective` has its effective length; `whole` means that it isn't compressed.
// Length 0 is tested first: it ends an area even with type 3.
fn descriptor_of(stored: AllocExtent, whole: bool, effective: AllocExtent) -> Descriptor
    ensures { result ≡ descriptor_of stored whole effective }
{
    if stored.length == 0 {
        return Descriptor::Stop;
    }
    if stored.extent_type == 3 {
        let partition = stored.partition_ref;
        let block = stored.block;
        return Descriptor::Continued(AdContinuation {
            length: stored.length,
            block: block,
            partition_ref: partition,
        });
    }
    if whole {
        return Descriptor::Data(effective);
    }
    Descriptor::Compressed
}

fn short_descriptor(s: &[u8], i: usize) -> Descriptor
    ensures { result ≡ short_descriptor (short_of s.now i) }
{
    let a = short_at(s, i);
    let e = AllocExtent {
        length: a.length,
        extent_type: a.extent_type,
        block: Block(a.block_location),
        partition_ref: None,
    };
    descriptor_of(e, true, e)
}

fn long_descriptor(s: &[u8], i: usize) -> Descriptor
    ensures { result ≡ long_descriptor (long_of s.now i) }
{
    let a = long_at(s, i);
    let e = AllocExtent {
        length: a.length,
        extent_type: a.extent_type,
        block: Block(a.location.block),
        partition_ref: Some(a.location.partition_ref),
    };
    descriptor_of(e, true, e)
}

fn ext_descriptor(s: &[u8], i: usize) -> Descriptor
    ensures { result ≡ ext_descriptor (ext_of s.now i) }
{
    let a = ext_at(s, i);
    let stored = AllocExtent {
        length: a.length,
        extent_type: a.extent_type,
        block: Block(a.location.block),
        partition_ref: Some(a.location.partition_ref),
    };
    let effective = AllocExtent {
        length: a.information_length,
        extent_type: a.extent_type,
        block: Block(a.location.block),
        partition_ref: Some(a.location.partition_ref),
    };
    descriptor_of(stored, a.recorded_length == a.information_length, effective)
}

// The descriptor at `i`, of the given kind.
fn descriptor_at(s: &[u8], kind: u8, i: usize) -> Descriptor
    ensures { result ≡ descriptor_at kind s.now i }
{
    if kind == 0 {
        return short_descriptor(s, i);
    }
    if kind == 1 {
        return long_descriptor(s, i);
    }
    ext_descriptor(s, i)
}

// The next descriptor of an area. Bytes past the end of `s` read as 0, and length 0 ends the area.
pub fn next_ad(s: &[u8], kind: u8, c: AdCursor) -> AdStep
    ensures { result ≡ next_of kind s.now c }
{
    let at = c.at;
    let left = c.left;
    let size = size_of(kind);
    if left < size {
        return AdStep::End;
    }
    if s.len() <= at {
        return AdStep::End;
    }
    match descriptor_at(s, kind, at) {
        Descriptor::Stop => AdStep::End,
        Descriptor::Data(e) => AdStep::Extent(
            e,
            AdCursor {
                at: at + size,
                left: left - size,
            },
        ),
        Descriptor::Continued(a) => AdStep::Continuation(a),
        Descriptor::Compressed => AdStep::Refused(Refusal::Unsupported),
    }
}

// How the area at the cursor ends; its extents are passed over.
pub fn ending_of(s: &[u8], kind: u8, c: AdCursor) -> AdEnding
    ensures { result ≡ (area_at kind s.now c.at c.left).ending }
{
    let mut rest = c;
    loop {
        match next_ad(s, kind, rest) {
            AdStep::Extent(_, next) => rest = next,
            AdStep::Continuation(a) => return AdEnding::Continuation(a),
            AdStep::End => return AdEnding::End,
            AdStep::Refused(why) => return AdEnding::Refused(why),
        }
    }
}
