// A continuation whose sectors come one at a time: what its header says, its body summed, and its area scanned.
ghost use Rattle.std.specs.Prelude.{◌≡◌, ◌&&◌, ◌+◌, ◌-◌, ◌*◌, ◌<◌, ◌≤◌, min, length, eqb, leb};
ghost use Rattle.disc.specs.Choice.{pick};
ghost use Rattle.areas.specs.Areas.{size_of};
ghost use Rattle.drives.specs.Feeds.{crowded_by};
ghost use Rattle.drives.specs.Inner.Bodies.{is_wrong, judged, body_in, body_of, body_behind, finished, in_body, head_behind, part_behind, Parts, Lands};
ghost use Rattle.drives.specs.Inner.Turns.{ReadingStands};

use crate::phases::IN_CONTINUATION;
use crate::readings::{Body, Reading};
use crate::scans::{Scan, begin, take_bytes};
use crate::turns::{accept, over};
use crcs::crc_behind;
use disc::answers::DONE;
use disc::refusals::Refusal;
use records::bytes::le32;
use tags::{AED_ID, DescriptorTag};

// The bytes of a sector.
const SECTOR: usize = 2048;

// Whether a body that has arrived is wrong, where bodies are checked.
fn is_wrong(check: bool, b: Body) -> bool
    ensures { result ≡ is_wrong check b }
{
    if !check {
        return false;
    }
    if b.body_left != 0 {
        return true;
    }
    b.summed != b.crc
}

// What its header comes to.
fn judge(check: bool, b: Body) -> Result<(), Refusal>
    ensures { result ≡ judged check b }
{
    if !b.tagged {
        return Err(Refusal::Malformed);
    }
    if is_wrong(check, b) {
        return Err(Refusal::BadCrc);
    }
    if !b.headed {
        return Err(Refusal::Malformed);
    }
    Ok(())
}

// All sectors of the continuation have come.
fn finish(r: Reading, row: &[[u32; 4]]) -> Reading
    ensures { ReadingStands row.now (finished r row.now) r result }
{
    if let Err(why) = judge(r.mount.is_checked(), r.body) {
        return over(r, why.number());
    }
    accept(r, row)
}

// The next sector of the continuation, or what all of them came to.
fn further(r: Reading, row: &[[u32; 4]]) -> Reading
    requires { (r.at + r.left < 0x1000_0000_0000) × (r.scan.carried < size_of r.kind) × (r.body.area_left ≤ 2048 * r.left) }
    ensures { ReadingStands row.now (crowded_by r.scan.full (in_body r row.now r.left (r.at + 1))) r result }
{
    if r.left == 0 {
        return finish(r, row);
    }
    let mut x = r;
    x.phase = IN_CONTINUATION;
    x.at = r.at + 1;
    x.left = r.left - 1;
    x.answer = DONE;
    x
}

// The part of a body in a further sector.
fn body_behind(b: Body, sector: &[u8]) -> Body
    requires { length sector.now ≡ 2048 }
    ensures { result ≡ body_behind b sector.now }
{
    let n = (b.body_left as usize).min(SECTOR);
    let m = (b.area_left as usize).min(SECTOR);
    Body {
        tagged: b.tagged,
        headed: b.headed,
        crc: b.crc,
        summed: crc_behind(b.summed, &sector[0..n]),
        body_left: b.body_left - n as u32,
        area_left: b.area_left - m as u32,
    }
}

// A state with another place in the area and in the body.
fn with_parts(r: Reading, scan: Scan, body: Body) -> Reading
    ensures { Parts r scan body result }
{
    let mut x = r;
    x.scan = scan;
    x.body = body;
    x
}

// A further sector of a continuation.
pub(crate) fn take_part(r: Reading, sector: &[u8], row: &mut [[u32; 4]]) -> Reading
    requires { (length sector.now ≡ 2048) × (r.at + r.left < 0x1000_0000_0000) × (r.scan.carried < size_of r.kind) × (r.body.area_left ≤ 2048 * (r.left + 1)) }
    ensures { Lands row.old (part_behind r row.old sector.now) r row.new result }
{
    let scan = r.scan;
    let body = r.body;
    let end = (body.area_left as usize).min(SECTOR);
    let listed = take_bytes(r.kind, scan, &sector[0..end], row);
    let behind = body_behind(body, sector);
    let x = with_parts(r, listed, behind);
    further(x, row)
}

// Whether it is a header, and its area fits the continuation.
fn is_header(t: DescriptorTag, size: u32, area: u32) -> bool
    ensures { result ≡ (eqb t.id 258 && leb (24 + area) size) }
{
    (t.id == AED_ID) & (24 + area as u64 <= size as u64)
}

// How much of an area is behind the first sector.
fn left_of(headed: bool, area: u32) -> u32
    ensures { result ≡ pick headed (area - 2024) 0 }
{
    if !headed {
        return 0;
    }
    if area < 2024 {
        return 0;
    }
    area - 2024
}

// How much of the area stands in the first sector, none where there is no header.
fn front_of(headed: bool, area: u32) -> usize
    ensures { result ≡ min (pick headed area 0) 2024 }
{
    if !headed {
        return 0;
    }
    (area as usize).min(2024)
}

// The header's part of a body, of a tag that is good.
fn body_of(t: DescriptorTag, size: u32, sector: &[u8]) -> Body
    requires { length sector.now ≡ 2048 }
    ensures { result ≡ body_of t size sector.now }
{
    let area = le32(sector, 20);
    let length = t.crc_length as usize;
    let n = length.min(2032);
    let end = 16 + n;
    let headed = is_header(t, size, area);
    Body {
        tagged: true,
        headed,
        crc: t.crc,
        summed: crc_behind(0, &sector[16..end]),
        body_left: (length - n) as u32,
        area_left: left_of(headed, area),
    }
}

// The same of any tag.
fn body_in(r: Result<DescriptorTag, Refusal>, size: u32, sector: &[u8]) -> Body
    requires { length sector.now ≡ 2048 }
    ensures { result ≡ body_in r size sector.now }
{
    match r {
        Ok(t) => body_of(t, size, sector),
        Err(_) => Body {
            tagged: false,
            headed: false,
            crc: 0,
            summed: 0,
            body_left: 0,
            area_left: 0,
        },
    }
}

// The first sector of a continuation.
pub(crate) fn take_head(r: Reading, sector: &[u8], row: &mut [[u32; 4]]) -> Reading
    requires { (length sector.now ≡ 2048) × (r.at + r.left < 0x1000_0000_0000) × (r.size ≤ 2048 * (r.left + 1)) }
    ensures { Lands row.old (head_behind r row.old sector.now) r row.new result }
{
    let scan = r.scan;
    let body = body_in(DescriptorTag::parse(sector), r.size, sector);
    let n = front_of(body.headed, le32(sector, 20));
    let end = 24 + n;
    let listed = take_bytes(r.kind, begin(scan.listed), &sector[24..end], row);
    let x = with_parts(r, listed, body);
    further(x, row)
}
