// Bytes poured into what is lent, at a place that only rises; and the one function that seals a descriptor.
ghost use Rattle.std.specs.Prelude.{◌≡◌, [], ◌∷◌, ◌++◌, ◌+◌, ◌*◌, ◌≤◌, ◌<◌, length};
ghost use Rattle.writers.specs.Layout.{zeros, blanks, sector, sealed};
ghost use Rattle.writers.specs.Inner.Pours.{Poured, Laid};

use crcs::crc;
use disc::moves::{clear, copy};
use tags::DescriptorTag;

// A text; the place behind it.
pub(crate) fn put(text: &[u8], image: &mut [u8], at: usize) -> usize
    requires { at + length text.now ≤ length image.old }
    ensures { Poured text.now (length text.now) at image.old image.new result }
{
    let end = at + text.len();
    copy(text, &mut image[at..end]);
    end
}

// Zeros.
pub(crate) fn blank(n: usize, image: &mut [u8], at: usize) -> usize
    requires { at + n ≤ length image.old }
    ensures { Poured (zeros n) n at image.old image.new result }
{
    let end = at + n;
    clear(&mut image[at..end]);
    end
}

// Sectors of zeros.
pub(crate) fn blank_sectors(n: usize, image: &mut [u8], at: usize) -> usize
    requires { at + 2048 * n ≤ length image.old }
    ensures { Laid (blanks n) at image.old image.new result }
{
    blank(2048 * n, image, at)
}

// A descriptor: its tag, with the CRC of its body and the checksum, and the body.
pub(crate) fn seal(id: u16, location: u32, body: &[u8], image: &mut [u8], at: usize) -> usize
    requires { (length body.now ≤ 2032) × (at + 16 + length body.now ≤ length image.old) }
    ensures { Poured (sealed id location body.now) (16 + length body.now) at image.old image.new result }
{
    let tag = DescriptorTag {
        id,
        descriptor_version: 2,
        serial_number: 0,
        crc: crc(body),
        crc_length: body.len() as u16,
        location,
    };
    let bytes = tag.encode();
    let behind = put(&bytes, image, at);
    put(body, image, behind)
}

// A descriptor in a sector of its own, with zeros up to the sector's end.
pub(crate) fn seal_sector(id: u16, location: u32, body: &[u8], image: &mut [u8], at: usize) -> usize
    requires { (length body.now ≤ 2032) × (at + 2048 ≤ length image.old) }
    ensures { Laid (sector (sealed id location body.now) ∷ []) at image.old image.new result }
{
    let end = seal(id, location, body, image, at);
    blank(2032 - body.len(), image, end)
}

// A sector with a few bytes at its front.
pub(crate) fn put_sector(text: &[u8], image: &mut [u8], at: usize) -> usize
    requires { (length text.now ≤ 2048) × (at + 2048 ≤ length image.old) }
    ensures { Laid (sector text.now ∷ []) at image.old image.new result }
{
    let end = put(text, image, at);
    blank(2048 - text.len(), image, end)
}
