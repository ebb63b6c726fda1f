// A lent image as a disc: sector s is the 2,048 bytes from 2,048 s on, and is there if all of them are.
ghost use Rattle.std.specs.Prelude.{◌≡◌, ◌+◌, ◌-◌, ◌*◌, ◌/◌, ◌<◌};
ghost use Rattle.disc.specs.Ask.{bytes_in, outcome};
ghost use Rattle.disc.specs.Images.{disc, sectors, sectors_for, held_from, bytes_of};

use crate::places::Sector;

// How many sectors n bytes take.
pub fn sectors_for(n: u32) -> u64
    ensures { result ≡ sectors_for n }
{
    (n as u64).div_ceil(2048)
}

// How many sectors the image has from `first` on.
pub fn held_from(image: &[u8], first: Sector) -> u64
    ensures { result ≡ held_from image.now first.0 }
{
    ((image.len() / 2048) as u64).saturating_sub(first.0)
}

// A sector's bytes, in place in the image; empty if the sector isn't there.
pub fn sector_at(image: &[u8], s: Sector) -> &[u8]
    ensures { result.now ≡ bytes_in (disc image.now s.0) }
{
    if (image.len() / 2048) as u64 <= s.0 {
        return &image[0..0];
    }
    let from = s.0 as usize * 2048;
    let end = from + 2048;
    &image[from..end]
}

// The bytes of n sectors from `first` on, in place in the image; empty if one of them isn't there.
pub fn run_part(image: &[u8], first: Sector, n: u64) -> &[u8]
    ensures { result.now ≡ bytes_of (outcome (disc image.now) (sectors n first.0)) }
{
    let held = held_from(image, first);
    if n == 0 {
        return &image[0..0];
    }
    if held < n {
        return &image[0..0];
    }
    let from = first.0 as usize * 2048;
    let end = from + n as usize * 2048;
    &image[from..end]
}
