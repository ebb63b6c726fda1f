// The extent list in a row of records, for C: tools/rows.py sees it run. Nothing is handed on that has it, since what C
// is handed has the list as a row of numbers (`vault_extents`). Each call has the contract of the call that it passes on.
#![tactic(auto)]

ghost use Rattle.std.specs.Prelude.{◌≡◌};
ghost use Rattle.disc.specs.Ran.{ran};
ghost use Rattle.disc.specs.Images.{disc};
ghost use Rattle.files.specs.Files.{file_extents};
ghost use Rattle.layouts.specs.Calls.{extent_of, Listed};
ghost use Rattle.vault.specs.Calls.{extents};

use disc::places::Mount;
use disc::replies::Reply;
use layouts::lists::{Extent, file_rows};
use records::allocations::LongAd;
use vault::volume::Volume;

#[unsafe(no_mangle)]
pub extern "C" fn rows_extents(
    volume: Volume,
    image: &[u8],
    icb: LongAd,
    row: &mut [Extent],
) -> Reply
    ensures { record { reply = result; row = row.new } ≡ extents extent_of image.now volume.0 icb row.old }
{
    volume.extents(image, icb, row)
}

#[unsafe(no_mangle)]
pub extern "C" fn rows_file_rows(
    mount: Mount,
    image: &[u8],
    icb: LongAd,
    row: &mut [Extent],
) -> Reply
    ensures { Listed extent_of (ran (disc image.now) (file_extents mount icb)) row.old row.new result }
{
    file_rows(image, mount, icb, row)
}
