// The choices on opening as one number, a bit to a choice.
ghost use Rattle.std.specs.Prelude.{◌≡◌};
ghost use Rattle.volumes.specs.Choices.{how_of};

use crate::openings::How;

// Bodies of descriptors are checked.
pub const CHECKED: u32 = 1;

// References go through the partition maps.
pub const MAPS: u32 = 2;

// The descriptors with the highest numbers count.
pub const HIGHEST: u32 = 4;

pub fn chosen(how: u32) -> Option<How>
    ensures { result ≡ how_of how }
{
    if how / 8 != 0 {
        return None;
    }
    Some(How {
        highest: how / HIGHEST == 1,
        checked: how % 2 == CHECKED,
        maps: how / 2 % 2 == 1,
    })
}
