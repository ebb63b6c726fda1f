// The lengths of the files, and their bytes.
ghost use Rattle.std.specs.Prelude.{◌≡◌, ◌++◌, ◌+◌, ◌-◌, ◌*◌, ◌≤◌, ◌<◌, min, length};
ghost use Rattle.disc.specs.Images.{sectors_for};
ghost use Rattle.writers.specs.Layout.{zeros, blocks_of, files_part};
ghost use Rattle.writers.specs.Refusing.{longest, are_short};
ghost use Rattle.writers.specs.Inner.Pours.{Kept, Sums, Staged};

use crate::seals::{blank, put};

// The most bytes of a file.
const LONGEST: u64 = 1073739776;

// Whether no file is too long.
pub(crate) fn are_short(lengths: &[u64]) -> bool
    ensures { result ≡ are_short lengths.now }
{
    lengths.iter().all(|n| *n <= LONGEST)
}

// A length, or the most that one may be: a length that was tested may be another by now.
pub(crate) fn held(n: u64) -> u64
    ensures { result ≡ min n longest }
{
    n.min(LONGEST)
}

// The bytes of all files.
pub(crate) fn sum_of(lengths: &[u64]) -> u64
    requires { length lengths.now ≤ 64 }
    ensures { Sums (λ n. n) lengths.now result }
{
    lengths.iter().map(|n| held(*n)).sum()
}

// The sectors of all files.
pub(crate) fn blocks_of(lengths: &[u64]) -> u64
    requires { length lengths.now ≤ 64 }
    ensures { Sums sectors_for lengths.now result }
{
    lengths.iter().map(|n| held(*n).div_ceil(2048)).sum()
}

// A file, with zeros up to the end of its last sector; nothing where there is no room for it.
fn pour_file(text: &[u8], image: &mut [u8], at: usize) -> usize
    requires { at ≤ length image.old }
    ensures { Kept (at + 2048 * sectors_for (length text.now) ≤ length image.old) (text.now ++ zeros (2048 * sectors_for (length text.now) - length text.now)) (2048 * sectors_for (length text.now)) at (length image.old) image.old image.new result }
{
    let size = text.len().next_multiple_of(2048);
    if image.len() - at < size {
        return at;
    }
    let end = put(text, image, at);
    blank(size - text.len(), image, end)
}

// The files, one behind another in the staging area. None is longer than what is left of it, nor passes what is lent, whatever the lengths are by now.
pub(crate) fn pour_files(lengths: &[u64], staging: &[u8], image: &mut [u8], at: usize) -> usize
    requires { at ≤ length image.old }
    ensures { Kept (Staged lengths.now staging.now at image.old) (files_part lengths.now staging.now) (2048 * blocks_of lengths.now) at (length image.old) image.old image.new result }
{
    let mut rest = staging;
    let mut place = at;
    for length in lengths {
        let (file, behind) = rest.split_at(rest.len().min(*length as usize));
        place = pour_file(file, image, place);
        rest = behind;
    }
    place
}
