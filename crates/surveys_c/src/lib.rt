// Surveys: figures over a shelf of images, one after another.
//
// The figures of an image, or of the shelf, are one place in a row of 64-bit numbers: a struct vault_figures of
// VAULT_FIGURES numbers. Pass the row's address and its length in numbers. Figures are exact; one that exceeds 2^64 - 1
// is given as 2^64 - 1 and marked as over.
#![tactic(auto)]

ghost use Rattle.std.specs.Prelude.{◌≡◌};
ghost use Rattle.figures.specs.Figures.{total_answer, totaled};
ghost use Rattle.volumes.specs.Choices.{how_of};
ghost use Rattle.surveys.specs.Surveys.{surveys};

use figures::{PLACE, total};
use surveys::survey;
use volumes::choices::chosen;

// The number of numbers in a place of a row of figures.
pub const VAULT_FIGURES: usize = PLACE;

// A figure.
#[repr(C)]
#[derive(Clone, Copy)]
pub struct Figure {
    // At most 2^64 - 1.
    pub number: u64,
    // 1 if the figure exceeds 2^64 - 1, otherwise 0.
    pub over: u64,
}

// The figures of an image or of a shelf. Files and directories are those that vault_show lists at 16 levels, each
// counted once for each path. The root is not counted.
#[repr(C)]
#[derive(Clone, Copy)]
pub struct Figures {
    // Files found, including those that can't be read.
    pub files: Figure,
    pub directories: Figure,
    // The sum of what vault_measure gives for each file.
    pub bytes: Figure,
    // The extents that vault_extents lists for the files that can be read.
    pub extents: Figure,
    // The counts of reading each file, including files that are refused. Not included are the sectors of opening, of
    // the tree and of the extent lists.
    pub sectors: Figure,
    // How many files have each answer. None has VAULT_OVER_BUDGET.
    pub files_by_answer: [Figure; 17],
    // How many images have each answer, of their opening or their tree; or VAULT_OVER_BUDGET, if these and the reads of
    // the files together need more sectors than `most`. An image with an answer other than 0 has no other figure.
    pub images_by_answer: [Figure; 17],
    // The largest number of continuations of allocation descriptors that were followed for a file that can be read.
    pub chain: Figure,
}

// Computes the figures of images that are in `shelf` one after another, from its front, each as long as `lengths` says:
// one place for each in turn, and after them one for all. `how` is as in vault_open, and `work` as in vault_show. The
// answer is VAULT_DONE even if every image is refused. It is VAULT_BAD_SHELF if the lengths exceed `shelf`, or if there
// are fewer places than the number of images plus one; then nothing is written except the zeros of `work`. Further
// places are unchanged.
//
// Each image has its own budget of `most` sectors. Its opening, its tree and the reads of its files, in their order,
// each have what those before have left, by their counts. An image that needs more counts under VAULT_OVER_BUDGET, and
// the next one follows. Extents and chains are looked up besides the reads, and that is not counted. On a sound disc each
// sector is asked for once, and the sectors of a file once for each path to it. VAULT_UNLIMITED is no budget.
#[unsafe(no_mangle)]
pub extern "C" fn vault_survey(
    shelf: &[u8],
    lengths: &[u64],
    how: u32,
    most: u64,
    figures: &mut [u64],
    work: &mut [u8],
) -> u64
    ensures { record { answer = result; figures = figures.new; work = work.new } ≡ surveys (how_of how) most shelf.now lengths.now figures.old work.old }
{
    survey(shelf, lengths, chosen(how), most, figures, work)
}

// Writes the total of the first `images` places of a row to the place after them. Use it for images that are not in one
// slice and were surveyed one by one. The answer is VAULT_DONE; or VAULT_BAD_SHELF if there are too few places, and
// then nothing is written.
#[unsafe(no_mangle)]
pub extern "C" fn vault_survey_total(figures: &mut [u64], images: usize) -> u64
    ensures { (result ≡ total_answer images figures.old) × (figures.new ≡ totaled images figures.old) }
{
    total(figures, images)
}
