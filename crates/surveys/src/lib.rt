// Figures over a shelf of images, one after another in a lent slice: a place for each image, and a last one for the shelf.
//
// `survey` first tests that the lengths fit the shelf and that the row has places enough. Then each image is opened (`open_within`), `tally_tree`
// goes over its tree with what opening left of the budget, and `figures::total` adds the places up. The recursion is that of a show, lent a place
// for figures and no output. A file is sized without a copy (`files::sizes`): its extents are measured up to the information length as for a read,
// and counted from there to the end of its chain.
//
// The figures are defined as true numbers. In a place each is a number held at 2^64 - 1 and a mark; `Holds` says that a place has given figures in
// it. That adding in a place agrees with adding true numbers is proved once, in `figures`.
#![tactic(auto)]

ghost use Rattle.std.specs.Prelude.{◌≡◌, ◌*◌, ◌≤◌, length, leb};
ghost use Rattle.disc.specs.Images.{disc};
ghost use Rattle.disc.specs.Budgets.{budgeted};
ghost use Rattle.disc.specs.Ran.{ran};
ghost use Rattle.figures.specs.Figures.{Holds, sum};
ghost use Rattle.volumes.specs.Choices.{opening_by};
ghost use Rattle.volumes.specs.Openings.{opened_of};
ghost use Rattle.surveys.specs.Surveys.{of_image, surveys};
ghost use Rattle.surveys.specs.Inner.Parts.{EachIn, Surveys};

use disc::answers::DONE;
use disc::counts::left_of;
use disc::moves::clear;
use disc::refusals::Refusal;
use figures::{PLACE, add_image, clear_figures, total};
use shows::whole::tally_tree;
use volumes::openings::{How, Opened, open_volume, refused};

// Opens an image by its choices; refused by 4 if the number stands for none.
fn open_by(image: &[u8], how: Option<How>) -> Opened
    ensures { result ≡ opened_of (ran (disc image.now) (opening_by how)) }
{
    match how {
        None => refused(Refusal::Unsupported.number(), 0),
        Some(choices) => open_volume(image, choices),
    }
}

// The same, with a budget of `most` sectors.
fn open_within(image: &[u8], how: Option<How>, most: u64) -> Opened
    ensures { result ≡ opened_of (ran (disc image.now) (budgeted most (opening_by how))) }
{
    let opened = open_by(image, how);
    if most < opened.count {
        return refused(Refusal::OverBudget.number(), most);
    }
    opened
}

// Puts the figures of an image into a place. One that is refused, or wants more than `most` sectors for its opening,
// its tree and the reads of its files, counts under its number and has no other figure.
fn survey_image(image: &[u8], how: Option<How>, most: u64, place: &mut [u64], work: &mut [u8])
    requires { length place.old ≡ 80 }
    ensures { Holds (of_image how most (length work.old) image.now) place.new }
{
    let opened = open_within(image, how, most);
    if opened.answer != DONE {
        clear_figures(place);
        add_image(place, opened.answer);
        return;
    }
    let v = opened.volume;
    let mount = v.mount;
    let root = v.root;
    let left = left_of(most, opened.count);
    let answer = tally_tree(image, mount, root, left, place, work);
    add_image(place, answer);
}

// Whether the lengths add up to at most `bytes`, without overflow.
fn within(lengths: &[u64], bytes: u64) -> bool
    ensures { result ≡ leb (sum lengths.now) bytes }
{
    let mut left = bytes;
    for n in lengths {
        if left < *n {
            return false;
        }
        left -= *n;
    }
    true
}

// Puts the figures of each image into its place. The lengths are read a second time here, and that they fit isn't
// relied on: an image ends where the shelf does.
fn survey_each(
    shelf: &[u8],
    lengths: &[u64],
    how: Option<How>,
    most: u64,
    figures: &mut [u64],
    work: &mut [u8],
)
    requires { 80 * length lengths.now ≤ length figures.old }
    ensures { EachIn how most (length work.old) shelf.now lengths.now figures.old figures.new }
{
    let mut at: usize = 0;
    for (i, length) in lengths.iter().enumerate() {
        let n = (*length).min((shelf.len() - at) as u64) as usize;
        let to = PLACE * i;
        survey_image(
            &shelf[at..at + n],
            how,
            most,
            &mut figures[to..to + PLACE],
            work,
        );
        at += n;
    }
}

// The survey, without clearing the work space.
fn survey_all(
    shelf: &[u8],
    lengths: &[u64],
    how: Option<How>,
    most: u64,
    figures: &mut [u64],
    work: &mut [u8],
) -> Result<(), Refusal>
    ensures { Surveys how most work.old shelf.now lengths.now figures.old figures.new result }
{
    if !within(lengths, shelf.len() as u64) {
        return Err(Refusal::BadShelf);
    }
    if figures.len() / PLACE <= lengths.len() {
        return Err(Refusal::BadShelf);
    }
    survey_each(shelf, lengths, how, most, figures, work);
    // The last place is there, so the total is never refused.
    total(figures, lengths.len());
    Ok(())
}

// Figures over the images in `shelf`, which follow one another from its front as `lengths` says: a place of PLACE
// numbers for each, and one for all of them together. Each image is lent `most` sectors for its opening, its tree and
// the reads of its files together; UNLIMITED is no budget. The work space is that of a show at 16 levels, and is all
// zero on return.
pub fn survey(
    shelf: &[u8],
    lengths: &[u64],
    how: Option<How>,
    most: u64,
    figures: &mut [u64],
    work: &mut [u8],
) -> u64
    ensures { record { answer = result; figures = figures.new; work = work.new } ≡ surveys how most shelf.now lengths.now figures.old work.old }
{
    let surveyed = survey_all(shelf, lengths, how, most, figures, work);
    clear(work);
    match surveyed {
        Err(why) => why.number(),
        Ok(()) => DONE,
    }
}
