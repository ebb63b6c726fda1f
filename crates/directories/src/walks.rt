// The walk along a path, a component at a time.
ghost use Rattle.std.specs.Prelude.{◌≡◌, length};
ghost use Rattle.disc.specs.Ran.{ran};
ghost use Rattle.disc.specs.Images.{disc};
ghost use Rattle.directories.specs.Lookups.{entering};
ghost use Rattle.directories.specs.Inner.WorkSpaces.{read_into, path_leaves, place_leaves};
ghost use Rattle.directories.specs.Inner.Walks.{entered_of, stopped_at, lost_at, beyond_of, On, Steps, Walks};
ghost use Rattle.directories.specs.declared.walks.Turn.TheVariants.{Goes};

use crate::spaces::read_directory;
use disc::answers::DONE;
use disc::counts::add_counts;
use disc::places::Mount;
use disc::refusals::Refusal;
use listings::finds::{Named, find, no_entry};
use listings::matchings::Matching;
use listings::paths::{component_end, component_from};
use records::allocations::{LongAd, no_long};

// A component's entry in a directory, and how many sectors it took to find it.
#[derive(Clone, Copy)]
pub struct Entered {
    pub entry: Named,
    pub count: u64,
}

// A place on the walk along a path: the first component from `from` on is looked for at `icb`.
#[derive(Clone, Copy)]
pub struct PathPlace {
    pub icb: LongAd,
    pub directory: bool,
    pub count: u64,
    pub from: usize,
}

// The end of a walk: its answer, and a component that wasn't found is from `from` to `end`.
#[derive(Clone, Copy)]
pub struct PathEnd {
    pub answer: u64,
    pub icb: LongAd,
    pub count: u64,
    pub from: usize,
    pub end: usize,
}

// What a step comes to: the walk goes on from a place, or it has ended.
#[derive(Clone, Copy)]
pub enum Turn {
    Goes(PathPlace),
    Ends(PathEnd),
}

// The entry of a component in the directory at icb. The directory is read into the work space and left there.
fn enter(
    image: &[u8],
    mount: Mount,
    icb: LongAd,
    component: &[u8],
    matching: Matching,
    work: &mut [u8],
) -> Entered
    ensures value { result ≡ entered_of (ran (disc image.now) (entering matching mount (length work.old) icb component.now)) }
    ensures work_after { work.new ≡ read_into (disc image.now) mount work.old icb }
{
    let read = read_directory(image, mount, icb, work);
    if read.answer != DONE {
        return Entered {
            entry: no_entry(read.answer),
            count: read.count,
        };
    }
    let n = read.length as usize;
    let check = mount.is_checked();
    let entry = find(check, matching, &work[0..n], component);
    Entered {
        entry,
        count: read.count,
    }
}

// The end of a walk: its answer, and the place of a component that wasn't found.
fn stopped(answer: u64, icb: LongAd, count: u64, from: usize, end: usize) -> Turn
    ensures { result ≡ stopped_at answer icb count from end }
{
    Turn::Ends(PathEnd {
        answer,
        icb,
        count,
        from,
        end,
    })
}

// The end of a walk at a component that isn't there.
fn lost(count: u64, from: usize, end: usize) -> Turn
    ensures { result ≡ lost_at count from end }
{
    stopped(Refusal::NotBluray.number(), no_long(), count, from, end)
}

// The place after a component whose entry was looked for, or the end of the walk there.
fn beyond(entry: Named, count: u64, from: usize, end: usize) -> Turn
    ensures { result ≡ beyond_of entry count from end }
{
    if entry.answer != DONE {
        return stopped(entry.answer, no_long(), count, 0, 0);
    }
    if !entry.found {
        return lost(count, from, end);
    }
    let icb = entry.icb;
    Turn::Goes(PathPlace {
        icb,
        directory: entry.directory,
        count,
        from: end,
    })
}

// One step of the walk. It skips slashes at its start, so it relies on nothing that an earlier step saw of the path.
fn step(
    image: &[u8],
    mount: Mount,
    path: &[u8],
    matching: Matching,
    p: PathPlace,
    work: &mut [u8],
) -> Turn
    requires { On path.now p }
    ensures steps { Steps (disc image.now) matching mount (length work.old) path.now p result }
    ensures work_after { place_leaves (disc image.now) matching mount path.now result work.new ≡ place_leaves (disc image.now) matching mount path.now (Goes p) work.old }
{
    let icb = p.icb;
    let from = component_from(path, p.from);
    if path.len() <= from {
        return stopped(DONE, icb, p.count, 0, 0);
    }
    let end = component_end(path, from);
    if !p.directory {
        return lost(p.count, from, end);
    }
    let e = enter(image, mount, icb, &path[from..end], matching, work);
    let entry = e.entry;
    beyond(entry, add_counts(p.count, e.count), from, end)
}

// The whole walk. The work space isn't cleared.
pub(crate) fn walk(
    image: &[u8],
    mount: Mount,
    root: LongAd,
    path: &[u8],
    matching: Matching,
    work: &mut [u8],
) -> PathEnd
    ensures walks { Walks (disc image.now) matching mount (length work.old) root path.now result }
    ensures work_after { work.new ≡ path_leaves (disc image.now) matching mount root path.now work.old }
{
    let mut p = PathPlace {
        icb: root,
        directory: true,
        count: 0,
        from: 0,
    };
    loop {
        match step(image, mount, path, matching, p, work) {
            Turn::Goes(next) => p = next,
            Turn::Ends(end) => return end,
        }
    }
}
