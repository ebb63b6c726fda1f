// A volume by value, and the calls on it.
ghost use Rattle.std.specs.Prelude.{◌≡◌};
ghost use Rattle.layouts.specs.Calls.{words_of, extent_of};
ghost use Rattle.probes.specs.Probes.{probed};
ghost use Rattle.vault.specs.Calls.{reads_all, lists_bytes, finds_in};
ghost use Rattle.vault.specs.Public.{leaves};
ghost use Rattle.vault.specs.Public.Call.{opens, labels, reads, measures, lists, shows, reads_path, finds, fails, fails_at, parts, parts_at, extents, runs};

use directories::listed::list_directory;
use directories::lookups::Found;
use disc::refusals::Refusal;
use disc::replies::Reply;
use files::reads::read_file;
use files::sizes::measure_file;
use layouts::lists::{Extent, file_rows, file_words};
use layouts::parts::file_part;
use layouts::runs::file_runs;
use listings::finds::{Named, find};
use listings::matchings::Matching;
use records::allocations::LongAd;
use volumes::openings::{How, Opened, VolumeRecord, open_volume};

// An opened volume: what opening found, with the calls on it.
#[repr(C)]
#[derive(Clone, Copy)]
pub struct Volume(pub VolumeRecord);

impl Volume {
    // Opens the volume that an image holds.
    pub fn open(image: &[u8], how: How) -> Opened
        ensures { result ≡ leaves (opens how) image.now }
    {
        open_volume(image, how)
    }

    // The ICB that a path names, by a choice of matching. The work space holds one directory at a time, and is all zero on return.
    pub fn lookup(self, image: &[u8], path: &[u8], matching: Matching, work: &mut [u8]) -> Found
        ensures { record { found = result; work = work.new } ≡ leaves (finds self.0 path.now matching work.old) image.now }
    {
        let v = self.0;
        let mount = v.mount;
        let root = v.root;
        directories::lookups::lookup(image, mount, root, path, matching, work)
    }

    // The component at which a lookup is refused by 3, as a part of the path; otherwise empty.
    pub fn failed<'i, 'p>(
        self,
        image: &'i [u8],
        path: &'p [u8],
        matching: Matching,
        work: &mut [u8],
        answer: &mut u64,
        count: &mut u64,
    ) -> &'p [u8]
        ensures { record { component = result.now; answer = answer.new; count = count.new; work = work.new } ≡ leaves (fails self.0 path.now matching work.old) image.now }
    {
        let v = self.0;
        let mount = v.mount;
        let root = v.root;
        directories::lookups::failed(image, mount, root, path, matching, work, answer, count)
    }

    // The length of that component, and in `at` its place in the path; zeros if there is none.
    pub fn failed_at(
        self,
        image: &[u8],
        path: &[u8],
        matching: Matching,
        work: &mut [u8],
        at: &mut usize,
    ) -> Reply
        ensures { record { reply = result; at = at.new; work = work.new } ≡ leaves (fails_at self.0 path.now matching work.old) image.now }
    {
        let v = self.0;
        let mount = v.mount;
        let root = v.root;
        directories::lookups::failed_at(image, mount, root, path, matching, work, at)
    }

    // Writes the listing of the directory at icb to the front of out.
    pub fn list(self, image: &[u8], icb: LongAd, out: &mut [u8], work: &mut [u8]) -> Reply
        ensures { record { reply = result; out = out.new; work = work.new } ≡ leaves (lists self.0 icb out.old work.old) image.now }
    {
        let mount = self.0.mount;
        list_directory(image, mount, icb, out, work)
    }

    // Writes the volume's whole tree to the front of out: for each entry that a path of at most `levels` components
    // leads to, a listing's record with its level, before those of what is under it. The work space holds the
    // directories on the way down, one after another. Refused by 16 instead of asking for more than `most` sectors;
    // `disc::counts::UNLIMITED` is no budget.
    pub fn show(
        self,
        image: &[u8],
        levels: u32,
        most: u64,
        out: &mut [u8],
        work: &mut [u8],
    ) -> Reply
        ensures { record { reply = result; out = out.new; work = work.new } ≡ leaves (shows self.0 levels most out.old work.old) image.now }
    {
        let v = self.0;
        let mount = v.mount;
        let root = v.root;
        shows::whole::show(image, mount, root, levels, most, out, work)
    }

    // Writes the bytes of the file at icb to the front of out.
    pub fn read(self, image: &[u8], icb: LongAd, out: &mut [u8]) -> Reply
        ensures { record { reply = result; out = out.new } ≡ leaves (reads self.0 icb out.old) image.now }
    {
        let mount = self.0.mount;
        read_file(image, mount, icb, out, Refusal::NoRoom)
    }

    // How many bytes a read of the file at icb answers if there is room, with its refusals and its count. Nothing is
    // written.
    pub fn measure(self, image: &[u8], icb: LongAd) -> Reply
        ensures { result ≡ leaves (measures self.0 icb) image.now }
    {
        let mount = self.0.mount;
        measure_file(image, mount, icb)
    }

    // The bytes of an embedded file without a copy; empty for any other file and on a refusal.
    pub fn part<'i>(
        self,
        image: &'i [u8],
        icb: LongAd,
        answer: &mut u64,
        count: &mut u64,
    ) -> &'i [u8]
        ensures { record { part = result.now; answer = answer.new; count = count.new } ≡ leaves (parts self.0 icb) image.now }
    {
        let mount = self.0.mount;
        file_part(image, mount, icb, answer, count)
    }

    // The length of that part, and in `at` its place in the image; zeros if there is none.
    pub fn part_at(self, image: &[u8], icb: LongAd, at: &mut usize) -> Reply
        ensures { record { reply = result; at = at.new } ≡ leaves (parts_at self.0 icb) image.now }
    {
        let mount = self.0.mount;
        layouts::parts::part_at(image, mount, icb, at)
    }

    // Lists the effective length, type, block and partition of each extent of the file at icb, four numbers to a
    // slot. An embedded file has no extents.
    pub fn extent_words(self, image: &[u8], icb: LongAd, row: &mut [[u32; 4]]) -> Reply
        ensures { record { reply = result; row = row.new } ≡ leaves (extents words_of self.0 icb row.old) image.now }
    {
        let mount = self.0.mount;
        file_words(image, mount, icb, row)
    }

    // The same in a row of records; C has the row of numbers.
    pub fn extents(self, image: &[u8], icb: LongAd, row: &mut [Extent]) -> Reply
        ensures { record { reply = result; row = row.new } ≡ leaves (extents extent_of self.0 icb row.old) image.now }
    {
        file_rows(image, self.0.mount, icb, row)
    }

    // Lists place and length of each run of the image that a read of the file at icb takes its bytes from, in reading
    // order, a pair to a slot. They are cut as the read is cut: their bytes joined are what it answers. An empty file
    // has none.
    pub fn runs(self, image: &[u8], icb: LongAd, row: &mut [[u64; 2]]) -> Reply
        ensures { record { reply = result; row = row.new } ≡ leaves (runs self.0 icb row.old) image.now }
    {
        let mount = self.0.mount;
        file_runs(image, mount, icb, row)
    }

    // Writes the bytes of the file that a path names to the front of out: a lookup, then a read, counts added.
    pub fn read_path(
        self,
        image: &[u8],
        path: &[u8],
        matching: Matching,
        out: &mut [u8],
        work: &mut [u8],
    ) -> Reply
        ensures { record { reply = result; out = out.new; work = work.new } ≡ leaves (reads_path self.0 path.now matching out.old work.old) image.now }
    {
        let v = self.0;
        let mount = v.mount;
        let root = v.root;
        directories::lookups::read_path(image, mount, root, path, matching, out, work)
    }

    // Writes the bytes of many files to the front of out, one after another, by a list of paths separated by zero
    // bytes. `lengths` and `answers` get the length and the answer of each in turn. One that is refused takes no
    // room, and the rest go on.
    pub fn read_all(
        self,
        image: &[u8],
        paths: &[u8],
        matching: Matching,
        out: &mut [u8],
        lengths: &mut [u64],
        answers: &mut [u32],
        work: &mut [u8],
    ) -> Reply
        ensures { record { reply = result; out = out.new; lengths = lengths.new; answers = answers.new; work = work.new } ≡ reads_all image.now self.0 paths.now matching out.old lengths.old answers.old work.old }
    {
        let v = self.0;
        let mount = v.mount;
        let root = v.root;
        cue_stacks::stacks::read_all(
            image, mount, root, paths, matching, out, lengths, answers, work,
        )
    }

    // Writes the listing of a directory whose bytes are at hand to the front of out.
    pub fn list_bytes(self, bytes: &[u8], out: &mut [u8]) -> Reply
        ensures { record { reply = result; out = out.new } ≡ lists_bytes self.0 bytes.now out.old }
    {
        let mount = self.0.mount;
        listings::listing::list(mount.is_checked(), bytes, out)
    }

    // The entry that a component names in a directory whose bytes are at hand, by a choice of matching.
    pub fn find_in(self, bytes: &[u8], component: &[u8], matching: Matching) -> Named
        ensures { result ≡ finds_in self.0 bytes.now component.now matching }
    {
        let mount = self.0.mount;
        find(mount.is_checked(), matching, bytes, component)
    }
}

// Opens an image and writes the name in its label, as UTF-8, to the front of out.
pub fn label(image: &[u8], how: How, out: &mut [u8]) -> Reply
    ensures { record { reply = result; out = out.new } ≡ leaves (labels how out.old) image.now }
{
    volumes::labels::label(image, how, out)
}

// Whether the image has a volume recognition sequence.
pub fn probe(image: &[u8]) -> bool
    ensures { result ≡ probed image.now }
{
    probes::probe(image)
}
