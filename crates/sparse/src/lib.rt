// Images kept sparse: the bytes of an image that hold something, for the programs of the gate.
//
// A packed image is, with numbers of 32 bits, little-endian: the image's length, the number of runs, and then each run: where in the
// image it stands, how many bytes it has, and those bytes. Every other byte of the image is 0.
#![tactic(auto)]

ghost use Rattle.std.specs.Prelude.{◌≡◌};
ghost use Rattle.records.specs.Bytes.{u32at};
ghost use Rattle.sparse.specs.Runs.{laid, run_end, laid_runs, Expanded};

use disc::moves::{clear, copy};
use records::bytes::le32;

// Where the run at i, with its head of 8 bytes, ends; 0 if it isn't whole.
fn run_end(packed: &[u8], i: usize) -> usize
    ensures { result ≡ run_end packed.now i }
{
    if packed.len() <= i {
        return 0;
    }
    let rest = packed.len() - i;
    if rest < 8 {
        return 0;
    }
    let n = le32(packed, i + 4) as usize;
    if rest - 8 < n {
        return 0;
    }
    i + 8 + n
}

// Lays a run over the image from `at` on; what has no room there is left out.
fn lay(run: &[u8], at: u32, image: &mut [u8])
    ensures { image.new ≡ laid run.now at image.old }
{
    let from = at as usize;
    if image.len() < from {
        return;
    }
    copy(run, &mut image[from..]);
}

// Lays the runs of a packed image over another image.
pub fn lay_runs(packed: &[u8], image: &mut [u8])
    ensures { image.new ≡ laid_runs (u32at packed.now 4) packed.now 8 image.old }
{
    let n = le32(packed, 4);
    let mut i = 8;
    for _ in 0..n {
        let end = run_end(packed, i);
        if end == 0 {
            return;
        }
        let from = i + 8;
        lay(&packed[from..end], le32(packed, i), image);
        i = end;
    }
}

// Makes the image that was packed, and returns its length, or that of `image` if there is no room for all of it.
pub fn expand(packed: &[u8], image: &mut [u8]) -> usize
    ensures { Expanded packed.now image.old image.new result }
{
    let n = (le32(packed, 0) as usize).min(image.len());
    clear(image);
    lay_runs(packed, image);
    n
}
