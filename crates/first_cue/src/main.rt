// The example of docs/GUIDE.md: opens the image on standard input, which is kept sparse, looks cue 10.1A up and prints it.
#![tactic(auto)]

use listings::matchings::Matching;
use programs::lent::{front, mebibyte};
use programs::words::{end_line, say, say_refused};
use sparse::expand;
use vault::volume::Volume;
use volumes::openings::How;

fn refuse(call: &[u8], answer: u64) {
    say(call);
    say_refused(answer);
    end_line();
}

fn print_cue(image: &[u8], path: &[u8], work: &mut [u8], out: &mut [u8]) {
    let opened = Volume::open(image, How::usual());
    if opened.answer != 0 {
        return refuse(b"open", opened.answer);
    }
    let record = opened.volume;
    let volume = Volume(record);
    let cue = volume.lookup(image, path, Matching::AsWritten, work);
    if cue.answer != 0 {
        return refuse(b"lookup", cue.answer);
    }
    let icb = cue.icb;
    let read = volume.read(image, icb, out);
    if read.answer != 0 {
        return refuse(b"read", read.answer);
    }
    say(front(out, read.length as usize));
}

fn main() {
    let mut packed: [u8; 4096] = [0; 4096];
    let mut work: [u8; 2048] = [0; 2048];
    let mut out: [u8; 2048] = [0; 2048];
    let n = io::read_full(0, &mut packed);
    let mut image = mebibyte();
    let size = expand(front(&packed, n), &mut image);
    print_cue(front(&image, size), b"SHOW/10.1A", &mut work, &mut out);
}
