// Figures over files, directories and images, in the places of a lent row: each figure is two numbers, itself, held at 2^64 - 1, and whether it is over that.
#![tactic(auto)]

ghost use Rattle.std.specs.Prelude.{◌≡◌, ◌++◌, ◌+◌, ◌*◌, ◌≤◌, max, min, length, get_or, take, drop, replicate};
ghost use Rattle.std.proofs.lemmas.List.Edits.{sets};
ghost use Rattle.figures.specs.Figures.{summed, greater, places_added, sums, total_of, totaled, total_answer};
ghost use Rattle.figures.specs.Placed.{with_directory, with_file, with_image};

use disc::answers::{BAD_SHELF, DONE};

// How many numbers a place has, two for each of 40 figures: files, directories, bytes, extents, sectors, files by their answer number, images by
// theirs, and the longest chain.
pub const PLACE: usize = 80;

// Where each figure is in a place.
pub const FILES: usize = 0;

pub const DIRECTORIES: usize = 2;

pub const BYTES: usize = 4;

pub const EXTENTS: usize = 6;

pub const SECTORS: usize = 8;

pub const FILES_BY_ANSWER: usize = 10;

pub const IMAGES_BY_ANSWER: usize = 44;

pub const CHAIN: usize = 78;

// How many of the figures are sums: all before the longest chain.
const SUMS: usize = 39;

const MOST: u64 = 0xffff_ffff_ffff_ffff;

// The highest answer number.
const MOST_ANSWER: u64 = 16;

// The sum of two figures with their overflow marks.
fn sum(number: u64, over: u64, more: u64, more_over: u64) -> [u64; 2]
    ensures { result ≡ summed number over more more_over }
{
    if over != 0 {
        return [MOST, 1];
    }
    if more_over != 0 {
        return [MOST, 1];
    }
    if MOST - number < more {
        return [MOST, 1];
    }
    [number + more, 0]
}

// The greater of two figures with their overflow marks.
fn longer(number: u64, over: u64, more: u64, more_over: u64) -> [u64; 2]
    ensures { result ≡ greater number over more more_over }
{
    if over != 0 {
        return [MOST, 1];
    }
    if more_over != 0 {
        return [MOST, 1];
    }
    [number.max(more), 0]
}

// Adds a figure to the one at `at`.
fn add_sum(place: &mut [u64], at: usize, more: u64, over: u64)
    requires { at + 2 ≤ length place.old }
    ensures { place.new ≡ sets place.old at (summed (get_or place.old at 0) (get_or place.old (at + 1) 0) more over) }
{
    let s = sum(place[at], place[at + 1], more, over);
    place[at] = s[0];
    place[at + 1] = s[1];
}

// Replaces the figure at `at` if another one is greater.
fn add_longer(place: &mut [u64], at: usize, more: u64, over: u64)
    requires { at + 2 ≤ length place.old }
    ensures { place.new ≡ sets place.old at (greater (get_or place.old at 0) (get_or place.old (at + 1) 0) more over) }
{
    let s = longer(place[at], place[at + 1], more, over);
    place[at] = s[0];
    place[at + 1] = s[1];
}

// Adds a directory to the figures of a place. A slice of another length is no place, and stays as it is.
pub fn add_directory(place: &mut [u64])
    ensures { place.new ≡ with_directory place.old }
{
    if place.len() != PLACE {
        return;
    }
    add_sum(place, DIRECTORIES, 1, 0);
}

// Adds a file to the figures of a place.
fn add_sizes(place: &mut [u64], answer: u64, bytes: u64, extents: u64, sectors: u64, chain: u64)
    requires { (length place.old ≡ 80) × (answer ≤ 16) }
    ensures { place.new ≡ with_file answer bytes extents sectors chain place.old }
{
    add_sum(place, FILES, 1, 0);
    add_sum(place, BYTES, bytes, 0);
    add_sum(place, EXTENTS, extents, 0);
    add_sum(place, SECTORS, sectors, 0);
    add_sum(place, FILES_BY_ANSWER + 2 * answer as usize, 1, 0);
    add_longer(place, CHAIN, chain, 0);
}

// Adds a file by its answer number and what reading it comes to. No answer number is over 16; one that was would
// count as 16.
pub fn add_file(place: &mut [u64], answer: u64, bytes: u64, extents: u64, sectors: u64, chain: u64)
    ensures { place.new ≡ with_file (min answer 16) bytes extents sectors chain place.old }
{
    if place.len() != PLACE {
        return;
    }
    let under = answer.min(MOST_ANSWER);
    add_sizes(place, under, bytes, extents, sectors, chain);
}

// The sectors counted in a place, capped at 2^64 - 1; 0 if the slice is too short for them.
pub fn sectors_in(place: &[u64]) -> u64
    ensures { result ≡ get_or place.now 8 0 }
{
    if place.len() <= SECTORS {
        return 0;
    }
    place[SECTORS]
}

// Adds an image by its answer number, in the same way.
pub fn add_image(place: &mut [u64], answer: u64)
    ensures { place.new ≡ with_image (min answer 16) place.old }
{
    if place.len() != PLACE {
        return;
    }
    let under = answer.min(MOST_ANSWER);
    add_sum(place, IMAGES_BY_ANSWER + 2 * under as usize, 1, 0);
}

// ---- places added up

// Adds the figures of the place at `from` to those of the place at `to`, which comes later.
fn add_place(places: &mut [u64], to: usize, from: usize)
    requires { (from + 80 ≤ to) × (to + 80 ≤ length places.old) }
    ensures { places.new ≡ sets places.old to (places_added sums (take 80 (drop to places.old)) (take 80 (drop from places.old))) }
{
    for k in 0..SUMS {
        let number = places[from + 2 * k];
        let over = places[from + 2 * k + 1];
        add_sum(places, to + 2 * k, number, over);
    }
    let chain = places[from + CHAIN];
    let over = places[from + CHAIN + 1];
    add_longer(places, to + CHAIN, chain, over);
}

// Adds the first n places to the one after them.
fn add_places(places: &mut [u64], n: usize)
    requires { 80 * (n + 1) ≤ length places.old }
    ensures { places.new ≡ take (80 * n) places.old ++ total_of n (take 80 (drop (80 * n) places.old)) places.old ++ drop (80 * (n + 1)) places.old }
{
    for i in 0..n {
        add_place(places, PLACE * n, PLACE * i);
    }
}

// Zeroes the figures.
pub fn clear_figures(place: &mut [u64])
    ensures { place.new ≡ replicate (length place.old) 0 }
{
    place.fill(0);
}

// Writes the total of the first n places to the one after them, or answers 15 if there are too few places.
pub fn total(places: &mut [u64], n: usize) -> u64
    ensures { (result ≡ total_answer n places.old) × (places.new ≡ totaled n places.old) }
{
    if places.len() / PLACE <= n {
        return BAD_SHELF;
    }
    let to = PLACE * n;
    let end = to + PLACE;
    clear_figures(&mut places[to..end]);
    add_places(places, n);
    DONE
}
