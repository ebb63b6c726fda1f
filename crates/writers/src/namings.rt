// The names of the files, each ended by a zero byte.
ghost use Rattle.std.specs.Prelude.{◌≡◌, ◌≤◌, length};
ghost use Rattle.std.specs.Iterator.{YieldsFirstRef, item_count};
ghost use Rattle.names.specs.Names.{until_zero, lower, same_name};
ghost use Rattle.writers.specs.Layout.{identifier_size};
ghost use Rattle.writers.specs.Refusing.{names_in, is_ended, is_plain, is_good, is_among, good_names};
ghost use Rattle.writers.specs.Inner.Pours.{Sized};

use names::matching::{Fold, same_byte};

// What is left of the names. The last one may lack its zero byte.
#[derive(Clone, Copy)]
pub(crate) struct Names<'a>(pub(crate) &'a [u8]);

impl<'a> Iterator for Names<'a> {
    type Item = &'a [u8];

    ghost next_gives = { YieldsFirstRef (λ s. names_in s.0.now) };

    ghost remaining = { item_count (λ s. names_in s.0.now) };

    fn next(&mut self) -> Option<&'a [u8]> {
        if self.0.is_empty() {
            return None;
        }
        let end = name_end(self.0);
        let name = &self.0[..end];
        self.0 = &self.0[self.0.len().min(end + 1)..];
        Some(name)
    }
}

// Where the first name ends.
fn name_end(names: &[u8]) -> usize
    ensures is { result ≡ length (until_zero names.now) }
    ensures within { result ≤ length names.now }
{
    names.iter().position(|b| *b == 0).unwrap_or(names.len())
}

// How many names there are.
pub(crate) fn count_of(names: &[u8]) -> usize
    ensures { result ≡ length (names_in names.now) }
{
    Names(names).count()
}

// The bytes of a file's identifier, which is filled up to whole fours.
pub(crate) fn identifier_size(name: usize) -> usize
    requires { name ≤ 127 }
    ensures { result ≡ identifier_size name }
{
    (39 + name).next_multiple_of(4)
}

// The bytes of the directory, of 64 names of 127 bytes at most.
pub(crate) fn directory_size(names: &[u8]) -> usize
    ensures { Sized names.now result }
{
    let mut size = 40;
    for name in Names(names).take(64) {
        size += identifier_size(name.len().min(127));
    }
    size
}

// A byte of a name.
fn is_plain(b: u8) -> bool
    ensures { result ≡ is_plain b }
{
    b.is_ascii_graphic() && b != b'/'
}

// Whether a name is 1 to 127 bytes of 21 to 7E without 2F.
fn is_good(name: &[u8]) -> bool
    ensures { result ≡ is_good name.now }
{
    (1..=127).contains(&name.len()) && name.iter().all(|b| is_plain(*b))
}

// Whether two names are equal with ASCII case ignored.
fn is_same(a: &[u8], b: &[u8]) -> bool
    ensures { result ≡ same_name lower a.now b.now }
{
    a.len() == b.len() && a.iter().zip(b).all(|(x, y)| same_byte(Fold::Lower, *x, *y))
}

// Whether a name stands among others.
fn is_among(name: &[u8], others: &[u8]) -> bool
    ensures { result ≡ is_among name.now (names_in others.now) }
{
    Names(others).any(|other| is_same(name, other))
}

// Whether the last name has its zero byte.
fn is_ended(names: &[u8]) -> bool
    ensures { result ≡ is_ended names.now }
{
    names.last().is_none_or(|b| *b == 0)
}

// Whether every name is good, has its zero byte, and stands there once with ASCII case ignored. It is compared with each name behind it: n names take
// n (n - 1) / 2 comparisons, of which each goes over the bytes from the one name to the other once. A vault has 64 names at most, but more are looked
// at too, since a bad name is refused before their number.
pub(crate) fn are_good(names: &[u8]) -> bool
    ensures { result ≡ good_names names.now }
{
    if !is_ended(names) {
        return false;
    }
    let mut left = Names(names);
    // No `for`: what is left is read inside.
    while let Some(name) = left.next() {
        if !is_good(name) || is_among(name, left.0) {
            return false;
        }
    }
    true
}
