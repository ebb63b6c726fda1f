// Bytes that are lent, before a call and after it.
ghost use Rattle.std.specs.Prelude.{◌≡◌, ◌<◌, ◌^◌, length, take, replicate};
ghost use Rattle.programs.specs.Lent.{part_of, summed, all_zero};

// What each byte of lent memory is before a call.
pub const LENT: u8 = 0xa5;

pub fn wide(b: u8) -> u64
    ensures { (result ≡ b) × (result < 2 ^ 8) }
{
    u64::from(b)
}

// The bytes from a to e; none if they aren't all there.
pub fn part(s: &[u8], a: usize, e: usize) -> &[u8]
    ensures { result.now ≡ part_of s.now a e }
{
    s.get(a..e).unwrap_or(&[])
}

// The first n bytes, or all if there are fewer.
pub fn front(s: &[u8], n: usize) -> &[u8]
    ensures { result.now ≡ take n s.now }
{
    &s[..n.min(s.len())]
}

// Fills out with A5: a byte that a call leaves alone is still A5.
pub fn fill(out: &mut [u8])
    ensures { out.new ≡ replicate (length out.old) 0xa5 }
{
    out.fill(LENT);
}

// A sum that depends on where each byte is.
pub fn sum(b: &[u8]) -> u64
    ensures { result ≡ summed 0 b.now }
{
    let mut s = 0;
    for x in b {
        s = (s * 31 + u64::from(*x)) % 4294967296;
    }
    s
}

// Whether every byte is 0.
pub fn is_zero(b: &[u8]) -> bool
    ensures { result ≡ all_zero b.now }
{
    for x in b {
        if *x != 0 {
            return false;
        }
    }
    true
}

// Room for an image of 512 sectors: zeros.
pub fn mebibyte() -> [u8; 1048576]
    ensures value { 1048576 ≡ length result }
    ensures value_2 { result ≡ replicate 1048576 0 }
{
    [0; 1048576]
}

pub fn two_mebibytes() -> [u8; 2097152]
    ensures value { 2097152 ≡ length result }
    ensures value_2 { result ≡ replicate 2097152 0 }
{
    [0; 2097152]
}
