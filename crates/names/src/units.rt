// One unit of a d-string's body: read, measured as UTF-8, and written.
ghost use Rattle.std.specs.Prelude.{◌≡◌, ◌+◌, ◌≤◌, ◌<◌, length, set};
ghost use Rattle.names.specs.Names.{surrogate};
ghost use Rattle.names.specs.Inner.Units.{WroteAt, unit_at, unit_bytes};

// The unit at `at`: a byte, or two bytes with the higher first.
pub(crate) fn unit(s: &[u8], at: usize, step: usize) -> u16
    requires { (at + step ≤ length s.now) × (1 ≤ step) }
    ensures { result ≡ unit_at s.now at step }
{
    if step == 2 {
        return u16::from_be_bytes([s[at], s[at + 1]]);
    }
    s[at] as u16
}

pub(crate) fn surrogate(u: u16) -> bool
    ensures { result ≡ surrogate u }
{
    if u < 0xd800 {
        return false;
    }
    u < 0xe000
}

// How many bytes of UTF-8 the unit u, which isn't 0, takes: none if it is a surrogate. ASCII comes first, since most
// names have nothing else.
pub(crate) fn unit_size(u: u16) -> usize
    ensures { result ≡ length (unit_bytes u) }
{
    if u < 0x80 {
        return 1;
    }
    if surrogate(u) {
        return 0;
    }
    if u < 0x800 {
        return 2;
    }
    3
}

// Stores one byte; past the end nothing changes, so a caller needs no room.
fn store(out: &mut [u8], at: usize, b: u8)
    ensures { out.new ≡ set out.old at b }
{
    if at < out.len() {
        out[at] = b;
    }
}

// Writes the UTF-8 of u from `at` on, and returns where it ends.
pub(crate) fn put(out: &mut [u8], at: usize, u: u16) -> usize
    requires { at + 3 < 0x1_0000_0000_0000_0000 }
    ensures { WroteAt at (unit_bytes u) out.old out.new result }
{
    if surrogate(u) {
        return at;
    }
    if u < 0x80 {
        store(out, at, u as u8);
        return at + 1;
    }
    if u < 0x800 {
        store(out, at, (0xc0 + u / 64) as u8);
        store(out, at + 1, (0x80 + u % 64) as u8);
        return at + 2;
    }
    store(out, at, (0xe0 + u / 4096) as u8);
    store(out, at + 1, (0x80 + u / 64 % 64) as u8);
    store(out, at + 2, (0x80 + u % 64) as u8);
    at + 3
}
