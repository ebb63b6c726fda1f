// Little-endian numbers in bytes. A byte past the end reads as 0, so nothing is required of a caller.
ghost use Rattle.std.specs.Prelude.{◌≡◌, ◌+◌, ◌*◌};
ghost use Rattle.records.specs.Bytes.{byte, u16at, u32at, u64at};

fn pair(a: u8, b: u8) -> u16
    ensures { result ≡ a + b * 256 }
{
    u16::from_le_bytes([a, b])
}

fn quad(a: u8, b: u8, c: u8, d: u8) -> u32
    ensures { result ≡ a + b * 256 + c * 65536 + d * 16777216 }
{
    u32::from_le_bytes([a, b, c, d])
}

fn join(low: u32, high: u32) -> u64
    ensures { result ≡ low + high * 0x1_0000_0000 }
{
    low as u64 + high as u64 * 0x1_0000_0000
}

// The byte at `i`.
pub fn byte_at(s: &[u8], i: usize) -> u8
    ensures { result ≡ byte s.now i }
{
    if s.len() <= i {
        return 0;
    }
    s[i]
}

// The number of the two bytes at `i`.
pub fn le16(s: &[u8], i: usize) -> u16
    ensures { result ≡ u16at s.now i }
{
    if s.len() <= i {
        return 0;
    }
    pair(s[i], byte_at(s, i + 1))
}

// The number of the four bytes at `i`.
pub fn le32(s: &[u8], i: usize) -> u32
    ensures { result ≡ u32at s.now i }
{
    if s.len() <= i {
        return 0;
    }
    quad(
        s[i],
        byte_at(s, i + 1),
        byte_at(s, i + 2),
        byte_at(s, i + 3),
    )
}

// The number of the eight bytes at `i`.
pub fn le64(s: &[u8], i: usize) -> u64
    ensures { result ≡ u64at s.now i }
{
    if s.len() <= i {
        return 0;
    }
    join(le32(s, i), le32(s, i + 4))
}
