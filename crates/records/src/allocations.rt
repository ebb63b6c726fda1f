// extent_ad, short_ad, lb_addr, long_ad and ext_ad.
ghost use Rattle.std.specs.Prelude.{◌≡◌, ◌+◌, ◌<◌, length};
ghost use Rattle.records.specs.Bytes.{le16, le32, two, six};
ghost use Rattle.records.specs.Allocations.{raw_of, extent_of, read_extent, encode_extent, short_of, read_short, encode_short, read_address, encode_address, long_of, no_long, read_long, encode_long, ext_of, no_ext, read_ext, encode_ext};

use crate::bytes::{byte_at, le16, le32};
use disc::refusals::Refusal;

#[repr(C)]
#[derive(Clone, Copy)]
pub struct ExtentAd {
    pub length: u32,
    pub location: u32,
}

// The extent_ad at `i`; zeros past the end.
pub fn extent_at(s: &[u8], i: usize) -> ExtentAd
    ensures { result ≡ extent_of s.now i }
{
    if s.len() <= i {
        return ExtentAd {
            length: 0,
            location: 0,
        };
    }
    ExtentAd {
        length: le32(s, i),
        location: le32(s, i + 4),
    }
}

impl ExtentAd {
    pub fn parse(s: &[u8]) -> Result<ExtentAd, Refusal>
        ensures { result ≡ read_extent s.now }
    {
        if s.len() < 8 {
            return Err(Refusal::Malformed);
        }
        Ok(extent_at(s, 0))
    }

    pub fn encode(self) -> [u8; 8]
        ensures { result ≡ encode_extent self }
    {
        let [a, b, c, d] = self.length.to_le_bytes();
        let [e, f, g, h] = self.location.to_le_bytes();
        [a, b, c, d, e, f, g, h]
    }
}

// A raw length: 30 bits of the length below 2 of the type.
fn raw_of(length: u32, extent_type: u8) -> u32
    ensures { result ≡ raw_of length extent_type }
{
    length % 0x4000_0000 + (extent_type % 4) as u32 * 0x4000_0000
}

#[repr(C)]
#[derive(Clone, Copy)]
pub struct ShortAd {
    pub length: u32,
    pub extent_type: u8,
    pub block_location: u32,
}

// The short_ad at `i`; zeros past the end.
pub fn short_at(s: &[u8], i: usize) -> ShortAd
    ensures { result ≡ short_of s.now i }
{
    if s.len() <= i {
        return ShortAd {
            length: 0,
            extent_type: 0,
            block_location: 0,
        };
    }
    let raw = le32(s, i);
    ShortAd {
        length: raw % 0x4000_0000,
        extent_type: (raw / 0x4000_0000) as u8,
        block_location: le32(s, i + 4),
    }
}

impl ShortAd {
    pub fn parse(s: &[u8]) -> Result<ShortAd, Refusal>
        ensures { result ≡ read_short s.now }
    {
        if s.len() < 8 {
            return Err(Refusal::Malformed);
        }
        Ok(short_at(s, 0))
    }

    pub fn encode(self) -> [u8; 8]
        ensures { result ≡ encode_short self }
    {
        let [a, b, c, d] = raw_of(self.length, self.extent_type).to_le_bytes();
        let [e, f, g, h] = self.block_location.to_le_bytes();
        [a, b, c, d, e, f, g, h]
    }
}

// A block of a partition.
#[repr(C)]
#[derive(Clone, Copy)]
pub struct LbAddr {
    // Counted from the partition's start.
    pub block: u32,
    // The partition.
    pub partition_ref: u16,
}

impl LbAddr {
    pub fn parse(s: &[u8]) -> Result<LbAddr, Refusal>
        ensures { result ≡ read_address s.now }
    {
        if s.len() < 6 {
            return Err(Refusal::Malformed);
        }
        Ok(LbAddr {
            block: le32(s, 0),
            partition_ref: le16(s, 4),
        })
    }

    pub fn encode(self) -> [u8; 6]
        ensures { result ≡ encode_address self }
    {
        let [a, b, c, d] = self.block.to_le_bytes();
        let [e, f] = self.partition_ref.to_le_bytes();
        [a, b, c, d, e, f]
    }
}

// The place of something on the disc, such as the ICB of a file or a directory.
#[repr(C)]
#[derive(Clone, Copy)]
pub struct LongAd {
    // In bytes; below 2^30 if it was read from a disc.
    pub length: u32,
    // 0 to 3 if it was read from a disc; 0 is recorded.
    pub extent_type: u8,
    // The first block.
    pub location: LbAddr,
    // As recorded.
    pub implementation_use: [u8; 6],
}

// All zeros.
pub fn no_long() -> LongAd
    ensures { result ≡ no_long }
{
    LongAd {
        length: 0,
        extent_type: 0,
        location: LbAddr {
            block: 0,
            partition_ref: 0,
        },
        implementation_use: [0; 6],
    }
}

fn six_at(s: &[u8], i: usize) -> [u8; 6]
    requires { i < length s.now + 20 }
    ensures { result ≡ six s.now i }
{
    [
        byte_at(s, i),
        byte_at(s, i + 1),
        byte_at(s, i + 2),
        byte_at(s, i + 3),
        byte_at(s, i + 4),
        byte_at(s, i + 5),
    ]
}

// The long_ad at `i`; zeros past the end.
pub fn long_at(s: &[u8], i: usize) -> LongAd
    ensures { result ≡ long_of s.now i }
{
    if s.len() <= i {
        return no_long();
    }
    let raw = le32(s, i);
    LongAd {
        length: raw % 0x4000_0000,
        extent_type: (raw / 0x4000_0000) as u8,
        location: LbAddr {
            block: le32(s, i + 4),
            partition_ref: le16(s, i + 8),
        },
        implementation_use: six_at(s, i + 10),
    }
}

impl LongAd {
    pub fn parse(s: &[u8]) -> Result<LongAd, Refusal>
        ensures { result ≡ read_long s.now }
    {
        if s.len() < 16 {
            return Err(Refusal::Malformed);
        }
        Ok(long_at(s, 0))
    }

    pub fn encode(self) -> [u8; 16]
        ensures { result ≡ encode_long self }
    {
        let [a, b, c, d] = raw_of(self.length, self.extent_type).to_le_bytes();
        let [e, f, g, h, i, j] = self.location.encode();
        let [k, l, m, n, o, p] = self.implementation_use;
        [a, b, c, d, e, f, g, h, i, j, k, l, m, n, o, p]
    }
}

#[repr(C)]
#[derive(Clone, Copy)]
pub struct ExtAd {
    pub length: u32,
    pub extent_type: u8,
    // 30 bits of the recorded number.
    pub recorded_length: u32,
    pub information_length: u32,
    pub location: LbAddr,
    pub implementation_use: [u8; 2],
}

// All zeros.
pub fn no_ext() -> ExtAd
    ensures { result ≡ no_ext }
{
    ExtAd {
        length: 0,
        extent_type: 0,
        recorded_length: 0,
        information_length: 0,
        location: LbAddr {
            block: 0,
            partition_ref: 0,
        },
        implementation_use: [0; 2],
    }
}

fn two_at(s: &[u8], i: usize) -> [u8; 2]
    requires { i < length s.now + 20 }
    ensures { result ≡ two s.now i }
{
    [byte_at(s, i), byte_at(s, i + 1)]
}

// The ext_ad at `i`; zeros past the end.
pub fn ext_at(s: &[u8], i: usize) -> ExtAd
    ensures { result ≡ ext_of s.now i }
{
    if s.len() <= i {
        return no_ext();
    }
    let raw = le32(s, i);
    ExtAd {
        length: raw % 0x4000_0000,
        extent_type: (raw / 0x4000_0000) as u8,
        recorded_length: le32(s, i + 4) % 0x4000_0000,
        information_length: le32(s, i + 8),
        location: LbAddr {
            block: le32(s, i + 12),
            partition_ref: le16(s, i + 16),
        },
        implementation_use: two_at(s, i + 18),
    }
}

impl ExtAd {
    pub fn parse(s: &[u8]) -> Result<ExtAd, Refusal>
        ensures { result ≡ read_ext s.now }
    {
        if s.len() < 20 {
            return Err(Refusal::Malformed);
        }
        Ok(ext_at(s, 0))
    }

    pub fn encode(self) -> [u8; 20]
        ensures { result ≡ encode_ext self }
    {
        let [a, b, c, d] = raw_of(self.length, self.extent_type).to_le_bytes();
        let [e, f, g, h] = (self.recorded_length % 0x4000_0000).to_le_bytes();
        let [i, j, k, l] = self.information_length.to_le_bytes();
        let [m, n, o, p, q, r] = self.location.encode();
        let [t, u] = self.implementation_use;
        [a, b, c, d, e, f, g, h, i, j, k, l, m, n, o, p, q, r, t, u]
    }
}
