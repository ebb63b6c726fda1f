// Volume structure descriptors: what the recognition probe finds in one sector.
ghost use Rattle.std.specs.Prelude.{◌≡◌};
ghost use Rattle.records.specs.Bytes.{six};
ghost use Rattle.descriptors.specs.Recognition.{identified, nsr, other, identity_of, structure_of};

use records::bytes::byte_at;

#[derive(Clone, Copy)]
pub enum Structure {
    // BEA01.
    Beginning,
    // NSR02 or NSR03.
    Nsr,
    // TEA01.
    Terminating,
    // CD001 or CDW02: another file system's, which the probe passes over.
    Other,
    Unknown,
}

// The first six bytes, each fetched once.
fn fetch(s: &[u8]) -> [u8; 6]
    ensures { result ≡ six s.now 0 }
{
    [
        byte_at(s, 0),
        byte_at(s, 1),
        byte_at(s, 2),
        byte_at(s, 3),
        byte_at(s, 4),
        byte_at(s, 5),
    ]
}

// Whether bytes 1 to 5 are these.
fn is_identified(s: &[u8], a: u8, b: u8, c: u8, d: u8, e: u8) -> bool
    ensures { result ≡ identified s.now a b c d e }
{
    (byte_at(s, 1) == a)
        & (byte_at(s, 2) == b)
        & (byte_at(s, 3) == c)
        & (byte_at(s, 4) == d)
        & (byte_at(s, 5) == e)
}

fn is_nsr(s: &[u8]) -> bool
    ensures { result ≡ nsr s.now }
{
    is_identified(s, b'N', b'S', b'R', b'0', b'2') | is_identified(s, b'N', b'S', b'R', b'0', b'3')
}

fn is_other(s: &[u8]) -> bool
    ensures { result ≡ other s.now }
{
    is_identified(s, b'C', b'D', b'0', b'0', b'1') | is_identified(s, b'C', b'D', b'W', b'0', b'2')
}

fn identity_of(s: &[u8]) -> Structure
    ensures { result ≡ identity_of s.now }
{
    if is_identified(s, b'B', b'E', b'A', b'0', b'1') {
        return Structure::Beginning;
    }
    if is_nsr(s) {
        return Structure::Nsr;
    }
    if is_identified(s, b'T', b'E', b'A', b'0', b'1') {
        return Structure::Terminating;
    }
    if is_other(s) {
        return Structure::Other;
    }
    Structure::Unknown
}

// What the sector `s` is. Its first byte, the structure type, must be 0.
pub fn structure_of(s: &[u8]) -> Structure
    ensures { result ≡ structure_of s.now }
{
    let fetched = fetch(s);
    if fetched[0] != 0 {
        return Structure::Unknown;
    }
    identity_of(&fetched)
}
