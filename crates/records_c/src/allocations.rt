// Allocation descriptors: extent_ad, short_ad, lb_addr, long_ad and ext_ad.
//
// A raw length has 30 bits of length below 2 bits of type. Encoding keeps that many bits of each, and 30 bits of an
// ext_ad's recorded length.
ghost use Rattle.std.specs.Prelude.{◌≡◌};
ghost use Rattle.records.specs.Allocations.{read_extent, encode_extent, read_short, encode_short, read_address, encode_address, read_long, encode_long, read_ext, encode_ext};
ghost use Rattle.records.specs.Answers.{extent_answer, short_answer, address_answer, long_answer, ext_answer};

use crate::answers::told;
use records::allocations::{ExtAd, ExtentAd, LbAddr, LongAd, ShortAd, no_ext, no_long};

// An array can't be returned to C by value, a struct that holds one can.
#[repr(C)]
#[derive(Clone, Copy)]
pub struct ExtentBytes {
    pub bytes: [u8; 8],
}

#[repr(C)]
#[derive(Clone, Copy)]
pub struct ShortBytes {
    pub bytes: [u8; 8],
}

#[repr(C)]
#[derive(Clone, Copy)]
pub struct AddressBytes {
    pub bytes: [u8; 6],
}

#[repr(C)]
#[derive(Clone, Copy)]
pub struct LongBytes {
    pub bytes: [u8; 16],
}

#[repr(C)]
#[derive(Clone, Copy)]
pub struct ExtBytes {
    pub bytes: [u8; 20],
}

// An enum can't cross: the number and the value, zeros where it is a refusal.
#[repr(C)]
#[derive(Clone, Copy)]
pub struct ExtentAnswer {
    pub answer: u64,
    pub value: ExtentAd,
}

#[repr(C)]
#[derive(Clone, Copy)]
pub struct ShortAnswer {
    pub answer: u64,
    pub value: ShortAd,
}

#[repr(C)]
#[derive(Clone, Copy)]
pub struct AddressAnswer {
    pub answer: u64,
    pub value: LbAddr,
}

#[repr(C)]
#[derive(Clone, Copy)]
pub struct LongAnswer {
    pub answer: u64,
    pub value: LongAd,
}

#[repr(C)]
#[derive(Clone, Copy)]
pub struct ExtAnswer {
    pub answer: u64,
    pub value: ExtAd,
}

#[unsafe(no_mangle)]
pub extern "C" fn records_parse_extent_ad(bytes: &[u8]) -> ExtentAnswer
    ensures { record { number = result.answer; value = result.value } ≡ extent_answer (read_extent bytes.now) }
{
    let (answer, value) = told(
        ExtentAd::parse(bytes),
        ExtentAd {
            length: 0,
            location: 0,
        },
    );
    ExtentAnswer { answer, value }
}

#[unsafe(no_mangle)]
pub extern "C" fn records_encode_extent_ad(value: ExtentAd) -> ExtentBytes
    ensures { result.bytes ≡ encode_extent value }
{
    ExtentBytes {
        bytes: value.encode(),
    }
}

#[unsafe(no_mangle)]
pub extern "C" fn records_parse_short_ad(bytes: &[u8]) -> ShortAnswer
    ensures { record { number = result.answer; value = result.value } ≡ short_answer (read_short bytes.now) }
{
    let (answer, value) = told(
        ShortAd::parse(bytes),
        ShortAd {
            length: 0,
            extent_type: 0,
            block_location: 0,
        },
    );
    ShortAnswer { answer, value }
}

#[unsafe(no_mangle)]
pub extern "C" fn records_encode_short_ad(value: ShortAd) -> ShortBytes
    ensures { result.bytes ≡ encode_short value }
{
    ShortBytes {
        bytes: value.encode(),
    }
}

#[unsafe(no_mangle)]
pub extern "C" fn records_parse_lb_addr(bytes: &[u8]) -> AddressAnswer
    ensures { record { number = result.answer; value = result.value } ≡ address_answer (read_address bytes.now) }
{
    let (answer, value) = told(
        LbAddr::parse(bytes),
        LbAddr {
            block: 0,
            partition_ref: 0,
        },
    );
    AddressAnswer { answer, value }
}

#[unsafe(no_mangle)]
pub extern "C" fn records_encode_lb_addr(value: LbAddr) -> AddressBytes
    ensures { result.bytes ≡ encode_address value }
{
    AddressBytes {
        bytes: value.encode(),
    }
}

#[unsafe(no_mangle)]
pub extern "C" fn records_parse_long_ad(bytes: &[u8]) -> LongAnswer
    ensures { record { number = result.answer; value = result.value } ≡ long_answer (read_long bytes.now) }
{
    let (answer, value) = told(LongAd::parse(bytes), no_long());
    LongAnswer { answer, value }
}

#[unsafe(no_mangle)]
pub extern "C" fn records_encode_long_ad(value: LongAd) -> LongBytes
    ensures { result.bytes ≡ encode_long value }
{
    LongBytes {
        bytes: value.encode(),
    }
}

#[unsafe(no_mangle)]
pub extern "C" fn records_parse_ext_ad(bytes: &[u8]) -> ExtAnswer
    ensures { record { number = result.answer; value = result.value } ≡ ext_answer (read_ext bytes.now) }
{
    let (answer, value) = told(ExtAd::parse(bytes), no_ext());
    ExtAnswer { answer, value }
}

#[unsafe(no_mangle)]
pub extern "C" fn records_encode_ext_ad(value: ExtAd) -> ExtBytes
    ensures { result.bytes ≡ encode_ext value }
{
    ExtBytes {
        bytes: value.encode(),
    }
}
