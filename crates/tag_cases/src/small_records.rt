// extent_ad, short_ad, lb_addr, long_ad, ext_ad and the header of an allocation extent.
use crate::outputs::refused;
use disc::refusals::Refusal;
use records::allocations::{ExtAd, ExtentAd, LbAddr, LongAd, ShortAd};
use std::io;
use tags::{AllocationExtentDescriptor, DescriptorTag};

fn show_extent(rt: &impl Print, r: Result<ExtentAd, Refusal>) -> io::Result<()> {
    print!(rt; "extent_ad")?;
    match r {
        Err(why) => refused(rt, why),
        Ok(a) => println!(rt; " {} {}", a.length, a.location),
    }
}

fn show_short(rt: &impl Print, r: Result<ShortAd, Refusal>) -> io::Result<()> {
    print!(rt; "short_ad")?;
    match r {
        Err(why) => refused(rt, why),
        Ok(a) => println!(rt; " {} {} {}", a.length, a.extent_type, a.block_location),
    }
}

fn show_address(rt: &impl Print, a: LbAddr) -> io::Result<()> {
    print!(rt; " {} {}", a.block, a.partition_ref)
}

fn show_lb_addr(rt: &impl Print, r: Result<LbAddr, Refusal>) -> io::Result<()> {
    print!(rt; "lb_addr")?;
    match r {
        Err(why) => refused(rt, why),
        Ok(a) => {
            show_address(rt, a)?;
            println!(rt)
        }
    }
}

fn show_long(rt: &impl Print, r: Result<LongAd, Refusal>) -> io::Result<()> {
    print!(rt; "long_ad")?;
    match r {
        Err(why) => refused(rt, why),
        Ok(a) => {
            let used = a.implementation_use;
            print!(rt; " {} {}", a.length, a.extent_type)?;
            show_address(rt, a.location)?;
            println!(rt; " {} {}", used[0], used[5])
        }
    }
}

fn show_ext(rt: &impl Print, r: Result<ExtAd, Refusal>) -> io::Result<()> {
    print!(rt; "ext_ad")?;
    match r {
        Err(why) => refused(rt, why),
        Ok(a) => {
            let used = a.implementation_use;
            print!(rt;
                " {} {} {} {}",
                a.length, a.extent_type, a.recorded_length, a.information_length
            )?;
            show_address(rt, a.location)?;
            println!(rt; " {} {}", used[0], used[1])
        }
    }
}

// Twenty-four bytes, all different; the raw length in front has type 2.
fn some_bytes() -> [u8; 24] {
    [
        0x11, 0x12, 0x13, 0x94, 0x15, 0x16, 0x17, 0x18, 0x19, 0x1a, 0x1b, 0x1c, 0x1d, 0x1e, 0x1f,
        0x20, 0x21, 0x22, 0x23, 0x24, 0x25, 0x26, 0x27, 0x28,
    ]
}

fn block_sizes(rt: &impl Print) -> io::Result<()> {
    let s = some_bytes();
    show_extent(rt, ExtentAd::parse(&s[0..7]))?;
    show_extent(rt, ExtentAd::parse(&s[0..8]))?;
    show_short(rt, ShortAd::parse(&s[0..7]))?;
    show_short(rt, ShortAd::parse(&s[0..8]))
}

fn address_sizes(rt: &impl Print) -> io::Result<()> {
    let s = some_bytes();
    show_lb_addr(rt, LbAddr::parse(&s[0..5]))?;
    show_lb_addr(rt, LbAddr::parse(&s[0..6]))?;
    show_long(rt, LongAd::parse(&s[0..15]))?;
    show_long(rt, LongAd::parse(&s[0..16]))
}

fn ext_sizes(rt: &impl Print) -> io::Result<()> {
    let s = some_bytes();
    show_ext(rt, ExtAd::parse(&s[0..19]))?;
    show_ext(rt, ExtAd::parse(&s[0..20]))
}

// Each record one byte short, and whole; then case 6 of the worked table.
pub(crate) fn sizes(rt: &impl Print) -> io::Result<()> {
    block_sizes(rt)?;
    address_sizes(rt)?;
    ext_sizes(rt)?;
    let case_6 = [0x00u8, 0x08, 0x00, 0x40, 0x05, 0x00, 0x00, 0x00];
    show_short(rt, ShortAd::parse(&case_6))
}

fn header_with(id: u16) -> AllocationExtentDescriptor {
    AllocationExtentDescriptor {
        tag: DescriptorTag {
            id,
            descriptor_version: 3,
            serial_number: 1,
            crc: 2,
            crc_length: 8,
            location: 77,
        },
        previous_allocation_extent_location: 4294967295,
        length_of_allocation_descriptors: 2024,
    }
}

fn show_header(rt: &impl Print, r: Result<AllocationExtentDescriptor, Refusal>) -> io::Result<()> {
    print!(rt; "header")?;
    match r {
        Err(why) => refused(rt, why),
        Ok(a) => println!(rt;
            " {} {} {} {}",
            a.tag.id,
            a.tag.location,
            a.previous_allocation_extent_location,
            a.length_of_allocation_descriptors
        ),
    }
}

fn bad_header(rt: &impl Print) -> io::Result<()> {
    let mut bytes = header_with(258).encode();
    bytes[4] = 0;
    show_header(rt, AllocationExtentDescriptor::parse(false, &bytes))
}

// A header of 24 bytes, one byte short, with other ids, and with a bad checksum.
pub(crate) fn headers(rt: &impl Print) -> io::Result<()> {
    let good = header_with(258).encode();
    show_header(rt, AllocationExtentDescriptor::parse(false, &good))?;
    show_header(rt, AllocationExtentDescriptor::parse(false, &good[0..23]))?;
    let other = header_with(257).encode();
    show_header(rt, AllocationExtentDescriptor::parse(false, &other))?;
    let unlisted = header_with(267).encode();
    show_header(rt, AllocationExtentDescriptor::parse(false, &unlisted))?;
    bad_header(rt)
}

// What encoding keeps: 30 bits of a length and of a recorded length, 2 bits of a type.
pub(crate) fn kept(rt: &impl Print) -> io::Result<()> {
    let short = ShortAd {
        length: 0xc000_0801,
        extent_type: 7,
        block_location: 9,
    };
    show_short(rt, ShortAd::parse(&short.encode()))?;
    let ext = ExtAd {
        length: 0xffff_ffff,
        extent_type: 4,
        recorded_length: 0x8000_0005,
        information_length: 0x8000_0005,
        location: LbAddr {
            block: 10,
            partition_ref: 11,
        },
        implementation_use: [12, 13],
    };
    show_ext(rt, ExtAd::parse(&ext.encode()))
}
