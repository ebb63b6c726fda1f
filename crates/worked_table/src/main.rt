// Runs the thirteen cases of the worked table: a line for each. `proofs/Table.antt` proves them of the definitions.
#![tactic(auto)]

use areas::{AdContinuation, AdCursor, AdEnding, ending_of};
use disc::refusals::Refusal;
use names::dstrings::{name_size, put_name};
use programs::lent::front;
use programs::words::{
    end_line, number8, number16, number32, say, say_bytes, say_decimal, say_partition, say_refusal,
};
use records::allocations::ShortAd;
use tags::DescriptorTag;

fn case(n: u64) {
    say_decimal(n);
    say(b":");
}

fn refused(why: Refusal) {
    say_refusal(why);
    end_line();
}

fn show_tag(r: Result<DescriptorTag, Refusal>) {
    match r {
        Err(why) => refused(why),
        Ok(t) => {
            number16(t.id);
            number16(t.descriptor_version);
            number32(t.location);
            end_line();
        }
    }
}

fn tag_with(checksum: u8, reserved: u8) -> [u8; 16] {
    [
        0x02, 0x00, 0x03, 0x00, checksum, reserved, 0, 0, 0, 0, 0, 0, 0x00, 0x01, 0x00, 0x00,
    ]
}

fn tag_case(n: u64, checksum: u8, reserved: u8) {
    case(n);
    let bytes = tag_with(checksum, reserved);
    show_tag(DescriptorTag::parse(&bytes));
}

fn tag_cases() {
    tag_case(1, 0x06, 0x00);
    tag_case(2, 0x07, 0x00);
    tag_case(3, 0x07, 0x01);
    case(4);
    let short = tag_with(0x06, 0x00);
    show_tag(DescriptorTag::parse(&short[0..15]));
    case(5);
    let zeros = [0u8; 16];
    show_tag(DescriptorTag::parse(&zeros));
}

fn show_short(r: Result<ShortAd, Refusal>) {
    match r {
        Err(why) => refused(why),
        Ok(a) => {
            number32(a.length);
            number8(a.extent_type);
            number32(a.block_location);
            end_line();
        }
    }
}

fn show_continuation(a: AdContinuation) {
    say(b" continuation");
    number32(a.length);
    number32(a.block.0);
    let partition = a.partition_ref;
    say_partition(partition);
    end_line();
}

fn show_ending(e: AdEnding) {
    match e {
        AdEnding::End => {
            say(b" ends\n");
        }
        AdEnding::Continuation(a) => show_continuation(a),
        AdEnding::Refused(why) => refused(why),
    }
}

fn allocations() {
    case(6);
    let short = [0x00u8, 0x08, 0x00, 0x40, 0x05, 0x00, 0x00, 0x00];
    show_short(ShortAd::parse(&short));
    case(7);
    let ended = [0x00u8, 0x00, 0x00, 0xc0, 0x07, 0x00, 0x00, 0x00];
    show_ending(ending_of(&ended, 0, AdCursor { at: 0, left: 8 }));
    case(8);
    let continued = [
        0x18u8, 0x00, 0x00, 0xc0, 0x09, 0x00, 0x00, 0x00, 0x01, 0x00, 0, 0, 0, 0, 0, 0,
    ];
    show_ending(ending_of(&continued, 1, AdCursor { at: 0, left: 16 }));
}

fn show_name(s: &[u8], size: Result<usize, Refusal>) {
    match size {
        Err(why) => refused(why),
        Ok(n) => {
            let mut name = [0u8; 3];
            put_name(s, &mut name);
            say_bytes(front(&name, n));
            end_line();
        }
    }
}

fn name_case(n: u64, s: &[u8]) {
    case(n);
    show_name(s, name_size(s));
}

fn name_cases() {
    name_case(9, b"\x08A\x00B");
    name_case(10, b"\x10\x00A\xd8\x00\x00B");
    name_case(11, b"\x10\x00A\x00");
    name_case(12, b"\x08\xe9");
    name_case(13, b"\xfe");
}

fn main() {
    tag_cases();
    allocations();
    name_cases();
}
