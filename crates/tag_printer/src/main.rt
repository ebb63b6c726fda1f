// Prints the descriptor tag at the front of standard input, of which at most 2,048 bytes are read.
#![tactic(auto)]

use disc::refusals::Refusal;
use programs::words::{end_line, number16, number32, say_decimal, say_named, say_text};
use tags::DescriptorTag;

fn show(t: DescriptorTag) {
    say_decimal(u64::from(t.id));
    number16(t.descriptor_version);
    number16(t.serial_number);
    number16(t.crc);
    number16(t.crc_length);
    number32(t.location);
    end_line();
}

fn refuse(why: Refusal) {
    say_named(b"refused ", why.number());
    end_line();
}

fn answer(r: Result<DescriptorTag, Refusal>) {
    match r {
        Ok(t) => show(t),
        Err(why) => refuse(why),
    }
}

fn main() {
    let mut input = [0u8; 2048];
    let n = io::read_full(0, &mut input);
    say_text(b"id", b" version serial crc crclen location");
    end_line();
    answer(DescriptorTag::parse(&input[..n]));
}
