// Names: d-strings and d-string fields as UTF-8.
//
// Decodes the name of a d-string, which is the whole of `bytes`, or of a d-string field, whose last byte gives the
// length of its d-string. The name goes to the front of `out` as UTF-8, with no terminating zero; `length` is its
// length.
ghost use Rattle.std.specs.Prelude.{◌≡◌};
ghost use Rattle.names.specs.Names.{name_of, name_of_field};
ghost use Rattle.records_c.specs.Decoded.{decoded};

use names::dstrings::write_name;
use names::fields::write_field;

// The answer, and how many bytes were written; 0 if it is a refusal.
#[repr(C)]
#[derive(Clone, Copy)]
pub struct Written {
    pub answer: u64,
    pub length: u64,
}

// Writes the name of the d-string to the front of `out`.
#[unsafe(no_mangle)]
pub extern "C" fn records_decode_dstring(bytes: &[u8], out: &mut [u8]) -> Written
    ensures { record { answer = result.answer; length = result.length; out = out.new } ≡ decoded (name_of bytes.now) out.old }
{
    let r = write_name(bytes, out);
    Written {
        answer: r.answer,
        length: r.length,
    }
}

// Writes the name in the d-string field to the front of `out`.
#[unsafe(no_mangle)]
pub extern "C" fn records_decode_dstring_field(bytes: &[u8], out: &mut [u8]) -> Written
    ensures { record { answer = result.answer; length = result.length; out = out.new } ≡ decoded (name_of_field bytes.now) out.old }
{
    let r = write_field(bytes, out);
    Written {
        answer: r.answer,
        length: r.length,
    }
}
