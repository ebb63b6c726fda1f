// Writing: a complete image of up to 64 files in one directory, made from a staging area in memory that is lent.
// docs/LAYOUT.md describes every sector of it.
//
// A refusal here has no sectors and leaves `image` unchanged. `names` and `lengths` are read more than once and must
// not change during a call: what is said above of an image that changes does not hold for them. If `staging` changes
// during the call, the bytes of the files may be mixed, and nothing else.
ghost use Rattle.std.specs.Prelude.{◌≡◌};
ghost use Rattle.writers.specs.Refusing.{total_of, writes};

use writers::WriteReply;

// Returns how many sectors of 2,048 bytes the image of these files has. `names` holds their names, each terminated by a
// zero byte, and `lengths` the number of bytes of each. A name has 1 to 127 bytes from 21 to 7E, without 2F. Any other
// name, a rest without its zero byte, and two names that are equal with ASCII case ignored are VAULT_BAD_NAME. More
// than 64 files, different numbers of names and lengths, and a file of more than 1,073,739,776 bytes are
// VAULT_BAD_FILES.
#[unsafe(no_mangle)]
pub extern "C" fn vault_write_total(names: &[u8], lengths: &[u64]) -> WriteReply
    ensures { result ≡ total_of names.now lengths.now }
{
    writers::total(names, lengths)
}

// Writes that image to the front of `image` and leaves the rest unchanged. The answer has its sectors. The files are in
// `staging` one after another, from its front, in the order of their names. The refusals are those of
// vault_write_total; then VAULT_BAD_FILES if the lengths exceed `staging`; then VAULT_NO_ROOM if the image has more
// sectors than `image` has whole ones.
#[unsafe(no_mangle)]
pub extern "C" fn vault_write(
    names: &[u8],
    lengths: &[u64],
    staging: &[u8],
    image: &mut [u8],
) -> WriteReply
    ensures { record { reply = result; image = image.new } ≡ writes names.now lengths.now staging.now image.old }
{
    writers::write(names, lengths, staging, image)
}
