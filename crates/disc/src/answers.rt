// The answer numbers by name: 0, and the number of each refusal (`Refusal::number`). 8 is struck, and isn't used
// again.

// Done.
pub const DONE: u64 = 0;

// A sector that was asked for is not completely inside the image.
pub const IO: u64 = 1;

// Too few bytes, or an invalid descriptor, tag, name or length.
pub const MALFORMED: u64 = 2;

// No volume, or no such path.
pub const NOT_BLURAY: u64 = 3;

// Not supported: another block size or partition, partition maps other than up to four of type 1, a compressed or
// unrecorded extent, a continuation of more than 1,048,576 bytes; or an unknown bit in `how`.
pub const UNSUPPORTED: u64 = 4;

// The result has more bytes than `out`.
pub const NO_ROOM: u64 = 5;

// A directory has more bytes than `work`; in a show, more than `work` has left after the directories above it.
pub const NO_WORK: u64 = 6;

// There are more extents or runs than slots.
pub const NO_SLOT: u64 = 7;

// A component of the path matches two or more entries of its directory, and the choice of matching allows only one.
pub const AMBIGUOUS: u64 = 9;

// A descriptor that is checked has a wrong CRC, or a CRC length that exceeds the available bytes.
pub const BAD_CRC: u64 = 10;

// A directory is at the last level that was asked for, or the number of levels is 0 or more than 16.
pub const TOO_DEEP: u64 = 11;

// There are more paths than places for their lengths or their answers.
pub const TOO_MANY: u64 = 12;

// A name of an image to be written is invalid, or two names are equal with ASCII case ignored.
pub const BAD_NAME: u64 = 13;

// The files of an image to be written: too many files, different numbers of names and lengths, a file that is too long,
// or lengths that exceed the staging area.
pub const BAD_FILES: u64 = 14;

// The lengths of a shelf's images exceed the bytes lent, or there are too few places for the figures of each image and
// of the shelf.
pub const BAD_SHELF: u64 = 15;

// The call would ask for more sectors than its budget allows (`most`).
pub const OVER_BUDGET: u64 = 16;
