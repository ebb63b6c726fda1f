// Where a file stands on the disc: the part of the image that an embedded file is, the extents of any other, and the runs of the image that a read
// of either takes its bytes from. No extent is read.
//
// `plan` does all that comes before a slot is written: it resolves the file, counts its extents, and compares their number with the slots. It gives
// a listing by value, which has the reply of the whole call and the next extent to store; `further` is the listing without its front. `file_words`
// and `file_rows` are one loop, `list_slots`, that stores the front as four numbers or as a record: what a slot holds is the trait `Slot`.
// The laws of that loop are in proofs/ListLaws.antt. `file_runs` is built in the same way, over `plan_runs`.
#![tactic(auto)]

pub mod lists;
pub mod parts;
pub mod runs;
