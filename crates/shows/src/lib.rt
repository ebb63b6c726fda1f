// A volume's whole tree, down to a number of levels.
//
// `show` goes over the tree twice. The first pass meets every refusal and measures. The second, lent what was measured, writes. Each is one recursion
// of two functions, with the levels left falling: one reads a directory over the front of the work space that it is lent, the other has an entry's
// turn and goes into a directory in the work space that is left after its own directory's bytes. A sibling's bytes replace those of the one before.
//
// In the first pass (`visit_level`, `visit_entry`) a directory is parsed whole once it is read (`open_level`), so that a bad entry refuses the show
// before any has its turn. The parse also measures the directory's listing. So an entry's turn only looks where the next entry starts and whether
// this one is a directory, and counts one byte more, the level; no name is measured twice. The place is passed by value, with the budget `most`,
// which `open_level` compares with the count. `tally_tree` is this pass with a place lent for figures.
//
// In the second pass (`write_level`, `write_entry`) nothing is parsed, checked or counted: the first pass has seen that the tree is good. Each entry
// is looked at once, and its record is written. If the image has changed meanwhile, the records may be others, but they stay inside what was
// measured, and besides the root only directories are read whose records were written.
//
// The definition (specs/Shows.antt) knows no passes: `nodes_at` and `nodes_of` answer a list of entries with their levels, and `node_records` makes
// bytes of it. What is proved of the first pass is `Visited` (specs/inner/Turns.antt), and of the second `Writes` (specs/inner/Writes.antt).
#![tactic(auto)]

pub mod levels;
pub mod nodes;
pub mod tallies;
pub mod whole;
pub mod writing;
