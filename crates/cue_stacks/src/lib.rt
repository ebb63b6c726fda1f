// Many files read by their paths in one call, one after another.
//
// `read_all` counts the zeros of the list first, so that 12 is known before anything is read. `read_items` then goes over the items once, with a
// place passed by value: where the next item starts, the places taken in the rows, the bytes filled, the sectors counted. `read_item` lends the
// output after the filled bytes to `directories::lookups::read_reached`, which is `read_path` without clearing the work space, and stores the item's
// length and answer in the rows. If the list has changed and holds more items than were counted, the loop ends with the shorter row (`is_last`). The
// work space is cleared once, at the end.
//
// The definition `stacked` recurses on the items. It takes what a path comes to as a function, so nothing here knows what a directory is.
#![tactic(auto)]

pub mod items;
pub mod stacks;
