// Straight from a drive: a reader names the next sector it wants, is lent its bytes or told that it can't be had, and goes on.
//
// `Opening` and `Reading` are states by value. `start` makes one, `is_wanting` and `wants` say which sector it wants, and `step` takes its 2,048
// bytes, or a slice of another length if it can't be had. What is left of an opening is a tree of questions (`tree_of`), and a step takes one branch.
// A read has output on the way, so it is a feed (specs/Feeds.antt): a tree in which bytes reach the output and extents are named and held. Its bytes
// collected are the read of `files` (`file-collected`). Row and output may grow between two steps (`settled_in`).
//
// `located` takes the entry's sector. `scans` takes an area byte by byte, since a descriptor may stand across two sectors. `bodies` takes a
// continuation and keeps what its header says until all of its sectors have come. `arrivals` puts an extent's bytes into the output, and `turns`
// says where a read goes on.
#![tactic(auto)]

mod arrivals;
mod bodies;
mod located;
pub mod openings;
mod phases;
pub mod readings;
pub mod scans;
mod turns;
