// Directories from their ICBs: listed, and paths looked up and read.
//
// `walks::walk` goes along a path a component at a time, from the root, which counts as a directory. A step reads the directory into the work space
// by `files::reads::read_file`, with 6 as the refusal for too little room, and `listings::finds::find` looks for the component in it. The place on
// the path is passed by value. The work space is cleared once, at the end.
//
// The tree `seek_path` recurses on the path's components, each of which knows where it starts. A component that isn't there is one of its answers and
// not a refusal, so the call for the component that failed is the same walk.
#![tactic(auto)]

pub mod listed;
pub mod lookups;
pub mod spaces;
pub mod walks;
