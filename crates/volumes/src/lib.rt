// The first calls on an image: opening a volume, and its label.
//
// `open_volume` asks for sector 256 and reads the anchor. `scan_sequence` goes over the main sequence once: `take_sector` parses each sector where
// it stands, by its id, and what is kept of the three descriptors is passed on by value (`Kept`). `is_prevailing` alone decides which of two
// descriptors of one kind counts. `kept_answer` makes the checks that need no sector. Then the partition is found, the sector of the file set
// descriptor is asked for, and `volume_in` makes the record.
//
// The tree `opening` has the same parts. Its `scan` answers the list of the parsed descriptors, and `kept_of` folds that list, so which sectors are
// asked for is defined apart from which descriptor counts. With maps the same list is folded again for each map, with one partition number wanted.
// The code scans the sequence again for that, and counts no sector.
#![tactic(auto)]

pub mod choices;
pub mod labels;
pub mod mounts;
pub mod openings;
pub mod sequences;
