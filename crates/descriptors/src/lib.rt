// The descriptors of a volume's structure: the anchor, the primary volume, the partition, the logical volume and the file set, each read
// from bytes; and the recognition of a volume structure descriptor.
#![tactic(auto)]

pub mod anchors;
pub mod file_sets;
mod labels;
pub mod logicals;
pub mod partitions;
pub mod primaries;
pub mod recognition;
