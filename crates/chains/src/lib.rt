// The chain of areas of allocation descriptors: followed to its end before any extent is read, and then walked where it stands in the image.
#![tactic(auto)]

pub mod continuations;
pub mod counts;
pub mod cursors;
pub mod follows;
