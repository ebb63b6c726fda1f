// The entry of a file: ICB tags, file entries and extended ones, read where they stand.
#![tactic(auto)]

pub mod file_entries;
pub mod icb_tags;
