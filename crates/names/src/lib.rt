// Names on the disc: a recorded d-string and a d-string field as UTF-8, and names compared with ASCII case ignored.
#![tactic(auto)]

pub mod dstrings;
pub mod fields;
pub mod matching;
mod units;
