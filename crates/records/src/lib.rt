// The small records of a UDF disc: each is read from bytes, and encoded as an array of bytes by value.
#![tactic(auto)]

pub mod allocations;
pub mod bytes;
