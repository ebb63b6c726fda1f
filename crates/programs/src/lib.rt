// What the programs share: how they read, what they print, and what they do with the memory that they lend.
#![tactic(auto)]

// Reads a file or standard input. A read that fails ends it.
pub use io::read_full;

pub mod lent;
pub mod shown;
pub mod words;
