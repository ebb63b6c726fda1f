// Files of a UDF disc: their entries, their extents and their bytes.
//
// `read_file` goes in passes. `resolve` asks for the entry's sector, parses it where it stands, and follows the chain of areas to its end: the
// chain's refusals and count are known before any extent is looked at. (`layouts` starts from `resolve` too.) `measure` goes over the extents with a
// cursor. One division for each says whether its sectors are there, how many are asked for, and how many bytes they give. Then room is checked, and
// `copy` goes over the extents again for as many bytes as were measured, each into the part of the output after the one before. A refused read has
// written nothing.
//
// The tree `file_bytes` knows no passes: it asks for each sector in turn. The laws in proofs/ say that both come to the same.
#![tactic(auto)]

pub mod extents;
pub mod icbs;
pub mod pieces;
pub mod reads;
pub mod resolves;
pub mod sizes;
