// Parses and encodes the raw records of a UDF disc (ECMA-167, OSTA UDF), for C.
//
// Link target/staticlib/librecords_c.a, which `tools/archives proved` makes from the proved sources. Each call has the
// contract of the call that it passes on, of a crate below.
//
// Nothing here allocates, keeps or frees memory. Lent pieces must not overlap. A piece of length 0 may have a null
// pointer. No piece has more than PTRDIFF_MAX bytes.
//
// A record is parsed at the front of `bytes`; what follows it is ignored. Every call that parses or decodes returns an
// answer. If it is refused, all its values are zero and `out` is unchanged. Fields have the names of ECMA-167 and are
// as recorded, unless this header says otherwise. If `bytes` change during a call, the result may match no state of
// `bytes`; the call stays inside the memory that it was lent, and writes nothing past the length that it returns.
//
// The numbers are those of vault.h. Used here: RECORDS_DONE, RECORDS_MALFORMED, RECORDS_NO_ROOM.
#![tactic(auto)]

pub mod allocations;
mod answers;
pub mod dstrings;
pub mod file_records;
pub mod headers;
pub mod volume_records;
