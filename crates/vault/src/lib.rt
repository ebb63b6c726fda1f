// What a user calls: a volume, and what is asked of it.
//
// A method of `Volume` passes one call on. Its contract gives all that the call leaves as a function of all that it was lent. A call is a value of
// one type, `Call` (specs/Public.antt). `spec` gives its tree of questions, the numbers that the tree may refuse by, and how a run is told; the
// contract is `leaves` of that call. So a promise is one theorem over every call (proofs/Promises.antt), by four tables with a line for each call:
// `tells`, `said-by`, `plain` and `guards`. proofs/Along.antt has the four calls that walk a path as one family, for 6 and 9. What only one call
// promises has a module of its own.
//
// To add a call, add a constructor, a line of `spec`, and a line in each table.
#![tactic(auto)]

pub mod paths;
pub mod volume;
