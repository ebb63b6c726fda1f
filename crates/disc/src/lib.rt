// The ground of the reader: why a call is refused, the two counters of a disc, a lent image as a disc of sectors, the count of
// sectors, and bytes moved into lent memory.
#![tactic(auto)]

pub mod answers;
pub mod counts;
pub mod images;
pub mod moves;
pub mod places;
pub mod refusals;
pub mod replies;
