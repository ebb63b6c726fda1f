// A directory's bytes: its entries listed and searched, and the components of a path.
//
// `find` goes over all entries once. It keeps what the choice of matching makes of the entries that match so far, and goes on to the end, since a
// bad entry further on refuses the directory. `is_settled` says when no further entry can change what was found. In the definitions a choice is two
// things: a fold, under which names are compared (`same_name`), and which of the entries that match is taken, the first or the only one (`chosen`).
// Nothing above `find_in` looks at the choice.
//
// `list` goes over the bytes twice. `measure` parses every entry, so that each refusal is known before a byte is written. `put_entries` writes, and
// is lent only as much of the output as was measured. It checks nothing again and looks at each field once (`look`), so it stays inside what it was
// lent even if the bytes have changed. A show goes over parsed entries by the same look. It writes its records itself, from the same head
// (`record_head`): with a second caller, `put_entry` would no longer be compiled into the loop of a listing.
#![tactic(auto)]

pub mod directory_entries;
pub mod finds;
pub mod listing;
pub mod matchings;
pub mod paths;
