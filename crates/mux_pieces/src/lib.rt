//! How the bytes of a stream are cut into pieces doesn't matter: the same bytes, completing in the
//! same order, make the same rows. Each function's contract is a law of the history; and one worked
//! run meets all premises of its laws at once.
#![tactic(auto)]

mod laws;
mod worked;

pub use laws::{
    bytes_make_items, bytes_make_rows, cuts_make_no_difference, items_make_rows,
    journals_go_on_alike, parts_give_alike, sayings_are_of_bytes,
};
