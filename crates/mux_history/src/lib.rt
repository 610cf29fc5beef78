//! The history of a master: what happened at its streams, in rows, and what each row sends and
//! records. The definitions in `specs/` look everything up in the whole list of rows; the crates
//! above keep tables, counters and queues, and prove that these represent such a list.
#![tactic(auto)]

mod broke;
mod ended;
pub mod laws;
pub mod limits;
mod why;
mod worked;

pub use broke::Break;
pub use ended::Ended;
pub use why::Why;
