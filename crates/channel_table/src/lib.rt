//! The channels of all clients that are held. A table is one list of channels in the order in which
//! they began, with three look-ups: by the number that represents a channel towards the server, by
//! its client's own number, and by the server's. No look-up, and no change but those that bring in
//! a new number, allocates memory.
#![tactic(auto)]

mod channel;
mod names;
mod numbers;
mod slots;
mod table;

pub use channel::{Channel, Refused};
pub use indexmap::IndexMap;
pub use ssh_fields::OutOfMemory;
pub use ssh_grammar::Side;
pub use table::Table;
pub use window_ledger::Ledger;
