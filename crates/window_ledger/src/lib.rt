//! The account of one channel (RFC 4254, section 5): the room of both directions, the channel
//! requests that are unanswered, and what each side has ended. A ledger is a plain value without
//! memory. It represents the list of all that was done in its channel, and refuses exactly what
//! would break the account.
#![tactic(auto)]

mod account;
mod act;
mod ledger;

pub use act::Act;
pub use ledger::Ledger;
pub use ssh_grammar::{Breach, Side};
