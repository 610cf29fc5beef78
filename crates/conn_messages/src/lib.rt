//! The messages of the connection protocol (RFC 4254): read in place, with no memory taken, and
//! those that the master writes of its own.
#![tactic(auto)]

mod further;
mod key;
mod message;
mod places;
mod read;
mod write;

pub use key::{Key, OwnKey};
pub use message::{Message, Opening, Request};
pub use places::{recipient_at, sender_at};
pub use read::read_message;
pub use ssh_grammar::Bad;
pub use write::{LONGEST_TEXT, cancel_forward, cancel_path, close, open_failure, request_failure};
