//! The control messages of PROTOCOL.mux version 4: what clients ask, read in place with no memory
//! taken, and the frames in which the master answers.
#![tactic(auto)]

mod control;
mod read;
mod write;

pub use control::Control;
pub use read::read_control;
pub use ssh_grammar::BadControl;
pub use write::{LONGEST_REASON, alive, failure, hello, ok, proxy, remote_port};
