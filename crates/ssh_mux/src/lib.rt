//! What the program does, over any outside: the settings of `ssh_config(5)` for a host, the master
//! of connection sharing (PROTOCOL.mux version 4), in earnest or as a drill, and the client that
//! asks a running master. The program is `run`.
#![tactic(auto)]

mod asks;
mod client;
mod diagnostics;
mod drill;
mod ending;
mod here;
mod listing;
mod master;
mod program;
mod reporting;
mod starts;
mod status;

pub use ending::Ending;
pub use program::run;
pub use reporting::report;
pub use status::Status;
