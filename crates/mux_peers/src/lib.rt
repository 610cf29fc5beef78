//! The clients of a master: what each of them sends becomes a row of the log, with the shared
//! connection beside it.
#![tactic(auto)]

mod ask_log;
mod client;
mod clients;
mod decision;
pub mod laws;
mod peer;
mod receiving;
mod run_change;
mod server;
mod standing;

pub use ask_log::AskLog;
pub use client::ClientEntry;
pub use clients::Clients;
pub use decision::{Decision, Effect, decide};
pub use peer::Peer;
pub use receiving::deliver;
pub use run_change::RunChange;
pub use server::Server;
pub use standing::Standing;
