//! The client's side of the control messages of PROTOCOL.mux version 4: asks a master whether it is
//! there, to end, to accept no more clients, or to open or close forwardings.
#![tactic(auto)]

mod answer;
mod asks;
mod client;
pub mod laws;
mod request;
mod stage;
mod talked;
mod talking;
mod verdict;

pub use asks::Asks;
pub use talked::Talked;
pub use talking::talk;
