//! What the history has of the forwarder: no row drops it.
#![tactic(auto)]

pub mod laws;
pub mod listening;
