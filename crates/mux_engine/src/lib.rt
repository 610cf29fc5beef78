//! A run of the master: `serve` drives an engine over a wire.
#![tactic(auto)]

mod asking;
mod events;
mod housing;
pub mod laws;
mod orders;
mod owned;
mod room;
mod serving;
mod settling;

pub use serving::serve;
