//! The engine of a master in proxy mode: it applies what happens at the streams, and shows what
//! waits for each of them and which are to be closed. It represents the journal of its run, the
//! newest mark first, with the numbers that were picked and the replies that the forwarder gave.
#![tactic(auto)]

mod engine;
mod event;
pub mod laws;
mod streams;

pub use engine::Engine;
pub use event::{Event, Went};
