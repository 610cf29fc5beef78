//! The shared connection of many clients: what each client sends is passed on, answered or refused,
//! and what the server sends is given to the client that it is for.
//!
//! A core represents a log of rows. A call adds the row that the log's definition has for it:
//! `said` and `heard` do what the item does, and where the row loses its client, `gone` completes
//! it with the farewell. The caller keeps the queues: it sends a client what a verdict shows, and
//! drops it where that doesn't fit.
#![tactic(auto)]

mod gone;
mod heard;
pub mod laws;
mod members;
mod reading;
mod received_channels;
mod said;
mod sent_requests;
mod state;
mod verdict;

pub use heard::Delivery;
pub use state::Core;
pub use verdict::Verdict;
