//! What the master sends for a client that is lost. Three things may still be open at the server:
//! an open without an answer, a channel without its CLOSE, a forwarding that listens. So a farewell
//! ends at once all that can be ended, and what the server confirms later is ended when it comes.
//! `tear_down` and `late` allocate no memory: a client must be dropped even if none is left, so the
//! room for what is sent is reserved before. `late` is for callers that want none later either; a
//! core, which may end then as memory runs out, queues the same payloads itself.
#![tactic(auto)]

mod cancelling;
mod farewell;
mod later;
pub mod laws;
mod message;

pub use cancelling::cancel;
pub use farewell::{FAREWELL_ROOM, tear_down};
pub use later::{LATE_ROOM, late};
pub use message::Late;
