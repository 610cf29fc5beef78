//! The outside of a drill: a wire in memory that plays the clients and the server of a run, and
//! records everything. `open` reads the seed of a generator, the number of clients and that of
//! messages from the transport, as in `7 3 100`. Each `wait` gives the next turn of these steps,
//! where all that it needs was written; else it fails.
//!
//! 1. The clients come in order. Each sends HELLO, PROXY and an open of a session.
//! 2. The server confirms each open that it reads, to the number that the master picked for it.
//! 3. Message by message, a client that the generator picks sends data of the length that it picks.
//! 4. The server answers by an adjustment of that length and the same data, the client by an
//!    adjustment. The next message starts when all of this was written.
//! 5. Each client sends CLOSE, the server answers each by CLOSE, each client ends, and then the
//!    server.
//!
//! Bytes are given in pieces of at most 37. The streams' numbers go on from one `open` to the next,
//! and a drill begins with client 1, so a wire plays one drill.
#![tactic(auto)]

mod after;
mod draw;
mod drill_wire;
mod frames;
mod generator;
mod inboxes;
mod next_step;
mod outgoing;
mod picks;
mod plan;
mod play;
mod stage;
mod step;
mod trace;

pub use drill_wire::DrillWire;
