//! The grammar of connection sharing: the messages of RFC 4254, the control messages of
//! PROTOCOL.mux version 4, and the frames that carry both. The definitions stand in `specs/`; this
//! crate gives them the protocol's numbers, and the faults that definitions and code name alike.
#![tactic(auto)]

mod fault;
mod framing;
pub mod laws;
pub mod numbers;
mod side;

pub use fault::{Bad, BadControl, BadFrame, Breach};
pub use framing::Framing;
pub use side::Side;
