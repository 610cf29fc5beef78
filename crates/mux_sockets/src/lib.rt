//! The outside of the real system: sockets, files, commands and what is written. What the system
//! holds no clause can say, so these objects record nothing; each `Failed` raises their count. The
//! names of sockets and the commands go through traits, over which the order of calls is proved.
#![tactic(auto)]

mod control;
mod files;
mod opening;
mod programs;
mod runner;
mod socket_files;
mod transport;
mod wire;
mod workers;

pub use files::RealFiles;
pub use mux_edge::RealSink;
pub use runner::RealRunner;
pub use wire::RealWire;
