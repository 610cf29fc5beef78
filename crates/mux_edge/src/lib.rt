//! What is made of what a system gives and accepts, whichever system it is: which streams are
//! ready, the outcome of a read and of a write of one, the turn that it makes, and the names of
//! hosts.
#![tactic(auto)]

mod address;
mod children;
mod closing;
mod faults;
mod lookup;
mod lookups;
mod names;
mod numbers;
pub mod opened;
mod real;
mod sink;
mod socket;
mod sockets;
mod stream;
mod table;
mod targets;
mod turns;

pub use children::Children;
pub use faults::{count_failed, count_made, file_error};
pub use numbers::{StreamNumbers, keep_listener, keep_stream, next_number};
pub use real::{RealSockets, RealStream, RealTable};
pub use sink::RealSink;
pub use socket::{Socket, TcpSocket, UnixSocket};
pub use sockets::Sockets;
pub use stream::Stream;
pub use table::{
    KEPT_DESCRIPTORS, MOST_OWN_STREAMS, OwnListener, Ready, ReadyQueue, Shares, StreamEntry,
    StreamTable, own_streams_among,
};
