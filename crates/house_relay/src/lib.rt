//! One relay of the master's own forwardings: a channel, a socket, and the bytes between them. The
//! channel side is as the connection protocol has it, the socket side as the wire has it. Neither
//! side keeps a list of things to do: what a relay sends or orders next follows from the states of
//! its sides. So a relay at rest has nothing to do, and no memory is allocated for what waits.
//!
//! - A relay of a dynamic forwarding begins with a SOCKS dialog, which gives the end that the
//!   channel is for. The replies to it are queued before what is received in the channel, and the
//!   bytes after the dialog are the first that go into the channel.
//! - Bytes read from the socket are held until the channel accepts them. While it accepts none, the
//!   socket is paused.
//! - Bytes received in the channel are queued for the socket. The window is given back as the
//!   socket accepts them.
//! - The end of a side goes on to the other after all bytes. When both have ended and nothing
//!   waits, or a side fails, the channel is closed, and then the socket.
#![tactic(auto)]

mod dialing;
pub mod laws;
mod line;
mod relay;

pub use line::{ChannelState, Live};
pub use relay::{Outgoing, Relay, RelaySocket};

/// The window of each channel: what may be under way before the socket has accepted it.
pub const WINDOW: u32 = 2_097_152;

/// The longest data of one message.
pub const MAXIMUM: u32 = 32_768;
