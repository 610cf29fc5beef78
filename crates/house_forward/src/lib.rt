//! The master's own forwardings, by a forwarder that is an ordinary proxy client of the engine. A
//! socket accepted at a listener becomes a channel, and an OPEN of the server becomes a connection;
//! between the two the forwarder relays.
//!
//! A relay has two sides: the channel and the socket. How bytes and ends go between them is
//! described in the crate `house_relay`. An accepted socket is a relay whose OPEN is to be sent. An
//! OPEN of the server is a relay whose socket is to be connected, and whose CONFIRMATION waits for
//! that.
//!
//! No side keeps a list of what it is still to do: what a relay sends or orders next follows from
//! the states of its sides. So a forwarder at rest is one whose relays and forwardings have nothing
//! to do, and no memory is allocated for what waits.
//!
//! What the calls of the forwarder record, call by call, is defined in specs/RelayTraces.antt for
//! its relays, and in specs/ForwardingState.antt for everything else; the forwarder represents
//! that. The laws are what holds of each relay, whatever the calls were.
#![tactic(auto)]

mod asks;
mod forwarder;
mod forwarder_state;
mod forwarding;
mod forwardings;
pub mod laws;
mod link;
mod ordering;
mod outgoing;
mod places;
mod receiving;
mod relays;
mod reserved;
mod rules;
mod two_texts;

pub use forwarder::Forwarder;
