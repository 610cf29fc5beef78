//! How much there is at most over all runs of a master: channels, forwardings, requests and
//! clients, the bytes that wait for the server, and no reply that comes before its request. Each
//! function's contract is a law of the history.
#![tactic(auto)]

mod laws;

pub use laws::{
    channels_are_few, clients_are_few, farewells_are_short, forwardings_are_few, marks_add_little,
    nothing_is_left, replies_are_awaited, requests_are_few, rests_are_short, rows_add_little,
    runs_are_bounded, server_queue_is_bounded, unanswered_are_few,
};
