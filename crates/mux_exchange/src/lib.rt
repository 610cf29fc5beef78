//! The outcome of one read of a stream and of one write to it, whatever the stream is.
#![tactic(auto)]

mod channel;
mod exchange;
mod outbox;

pub use channel::ByteChannel;
pub use exchange::{
    LONGEST_OWN_READ, ReadResult, Sent, most_read, receive, receive_last_words, send,
};
pub use outbox::{LONGEST_OUTBOX, Outbox, OutboxProgress, SENT_AT_ONCE};
