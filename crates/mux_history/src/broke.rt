use ssh_grammar::{Bad, BadFrame, Breach};

/// How the server broke the protocol.
#[derive(Clone, Copy, Debug, PartialEq, Eq)]
pub enum Break {
    /// Its stream can't be cut into frames.
    Frame(BadFrame),
    /// Its stream ended inside a frame, after so many bytes of it.
    Cut { have: usize },
    /// A payload doesn't read.
    Message(Bad),
    /// It replied to a global request where none is unanswered.
    NoAsker,
    /// Its success must contain a port, and has data of another length.
    BadReply { length: usize },
    /// It opened or confirmed a channel under a number of its own that is live.
    NumberInUse { number: u32 },
    /// It answered an open where none with this number is unanswered.
    NotPending { number: u32 },
    /// It spoke to a channel that no client has.
    NoChannel { number: u32 },
    /// A message breaks its channel's account.
    Channel { number: u32, why: Breach },
}
