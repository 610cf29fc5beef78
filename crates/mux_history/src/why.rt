use ssh_grammar::{Bad, BadControl, BadFrame, Breach};
use thiserror::Error;

/// Why a client is dropped.
#[derive(Clone, Copy, Debug, PartialEq, Eq, Error)]
pub enum Why {
    /// Its stream can't be cut into frames.
    #[error("{0}")]
    BadFrame(BadFrame),
    /// A control message doesn't read, or is one that no client sends and that has no id.
    #[error("{0}")]
    BadControl(BadControl),
    /// Another control message came first.
    #[error("control message {kind} in place of a hello")]
    NoHello { kind: u32 },
    /// It greeted again.
    #[error("a second hello")]
    SecondHello,
    /// It sent another version.
    #[error("version {have} is not spoken")]
    Version { have: u32 },
    /// A payload doesn't read.
    #[error("{0}")]
    BadMessage(Bad),
    /// It sent DISCONNECT.
    #[error("the client disconnects")]
    Disconnected,
    /// It replied to a global request, and none is ever asked of it.
    #[error("message {number} replies to nothing")]
    Unasked { number: u8 },
    /// It asked once more while so many of its wanted global requests are unanswered.
    #[error("{have} requests are unanswered")]
    TooManyAsks { have: u32 },
    /// It opened or confirmed a channel under a number of its own that is in use.
    #[error("its number {number} is in use")]
    OwnInUse { number: u32 },
    /// It spoke to a channel that isn't its own, or isn't open.
    #[error("number {number} is no channel of this client")]
    NotYours { number: u32 },
    /// A message breaks its channel's account.
    #[error("channel {number}: {why}")]
    Channel { number: u32, why: Breach },
    /// A frame for it doesn't fit into its queue.
    #[error("{have} bytes wait, and {want} more don't fit")]
    QueueFull { have: usize, want: usize },
}
