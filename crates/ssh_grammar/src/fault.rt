ghost use Rattle.std.specs.Prelude.{◌≡◌};
ghost use Rattle.ssh_grammar.specs.Faults.{bad_of, bad_control_of};

use ssh_fields::FieldFault;
use thiserror::Error;

/// Why a payload is no message of RFC 4254. A place counts the payload's bytes from 0.
#[derive(Clone, Copy, Debug, PartialEq, Eq, Error)]
pub enum Bad {
    /// There is no byte.
    #[error("an empty payload")]
    Empty,
    /// The first byte is the number of no message.
    #[error("message {0} is unknown")]
    Kind(u8),
    /// The field that begins there doesn't fit.
    #[error("the field at {at} is cut short")]
    Short { at: usize },
    /// Bytes from there on are left over.
    #[error("bytes from {at} on are left over")]
    Extra { at: usize },
}

/// Why a body is no control message of PROTOCOL.mux. A place counts the body's bytes from 0.
#[derive(Clone, Copy, Debug, PartialEq, Eq, Error)]
pub enum BadControl {
    /// The field that begins there doesn't fit.
    #[error("the field at {at} is cut short")]
    Short { at: usize },
    /// Bytes from there on are left over.
    #[error("bytes from {at} on are left over")]
    Extra { at: usize },
    /// The type is none that a client sends. The id is the number after it, where there is one.
    #[error("control message {kind} is unknown")]
    Unknown { kind: u32, id: Option<u32> },
}

/// Why a stream can't be cut any further.
#[derive(Clone, Copy, Debug, PartialEq, Eq, Error)]
pub enum BadFrame {
    /// The length field is above 262,144.
    #[error("a frame of {length} bytes is too long")]
    Long { length: u32 },
    /// The length field is below 4 for a control message, below 2 for a payload.
    #[error("a frame of {length} bytes is too short")]
    Short { length: u32 },
    /// The padding length isn't 0.
    #[error("padding of {byte} bytes")]
    Padding { byte: u8 },
}

/// What a message would break of its channel's account (RFC 4254, section 5).
#[derive(Clone, Copy, Debug, PartialEq, Eq, Error)]
pub enum Breach {
    /// The channel isn't confirmed.
    #[error("the channel is not open")]
    NotOpen,
    /// This side has closed the channel.
    #[error("a message after the close")]
    AfterClose,
    /// This side has sent EOF.
    #[error("data after the end of data")]
    AfterEof,
    /// Data longer than the receiver's maximum packet.
    #[error("{want} bytes where a packet has at most {max}")]
    PastPacket { max: u32, want: u32 },
    /// Data longer than the room that is left of the window.
    #[error("{want} bytes where the window has room for {have}")]
    PastWindow { have: u32, want: u32 },
    /// An adjustment that takes the room past 2^32 - 1.
    #[error("a window of {have} bytes can't grow by {add}")]
    Overflow { have: u32, add: u32 },
    /// A reply where no request that wants one is unanswered.
    #[error("a reply to nothing")]
    Unasked,
    /// One more wanted request while 1,024 are unanswered.
    #[error("{have} requests are unanswered")]
    TooManyAsks { have: u32 },
}

impl From<FieldFault> for Bad {
    ghost from_gives = { λ fault bad. bad ≡ bad_of fault };

    fn from(fault: FieldFault) -> Bad {
        match fault {
            FieldFault::Short { at } => Bad::Short { at },
            FieldFault::Extra { at } => Bad::Extra { at },
        }
    }
}

impl From<FieldFault> for BadControl {
    ghost from_gives = { λ fault bad. bad ≡ bad_control_of fault };

    fn from(fault: FieldFault) -> BadControl {
        match fault {
            FieldFault::Short { at } => BadControl::Short { at },
            FieldFault::Extra { at } => BadControl::Extra { at },
        }
    }
}
