use ssh_fields::{ListOf, Text};

/// What happens next at a wire in memory.
#[derive(Drop)]
pub enum Step {
    /// A client comes. It is skipped where the wire doesn't listen.
    Accept,
    /// A stream gives bytes, more than 65,536 in pieces. It is skipped where the stream isn't open
    /// or no byte is left, and where it is one of the master's own that is paused or has ended.
    Bytes(u64, Text),
    /// A stream ends. It is skipped where the stream isn't open, and where it is one of the
    /// master's own that is paused or has ended.
    End(u64),
    /// A stream fails. It is skipped where the stream isn't open.
    Fail(u64),
    /// A stream accepts bytes again. It is skipped where the stream isn't open or isn't blocked.
    Writable(u64),
    /// A socket is accepted at a listener of the master's own, and is this stream. It is skipped
    /// where the listener isn't open, and where the stream's number isn't above the last one of the
    /// master's own or is past the last that there is.
    Join(u64, u64),
}

/// Steps in order.
pub type Steps = ListOf<Step>;

/// How a write goes.
#[derive(Clone, Copy, PartialEq, Eq)]
pub enum WriteEntry {
    /// All bytes are accepted.
    All,
    /// So many bytes at most are accepted, and one at least.
    Some(usize),
    /// Nothing is accepted, and the stream is blocked.
    Later,
    /// The stream fails.
    Fail,
}

/// How the writes go, in order.
pub type Writes = ListOf<WriteEntry>;
