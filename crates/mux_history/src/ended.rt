use crate::Break;

/// How a run ended.
#[derive(Clone, Copy, PartialEq, Eq)]
pub enum Ended {
    /// The server's stream ended.
    ServerEnd,
    /// The server sent DISCONNECT.
    Disconnected,
    /// A client asked for the end.
    Terminated { client: u64, id: u32 },
    /// The server's stream failed.
    ServerFailed,
    /// The server broke the protocol. Its frames are counted from 1, and the count stays at 2^64 -
    /// 1.
    Broke { index: u64, why: Break },
    /// A forwarding that the run began with was refused, and none may be.
    StartRefused { index: usize },
    /// All turns were given.
    Spent,
    /// There was no memory.
    OutOfMemory,
}
