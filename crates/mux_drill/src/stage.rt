/// Which step of a drill comes next, with the number of its client, or of its message from 0 on.
#[derive(Clone, Copy)]
pub enum DrillStage {
    /// No drill was opened.
    Unopened,
    /// A client comes.
    Accepting(u64),
    /// A client sends HELLO, PROXY and its open.
    Entering(u64),
    /// The server confirms the open of a client.
    Confirming(u64),
    /// A client sends a message.
    Sending(u64),
    /// The server adjusts, and sends the message back.
    Echoing(u64),
    /// The client adjusts.
    Adjusting(u64),
    /// A client sends CLOSE.
    Closing(u64),
    /// The server sends CLOSE to a client.
    ClosingBack(u64),
    /// A client ends.
    Leaving(u64),
    /// The server ends.
    Ending,
}
