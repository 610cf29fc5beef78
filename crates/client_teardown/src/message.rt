use conn_messages::Key;

/// What the server sends for a client that is lost already, and that the master has to undo.
#[derive(Clone, Copy)]
pub enum Late<'a> {
    /// The open of this channel is confirmed under the server's number, which the table has taken
    /// in.
    Confirmed { number: u32, remote: u32 },
    /// What the client asked for is listened on, under this key.
    Forwarded { key: Key<'a> },
    /// What the client cancelled is listened on as before.
    CancelFailed { key: Key<'a> },
}
