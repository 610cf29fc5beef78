use ssh_fields::Small;

/// What a dialog does next.
#[derive(Drop)]
pub enum DialogStep {
    /// It waits for more bytes.
    More,
    /// This is to be written, and the dialog goes on.
    Reply(Small),
    /// A connection to this host and port is asked for. The dialog ended.
    Connect { host: Small, port: u16 },
    /// This is to be written, where it isn't empty, and then the client's stream is to be closed.
    Bad(Small),
}
