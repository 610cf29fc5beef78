ghost use Rattle.std.specs.Prelude.{◌≡◌};
ghost use Rattle.mux_outside.specs.Whose.{whose};

use crate::own_streams::is_own;

/// Whose a stream is.
#[derive(Clone, Copy, PartialEq, Eq)]
pub enum Whose {
    /// The server's, which is stream 0.
    Server,
    /// This client's: they are numbered from 1 on.
    Client(u64),
    /// One of the master's own, which are numbered from 2^63 on.
    Own,
}

impl Whose {
    /// Whose this stream is.
    pub fn of(stream: u64) -> Whose
        ensures { result ≡ whose stream }
    {
        match stream {
            0 => Whose::Server,
            own if is_own(own) => Whose::Own,
            client => Whose::Client(client),
        }
    }
}
