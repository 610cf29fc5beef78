//! What the bytes of a dialog are read as.
ghost use Rattle.socks_dialog.specs.Socks.{wants_more_bytes, dialog_connects, breaks};
ghost use Rattle.socks_dialog.specs.Reads.{IsPlainDialog};

use ssh_fields::Small;

/// The outcome of a dialog.
#[derive(Drop)]
pub enum Outcome {
    /// More bytes are wanted.
    Wants,
    /// The client asks for a connection to this host and port.
    Connects { host: Small, port: u16 },
    /// The dialog can't go on: a reply, perhaps empty, and then the end.
    Breaks(Small),
}

/// What the bytes of a dialog are read as.
#[derive(Drop)]
pub struct DialogReading {
    /// Whether the client offered the method that is chosen, which is answered first.
    pub chosen: bool,
    pub outcome: Outcome,
    /// How many bytes follow the dialog.
    pub rest: usize,
}

/// More bytes are wanted.
pub fn wants_more() -> DialogReading
    ensures { IsPlainDialog result wants_more_bytes }
{
    DialogReading {
        chosen: false,
        outcome: Outcome::Wants,
        rest: 0,
    }
}

/// A connection is asked for.
pub fn asks_for(host: Small, port: u16, rest: &[u8]) -> DialogReading
    ensures { IsPlainDialog result (dialog_connects host port rest.now) }
{
    DialogReading {
        chosen: false,
        outcome: Outcome::Connects { host, port },
        rest: rest.len(),
    }
}

/// A fault, which is answered so.
pub fn ends_with(reply: Small, rest: &[u8]) -> DialogReading
    ensures { IsPlainDialog result (breaks reply rest.now) }
{
    DialogReading {
        chosen: false,
        outcome: Outcome::Breaks(reply),
        rest: rest.len(),
    }
}
