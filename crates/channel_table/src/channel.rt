ghost use Rattle.std.specs.Prelude.{◌≡◌};
ghost use Rattle.channel_table.specs.declared.channel.Refused.TheVariants as refused;

use ssh_fields::OutOfMemory;
use ssh_grammar::Side;
use thiserror::Error;

/// A channel as its look-ups show it: its client, and the numbers that the two sides gave it (RFC
/// 4254, section 5.1).
#[derive(Clone, Copy, PartialEq, Eq)]
pub struct Channel {
    pub client: u64,
    /// The client's own number. A server's open lacks it until the client confirms.
    pub own: Option<u32>,
    /// The server's number. A client's open lacks it until the server confirms.
    pub remote: Option<u32>,
    /// Who opened it.
    pub by: Side,
}

/// Why no channel is admitted, or no number taken in.
#[derive(Clone, Copy, Debug, Drop, PartialEq, Eq, Error)]
pub enum Refused {
    /// The client's own number names another channel of it.
    #[error("the client uses this number already")]
    OwnInUse,
    /// The server's number names a channel of this client.
    #[error("the server uses this number already, in a channel of client {holder}")]
    RemoteInUse { holder: u64 },
    /// The client has so many channels.
    #[error("the client has {count} channels already")]
    Full { count: u32 },
    /// There is no memory, or none of the 16,384 numbers is free.
    #[error("out of memory")]
    OutOfMemory,
}

impl From<OutOfMemory> for Refused {
    ghost from_gives = { λ _ e. e ≡ refused.OutOfMemory };

    fn from(_e: OutOfMemory) -> Refused {
        Refused::OutOfMemory
    }
}
