ghost use Rattle.std.specs.Prelude.{◌≡◌};
ghost use Rattle.conn_messages.specs.Message.{grammar_request_of};
ghost use Rattle.global_replies.specs.Asks.{IsShortRequest, what_of};

use conn_messages::{OwnKey, Request};

/// The most requests that wait.
pub const MOST_WAITING: usize = 4_294_967_295;

/// A global request that was sent and wants a reply, with bytes of its own (RFC 4254, sections 4
/// and 7.1; OpenSSH's PROTOCOL, section 2.4).
#[derive(Drop)]
pub enum Ask {
    Forward(OwnKey),
    Cancel(OwnKey),
    KeepAlive,
}

impl Ask {
    /// The same request, lent.
    pub fn as_request(&self) -> Request<'_>
        ensures { grammar_request_of result ≡ what_of self.now }
    {
        match self {
            Ask::Forward(key) => Request::Forward(key.as_key()),
            Ask::Cancel(key) => Request::Cancel(key.as_key()),
            Ask::KeepAlive => Request::KeepAlive,
        }
    }
}

/// It, with its client.
#[derive(Drop)]
pub struct AskRecord {
    pub client: u64,
    pub what: Ask,
    ghost short: { IsShortRequest (what_of what) },
}
