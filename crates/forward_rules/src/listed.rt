ghost use Rattle.conn_messages.specs.Keys.{own_key_of, IsShort};

use conn_messages::OwnKey;

/// A forwarding that is asked or live.
#[derive(Drop)]
pub struct Listed {
    pub client: u64,
    /// The key that was asked, or, once it is live, the one that is listened on.
    pub key: OwnKey,
    pub live: bool,
    /// The rank of the unanswered cancel that means it: 0 is the first of the client's that have no
    /// reply.
    pub cancel: Option<usize>,
    ghost short: { IsShort (own_key_of key) },
}
