ghost use Rattle.std.specs.Prelude.{◌≡◌, true};
ghost use Rattle.conn_messages.specs.Keys.{key_of, own_key_of, key_with_port};
ghost use Rattle.forward_rules.specs.Listing.{listed_forward_of};
ghost use Rattle.forward_rules.specs.Step.{is_asked_with_key, is_cancelled_at, is_free_at, is_leaving_with_key, is_live_at, without_cancel_of};
ghost use Rattle.forward_rules.specs.Taking.{moved_up_of};

use crate::listed::Listed;
use conn_messages::Key;

impl Listed {
    /// Whether the client has asked for it by this key, and the server hasn't answered.
    pub fn is_asked(&self, client: u64, key: Key<'_>) -> bool
        ensures { result ≡ is_asked_with_key client (key_of key.entry) (listed_forward_of self.now) }
    {
        self.client == client && !self.live && self.key.is(key)
    }

    /// Whether it is live with this key.
    pub fn is_live(&self, key: Key<'_>) -> bool
        ensures { result ≡ is_live_at (key_of key.entry) (listed_forward_of self.now) }
    {
        self.live && self.key.is(key)
    }

    /// Whether it is the client's, live with this key, and meant by no unanswered cancel.
    pub fn is_free(&self, client: u64, key: Key<'_>) -> bool
        ensures { result ≡ is_free_at client (key_of key.entry) (listed_forward_of self.now) }
    {
        self.client == client && self.cancel.is_none() && self.is_live(key)
    }

    /// Whether it is the client's, live with this key, and meant by an unanswered cancel.
    pub fn is_leaving(&self, client: u64, key: Key<'_>) -> bool
        ensures { result ≡ is_leaving_with_key client (key_of key.entry) (listed_forward_of self.now) }
    {
        self.client == client && self.cancel.is_some() && self.is_live(key)
    }

    /// Whether the client's unanswered cancel of this rank means it.
    pub fn is_cancelled_by(&self, client: u64, rank: usize) -> bool
        ensures { result ≡ is_cancelled_at client rank (listed_forward_of self.now) }
    {
        self.client == client && self.cancel == Some(rank)
    }

    /// The server's success: it is live, under the port that the server chose where 0 was asked.
    pub fn begin(&mut self, port: u32)
        ensures { listed_forward_of self.new ≡ record (listed_forward_of self.old) {
          live = true;
          key = key_with_port port (own_key_of self.old.key);
        } }
    {
        self.key.bind(port);
        self.live = true;
    }

    /// The client's cancel of this rank is no longer among the unanswered ones: a later one that
    /// means it moves up.
    pub fn move_up(&mut self, client: u64, rank: usize)
        ensures { listed_forward_of self.new ≡ moved_up_of client rank (listed_forward_of self.old) }
    {
        if self.client != client {
            return;
        }
        self.cancel = match self.cancel {
            Some(later) if rank < later => Some(later - 1),
            unmoved => unmoved,
        };
    }

    /// The client's cancel of this rank is answered.
    pub fn settle(&mut self, client: u64, rank: usize)
        ensures { listed_forward_of self.new ≡ without_cancel_of client rank (listed_forward_of self.old) }
    {
        if self.is_cancelled_by(client, rank) {
            self.cancel = None;
        } else {
            self.move_up(client, rank);
        }
    }
}
