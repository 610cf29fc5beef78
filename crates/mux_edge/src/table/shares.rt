//! How far the clients and the master's own streams are read while the server's stream is waited
//! for.
ghost use Rattle.std.specs.Prelude.{◌≡◌, false};
ghost use Rattle.mux_outside.specs.Streams.{among};
ghost use Rattle.mux_edge.specs.Shares.{holds_own, no_shares, shares_after};

use mux_outside::is_own;

/// How many bytes came from the clients and from the master's own streams since the server's stream
/// is waited for.
///
/// While it is, own streams are passed over where they stand in what is ready. None is lost: the
/// server's room is waited for and reported first, and then they are found there. And none starves:
/// clients may keep the server's stream busy without end, so own streams may give as much as they.
#[derive(Clone, Copy)]
pub struct Shares {
    clients: u64,
    own: u64,
}

impl Shares {
    /// Nothing came so far.
    pub fn new() -> Shares
        ensures { result ≡ no_shares }
    {
        Shares { clients: 0, own: 0 }
    }

    /// Whether the master's own streams are held back at a wait for these streams.
    pub fn holds_own(&mut self, waiting: &[u64]) -> bool
        ensures held { result ≡ holds_own waiting.now self.old }
        ensures anew { among 0 waiting.now ≡ false → self.new ≡ no_shares }
    {
        if !waiting.contains(&0) {
            *self = Shares::new();
            return false;
        }
        !(self.own < self.clients)
    }

    /// Counts bytes that came from a stream.
    pub fn count(&mut self, stream: u64, bytes: usize)
        ensures { self.new ≡ shares_after stream bytes self.old }
    {
        if is_own(stream) {
            self.own = self.own.saturating_add(bytes as u64);
        } else if stream != 0 {
            self.clients = self.clients.saturating_add(bytes as u64);
        }
    }
}
