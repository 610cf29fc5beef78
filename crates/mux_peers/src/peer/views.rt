//! What a client shows, and what is removed from it.

ghost use Rattle.std.specs.Prelude.{◌≡◌, ◌≤◌, drop, length};
ghost use Rattle.mux_peers.specs.Stands.{is_read, is_proxied, is_greeted};

use super::Peer;
use crate::standing::Standing;
use mux_messages::hello;

impl Peer {
    /// Its number, by which the wire names its stream.
    pub fn number(&self) -> u64
        ensures { result ≡ self.now.number }
    {
        self.number
    }

    /// How it stands.
    pub fn standing(&self) -> Standing
        ensures { result ≡ self.now.standing }
    {
        self.standing
    }

    /// The bytes that wait for it.
    pub fn queue(&self) -> &[u8]
        ensures { result.now ≡ self.now.queue }
    {
        self.queue.front()
    }

    /// So many of them were accepted.
    pub fn took(&mut self, n: usize)
        requires { n ≤ length self.old.queue }
        ensures { self.new ≡ record self.old { queue = drop n self.old.queue } }
    {
        self.queue.took(n);
    }

    /// Whether what it sends is read.
    pub fn is_read(&self) -> bool
        ensures { result ≡ is_read self.now.standing }
    {
        matches!(
            self.standing,
            Standing::Awaited | Standing::Greeted | Standing::Proxied
        )
    }

    /// Whether it is in proxy mode.
    pub fn is_proxied(&self) -> bool
        ensures { result ≡ is_proxied self.now.standing }
    {
        matches!(self.standing, Standing::Proxied)
    }

    /// Whether it has sent its hello.
    pub fn is_greeted(&self) -> bool
        ensures { result ≡ is_greeted self.now.standing }
    {
        !matches!(self.standing, Standing::Awaited)
    }
}
