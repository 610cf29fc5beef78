//! What the clients of a master show.

ghost use Rattle.std.specs.Prelude.{◌≡◌, ◌++◌, [], length, OnOk, false};
ghost use Rattle.mux_peers.specs.Among.{first_lost_client, in_client, is_client_read, is_client_served, waiting_clients};

use super::{Clients, add_waiting, index_of};
use mux_history::Why;
use mux_outside::Streams;
use ssh_fields::OutOfMemory;

impl Clients {
    /// Whether the client of a number is here and isn't lost.
    pub fn is_served(&self, number: u64) -> bool
        ensures { result ≡ is_client_served self.now.all number }
    {
        let i = index_of(&self.all, number);
        i < self.all.len() && !self.all[i].is_lost()
    }

    /// Whether it is here, and what it sends is read.
    pub fn is_received(&self, number: u64) -> bool
        ensures { result ≡ is_client_read self.now.all number }
    {
        let i = index_of(&self.all, number);
        i < self.all.len() && self.all[i].is_read()
    }

    /// The bytes that wait for the client of a number.
    pub fn queue_of(&self, number: u64) -> &[u8]
        ensures { result.now ≡ in_client [] (λ c. c.peer.queue) self.now.all number }
    {
        let i = index_of(&self.all, number);
        if i < self.all.len() {
            self.all[i].queue()
        } else {
            &[]
        }
    }

    /// How many bytes of the client of a number are not cut yet: none of one that isn't read.
    pub fn rest_of(&self, number: u64) -> usize
        ensures exact { result ≡ length (in_client [] (λ c. c.rest) self.now.all number) }
        ensures unheard { is_client_read self.now.all number ≡ false → result ≡ 0 }
    {
        let i = index_of(&self.all, number);
        if i < self.all.len() {
            self.all[i].rest_len()
        } else {
            0
        }
    }

    /// The clients for which bytes wait are listed after these streams, in the order in which they
    /// came.
    pub fn list_waiting(&self, list: &mut Streams) -> Result<(), OutOfMemory>
        ensures { OnOk result (list.new ≡ list.old ++ waiting_clients self.now.all) }
    {
        add_waiting(list, &self.all)
    }

    /// The client that was lost or refused first of those that were not closed, with the cause for
    /// which it was dropped, if it was.
    pub fn closing(&self) -> Option<(u64, Option<Why>)>
        ensures { result ≡ first_lost_client self.now.leaving }
    {
        self.leaving.first().copied()
    }
}
