ghost use Rattle.std.specs.Prelude.{◌≡◌, ◌++◌, [], ◌∷◌, map, length, filter, IfSome, OnOk, OnErr};
ghost use Rattle.global_replies.specs.Asks.{IsShortRequest, what_of};
ghost use Rattle.global_replies.specs.Replies.{kept_ask_of, request_of, FirstAsked, rest_of, is_request_of};
ghost use Rattle.global_replies.specs.Stands.{AskGoesOn, ReplyGoesOn};

use crate::ask::{Ask, AskRecord, MOST_WAITING};
use crate::tally::{add_one, drop_one, request_count_of};
use indexmap::IndexMap;
use ssh_fields::OutOfMemory;
use std::alloc::Global;
use std::collections::VecDeque;
use std::marker::Model;

/// The requests of all clients that were sent and have no reply, in the order in which they were
/// sent.
#[derive(Drop)]
pub struct Askers {
    waiting: VecDeque<AskRecord>,
    /// How many of them each client has, of those that have any.
    counts: IndexMap<u64, u32>,
}

impl Model for Askers {
    ghost use Rattle.std.specs.Prelude.{List, map};
    ghost use Rattle.mux_history.specs.Requests.{Ask};
    ghost use Rattle.global_replies.specs.Replies.{kept_ask_of};
    ghost use Rattle.global_replies.specs.Tally.{IsTally};

    ghost Value = { List Ask };

    ghost view = { λ a. map kept_ask_of a.waiting.items };

    ghost invariant = { λ a. IsTally a.counts a.waiting.items };
}

impl Askers {
    /// No client has asked.
    pub fn new(alloc: Global) -> Askers
        ensures { result ≡ [] }
    {
        Askers {
            waiting: VecDeque::new(alloc),
            counts: IndexMap::new(alloc),
        }
    }

    /// A request of a client is sent, whose address or path has at most 255 bytes. An `Err` also
    /// comes where 2^32 - 1 requests wait.
    pub fn ask(&mut self, client: u64, what: Ask) -> Result<(), OutOfMemory>
        requires { IsShortRequest (what_of what) }
        ensures stands { OnOk result (AskGoesOn self.old self.new (request_of client what)) }
        ensures ok { OnOk result (self.new ≡ self.old ++ request_of client what ∷ []) }
        ensures unchanged { OnErr result (self.new ≡ self.old) }
    {
        if self.waiting.len() >= MOST_WAITING {
            return Err(OutOfMemory);
        }
        add_one(&mut self.counts, client)?;
        if self.waiting.push_back(AskRecord { client, what }).is_err() {
            drop_one(&mut self.counts, client);
            return Err(OutOfMemory);
        }
        Ok(())
    }

    /// The server's next reply answers the request that waits longest: it is removed. None where
    /// none waits.
    pub fn answered(&mut self) -> Option<(u64, Ask)>
        ensures stands { ReplyGoesOn self.old self.new result }
        ensures first { FirstAsked self.old result }
        ensures rest { self.new ≡ rest_of self.old }
        ensures short { IfSome result (λ a. IsShortRequest (what_of a.1)) }
    {
        let asked = self.waiting.pop_front()?;
        drop_one(&mut self.counts, asked.client);
        Some((asked.client, asked.what))
    }

    /// How many requests of a client were sent and wait for their reply.
    pub fn count(&self, client: u64) -> u32
        ensures { result ≡ length (filter (is_request_of client) self.now) }
    {
        request_count_of(&self.counts, client)
    }
}
