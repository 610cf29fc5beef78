ghost use Rattle.std.specs.Prelude.{◌≡◌, ◌≤◌, ◌+◌, ◌++◌, [], ◌∷◌, filter, map, not, position, true, false, option_map, IfSome, IfNone, OnSome, OnOk, OnErr};
ghost use Rattle.mux_history.specs.declared.limits.TheConstants.{MAX_FORWARDINGS};
ghost use Rattle.conn_messages.specs.Keys.{key_of, own_key_of, IsShort};
ghost use Rattle.forward_rules.specs.Step.{asked_forward, forward_answered, forward_cancelled, unanswered_cancels, cancel_answered, smaller_place, first_cancel, is_asked_with_key, is_cancelled_at, is_free_at, is_leaving_with_key, is_live_at, some_free, forward_owner_at, forward_count_of, without_cancel_of, forwards_without_client};
ghost use Rattle.forward_rules.specs.Listing.{listed_forward_of};
ghost use Rattle.forward_rules.specs.Taking.{AddsAs, after_taking, closed_up, first_live, is_live_of, moved_up_of, recorded_taken_of, recorded_forward_of};

use crate::listed::Listed;
use conn_messages::{Key, OwnKey};
use mux_history::limits::MAX_FORWARDINGS;
use std::alloc::Global;
use std::marker::Model;
use thiserror::Error;

/// Why no forwarding is added.
#[derive(Clone, Copy, Debug, PartialEq, Eq, Error)]
pub enum ForwardRefused {
    /// The client has so many forwardings, asked or live: 64.
    #[error("the client has {count} forwardings")]
    Full { count: usize },
    #[error("out of memory")]
    OutOfMemory,
}

/// The forwardings of all clients that are asked or live, in order of asking.
#[derive(Drop)]
pub struct Forwards {
    listed: Vec<Listed>,
}

impl Model for Forwards {
    ghost use Rattle.std.specs.Prelude.{List, map};
    ghost use Rattle.forward_rules.specs.State.{Forward};
    ghost use Rattle.forward_rules.specs.Listing.{listed_forward_of};
    ghost use Rattle.forward_rules.specs.Taking.{AreFew};

    ghost Value = { List Forward };

    ghost view = { λ a. map listed_forward_of a.listed.items };

    ghost invariant = { λ a. AreFew (map listed_forward_of a.listed.items) };
}

impl Forwards {
    /// Nothing is forwarded.
    pub fn new(alloc: Global) -> Forwards
        ensures { result ≡ [] }
    {
        Forwards {
            listed: Vec::new(alloc),
        }
    }

    /// A client's request for a forwarding is sent. The address or path has at most 255 bytes.
    pub fn add(&mut self, client: u64, key: Key<'_>) -> Result<(), ForwardRefused>
        requires { IsShort (key_of key) }
        ensures exact { AddsAs self.old client result }
        ensures ok { OnOk result (self.new ≡ self.old ++ asked_forward client (key_of key.entry) ∷ []) }
        ensures unchanged { OnErr result (self.new ≡ self.old) }
    {
        let count = self.count(client);
        if count >= MAX_FORWARDINGS {
            return Err(ForwardRefused::Full { count });
        }
        let listed = Listed {
            client,
            key: OwnKey::copy(key),
            live: false,
            cancel: None,
        };
        if self.listed.push(listed).is_err() {
            return Err(ForwardRefused::OutOfMemory);
        }
        Ok(())
    }

    /// The server's answer to the client's request for this key; of several the one asked first is
    /// meant. With a port it is live from now on: where port 0 was asked the server chose that
    /// port, and where another port or a path was asked it stays what was asked. None takes it out.
    /// Where none is asked nothing changes.
    pub fn answer(&mut self, client: u64, key: Key<'_>, bound: Option<u32>)
        ensures { self.new ≡ forward_answered client (key_of key.entry) bound self.old }
    {
        let Some(place) = asked_in(&self.listed, client, key) else {
            return;
        };
        match bound {
            Some(port) => self.listed[place].begin(port),
            None => {
                let _ = self.listed.remove(place);
            }
        }
    }

    /// A client cancels its earliest live forwarding of this key that no unanswered cancel means;
    /// false where there is none. The forwarding is over at once where no reply is wanted.
    pub fn cancel(&mut self, client: u64, key: Key<'_>, want: bool) -> bool
        ensures exact { result ≡ some_free client (key_of key.entry) self.old }
        ensures step { self.new ≡ forward_cancelled client (key_of key.entry) want self.old }
        ensures short { result ≡ true → IsShort (key_of key.entry) }
        ensures none { result ≡ false → self.new ≡ self.old }
    {
        let Some(place) = free_in(&self.listed, client, key) else {
            return false;
        };
        if want {
            let rank = cancels_in(&self.listed, client);
            self.listed[place].cancel = Some(rank);
        } else {
            let _ = self.listed.remove(place);
        }
        true
    }

    /// The server's answer to the client's cancel of this key; of several the one sent first is
    /// meant. Its forwarding is over where it is `done`, else live as before. Where none has no
    /// reply nothing changes.
    pub fn cancel_answer(&mut self, client: u64, key: Key<'_>, done: bool)
        ensures { self.new ≡ cancel_answered client (key_of key.entry) done self.old }
    {
        let Some(rank) = first_cancel_in(&self.listed, client, key) else {
            return;
        };
        if done {
            self.end(client, rank);
        }
        self.settle(client, rank);
    }

    /// The client of the earliest live forwarding of this key.
    pub fn owner_of(&self, key: Key<'_>) -> Option<u64>
        ensures { result ≡ forward_owner_at (key_of key.entry) self.now }
    {
        let place = live_in(&self.listed, key)?;
        Some(self.listed[place].client)
    }

    /// How many forwardings of a client are asked or live.
    pub fn count(&self, client: u64) -> usize
        ensures exact { result ≡ forward_count_of self.now client }
        ensures few { result ≤ MAX_FORWARDINGS }
    {
        count_in(&self.listed, client)
    }

    /// Removes a client's earliest live forwarding: its key, and whether a cancel of it has no
    /// reply. Where it has no live one, all that it has asked are removed, and None is answered.
    pub fn take_of(&mut self, client: u64) -> Option<(OwnKey, bool)>
        ensures exact { option_map recorded_taken_of result
            ≡ option_map recorded_forward_of (first_live client self.old) }
        ensures step { self.new ≡ after_taking client self.old }
        ensures short { IfSome result (λ t. IsShort (own_key_of t.0)) }
        ensures fewer { OnSome result (forward_count_of self.new client + 1 ≡ forward_count_of self.old client) }
        ensures few { forward_count_of self.old client ≤ MAX_FORWARDINGS }
        ensures none { IfNone result (self.new ≡ forwards_without_client client self.old) }
    {
        let Some(place) = live_of(&self.listed, client) else {
            self.leave(client);
            return None;
        };
        let taken = self.listed.remove(place);
        self.close_up(client, taken.cancel);
        Some((taken.key, taken.cancel.is_some()))
    }

    /// Takes all forwardings of a client out.
    pub fn leave(&mut self, client: u64)
        ensures { self.new ≡ forwards_without_client client self.old }
    {
        self.listed.retain(|f| f.client != client);
    }

    // What the client's unanswered cancel of this rank means is over.
    fn end(&mut self, client: u64, rank: usize)
        ensures { self.new ≡ filter (λ f. not (is_cancelled_at client rank f)) self.old }
    {
        self.listed.retain(|f| !f.is_cancelled_by(client, rank));
    }

    // The client's cancel of this rank is answered: the later ones move up.
    fn settle(&mut self, client: u64, rank: usize)
        ensures { self.new ≡ map (without_cancel_of client rank) self.old }
    {
        settle_in(&mut self.listed, client, rank);
    }

    // What the client's cancel of this rank meant was removed, if one meant it: the later ones
    // move up.
    fn close_up(&mut self, client: u64, cancel: Option<usize>)
        ensures { self.new ≡ closed_up client cancel self.old }
    {
        if let Some(rank) = cancel {
            move_up_in(&mut self.listed, client, rank);
        }
    }
}

// The place of the client's first that has this key and is asked.
fn asked_in(listed: &[Listed], client: u64, key: Key<'_>) -> Option<usize>
    ensures { result ≡ position (λ f. is_asked_with_key client (key_of key.entry) (listed_forward_of f))
        listed.now }
{
    listed.iter().position(|f| f.is_asked(client, key))
}

// The place of the client's first that is live with this key, and that no unanswered cancel means.
fn free_in(listed: &[Listed], client: u64, key: Key<'_>) -> Option<usize>
    ensures { result ≡ position (λ f. is_free_at client (key_of key.entry) (listed_forward_of f))
        listed.now }
{
    listed.iter().position(|f| f.is_free(client, key))
}

// The place of the first that is live with this key.
fn live_in(listed: &[Listed], key: Key<'_>) -> Option<usize>
    ensures { result ≡ position (λ f. is_live_at (key_of key.entry) (listed_forward_of f)) listed.now }
{
    listed.iter().position(|f| f.is_live(key))
}

// The place of the client's first that is live.
fn live_of(listed: &[Listed], client: u64) -> Option<usize>
    ensures { result ≡ position (λ f. is_live_of client (listed_forward_of f)) listed.now }
{
    listed.iter().position(|f| f.client == client && f.live)
}

// How many are a client's.
fn count_in(listed: &[Listed], client: u64) -> usize
    ensures { result ≡ forward_count_of (map listed_forward_of listed.now) client }
{
    let mut count = 0;
    for f in listed {
        if f.client == client {
            count += 1;
        }
    }
    count
}

// How many cancels of a client have no reply: the rank of its next one.
fn cancels_in(listed: &[Listed], client: u64) -> usize
    ensures { result ≡ unanswered_cancels client (map listed_forward_of listed.now) }
{
    let mut count = 0;
    for f in listed {
        if f.client == client && f.cancel.is_some() {
            count += 1;
        }
    }
    count
}

// The rank of the client's first unanswered cancel of this key.
fn first_cancel_in(listed: &[Listed], client: u64, key: Key<'_>) -> Option<usize>
    ensures { result ≡ first_cancel (is_leaving_with_key client (key_of key.entry))
        (map listed_forward_of listed.now) }
{
    let mut first = None;
    for f in listed {
        if f.is_leaving(client, key) {
            first = earlier(first, f.cancel);
        }
    }
    first
}

// The lower of two ranks.
fn earlier(a: Option<usize>, b: Option<usize>) -> Option<usize>
    ensures { result ≡ smaller_place a b }
{
    match (a, b) {
        (None, b) => b,
        (a, None) => a,
        (Some(a), Some(b)) => Some(a.min(b)),
    }
}

// The client's cancel of this rank is answered: the later ones move up.
fn settle_in(listed: &mut [Listed], client: u64, rank: usize)
    ensures { map listed_forward_of listed.new
        ≡ map (without_cancel_of client rank) (map listed_forward_of listed.old) }
{
    for f in listed.iter_mut() {
        f.settle(client, rank);
    }
}

// The client's cancels after this rank move up by one.
fn move_up_in(listed: &mut [Listed], client: u64, rank: usize)
    ensures { map listed_forward_of listed.new
        ≡ map (moved_up_of client rank) (map listed_forward_of listed.old) }
{
    for f in listed.iter_mut() {
        f.move_up(client, rank);
    }
}
