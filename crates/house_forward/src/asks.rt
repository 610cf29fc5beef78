//! The requests of clients that are to be answered later.
ghost use Rattle.std.specs.Prelude.{◌≡◌, ◌≤◌, ◌<◌, ◌++◌, ◌∷◌, [], ℕ, length, OnOk, OnErr, None};
ghost use Rattle.std.specs.List.{position};
ghost use Rattle.house_forward.specs.Asks.{has_open, how_many_of, is_full_for, turns_away, request_waiting_for, settle_one, requests_settled, all_requests_refused, one_more_outcome, owes_opening, earlier_outcome, earliest, stamp_of, reply_of, next_answer, after_answer, is_waiting};
ghost use Rattle.house_forward.specs.declared.rules.TheConstants.{MOST_ASKS};

use crate::rules::{MOST_ASKS, MOST_WAITING};
use mux_outside::HouseReply;
use ssh_fields::OutOfMemory;
use std::alloc::Global;

/// The outcome of a request.
#[derive(Clone, Copy, PartialEq, Eq)]
pub enum RequestOutcome {
    Done,
    Port(u32),
    Refused,
}

/// The immediate outcome of a request.
#[derive(Clone, Copy)]
pub enum ImmediateOutcome {
    /// It has this outcome.
    Now(RequestOutcome),
    /// It waits for the fate of this forwarding.
    Later(u64),
}

/// A request that has no answer yet.
#[derive(Clone, Copy)]
pub struct Waiting {
    pub client: u64,
    pub id: u32,
    pub opening: bool,
    /// The forwarding whose fate it waits for.
    pub forwarding: u64,
    /// Its outcome, and the how many-th that was.
    pub outcome: Option<(u64, RequestOutcome)>,
}

/// The requests that have no answer yet, in order of asking.
#[derive(Drop)]
pub struct PendingRequests {
    waiting: Vec<Waiting>,
    /// How many had an outcome.
    done: u64,
    // At most so many are of one client.
    ghost few: { (client : ℕ) → how_many_of client waiting.items ≤ MOST_ASKS },
}

impl PendingRequests {
    pub fn new(alloc: Global) -> PendingRequests
        ensures none { result.waiting.items ≡ [] }
        ensures done { result.done ≡ 0 }
    {
        PendingRequests {
            waiting: Vec::new(alloc),
            done: 0,
        }
    }

    /// How many there are.
    pub fn len(&self) -> usize
        ensures { result ≡ length self.now.waiting.items }
    {
        self.waiting.len()
    }

    // Whether a client has a request with this id.
    fn has(&self, client: u64, id: u32) -> bool
        ensures { result ≡ has_open client id self.now.waiting.items }
    {
        self.waiting
            .iter()
            .any(|w| w.client == client && w.id == id)
    }

    // How many a client has.
    fn how_many_of(&self, client: u64) -> usize
        ensures { result ≡ how_many_of client self.now.waiting.items }
    {
        self.waiting.iter().filter(|w| w.client == client).count()
    }

    // Whether as many of a client wait as may, or as many in all.
    fn is_full_for(&self, client: u64) -> bool
        ensures { result ≡ is_full_for client self.now.waiting.items }
    {
        self.how_many_of(client) >= MOST_ASKS || self.len() >= MOST_WAITING
    }

    /// Whether a request is refused for those that wait: one of its client has its id, or as many
    /// wait as may.
    pub fn turns_away(&self, client: u64, id: u32) -> bool
        ensures { result ≡ turns_away client id self.now.waiting.items }
    {
        self.has(client, id) || self.is_full_for(client)
    }

    /// One more, that waits for the fate of a forwarding.
    pub fn push(
        &mut self,
        client: u64,
        id: u32,
        opening: bool,
        forwarding: u64,
    ) -> Result<(), OutOfMemory>
        requires { how_many_of client self.old.waiting.items < MOST_ASKS }
        ensures waits { OnOk result (self.new.waiting.items ≡ self.old.waiting.items
            ++ request_waiting_for client id opening forwarding ∷ []) }
        ensures done { self.new.done ≡ self.old.done }
        ensures err { OnErr result (self.new.waiting.items ≡ self.old.waiting.items) }
    {
        self.waiting.push(Waiting {
            client,
            id,
            opening,
            forwarding,
            outcome: None,
        })?;
        Ok(())
    }

    /// The requests to open a forwarding, or those to close it, have this outcome.
    pub fn settle(&mut self, forwarding: u64, opening: bool, outcome: RequestOutcome)
        ensures waiting { self.new.waiting.items
            ≡ requests_settled forwarding opening self.old.done outcome self.old.waiting.items }
        ensures done { self.new.done ≡ one_more_outcome self.old.done }
    {
        let at = self.done;
        settle_all(&mut self.waiting, forwarding, opening, at, outcome);
        self.done = at.saturating_add(1);
    }

    /// All requests about a forwarding are refused.
    pub fn refuse(&mut self, forwarding: u64)
        ensures waiting { self.new.waiting.items
            ≡ all_requests_refused forwarding self.old.done self.old.waiting.items }
        ensures done { self.new.done ≡ one_more_outcome (one_more_outcome self.old.done) }
    {
        self.settle(forwarding, true, RequestOutcome::Refused);
        self.settle(forwarding, false, RequestOutcome::Refused);
    }

    /// Whether the answer to a request to open this forwarding is still to be given.
    pub fn owes_opening(&self, forwarding: u64) -> bool
        ensures { result ≡ owes_opening forwarding self.now.waiting.items }
    {
        self.waiting
            .iter()
            .any(|w| w.forwarding == forwarding && w.opening)
    }

    /// The next answer, in the order in which the requests had their outcome.
    pub fn answer(&mut self) -> Option<(u64, u32, HouseReply)>
        ensures exact { result ≡ next_answer self.old.waiting.items }
        ensures taken { self.new.waiting.items ≡ after_answer result self.old.waiting.items }
        ensures done { self.new.done ≡ self.old.done }
        ensures silent { result ≡ None → self.new ≡ self.old }
    {
        let w = self.earliest()?;
        let i = self.place_of(w.client, w.id)?;
        self.waiting.remove(i);
        Some((w.client, w.id, w.reply()))
    }

    // The place of the first that has this client and id.
    fn place_of(&self, client: u64, id: u32) -> Option<usize>
        ensures { result ≡ position (is_waiting client id) self.now.waiting.items }
    {
        self.waiting
            .iter()
            .position(|w| w.client == client && w.id == id)
    }

    // The one that had an outcome first.
    fn earliest(&self) -> Option<Waiting>
        ensures { result ≡ earliest self.now.waiting.items }
    {
        self.waiting
            .iter()
            .fold(None, |first, w| earlier(first, *w))
    }
}

impl Waiting {
    // How many had an outcome before it did.
    fn stamp(&self) -> u64
        ensures { result ≡ stamp_of self.now.outcome }
    {
        match self.outcome {
            Some((at, _)) => at,
            None => 0,
        }
    }

    // Its answer.
    fn reply(&self) -> HouseReply
        ensures { result ≡ reply_of self.now }
    {
        match self.outcome {
            Some((_, RequestOutcome::Done)) => HouseReply::Done,
            Some((_, RequestOutcome::Port(port))) => {
                if self.opening {
                    HouseReply::Port(port)
                } else {
                    HouseReply::Refused
                }
            }
            Some((_, RequestOutcome::Refused)) | None => HouseReply::Refused,
        }
    }
}

// The one of both that had an outcome earlier.
fn earlier(first: Option<Waiting>, w: Waiting) -> Option<Waiting>
    ensures { result ≡ earlier_outcome first w }
{
    let Some((at, _)) = w.outcome else {
        return first;
    };
    match first {
        None => Some(w),
        Some(f) => { if at < f.stamp() { Some(w) } else { Some(f) } }
    }
}

// Those of these requests that have no outcome yet have this one.
fn settle_all(
    waiting: &mut Vec<Waiting>,
    forwarding: u64,
    opening: bool,
    at: u64,
    outcome: RequestOutcome,
)
    ensures { waiting.new.items ≡ requests_settled forwarding opening at outcome waiting.old.items }
{
    for w in waiting.iter_mut() {
        *w = settled(*w, forwarding, opening, at, outcome);
    }
}

// A request, which has this outcome if it is one of these and has none yet.
fn settled(w: Waiting, forwarding: u64, opening: bool, at: u64, outcome: RequestOutcome) -> Waiting
    ensures { result ≡ settle_one forwarding opening at outcome w }
{
    if w.forwarding == forwarding && w.opening == opening && w.outcome.is_none() {
        Waiting {
            outcome: Some((at, outcome)),
            ..w
        }
    } else {
        w
    }
}
