ghost use Rattle.std.specs.Prelude.{◌≡◌, ◌==◌, ◌||◌, ◌<◌, ◌≤◌, length, [], map, false, nat_lt, IfOk, OnOk, OnErr};
ghost use Rattle.mux_history.specs.declared.limits.TheConstants.{MAX_CLIENTS};
ghost use Rattle.global_replies.specs.Replies.{after_reply, is_none_left, or_behind, refusals_behind};
ghost use Rattle.mux_core.specs.Members.{member_state};
ghost use Rattle.mux_core.specs.Entering.{with_client};
ghost use Rattle.mux_core.specs.Losing.{lost_clients};
ghost use Rattle.mux_core.specs.Requesting.{more_awaited, place_of_client, member_waiting_of, with_waiting};
ghost use Rattle.mux_core.specs.Settling.{is_lost_in, clients_kept};

use global_replies::ClientAnswers;
use mux_history::limits::MAX_CLIENTS;
use ssh_fields::OutOfMemory;
use std::alloc::Global;
use std::marker::Model;

/// A client with open matters.
#[derive(Drop)]
pub struct Member {
    number: u64,
    /// Its stream is gone, or it was dropped; what it left open isn't closed yet.
    lost: bool,
    /// What it is still to be answered.
    answers: ClientAnswers,
}

/// The clients with open matters, in the order in which they came.
#[derive(Drop)]
pub struct Members {
    alloc: Global,
    listed: Vec<Member>,
}

impl Model for Members {
    ghost use Rattle.std.specs.Prelude.{List, map};
    ghost use Rattle.mux_core.specs.State.{MemberState};
    ghost use Rattle.mux_core.specs.Members.{member_state};

    ghost Value = { List MemberState };

    ghost view = { λ a. map member_state a.listed.items };
}

// Whether a client is lost once this one is.
fn is_lost_by(c: &Member, client: u64) -> bool
    ensures { result ≡ (c.now.lost || (c.now.number == client)) }
{
    c.lost || c.number == client
}

fn lose_in(clients: &mut [Member], client: u64)
    ensures { map member_state clients.new ≡ lost_clients client (map member_state clients.old) }
{
    for c in clients.iter_mut() {
        c.lost = is_lost_by(c, client);
    }
}

fn lost_in(clients: &[Member], client: u64) -> bool
    ensures { result ≡ is_lost_in (map member_state clients.now) client }
{
    for c in clients {
        if c.number == client && c.lost {
            return true;
        }
    }
    false
}

// How many requests of a client have no answer.
fn waiting_in(clients: &[Member], client: u64) -> u32
    ensures { result ≡ length (member_waiting_of client (map member_state clients.now)) }
{
    for c in clients {
        if c.number == client {
            return c.answers.waiting();
        }
    }
    0
}

// The place of a client, or the end.
fn place_in(clients: &[Member], client: u64) -> usize
    ensures within { result ≤ length clients.now }
    ensures exact { result ≡ place_of_client client (map member_state clients.now) }
{
    let mut place = 0;
    for c in clients {
        if c.number == client {
            return place;
        }
        place += 1;
    }
    place
}

impl Members {
    /// No client is there.
    pub fn new(alloc: Global) -> Members
        ensures { result ≡ [] }
    {
        Members {
            alloc,
            listed: Vec::new(alloc),
        }
    }

    /// How many there are, of so many as fit.
    pub fn count(&self) -> u32
        ensures { length self.now < 4294967296 → result ≡ length self.now }
    {
        u32::try_from(self.listed.len()).unwrap_or(u32::MAX)
    }

    /// A client comes, where fewer than 64 are there: whether it is admitted.
    pub fn enter(&mut self, client: u64) -> Result<bool, OutOfMemory>
        ensures exact { IfOk result (λ b. b ≡ nat_lt (length self.old) MAX_CLIENTS) }
        ensures ok { IfOk result (λ b. self.new ≡ with_client b client self.old) }
        ensures unchanged { OnErr result (self.new ≡ self.old) }
    {
        if self.listed.len() >= MAX_CLIENTS {
            return Ok(false);
        }
        self.listed.push(Member {
            number: client,
            lost: false,
            answers: ClientAnswers::new(self.alloc),
        })?;
        Ok(true)
    }

    /// Whether a client is there and lost.
    pub fn is_lost(&self, client: u64) -> bool
        ensures { result ≡ is_lost_in self.now client }
    {
        lost_in(&self.listed, client)
    }

    /// A client is lost from now on.
    pub fn lose(&mut self, client: u64)
        ensures { self.new ≡ lost_clients client self.old }
    {
        lose_in(&mut self.listed, client);
    }

    /// A client is out.
    pub fn forget(&mut self, client: u64)
        ensures { self.new ≡ clients_kept client false self.old }
    {
        self.listed.retain(|c| c.number != client);
    }

    /// How many requests of a client have no answer.
    pub fn waiting(&self, client: u64) -> u32
        ensures { result ≡ length (member_waiting_of client self.now) }
    {
        waiting_in(&self.listed, client)
    }

    /// A request of a client was sent: its answer is awaited.
    pub fn awaited(&mut self, client: u64) -> Result<(), OutOfMemory>
        ensures { OnOk result (self.new ≡ with_waiting client more_awaited self.old) }
    {
        let place = place_in(&self.listed, client);
        if place >= self.listed.len() {
            return Ok(());
        }
        self.listed[place].answers.awaited()?;
        Ok(())
    }

    /// A request of a client is refused: whether at once, or after what waits.
    pub fn refused(&mut self, client: u64) -> Result<bool, OutOfMemory>
        ensures now { IfOk result (λ now. now ≡ is_none_left (member_waiting_of client self.old)) }
        ensures ok { OnOk result (self.new ≡ with_waiting client or_behind self.old) }
    {
        let place = place_in(&self.listed, client);
        if place >= self.listed.len() {
            return Ok(true);
        }
        let now = self.listed[place].answers.local()?;
        Ok(now)
    }

    /// The server's reply to a client's first request came: so many refusals follow it now.
    pub fn answered(&mut self, client: u64) -> u32
        ensures refusals { result ≡ refusals_behind (member_waiting_of client self.old) }
        ensures left { self.new ≡ with_waiting client after_reply self.old }
    {
        let place = place_in(&self.listed, client);
        if place >= self.listed.len() {
            return 0;
        }
        self.listed[place].answers.server_answered()
    }
}
