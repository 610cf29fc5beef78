ghost use Rattle.std.specs.Prelude.{◌≡◌, ◌≤◌, ◌+◌, ◌++◌, List, [], true, false, IfOk, OnErr};
ghost use Rattle.ssh_fields.specs.Fields.{AreBytes};
ghost use Rattle.ssh_grammar.specs.SpellMessage.{with_recipient, with_sender};
ghost use Rattle.mux_history.specs.Rows.{Row};
ghost use Rattle.mux_history.specs.Log.{open_matters};
ghost use Rattle.mux_history.specs.Policy.{permits};
ghost use Rattle.window_ledger.specs.Stands.{IsConfirmed, is_open_confirmed};
ghost use Rattle.window_ledger.specs.Leaving.{ledger_after_close};
ghost use Rattle.conn_messages.specs.Keys.{key_of};
ghost use Rattle.client_teardown.specs.Leaving.{SendsFarewell, channel_farewells, forward_farewells};
ghost use Rattle.mux_core.specs.State.{new_state};
ghost use Rattle.mux_core.specs.Stands.{CoreRepresents};
ghost use Rattle.mux_core.specs.Lookups.{awaits_answer, waits};
ghost use Rattle.mux_core.specs.Losing.{left_core, lost_clients};
ghost use Rattle.mux_core.specs.Settling.{is_lost_in, client_settled};
ghost use Rattle.mux_core.specs.Calls.{AdmitsOn};

mod channels;
mod requests;

use crate::members::Members;
use channel_table::{Channel, Table};
use client_teardown::{FAREWELL_ROOM, tear_down};
use conn_messages::{Key, recipient_at, sender_at};
use forward_rules::{Forwards, Policy};
use global_replies::Askers;
use proxy_frames::Queue;
use ssh_fields::{OutOfMemory, patch_u32};
use ssh_grammar::Side;
use std::alloc::Global;
use std::marker::Model;
use window_ledger::Ledger;

/// The shared connection.
#[derive(Drop)]
pub struct Core {
    policy: Policy,
    /// The channels that are held.
    table: Table,
    /// The global requests that were sent and have no reply.
    askers: Askers,
    /// The forwardings that are asked or live.
    forwards: Forwards,
    /// The clients with open matters, at most 64.
    clients: Members,
}

impl Model for Core {
    ghost use Rattle.mux_core.specs.State.{CoreState};

    ghost Value = { CoreState };

    ghost view = { λ a. record {
      policy = a.policy;
      channels = a.table;
      asks = a.askers;
      clients = a.clients;
      forwards = a.forwards;
    } };
}

// The number at the sender's place, where a payload has one.
pub(crate) fn put_sender(payload: &mut [u8], number: u32)
    ensures { payload.new ≡ with_sender payload.old number }
{
    if let Some(at) = sender_at(payload) {
        patch_u32(payload, at, number);
    }
}

// The number at the recipient's place, where a payload has one.
pub(crate) fn put_recipient(payload: &mut [u8], number: u32)
    ensures { payload.new ≡ with_recipient payload.old number }
{
    if let Some(at) = recipient_at(payload) {
        patch_u32(payload, at, number);
    }
}

// What a slice of bytes holds are bytes: a proof learns that where the slice is lent, and not of
// one behind a `&mut`, as in `said`. It does nothing.
pub(crate) fn are_bytes(payload: &[u8])
    ensures { AreBytes payload.now }
{
    let _ = payload;
}

// Whether the channel is a client's open that has no answer.
pub(crate) fn waits(channel: &Channel, ledger: &Ledger) -> bool
    ensures { result ≡ waits channel.now ledger.now }
{
    channel.by == Side::Up && !ledger.confirmed()
}

// Whether the channel is a server's open that has no answer.
pub(crate) fn awaits_answer(channel: &Channel, ledger: &Ledger) -> bool
    ensures { result ≡ awaits_answer channel.now ledger.now }
{
    channel.by == Side::Down && !ledger.confirmed()
}

// The account once the open is confirmed.
pub(crate) fn confirmed_ledger(ledger: Ledger, window: u32, maximum: u32) -> Ledger
    ensures stands { is_open_confirmed ledger ≡ false → IsConfirmed ledger result window maximum }
    ensures confirmed { is_open_confirmed result ≡ true }
    ensures left { is_open_confirmed (ledger_after_close result) ≡ true }
{
    let mut given = ledger;
    if !ledger.confirmed() {
        given.confirm(window, maximum);
    }
    given
}

impl Core {
    /// A core that received nothing yet.
    pub fn new(alloc: Global, policy: Policy) -> Result<Core, OutOfMemory>
        ensures new { IfOk result (λ core. core ≡ new_state policy) }
        ensures stands { IfOk result (λ core. CoreRepresents core []) }
    {
        Ok(Core {
            policy,
            table: Table::new(alloc)?,
            askers: Askers::new(alloc),
            forwards: Forwards::new(alloc),
            clients: Members::new(alloc),
        })
    }

    /// A client comes: whether it is admitted.
    pub fn admit(&mut self, client: u64) -> Result<bool, OutOfMemory>
        ensures stands { IfOk result (λ let_in. AdmitsOn self.old self.new client let_in) }
        ensures policy { self.new.policy ≡ self.old.policy }
        ensures unchanged { OnErr result (self.new ≡ self.old) }
    {
        self.clients.enter(client)
    }

    /// How many clients have open matters.
    pub fn open_matters(&self) -> u32
        ensures { (rows : List Row) → CoreRepresents self.now rows → result ≡ open_matters rows }
    {
        self.clients.count()
    }

    // ---- permissions

    pub(crate) fn permits_open(&self, key: Key<'_>) -> bool
        ensures { result ≡ permits self.now.policy.opens (key_of key.entry) }
    {
        self.policy.permits_open_to(key)
    }

    pub(crate) fn permits_sessions(&self) -> bool
        ensures { result ≡ self.now.policy.sessions }
    {
        self.policy.permits_sessions()
    }

    pub(crate) fn permits_listen(&self, key: Key<'_>) -> bool
        ensures { result ≡ permits self.now.policy.listens (key_of key.entry) }
    {
        self.policy.permits_listen_on(key)
    }

    // ---- clients

    pub(crate) fn is_lost(&self, client: u64) -> bool
        ensures { result ≡ is_lost_in self.now.clients client }
    {
        self.clients.is_lost(client)
    }

    pub(crate) fn lose(&mut self, client: u64)
        ensures { self.new ≡ record self.old { clients = lost_clients client self.old.clients } }
    {
        self.clients.lose(client);
    }

    // A client's farewell goes up, and leaves the tables.
    pub(crate) fn leave(&mut self, client: u64, up: &mut Queue)
        requires { FAREWELL_ROOM ≤ up.old.spare }
        ensures exact { self.new ≡ left_core self.old client }
        ensures sent { SendsFarewell (channel_farewells client self.old.channels
            ++ forward_farewells client self.old.forwards) up.old up.new }
        ensures spare { up.old.spare ≤ up.new.spare + FAREWELL_ROOM }
    {
        tear_down(&mut self.table, &mut self.forwards, client, up);
    }

    // A client that is lost is forgotten, where nothing of it is left.
    pub(crate) fn settle(&mut self, client: u64)
        ensures { self.new ≡ client_settled self.old client }
    {
        if self.table.count(client) == 0 && self.askers.count(client) == 0 {
            self.clients.forget(client);
        }
    }
}
