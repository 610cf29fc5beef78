//! The channels that are held.

ghost use Rattle.std.specs.Prelude.{◌≡◌, ◌+◌, ◌++◌, ◌∷◌, [], not, is_some, IfOk, OnErr};
ghost use Rattle.channel_table.specs.Entries.{IsNumberFree, RefusesAs, changed_at, freed, number_of_own, number_of_remote, own_entry, own_refusal, remote_entry, remote_refusal, with_ledger, entry_with_own, with_remote};
ghost use Rattle.mux_core.specs.Lookups.{PutsLedger, changed_if, channel_for, confirmed_for, uses_own, open_waiting_for};

use super::{Core, awaits_answer};
use channel_table::{Channel, Refused};
use ssh_fields::OutOfMemory;
use window_ledger::Ledger;

impl Core {
    // The number and the account of a confirmed channel of the client, by the server's number.
    pub(crate) fn confirmed_for(&self, client: u64, remote: u32) -> Option<(u32, Ledger)>
        ensures { result ≡ confirmed_for self.now.channels client remote }
    {
        let number = self.table.by_remote(remote)?;
        let channel = self.table.admitted(number)?;
        let ledger = self.table.ledger_of(number)?;
        if channel.client == client && ledger.confirmed() {
            Some((number, ledger))
        } else {
            None
        }
    }

    // The number and the account of a server's open that waits for the client's answer, by the
    // server's number.
    pub(crate) fn waiting_for(&self, client: u64, remote: u32) -> Option<(u32, Ledger)>
        ensures { result ≡ open_waiting_for self.now.channels client remote }
    {
        let number = self.table.by_remote(remote)?;
        let channel = self.table.admitted(number)?;
        let ledger = self.table.ledger_of(number)?;
        if channel.client == client && awaits_answer(&channel, &ledger) {
            Some((number, ledger))
        } else {
            None
        }
    }

    // The channel for which a number stands.
    pub(crate) fn channel_for(&self, number: u32) -> Option<(Channel, Ledger)>
        ensures { result ≡ channel_for self.now.channels number }
    {
        let channel = self.table.by_number(number)?;
        let ledger = self.table.ledger_of(number)?;
        Some((channel, ledger))
    }

    // Whether the client uses a number of its own for a channel.
    pub(crate) fn uses_own(&self, client: u64, own: u32) -> bool
        ensures { result ≡ is_some (number_of_own self.now.channels client own) }
    {
        self.table.by_own(client, own).is_some()
    }

    // Whether the server uses a number for a channel.
    pub(crate) fn uses_remote(&self, remote: u32) -> bool
        ensures { result ≡ is_some (number_of_remote self.now.channels remote) }
    {
        self.table.by_remote(remote).is_some()
    }

    // A channel that the client has opened.
    pub(crate) fn add_own(&mut self, client: u64, own: u32, ledger: Ledger) -> Result<u32, Refused>
        ensures exact { RefusesAs result (own_refusal self.old.channels client own) }
        ensures fresh { IfOk result (λ n. IsNumberFree self.old.channels n) }
        ensures ok { IfOk result (λ n.
            self.new ≡ record self.old {
              channels =
                  self.old.channels ++ own_entry n client own ledger ∷ [];
            }) }
        ensures unchanged { OnErr result (self.new ≡ self.old) }
    {
        self.table.admit_own(client, own, ledger)
    }

    // A channel that the server has opened.
    pub(crate) fn add_remote(
        &mut self,
        client: u64,
        remote: u32,
        ledger: Ledger,
    ) -> Result<u32, Refused>
        ensures exact { RefusesAs result (remote_refusal self.old.channels client remote) }
        ensures fresh { IfOk result (λ n. IsNumberFree self.old.channels n) }
        ensures ok { IfOk result (λ n.
            self.new ≡ record self.old {
              channels =
                  self.old.channels ++ remote_entry n client remote ledger ∷ [];
            }) }
        ensures unchanged { OnErr result (self.new ≡ self.old) }
    {
        self.table.admit_remote(client, remote, ledger)
    }

    // The client's own number of a channel that the server has opened: whether the client uses it
    // for no other.
    pub(crate) fn name_own(&mut self, number: u32, own: u32) -> Result<bool, OutOfMemory>
        ensures exact { IfOk result (λ free. free ≡ not (uses_own self.old.channels number own)) }
        ensures ok { IfOk result (λ free.
            self.new ≡ record self.old {
              channels =
                  changed_if free number (entry_with_own own) self.old.channels;
            }) }
        ensures policy { self.new.policy ≡ self.old.policy }
    {
        match self.table.set_own(number, own) {
            Ok(()) => Ok(true),
            Err(Refused::OutOfMemory) => Err(OutOfMemory),
            Err(_) => Ok(false),
        }
    }

    // The server's number of a channel that a client has opened: whether the server uses it for no
    // other.
    pub(crate) fn name_remote(&mut self, number: u32, remote: u32) -> Result<bool, OutOfMemory>
        ensures exact { IfOk result (λ free.
            free ≡ not (is_some (number_of_remote self.old.channels remote))) }
        ensures ok { IfOk result (λ free.
            self.new ≡ record self.old {
              channels =
                  changed_if free number (with_remote remote) self.old.channels;
            }) }
        ensures policy { self.new.policy ≡ self.old.policy }
    {
        match self.table.set_remote(number, remote) {
            Ok(()) => Ok(true),
            Err(Refused::OutOfMemory) => Err(OutOfMemory),
            Err(_) => Ok(false),
        }
    }

    // The account of a channel that goes on.
    pub(crate) fn set_ledger(&mut self, number: u32, ledger: Ledger)
        ensures { self.new ≡ record self.old {
          channels = changed_at number (with_ledger ledger) self.old.channels;
        } }
    {
        self.table.set_ledger(number, ledger);
    }

    // The account of a channel, which is over where the account is closed.
    pub(crate) fn put(&mut self, number: u32, ledger: Ledger)
        ensures { PutsLedger self.old self.new number ledger }
    {
        self.table.set_ledger(number, ledger);
        if ledger.closed() {
            self.table.free(number);
        }
    }

    // A channel is out.
    pub(crate) fn free(&mut self, number: u32)
        ensures { self.new ≡ record self.old { channels = freed number self.old.channels } }
    {
        self.table.free(number);
    }
}
