ghost use Rattle.std.specs.Prelude.{◌≡◌, ◌++◌, [], ◌∷◌, OnOk, OnErr, IfOk};
ghost use Rattle.channel_table.specs.Entries.{is_shown};

use crate::channel::{Channel, Refused};
use crate::names::{
    add_number, drop_number, insert_own, insert_remote, make_room, remove_own, remove_remote,
};
use crate::numbers::Numbers;
use crate::slots::Slots;
use indexmap::IndexMap;
use mux_history::limits::MAX_CHANNELS;
use ssh_fields::OutOfMemory;
use ssh_grammar::Side;
use std::alloc::Global;
use std::marker::Model;
use window_ledger::Ledger;

/// The channels of all clients that are held. Contracts see them as one list, in the order in which
/// they began.
#[derive(Drop)]
pub struct Table {
    slots: Slots,
    /// From a client and its own number to the number.
    own: IndexMap<(u64, u32), u32>,
    /// From the server's number to the number.
    remote: IndexMap<u32, u32>,
    /// From a client to the numbers of its channels, in the order in which they began.
    clients: IndexMap<u64, Numbers>,
}

impl Model for Table {
    ghost use Rattle.std.specs.Prelude.{List};
    ghost use Rattle.channel_table.specs.Entries.{TableEntry};
    ghost use Rattle.channel_table.specs.Indices.{Agrees};

    ghost Value = { List TableEntry };

    ghost view = { λ a. a.slots.entries };

    ghost invariant = { λ a. Agrees a.own a.remote a.clients a.slots.entries };
}

impl Table {
    ghost use Rattle.channel_table.specs.Entries.{AreSound, IsNumberFree, RefusesAs, SetsOwn, SetsRemote, admitted_at, changed_at, channel_at, channel_count_of, freed, full_refusal, holder_of, ledger_at, nth_number, number_of_own, number_of_remote, own_entry, own_refusal, remote_entry, remote_refusal, with_ledger, entry_with_own, with_remote};
    ghost use Rattle.channel_table.specs.Indices.{IsOwnIndex, IsRemoteIndex};

    /// A table without a channel.
    pub fn new(alloc: Global) -> Result<Table, OutOfMemory>
        ensures { IfOk result (λ table. table ≡ []) }
    {
        Ok(Table {
            slots: Slots::new(alloc),
            own: IndexMap::new(alloc),
            remote: IndexMap::new(alloc),
            clients: IndexMap::new(alloc),
        })
    }

    /// A client has opened a channel: the number that represents it from now on. Of two numbers
    /// that are free, the one that was freed last is used.
    pub fn admit_own(&mut self, client: u64, own: u32, ledger: Ledger) -> Result<u32, Refused>
        ensures exact { RefusesAs result (own_refusal self.old client own) }
        ensures fresh { IfOk result (λ number. IsNumberFree self.old number) }
        ensures ok { IfOk result (λ number.
            self.new ≡ self.old ++ own_entry number client own ledger ∷ []) }
        ensures unchanged { OnErr result (self.new ≡ self.old) }
    {
        if self.by_own(client, own).is_some() {
            return Err(Refused::OwnInUse);
        }
        self.refuse_full(client)?;
        let number = make_room(&mut self.slots, &mut self.clients, client)?;
        insert_own(&mut self.own, client, own, number)?;
        let channel = Channel {
            client,
            own: Some(own),
            remote: None,
            by: Side::Up,
        };
        self.slots.open(number, channel, ledger);
        add_number(&mut self.clients, client, number);
        Ok(number)
    }

    /// The server has opened a channel to a client: the number that will represent it.
    pub fn admit_remote(&mut self, client: u64, remote: u32, ledger: Ledger) -> Result<u32, Refused>
        ensures exact { RefusesAs result (remote_refusal self.old client remote) }
        ensures fresh { IfOk result (λ number. IsNumberFree self.old number) }
        ensures ok { IfOk result (λ number.
            self.new ≡ self.old ++ remote_entry number client remote ledger ∷ []) }
        ensures unchanged { OnErr result (self.new ≡ self.old) }
    {
        if let Some(holder) = self.holder(remote) {
            return Err(Refused::RemoteInUse { holder });
        }
        self.refuse_full(client)?;
        let number = make_room(&mut self.slots, &mut self.clients, client)?;
        insert_remote(&mut self.remote, remote, number)?;
        let channel = Channel {
            client,
            own: None,
            remote: Some(remote),
            by: Side::Down,
        };
        self.slots.open(number, channel, ledger);
        add_number(&mut self.clients, client, number);
        Ok(number)
    }

    /// Takes in the client's own number, which a server's open lacks until its client confirms it.
    /// A number under which no channel was admitted changes nothing.
    pub fn set_own(&mut self, number: u32, own: u32) -> Result<(), Refused>
        ensures exact { SetsOwn self.old number own result }
        ensures ok { OnOk result (self.new ≡ changed_at number (entry_with_own own) self.old) }
        ensures unchanged { OnErr result (self.new ≡ self.old) }
    {
        let Some(opened) = self.slots.get(number) else {
            return Ok(());
        };
        let client = opened.channel.client;
        if self.by_own(client, own).is_some() {
            return Err(Refused::OwnInUse);
        }
        insert_own(&mut self.own, client, own, number)?;
        remove_own(&mut self.own, client, opened.channel.own);
        let channel = Channel {
            own: Some(own),
            ..opened.channel
        };
        self.slots.set(number, channel, opened.ledger);
        Ok(())
    }

    /// Takes in the server's number, which a client's open lacks until the server confirms it. A
    /// number under which no channel was admitted changes nothing.
    pub fn set_remote(&mut self, number: u32, remote: u32) -> Result<(), Refused>
        ensures exact { SetsRemote self.old remote result }
        ensures ok { OnOk result (self.new ≡ changed_at number (with_remote remote) self.old) }
        ensures unchanged { OnErr result (self.new ≡ self.old) }
    {
        if let Some(holder) = self.holder(remote) {
            return Err(Refused::RemoteInUse { holder });
        }
        let Some(opened) = self.slots.get(number) else {
            return Ok(());
        };
        insert_remote(&mut self.remote, remote, number)?;
        remove_remote(&mut self.remote, opened.channel.remote);
        let channel = Channel {
            remote: Some(remote),
            ..opened.channel
        };
        self.slots.set(number, channel, opened.ledger);
        Ok(())
    }

    /// The channel for which a number stands towards the server. A server's open has none until its
    /// client confirms it.
    pub fn by_number(&self, number: u32) -> Option<Channel>
        ensures channel { result ≡ channel_at self.now number }
        ensures sound { AreSound self.now }
    {
        let channel = self.admitted(number)?;
        if is_shown(&channel) {
            Some(channel)
        } else {
            None
        }
    }

    /// The channel that was admitted under a number.
    pub fn admitted(&self, number: u32) -> Option<Channel>
        ensures channel { result ≡ admitted_at self.now number }
        ensures sound { AreSound self.now }
    {
        Some(self.slots.get(number)?.channel)
    }

    /// The number of the channel that a client names by its own.
    pub fn by_own(&self, client: u64, own: u32) -> Option<u32>
        ensures { result ≡ number_of_own self.now client own }
    {
        self.own.get(&(client, own)).copied()
    }

    /// The number of the channel that the server names by its own.
    pub fn by_remote(&self, remote: u32) -> Option<u32>
        ensures number { result ≡ number_of_remote self.now remote }
        ensures sound { AreSound self.now }
    {
        self.remote.get(&remote).copied()
    }

    // The client whose channel the server names by its own number.
    fn holder(&self, remote: u32) -> Option<u64>
        ensures { result ≡ holder_of self.now remote }
    {
        let number = self.by_remote(remote)?;
        Some(self.admitted(number)?.client)
    }

    /// The account of the channel that was admitted under a number.
    pub fn ledger_of(&self, number: u32) -> Option<Ledger>
        ensures ledger { result ≡ ledger_at self.now number }
        ensures sound { AreSound self.now }
    {
        Some(self.slots.get(number)?.ledger)
    }

    /// Sets that account. A number under which no channel was admitted changes nothing.
    pub fn set_ledger(&mut self, number: u32, ledger: Ledger)
        ensures { self.new ≡ changed_at number (with_ledger ledger) self.old }
    {
        let Some(opened) = self.slots.get(number) else {
            return;
        };
        let channel = opened.channel;
        self.slots.set(number, channel, ledger);
    }

    /// The number is free again. A number under which no channel was admitted changes nothing.
    pub fn free(&mut self, number: u32)
        ensures { self.new ≡ freed number self.old }
    {
        let Some(opened) = self.slots.get(number) else {
            return;
        };
        let Channel {
            client,
            own,
            remote,
            ..
        } = opened.channel;
        remove_own(&mut self.own, client, own);
        remove_remote(&mut self.remote, remote);
        drop_number(&mut self.clients, client, number);
        self.slots.free(number);
    }

    /// How many channels a client has.
    pub fn count(&self, client: u64) -> u32
        ensures count { result ≡ channel_count_of self.now client }
        ensures sound { AreSound self.now }
    {
        match self.clients.get(&client) {
            Some(numbers) => numbers.len(),
            None => 0,
        }
    }

    /// The number of a client's channel, in the order in which they began.
    pub fn nth_of(&self, client: u64, i: u32) -> Option<u32>
        ensures { result ≡ nth_number self.now client i }
    {
        self.clients.get(&client)?.get(i)
    }

    /// From each client and its own number to the number. The product calls it nowhere: its
    /// contract says that the index has exactly the list's numbers.
    pub fn own_index(&self) -> &IndexMap<(u64, u32), u32>
        ensures { IsOwnIndex result.now self.now }
    {
        &self.own
    }

    /// From each of the server's numbers to the number. The product calls it nowhere: its contract
    /// says that the index has exactly the list's numbers.
    pub fn remote_index(&self) -> &IndexMap<u32, u32>
        ensures { IsRemoteIndex result.now self.now }
    {
        &self.remote
    }

    // The refusal of one more channel, if the client has all that it may have.
    fn refuse_full(&self, client: u64) -> Result<(), Refused>
        ensures { RefusesAs result (full_refusal self.now client) }
    {
        let count = self.count(client);
        if count as usize >= MAX_CHANNELS {
            return Err(Refused::Full { count });
        }
        Ok(())
    }
}

// Whether the number that a channel was admitted under represents it towards the server.
fn is_shown(channel: &Channel) -> bool
    ensures { result ≡ is_shown channel.now }
{
    channel.by == Side::Up || channel.own.is_some()
}
