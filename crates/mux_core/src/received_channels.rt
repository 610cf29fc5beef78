//! The server's messages about channels.

ghost use Rattle.std.specs.Prelude.{◌≡◌, IfOk, OnErr};
ghost use Rattle.mux_history.specs.Summary.{Confirmation, Fails, Open, Within};
ghost use Rattle.window_ledger.specs.Act.{summary_act_of};
ghost use Rattle.mux_core.specs.Calls.{ReceivesSummary, ReceivesWith};
ghost use Rattle.mux_core.specs.Delivering.{DeliversAs};
ghost use Rattle.conn_messages.specs.Message.{opening_of};
ghost use Rattle.mux_core.specs.Opening.{owner_for};
ghost use Rattle.mux_core.specs.Settling.{is_lost_in};

use crate::heard::Delivery;
use crate::state::{Core, confirmed_ledger, put_recipient, waits};
use channel_table::{Channel, Refused};
use conn_messages::{Opening, close, open_failure};
use mux_history::Break;
use proxy_frames::Queue;
use ssh_fields::OutOfMemory;
use ssh_grammar::Side;
use ssh_grammar::numbers::*;
use window_ledger::{Act, Ledger};

impl Core {
    // The server opens a channel: to the client of a live forwarding, or the master answers.
    pub(crate) fn receive_open(
        &mut self,
        payload: &[u8],
        what: &Opening<'_>,
        sender: u32,
        window: u32,
        maximum: u32,
        up: &mut Queue,
    ) -> Result<Delivery, OutOfMemory>
        ensures stands { IfOk result (λ h.
            ReceivesWith self.old self.new payload.now payload.now
            (Open (opening_of what.now) sender window maximum) up.old up.new h) }
        ensures spare { up.new.spare ≡ up.old.spare }
        ensures policy { self.new.policy ≡ self.old.policy }
        ensures err { OnErr result (up.new ≡ up.old) }
    {
        if self.uses_remote(sender) {
            return Ok(Delivery::Broke(Break::NumberInUse { number: sender }));
        }
        let Some(client) = self.owner(what) else {
            let refusal = open_failure(sender, ADMINISTRATIVELY_PROHIBITED, b"not permitted");
            up.push_payload(refusal.as_bytes())?;
            return Ok(Delivery::Master);
        };
        let ledger = Ledger::opened(Side::Down, window, maximum);
        match self.add_remote(client, sender, ledger) {
            Ok(_) => {
                return Ok(Delivery::Client {
                    client,
                    refusals: 0,
                });
            }
            Err(Refused::OutOfMemory) => return Err(OutOfMemory),
            Err(Refused::OwnInUse | Refused::RemoteInUse { .. }) => {
                return Ok(Delivery::Broke(Break::NumberInUse { number: sender }));
            }
            Err(Refused::Full { .. }) => {}
        }
        let refusal = open_failure(sender, RESOURCE_SHORTAGE, b"too many channels");
        up.push_payload(refusal.as_bytes())?;
        Ok(Delivery::Master)
    }

    // Whose a server's open is.
    pub(crate) fn owner(&self, what: &Opening<'_>) -> Option<u64>
        ensures { result ≡ owner_for (opening_of what.now) self.now.forwards }
    {
        match what {
            Opening::Forwarded(key) => self.owner_of(*key),
            Opening::Session | Opening::Direct(_) | Opening::Other => None,
        }
    }

    // The server confirms a client's open: the confirmation goes to the client, and for one that is
    // lost the master closes the channel.
    pub(crate) fn receive_confirmation(
        &mut self,
        payload: &mut [u8],
        number: u32,
        remote: u32,
        window: u32,
        maximum: u32,
        up: &mut Queue,
    ) -> Result<Delivery, OutOfMemory>
        ensures stands { IfOk result (λ h.
            ReceivesWith self.old self.new payload.old payload.new
            (Confirmation number remote window maximum) up.old up.new h) }
        ensures spare { up.new.spare ≡ up.old.spare }
        ensures policy { self.new.policy ≡ self.old.policy }
        ensures err { OnErr result (up.new ≡ up.old) }
    {
        let Some((channel, ledger)) = self.channel_for(number) else {
            return Ok(Delivery::Broke(Break::NotPending { number }));
        };
        if !waits(&channel, &ledger) {
            return Ok(Delivery::Broke(Break::NotPending { number }));
        }
        if !self.name_remote(number, remote)? {
            return Ok(Delivery::Broke(Break::NumberInUse { number: remote }));
        }
        let given = confirmed_ledger(ledger, window, maximum);
        let client = channel.client;
        if self.is_lost(client) {
            up.push_payload(close(remote).as_bytes())?;
            self.set_ledger(number, given.left());
            self.settle(client);
            return Ok(Delivery::Lost { client });
        }
        self.set_ledger(number, given);
        put_recipient(payload, channel.own.unwrap_or(0));
        Ok(Delivery::Client {
            client,
            refusals: 0,
        })
    }

    // The server refuses a client's open.
    pub(crate) fn receive_failure(&mut self, payload: &mut [u8], number: u32) -> Delivery
        ensures stands { ReceivesSummary self.old self.new payload.old payload.new
            (Within number Fails) result }
        ensures policy { self.new.policy ≡ self.old.policy }
    {
        let Some((channel, ledger)) = self.channel_for(number) else {
            return Delivery::Broke(Break::NotPending { number });
        };
        if !waits(&channel, &ledger) {
            return Delivery::Broke(Break::NotPending { number });
        }
        self.free(number);
        self.deliver(&channel, payload)
    }

    // What the server sends in a channel that both sides have confirmed.
    pub(crate) fn receive_within(&mut self, payload: &mut [u8], number: u32, act: Act) -> Delivery
        ensures stands { ReceivesSummary self.old self.new payload.old payload.new
            (Within number (summary_act_of act)) result }
        ensures policy { self.new.policy ≡ self.old.policy }
    {
        let Some((channel, mut ledger)) = self.channel_for(number) else {
            return Delivery::Broke(Break::NoChannel { number });
        };
        if let Err(why) = ledger.take(Side::Down, act) {
            return Delivery::Broke(Break::Channel { number, why });
        }
        self.put(number, ledger);
        self.deliver(&channel, payload)
    }

    // What the server sends in a channel goes to its client. One that is lost is forgotten, where
    // nothing of it is left.
    fn deliver(&mut self, channel: &Channel, payload: &mut [u8]) -> Delivery
        ensures goes { DeliversAs (is_lost_in self.old.clients channel.now.client)
            self.old self.new channel.now payload.old payload.new result }
        ensures policy { self.new.policy ≡ self.old.policy }
    {
        let client = channel.client;
        if self.is_lost(client) {
            self.settle(client);
            return Delivery::Lost { client };
        }
        put_recipient(payload, channel.own.unwrap_or(0));
        Delivery::Client {
            client,
            refusals: 0,
        }
    }
}
