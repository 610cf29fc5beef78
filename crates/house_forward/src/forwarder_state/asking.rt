//! What is requested of the forwarder: at the start, and by clients.
ghost use Rattle.std.specs.Prelude.{ℕ, ◌≡◌, ◌≤◌, ◌<◌, ◌+◌, ◌-◌, [], true, false, length, OnOk, IfOk, IfSome, None, Some, Ok};
ghost use Rattle.mux_outside.specs.House.{nothing_known, start_ask_of};
ghost use Rattle.mux_outside.specs.House.{known_after_ask};
ghost use Rattle.house_forward.specs.Asks.{how_many_of, turns_away};
ghost use Rattle.house_forward.specs.Forwardings.{listeners_of, ComesUnless};
ghost use Rattle.house_forward.specs.declared.rules.TheConstants.{MOST_ASKS};
ghost use Rattle.house_forward.specs.ForwardingState.{BeginsWith, IsClientAsk};
ghost use Rattle.house_forward.specs.RelayTraces.{HasLived, ForwardingStateGoes};
ghost use Rattle.house_forward.specs.State.{held_in, known_in, due_in, most_due_in, ChangesForwardings};

use super::{ForwarderStage, ForwarderState};
use crate::asks::{ImmediateOutcome, PendingRequests, RequestOutcome};
use crate::forwardings::Forwardings;
use crate::relays::Relays;
use crate::rules::{ListenRules, ends_of, of_client};
use mux_outside::{FwdAsk, HouseReply, Starts};
use proxy_frames::{Framer, Framing};
use ssh_fields::OutOfMemory;
use std::alloc::Global;

impl ForwarderState {
    /// Nothing yet.
    pub fn new(alloc: Global) -> ForwarderState
        ensures known { known_in result ≡ nothing_known true }
        ensures refused { result.forwardings.refused ≡ None }
        ensures due { due_in result ≡ 0 }
        ensures lived { HasLived [] (held_in result) }
        ensures ordering { result.ordering ≡ None }
        ensures greeted { result.greeted ≡ false }
    {
        ForwarderState {
            alloc,
            rules: ListenRules::first(),
            must: false,
            asks: PendingRequests::new(alloc),
            ordering: None,
            greeted: false,
            stage: ForwarderStage::Control,
            framer: Framer::new(alloc, Framing::Control),
            forwardings: Forwardings::new(alloc),
            relays: Relays::new(alloc),
        }
    }

    /// For how many marks room is needed at most, where so many forwardings, relays and requests
    /// may come.
    pub fn most_due(&self, forwardings: usize, relays: usize, asks: usize) -> Option<usize>
        ensures { IfSome result (λ n. n ≡ most_due_in self.now forwardings relays asks) }
    {
        let forwardings = self
            .forwardings
            .len()
            .checked_add(forwardings)?
            .checked_mul(2)?;
        let relays = self.relays.len().checked_add(relays)?.checked_mul(4)?;
        let asks = self.asks.len().checked_add(asks)?;
        forwardings.checked_add(relays.checked_add(asks)?)
    }

    /// Takes what is asked for at the start.
    pub fn begin(&mut self, starts: &Starts) -> Result<(), OutOfMemory>
        requires { self.old.ordering ≡ None }
        ensures known { known_in self.new ≡ known_in self.old }
        ensures must { OnOk result (self.new.must ≡ starts.now.must) }
        ensures forwardings { length self.new.forwardings.all.items
            ≤ length self.old.forwardings.all.items + length starts.now.asks }
        ensures relays { self.new.relays ≡ self.old.relays }
        ensures asks { self.new.asks ≡ self.old.asks }
        ensures ordering { self.new.ordering ≡ self.old.ordering }
        ensures begins { OnOk result (ForwardingStateGoes (BeginsWith starts.now)
            (held_in self.old) (held_in self.new)) }
    {
        self.rules = ListenRules::of(self.alloc, starts)?;
        self.must = starts.must;
        self.forwardings.start_all(&starts.asks, &self.rules)
    }

    /// A request to open or close a forwarding.
    pub fn ask(
        &mut self,
        client: u64,
        id: u32,
        opening: bool,
        what: &FwdAsk<'_>,
    ) -> Result<HouseReply, OutOfMemory>
        requires { self.old.ordering ≡ None }
        ensures known { IfOk result (λ reply. known_in self.new
            ≡ known_after_ask reply client id opening (known_in self.old)) }
        ensures refused { self.new.forwardings.refused ≡ self.old.forwardings.refused }
        ensures must { self.new.must ≡ self.old.must }
        ensures forwardings { length self.new.forwardings.all.items
            ≤ length self.old.forwardings.all.items + 1 }
        ensures relays { self.new.relays ≡ self.old.relays }
        ensures asks { length self.new.asks.waiting.items
            ≤ length self.old.asks.waiting.items + 1 }
        ensures ordering { self.new.ordering ≡ self.old.ordering }
        ensures goes { IfOk result (λ reply. ForwardingStateGoes
            (IsClientAsk client id opening (start_ask_of what.now) reply)
            (held_in self.old) (held_in self.new)) }
    {
        match self.asked(client, id, opening, what)? {
            ImmediateOutcome::Now(RequestOutcome::Done) => Ok(HouseReply::Done),
            ImmediateOutcome::Now(RequestOutcome::Port(port)) => Ok(HouseReply::Port(port)),
            ImmediateOutcome::Now(RequestOutcome::Refused) => Ok(HouseReply::Refused),
            ImmediateOutcome::Later(forwarding) => {
                self.asks.push(client, id, opening, forwarding)?;
                Ok(HouseReply::Later)
            }
        }
    }

    // The outcome of a request.
    fn asked(
        &mut self,
        client: u64,
        id: u32,
        opening: bool,
        what: &FwdAsk<'_>,
    ) -> Result<ImmediateOutcome, OutOfMemory>
        requires { self.old.ordering ≡ None }
        ensures comes { IfOk result (λ asked. ComesUnless
            (turns_away client id self.old.asks.waiting.items) self.old.rules opening
            (start_ask_of what.now) self.old.forwardings.serials
            self.old.forwardings.all.items self.new.forwardings.all.items asked) }
        ensures refused { self.new.forwardings.refused ≡ self.old.forwardings.refused }
        ensures room { (serial : ℕ) → result ≡ Ok (ImmediateOutcome.Later serial)
            → how_many_of client self.new.asks.waiting.items < MOST_ASKS }
        ensures listeners { listeners_of self.new.forwardings.all.items
            ≡ listeners_of self.old.forwardings.all.items }
        ensures count { length self.new.forwardings.all.items
            ≤ length self.old.forwardings.all.items + 1 }
        ensures others { ChangesForwardings self.old self.new }
        ensures serials { OnOk result (self.new.forwardings.serials
            ≡ self.old.forwardings.serials + (length self.new.forwardings.all.items
            - length self.old.forwardings.all.items)) }
        ensures requests { self.new.forwardings.requests.items
            ≡ self.old.forwardings.requests.items }
    {
        if self.asks.turns_away(client, id) {
            return Ok(ImmediateOutcome::Now(RequestOutcome::Refused));
        }
        let Some(ends) = ends_of(of_client(what), &self.rules) else {
            return Ok(ImmediateOutcome::Now(RequestOutcome::Refused));
        };
        if opening {
            self.forwardings.open(ends, None)
        } else {
            Ok(self.forwardings.close(ends))
        }
    }
}
