//! The clients of a master, one among all of them.

ghost use Rattle.std.specs.Prelude.{if◌then◌else◌, ◌≡◌, ◌≤◌, ◌+◌, ◌*◌, ◌++◌, [], ◌∷◌, ℕ, length, IfOk, OnOk, OnErr, Ok, Some, None, true, false};
ghost use Rattle.client_teardown.specs.declared.farewell.TheConstants.{FAREWELL_ROOM as TheRoom};
ghost use Rattle.ssh_grammar.specs.declared.framing.Framing.TheVariants.{Proxy};
ghost use Rattle.ssh_grammar.specs.IsFrame.{IsContent};
ghost use Rattle.ssh_grammar.specs.Frames.{frame_payload};
ghost use Rattle.mux_history.specs.declared.limits.TheConstants.{MAX_CLIENTS as TheMost};
ghost use Rattle.mux_peers.specs.State.{IsUntouched, client_took, clients_and_queue, no_clients, refusals_of};
ghost use Rattle.mux_peers.specs.Asked.{Applies};
ghost use Rattle.mux_peers.specs.Among.{ChangesOne, ReceivesAt, NotesOne, at_client, client_index, in_client, is_present, is_client_served, not_leaving, waiting_clients, without_client};
ghost use Rattle.mux_peers.specs.Pieces.{ReceivesIn, unheard};
ghost use Rattle.mux_peers.specs.Starved.{ReceivesSome, OneIs};
ghost use Rattle.mux_peers.specs.Stands.{is_standing_lost};
ghost use Rattle.mux_peers.specs.Losing.{LosesIn, NotesMore, loss_between};
ghost use Rattle.mux_peers.specs.Room.{HasRoom, KeepsAll, LeavesRest, served_in};
ghost use Rattle.mux_peers.specs.Answering.{AnswersAt};
ghost use Rattle.mux_peers.specs.Entering.{PeerEnters, new_client};

mod views;

use crate::ask_log::AskLog;
use crate::client::ClientEntry;
use crate::run_change::RunChange;
use crate::standing::Standing;
use client_teardown::FAREWELL_ROOM;
use mux_core::Core;
use mux_history::Why;
use mux_history::limits::MAX_CLIENTS;
use mux_outside::{Asks, HouseReply, Streams};
use proxy_frames::Queue;
use ssh_fields::OutOfMemory;
use std::alloc::Global;
use std::marker::Model;

/// The clients of a master: those that were admitted, and those that are to be closed.
#[derive(Drop)]
pub struct Clients {
    alloc: Global,
    /// Those that were admitted, in the order in which they came.
    all: Vec<ClientEntry>,
    /// Those that are lost or refused and whose streams are not closed, in that order, each with the
    /// cause for which it was dropped, if it was.
    leaving: Vec<(u64, Option<Why>)>,
}

impl Model for Clients {
    ghost use Rattle.mux_peers.specs.State.{ClientsState, clients_of};

    ghost Value = { ClientsState };

    ghost view = { λ a. clients_of a.all.items a.leaving.items };
}

// The place of a client, or the end.
fn index_of(clients: &[ClientEntry], number: u64) -> usize
    ensures { result ≡ client_index number clients.now }
{
    for (i, client) in clients.iter().enumerate() {
        if client.number() == number {
            return i;
        }
    }
    clients.len()
}

// How many of them are not lost.
fn count_served(clients: &[ClientEntry]) -> usize
    ensures { result ≡ length (served_in clients.now) }
{
    let mut count = 0;
    for client in clients {
        if !client.is_lost() {
            count += 1;
        }
    }
    count
}

// Those for which bytes wait, after these streams.
fn add_waiting(list: &mut Streams, clients: &[ClientEntry]) -> Result<(), OutOfMemory>
    ensures { OnOk result (list.new ≡ list.old ++ waiting_clients clients.now) }
{
    for client in clients {
        if !client.queue().is_empty() {
            list.push(client.number())?;
        }
    }
    Ok(())
}

// A client that wasn't lost before and is now is to be closed, with the cause.
fn note_loss(
    leaving: &mut Vec<(u64, Option<Why>)>,
    before: Standing,
    now: Standing,
    number: u64,
) -> Result<(), OutOfMemory>
    ensures notes { OnOk result (leaving.new.items ≡ leaving.old.items
        ++ loss_between before now number) }
    ensures more { NotesMore leaving.old.items leaving.new.items }
    ensures lost { OnErr result ((is_standing_lost before ≡ false) × (is_standing_lost now ≡ true)) }
{
    match (before, now) {
        (Standing::Lost(_), _) => Ok(()),
        (_, Standing::Lost(why)) => Ok(leaving.push((number, why))?),
        (_, _) => Ok(()),
    }
}

impl Clients {
    /// Before anyone came.
    pub fn new(alloc: Global) -> Clients
        ensures { result ≡ no_clients }
    {
        Clients {
            alloc,
            all: Vec::new(alloc),
            leaving: Vec::new(alloc),
        }
    }

    /// A client comes: whether it is admitted. Then the master's hello waits for it, and its own is
    /// awaited; else it is to be closed.
    pub fn admit(&mut self, number: u64, core: &mut Core) -> Result<bool, OutOfMemory>
        ensures enters { IfOk result (λ let_in.
            PeerEnters number core.old core.new self.old.all self.new.all let_in) }
        ensures clients { IfOk result (λ let_in. self.new.all
            ≡ (if let_in then self.old.all ++ new_client number ∷ [] else self.old.all)) }
        ensures leaving { IfOk result (λ let_in. self.new.leaving
            ≡ (if let_in then self.old.leaving else self.old.leaving ++ (number, None) ∷ [])) }
        ensures more { NotesMore self.old.leaving self.new.leaving }
        ensures policy { core.new.policy ≡ core.old.policy }
    {
        let client = ClientEntry::new(self.alloc, number)?;
        if !core.admit(number)? {
            self.leaving.push((number, None))?;
            return Ok(false);
        }
        self.all.push(client)?;
        Ok(true)
    }

    /// The stream of the client of a number gave bytes, which are read where it is: what they did
    /// beyond the client. Where it is lost by that, it is to be closed.
    #[tactic(auto, using(crate::proofs::Heeding::applies_none))]
    pub fn got<H: Asks>(
        &mut self,
        number: u64,
        pid: u32,
        bytes: &[u8],
        house: &mut H,
        asks: &mut AskLog,
        core: &mut Core,
        up: &mut Queue,
    ) -> Result<RunChange, OutOfMemory>
        requires room { HasRoom self.old.all up.old }
        requires ordering { (H.state house.old).known.ordering ≡ None }
        ensures receives { IfOk result (λ change. NotesOne number (ReceivesIn H.may (Some asks.old)
            (Some asks.new) pid bytes.now core.old core.new up.old up.new change) self.old
            self.new) }
        ensures absent { is_present self.old.all number ≡ false
            → IsUntouched (clients_and_queue self.old core.old up.old) (clients_and_queue self.new core.new up.new) }
        ensures silent { is_present self.old.all number ≡ false
            → (result ≡ Ok unheard) × (asks.new ≡ asks.old) }
        ensures applies { Applies result asks.old asks.new (H.state house.old) (H.state house.new) }
        ensures cut { OnErr result (OneIs number (ReceivesSome H.may (H.state house.old).recorded
            (H.state house.new).recorded pid bytes.now core.old up.old) self.old.all) }
        ensures more { NotesMore self.old.leaving self.new.leaving }
        ensures keeps { OnOk result (KeepsAll self.old.all self.new.all up.old up.new) }
        ensures policy { OnOk result (core.new.policy ≡ core.old.policy) }
    {
        let i = index_of(&self.all, number);
        if i < self.all.len() {
            let client = &mut self.all[i];
            let before = client.standing();
            let change = client.got(pid, bytes, house, asks, core, up)?;
            note_loss(&mut self.leaving, before, client.standing(), number)?;
            return Ok(change);
        }
        Ok(RunChange {
            stops: false,
            ended: None,
        })
    }

    /// The client of a number receives a payload of the server, and then so many refusals, after
    /// the core has received it. Where it is lost by that, it is to be closed.
    pub fn deliver(
        &mut self,
        number: u64,
        payload: &[u8],
        refusals: u32,
        core: &mut Core,
        up: &mut Queue,
    ) -> Result<(), OutOfMemory>
        requires payload { IsContent Proxy payload.now }
        requires room { HasRoom self.old.all up.old }
        ensures receives { OnOk result
            (ReceivesAt number (frame_payload payload.now ∷ refusals_of refusals)
            (clients_and_queue self.old core.old up.old) (clients_and_queue self.new core.new up.new)) }
        ensures rest { LeavesRest result number (clients_and_queue self.old core.old up.old)
            (clients_and_queue self.new core.new up.new) }
    {
        let i = index_of(&self.all, number);
        if i < self.all.len() {
            let client = &mut self.all[i];
            let before = client.standing();
            client.deliver(payload, refusals, core, up)?;
            note_loss(&mut self.leaving, before, client.standing(), number)?;
        }
        Ok(())
    }

    /// The forwarder replies to a request of the client of a number later than at once. Where the
    /// client is lost by that, it is to be closed.
    pub fn answered(
        &mut self,
        number: u64,
        id: u32,
        reply: HouseReply,
        core: &mut Core,
        up: &mut Queue,
    ) -> Result<(), OutOfMemory>
        requires room { HasRoom self.old.all up.old }
        ensures answers { OnOk result (AnswersAt number id reply
            (clients_and_queue self.old core.old up.old) (clients_and_queue self.new core.new up.new)) }
        ensures rest { LeavesRest result number (clients_and_queue self.old core.old up.old)
            (clients_and_queue self.new core.new up.new) }
    {
        let i = index_of(&self.all, number);
        if i < self.all.len() {
            let client = &mut self.all[i];
            let before = client.standing();
            client.answered(id, reply, core, up)?;
            note_loss(&mut self.leaving, before, client.standing(), number)?;
        }
        Ok(())
    }

    /// The stream of the client of a number is gone: what it left open is closed, and it is to be
    /// closed itself, where it isn't lost already.
    pub fn lose(&mut self, number: u64, core: &mut Core, up: &mut Queue) -> Result<(), OutOfMemory>
        requires room { HasRoom self.old.all up.old }
        ensures loses { is_present self.old.all number ≡ true → ChangesOne number
            (LosesIn core.old core.new up.old up.new) self.old.all self.new.all }
        ensures notes { OnOk result (self.new.leaving ≡ self.old.leaving
            ++ (if is_client_served self.old.all number then (number, None) ∷ [] else [])) }
        ensures absent { is_present self.old.all number ≡ false
            → IsUntouched (clients_and_queue self.old core.old up.old) (clients_and_queue self.new core.new up.new) }
        ensures more { NotesMore self.old.leaving self.new.leaving }
        ensures keeps { KeepsAll self.old.all self.new.all up.old up.new }
        ensures policy { core.new.policy ≡ core.old.policy }
    {
        let i = index_of(&self.all, number);
        if i < self.all.len() {
            let client = &mut self.all[i];
            let before = client.standing();
            client.lose(core, up);
            note_loss(&mut self.leaving, before, client.standing(), number)?;
        }
        Ok(())
    }

    /// So many of the bytes that wait for the client of a number were accepted.
    pub fn took(&mut self, number: u64, n: usize)
        requires { n ≤ length (in_client [] (λ c. c.peer.queue) self.old.all number) }
        ensures clients { self.new.all ≡ at_client number (client_took n) self.old.all }
        ensures leaving { self.new.leaving ≡ self.old.leaving }
    {
        let i = index_of(&self.all, number);
        if i < self.all.len() {
            let client = &mut self.all[i];
            client.took(n);
        }
    }

    /// The stream of the client of a number was closed: nothing is kept of it any more.
    pub fn close(&mut self, number: u64)
        ensures clients { self.new.all ≡ without_client number self.old.all }
        ensures leaving { self.new.leaving ≡ not_leaving number self.old.leaving }
    {
        self.all.retain(|client| client.number() != number);
        self.leaving.retain(|l| l.0 != number);
    }

    /// Room for the farewells of as many clients as may have open matters, and of those that are not
    /// lost and one more where those are more.
    pub fn reserve_farewells(&self, up: &mut Queue) -> Result<(), OutOfMemory>
        ensures waiting { up.new.waiting ≡ up.old.waiting }
        ensures room { OnOk result (TheMost * TheRoom ≤ up.new.spare) }
        ensures one_more { OnOk result
            (TheRoom * (length (served_in self.now.all) + 1) ≤ up.new.spare) }
    {
        let one_more = count_served(&self.all).checked_add(1).ok_or(OutOfMemory)?;
        let farewells = one_more.max(MAX_CLIENTS);
        let room = FAREWELL_ROOM.checked_mul(farewells).ok_or(OutOfMemory)?;
        up.reserve(room)
    }
}
