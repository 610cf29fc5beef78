//! The forwarder.
ghost use Rattle.std.specs.Prelude.{◌≡◌, ◌≤◌, ◌+◌, OnOk, IfOk, Some};
ghost use Rattle.std.specs.Option.{option_to_list};
ghost use Rattle.mux_outside.specs.House.{IsBlank, IsFresh, NoMark, start_ask_of, order_marks};
ghost use Rattle.house_forward.specs.State.{due_in, most_due_in, house_state_of};

use crate::forwarder_state::ForwarderState;
use crate::reserved::Reserved;
use mux_outside::{
    Asks, FwdAsk, House, HouseMark, HouseReply, Notes, Order, OwnTurn, Piece, StartAsk, Starts,
    Streams,
};
use ssh_fields::{OutOfMemory, Text};
use std::alloc::Global;

/// The master's own forwardings. Each mark is handed to the notes, in which there is room for all
/// that can be ordered and answered without a call that may want memory.
#[derive(Drop)]
pub struct Forwarder<N: Notes + Drop> {
    alloc: Global,
    notes: Reserved<N>,
    has: ForwarderState,
    ghost room: { due_in has ≤ notes.marks },
}

impl<N: Notes + Drop> Forwarder<N> {
    /// A forwarder that has nothing yet.
    pub fn new(alloc: Global, notes: N) -> Result<Forwarder<N>, OutOfMemory>
        requires { NoMark (N.recorded notes) }
        ensures { IfOk result (λ f. IsFresh (house_state_of (N.recorded f.notes.notes) f.has)) }
    {
        Ok(Forwarder {
            alloc,
            notes: Reserved::new(notes),
            has: ForwarderState::new(alloc),
        })
    }

    /// Its notes.
    pub fn notes(&self) -> &N
        ensures { result.now ≡ self.now.notes.notes }
    {
        &self.notes.notes
    }

    // Room for so many marks, and for those of all that so many forwardings, relays and requests
    // more can bring.
    fn reserve(
        &mut self,
        forwardings: usize,
        relays: usize,
        asks: usize,
        marks: usize,
    ) -> Result<(), OutOfMemory>
        ensures room { OnOk result (most_due_in self.old.has forwardings relays asks + marks
            ≤ self.new.notes.marks) }
        ensures recorded { N.recorded self.new.notes.notes ≡ N.recorded self.old.notes.notes }
        ensures has { self.new.has ≡ self.old.has }
    {
        let most = self
            .has
            .most_due(forwardings, relays, asks)
            .ok_or(OutOfMemory)?;
        let all = most.checked_add(marks).ok_or(OutOfMemory)?;
        self.notes.room(all)
    }
}

// The mark of an order that makes nothing.
fn mark_of(order: &Order) -> Option<HouseMark>
    ensures { option_to_list result ≡ order_marks (Some order.now) }
{
    let same = match order {
        Order::Listen { .. } | Order::Connect { .. } => return None,
        Order::Unlisten(listener) => Order::Unlisten(*listener),
        Order::Pause(stream) => Order::Pause(*stream),
        Order::Resume(stream) => Order::Resume(*stream),
        Order::Finish(stream) => Order::Finish(*stream),
        Order::Close(stream) => Order::Close(*stream),
    };
    Some(HouseMark::HouseOrder {
        order: same,
        number: None,
    })
}

// A request of a client, for its mark.
fn copy_of(alloc: Global, what: &FwdAsk<'_>) -> Result<StartAsk, OutOfMemory>
    ensures { IfOk result (λ ask. ask ≡ start_ask_of what.now) }
{
    let listen_host = Text::copy(alloc, what.listen_host)?;
    match Text::copy(alloc, what.connect_host) {
        Ok(connect_host) => Ok(StartAsk {
            kind: what.kind,
            listen_host,
            listen_port: what.listen_port,
            connect_host,
            connect_port: what.connect_port,
            path: false,
        }),
        Err(e) => {
            drop(listen_host);
            Err(e)
        }
    }
}

impl<N: Notes + Drop> Asks for Forwarder<N> {
    ghost may = { λ _. Unit {0} };

    ghost state = { λ f. house_state_of (N.recorded f.notes.notes) f.has };

    #[tactic(auto, using(crate::proofs::Recorded::none_more, crate::proofs::Room::due_most))]
    fn ask(
        &mut self,
        client: u64,
        id: u32,
        opening: bool,
        what: &FwdAsk<'_>,
    ) -> Result<HouseReply, OutOfMemory> {
        self.reserve(1, 0, 1, 1)?;
        let ask = copy_of(self.alloc, what)?;
        let reply = self.has.ask(client, id, opening, what)?;
        self.notes.note(HouseMark::HouseAsked {
            client,
            id,
            opening,
            ask,
            reply,
        });
        Ok(reply)
    }
}

impl<N: Notes + Drop> House for Forwarder<N> {
    ghost fresh = { λ f. IsFresh (house_state_of (N.recorded f.notes.notes) f.has) };

    ghost begun = { λ f. let state = house_state_of (N.recorded f.notes.notes) f.has in
        IsBlank state.known state.recorded };

    fn present(&self) -> bool {
        true
    }

    #[tactic(auto, using(crate::proofs::Recorded::none_more, crate::proofs::Room::due_most))]
    fn begin(&mut self, starts: &Starts) -> Result<(), OutOfMemory> {
        self.reserve(starts.asks.len(), 0, 0, 0)?;
        self.has.begin(starts)
    }

    fn answer(&mut self) -> Option<(u64, u32, HouseReply)> {
        let (client, id, reply) = self.has.asks.answer()?;
        self.notes
            .note(HouseMark::HouseAnswer { client, id, reply });
        Some((client, id, reply))
    }

    #[tactic(auto, using(crate::proofs::Recorded::none_more, crate::proofs::Room::due_most))]
    fn says(&mut self, into: &mut Piece) -> Result<bool, OutOfMemory> {
        self.reserve(0, 0, 0, 1)?;
        if !self.has.send(into)? {
            return Ok(false);
        }
        self.notes.note_sent(self.alloc, into.as_bytes())?;
        Ok(true)
    }

    #[tactic(auto, using(crate::proofs::Recorded::none_more, crate::proofs::Room::due_most))]
    fn takes(&mut self, bytes: &[u8]) -> Result<(), OutOfMemory> {
        self.has.take(bytes)?;
        loop {
            self.reserve(0, 1, 0, 1)?;
            if !self.has.receive()? {
                break;
            }
        }
        self.notes.note(HouseMark::HouseTook(bytes.len()));
        Ok(())
    }

    fn order(&mut self) -> Option<Order> {
        let order = self.has.order()?;
        if let Some(mark) = mark_of(&order) {
            self.notes.note(mark);
        }
        Some(order)
    }

    fn ordered(&mut self, number: Option<u64>) {
        if let Some(order) = self.has.ordered(number) {
            self.notes.note(HouseMark::HouseOrder { order, number });
        }
    }

    #[tactic(auto, using(crate::proofs::Recorded::none_more, crate::proofs::Room::due_most))]
    fn turn(&mut self, t: OwnTurn<'_>) -> Result<(), OutOfMemory> {
        self.reserve(0, 1, 0, 0)?;
        self.has.turn(t)
    }

    fn queue_of(&self, stream: u64) -> &[u8] {
        self.has.queue_of(stream)
    }

    fn list_waiting(&self, failed: &Streams, into: &mut Streams) -> Result<(), OutOfMemory> {
        self.has.relays.list_waiting(failed, into)
    }

    fn took(&mut self, stream: u64, n: usize) {
        self.has.took(stream, n);
    }

    fn refused_start(&self) -> Option<usize> {
        self.has.forwardings.refused
    }

    fn must(&self) -> bool {
        self.has.must
    }
}
