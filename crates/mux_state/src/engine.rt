ghost use Rattle.std.specs.Prelude.{◌≡◌, ◌≤◌, ◌*◌, [], true, false, IfOk, OnOk, OnErr, Some, None};
ghost use Rattle.mux_outside.specs.declared.mark.Mark.{Mark as TheMark};
ghost use Rattle.client_teardown.specs.declared.farewell.TheConstants.{FAREWELL_ROOM as TheRoom};
ghost use Rattle.mux_history.specs.declared.limits.TheConstants.{MAX_CLIENTS as TheMost};
ghost use Rattle.mux_peers.specs.Asked.{Applies};
ghost use Rattle.mux_peers.specs.Starved.{ReceivesSome, OneIs};
ghost use Rattle.mux_state.specs.Bounds.{QueuesShort};
ghost use Rattle.mux_state.specs.Events.{AnswersSo, EngineKeeps, TakesIn, MarkRecords, went_of};
ghost use Rattle.mux_state.specs.Moves.{AnsweredAt, ReceivedAt, LosesAt};
ghost use Rattle.mux_state.specs.Others.{LeavesIdle};
ghost use Rattle.mux_state.specs.Ready.{IsEngineReady};
ghost use Rattle.mux_state.specs.Stands.{CutsShort, RepresentsSoFar};
ghost use Rattle.mux_state.specs.State.{HasNobody, numbers, run_ended_by};
ghost use Rattle.mux_state.specs.Steps.{EntersAt, GainsFrom, is_client_read, is_client_served};

mod views;

use crate::event::{Event, Went};
use crate::streams::*;
use forward_rules::Policy;
use mux_core::Core;
use mux_history::Ended;
use mux_outside::{Asks, HouseReply, Streams};
use mux_peers::{AskLog, Clients, Server};
use proxy_frames::Queue;
use ssh_fields::OutOfMemory;
use std::alloc::Global;
use std::marker::Model;

/// The machine of a run.
#[derive(Drop)]
pub struct Engine {
    pid: u32,
    core: Core,
    server: Server,
    /// What waits for the server.
    up: Queue,
    clients: Clients,
    /// The clients that were refused and whose streams are not closed.
    refused: Streams,
    /// The streams with something that waits.
    waiting: Streams,
    listening: bool,
    ended: Option<Ended>,
    /// There was no memory for an event.
    starved: bool,
}

impl Model for Engine {
    ghost use Rattle.mux_state.specs.State.{EngineState};
    ghost use Rattle.mux_state.specs.Ready.{IsEngineSound};

    ghost Value = { EngineState };

    ghost use Rattle.mux_state.specs.Shown.{state_of};

    ghost view = { state_of };

    ghost invariant = { λ a. IsEngineSound (state_of a) };
}

fn went_by(ended: Option<Ended>) -> Went
    ensures { result ≡ went_of ended }
{
    match ended {
        None => Went::On,
        Some(cause) => Went::Ended(cause),
    }
}

impl Engine {
    /// An engine to which nothing was reported yet. It permits what the policy does, and sends the
    /// process id to clients that check. It has room for the farewells of as many clients as may
    /// have open matters.
    pub fn new(alloc: Global, policy: Policy, pid: u32) -> Result<Engine, OutOfMemory>
        ensures policy { IfOk result (λ engine. engine.core.policy ≡ policy) }
        ensures pid { IfOk result (λ engine. engine.pid ≡ pid) }
        ensures goes { IfOk result (λ engine. engine.ended ≡ None) }
        ensures nobody { IfOk result HasNobody }
        ensures listening { IfOk result (λ engine. engine.listening ≡ true) }
        ensures room { IfOk result (λ engine. TheMost * TheRoom ≤ engine.up.spare) }
        ensures stands { IfOk result (λ engine. RepresentsSoFar [] [] engine [] []) }
    {
        let mut engine = Engine {
            pid,
            core: Core::new(alloc, policy)?,
            server: Server::new(alloc),
            up: Queue::new(alloc),
            clients: Clients::new(alloc),
            refused: Streams::new(alloc),
            waiting: Streams::new(alloc),
            listening: true,
            ended: None,
            starved: false,
        };
        match engine.clients.reserve_farewells(&mut engine.up) {
            Ok(()) => Ok(engine),
            Err(e) => {
                drop(engine);
                Err(e)
            }
        }
    }

    /// Applies what happened at a stream, or a reply of the forwarder. What the client requests by
    /// it is reported to the forwarder, and that is added to `asks`. A client is accepted once,
    /// with a number from 1 on, and all other events of clients name one that was accepted. Once
    /// there was no memory there is none for any later event.
    pub fn event<H: Asks>(
        &mut self,
        e: Event<'_>,
        house: &mut H,
        asks: &mut AskLog,
    ) -> Result<Went, OutOfMemory>
        requires ordering { (H.state house.old).known.ordering ≡ None }
        ensures takes { OnOk result (TakesIn H.may (Some asks.old) (Some asks.new) e.entry self.old
            self.new) }
        ensures applies { Applies result asks.old asks.new (H.state house.old) (H.state house.new) }
        ensures cut { OnErr result ((mark : TheMark) → MarkRecords e.entry mark
            → CutsShort H.may (H.state house.old).recorded (H.state house.new).recorded self.old mark) }
        ensures keeps { OnOk result (EngineKeeps e.entry self.old self.new) }
        ensures bounded { OnOk result (QueuesShort self.new) }
        ensures answers { AnswersSo result self.old self.new }
    {
        if self.starved {
            return Err(OutOfMemory);
        }
        if let Some(cause) = self.ended {
            return Ok(Went::Ended(cause));
        }
        // It stays so where there is no memory on the way.
        self.starved = true;
        self.step(e, house, asks)?;
        self.starved = false;
        Ok(went_by(self.ended))
    }
}

impl Engine {
    // What an event does while the run goes on.
    fn step<H: Asks>(
        &mut self,
        e: Event<'_>,
        house: &mut H,
        asks: &mut AskLog,
    ) -> Result<(), OutOfMemory>
        requires ordering { (H.state house.old).known.ordering ≡ None }
        requires goes { self.old.ended ≡ None }
        requires starved { self.old.starved ≡ true }
        requires ready { IsEngineReady self.old }
        ensures takes { OnOk result (TakesIn H.may (Some asks.old) (Some asks.new) e.entry self.old
            self.new) }
        ensures applies { Applies result asks.old asks.new (H.state house.old) (H.state house.new) }
        ensures cut { OnErr result ((mark : TheMark) → MarkRecords e.entry mark
            → CutsShort H.may (H.state house.old).recorded (H.state house.new).recorded self.old mark) }
        ensures keeps { OnOk result (EngineKeeps e.entry self.old self.new) }
        ensures ready { OnOk result (self.new.ended ≡ None → IsEngineReady self.new) }
        ensures starved { self.new.starved ≡ true }
    {
        match e {
            Event::Accepted(client) => self.enter(client),
            Event::FromClient(client, bytes) => self.got_from_client(client, bytes, house, asks),
            Event::ClientEnd(client) => self.lose(client),
            Event::ClientFailed(client) => self.lose(client),
            Event::HouseSays(client, id, reply) => self.answer(client, id, reply),
            Event::FromServer(bytes) => self.got_from_server(bytes),
            Event::ServerEnd => {
                let cause = self.server.end();
                self.end(cause);
                Ok(())
            }
            Event::ServerFailed => {
                self.end(Ended::ServerFailed);
                Ok(())
            }
        }
    }

    // A client comes: it is admitted, where fewer than 64 have open matters.
    fn enter(&mut self, client: u64) -> Result<(), OutOfMemory>
        requires starved { self.old.starved ≡ true }
        requires ready { IsEngineReady self.old }
        ensures enters { OnOk result (EntersAt self.old self.new client) }
        ensures ready { OnOk result (IsEngineReady self.new) }
        ensures starved { self.new.starved ≡ true }
    {
        self.clients.reserve_farewells(&mut self.up)?;
        take_in(&mut self.clients, &mut self.refused, client, &mut self.core)?;
        list_waiting(&mut self.waiting, &self.up, &self.clients)
    }

    // A client's stream gave bytes, which are read as long as it is.
    fn got_from_client<H: Asks>(
        &mut self,
        client: u64,
        bytes: &[u8],
        house: &mut H,
        asks: &mut AskLog,
    ) -> Result<(), OutOfMemory>
        requires ordering { (H.state house.old).known.ordering ≡ None }
        requires goes { self.old.ended ≡ None }
        requires starved { self.old.starved ≡ true }
        requires ready { IsEngineReady self.old }
        ensures gains { OnOk result (GainsFrom H.may (Some asks.old) (Some asks.new) self.old
            self.new client bytes.now) }
        ensures untold { is_client_read self.old.clients client ≡ false
            → asks.new ≡ asks.old }
        ensures applies { Applies result asks.old asks.new (H.state house.old) (H.state house.new) }
        ensures cut { OnErr result (OneIs client (ReceivesSome H.may (H.state house.old).recorded
            (H.state house.new).recorded self.old.pid bytes.now self.old.core self.old.up)
            self.old.clients) }
        ensures ready { OnOk result (IsEngineReady self.new) }
        ensures starved { self.new.starved ≡ true }
    {
        if !self.clients.is_received(client) {
            return Ok(());
        }
        let heard = self.clients.got(
            client,
            self.pid,
            bytes,
            house,
            asks,
            &mut self.core,
            &mut self.up,
        )?;
        self.listening &= !heard.stops;
        self.ended = heard.ended;
        list_waiting(&mut self.waiting, &self.up, &self.clients)
    }

    // A client's stream is gone.
    fn lose(&mut self, client: u64) -> Result<(), OutOfMemory>
        requires starved { self.old.starved ≡ true }
        requires ready { IsEngineReady self.old }
        ensures loses { OnOk result (is_client_served self.old.clients client ≡ true
            → LosesAt self.old self.new client) }
        ensures stays { OnOk result (is_client_served self.old.clients client ≡ false
            → self.new ≡ self.old) }
        ensures ready { OnOk result (IsEngineReady self.new) }
        ensures starved { self.new.starved ≡ true }
    {
        if !self.clients.is_served(client) {
            return Ok(());
        }
        self.clients.lose(client, &mut self.core, &mut self.up)?;
        list_waiting(&mut self.waiting, &self.up, &self.clients)
    }

    // The forwarder replies to a client's request later than at once.
    fn answer(&mut self, client: u64, id: u32, reply: HouseReply) -> Result<(), OutOfMemory>
        requires starved { self.old.starved ≡ true }
        requires ready { IsEngineReady self.old }
        ensures answers { OnOk result (is_client_served self.old.clients client ≡ true
            → AnsweredAt self.old self.new client id reply) }
        ensures stays { OnOk result (is_client_served self.old.clients client ≡ false
            → self.new ≡ self.old) }
        ensures numbers { OnOk result (numbers self.new.clients ≡ numbers self.old.clients) }
        ensures ready { OnOk result (IsEngineReady self.new) }
        ensures starved { self.new.starved ≡ true }
    {
        if !self.clients.is_served(client) {
            return Ok(());
        }
        self.clients
            .answered(client, id, reply, &mut self.core, &mut self.up)?;
        list_waiting(&mut self.waiting, &self.up, &self.clients)
    }

    // The server's stream gave bytes.
    fn got_from_server(&mut self, bytes: &[u8]) -> Result<(), OutOfMemory>
        requires goes { self.old.ended ≡ None }
        requires starved { self.old.starved ≡ true }
        requires ready { IsEngineReady self.old }
        ensures heard { OnOk result (ReceivedAt self.old self.new bytes.now) }
        ensures others { OnOk result (LeavesIdle bytes.now self.old self.new) }
        ensures ready { OnOk result (self.new.ended ≡ None → IsEngineReady self.new) }
        ensures starved { self.new.starved ≡ true }
    {
        self.ended = self
            .server
            .got(&mut self.clients, bytes, &mut self.core, &mut self.up)?;
        list_waiting(&mut self.waiting, &self.up, &self.clients)
    }

    // The run is over.
    fn end(&mut self, cause: Ended)
        requires starved { self.old.starved ≡ true }
        ensures { self.new ≡ run_ended_by self.old cause }
    {
        self.ended = Some(cause);
    }
}
