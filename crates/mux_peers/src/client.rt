ghost use Rattle.std.specs.Prelude.{◌≡◌, ◌≤◌, ◌+◌, [], ◌∷◌, length, IfOk, OnOk, OnErr, Some, None, true, false};
ghost use Rattle.ssh_grammar.specs.declared.framing.Framing.TheVariants.{Proxy};
ghost use Rattle.ssh_grammar.specs.IsFrame.{IsContent};
ghost use Rattle.ssh_grammar.specs.Frames.{frame_payload};
ghost use Rattle.mux_peers.specs.Asked.{Applies};
ghost use Rattle.mux_peers.specs.State.{client_took, part, refusals_of, KeepsPeer};
ghost use Rattle.mux_peers.specs.Receives.{ReceivesRecorded};
ghost use Rattle.ssh_grammar.specs.Said.{first_in};
ghost use Rattle.mux_peers.specs.Stands.{is_standing_lost, is_read, parse_mode_of};
ghost use Rattle.mux_peers.specs.Room.{LeavesRoom};
ghost use Rattle.mux_peers.specs.Nexts.{MaySend, SendsNext};
ghost use Rattle.mux_peers.specs.Pieces.{ReceivesIn, ReceivesPiece};
ghost use Rattle.mux_peers.specs.Starved.{AsksNext, ReceivesSome};
ghost use Rattle.mux_peers.specs.Losing.{LosesIn};
ghost use Rattle.mux_peers.specs.Answering.{AnswersIn};
ghost use Rattle.mux_peers.specs.Entering.{new_client};

use crate::ask_log::AskLog;
use crate::decision::decide;
use crate::peer::Peer;
use crate::run_change::RunChange;
use crate::standing::Standing;
use client_teardown::FAREWELL_ROOM;
use mux_core::Core;
use mux_outside::{Asks, HouseReply};
use proxy_frames::{Framer, Framing, Next, Queue};
use ssh_fields::OutOfMemory;
use std::alloc::Global;
use std::marker::Model;

/// A client: its state, and what it sent that isn't cut yet.
#[derive(Drop)]
pub struct ClientEntry {
    peer: Peer,
    framer: Framer,
}

impl Model for ClientEntry {
    ghost use Rattle.std.specs.Prelude.{◌≡◌, true, None};
    ghost use Rattle.mux_peers.specs.State.{ClientState};
    ghost use Rattle.mux_peers.specs.Stands.{is_read, rest_if, framing_of};

    ghost Value = { ClientState };

    ghost view = { λ a. record {
      peer = a.peer;
      rest = rest_if (is_read a.peer.standing) a.framer.rest;
    } };

    ghost invariant = { λ a. is_read a.peer.standing ≡ true
        → (a.framer.framing ≡ framing_of a.peer.standing) × (a.framer.fault ≡ None) };
}

impl ClientEntry {
    /// A client that comes: the master's hello waits for it, and its own is awaited.
    pub fn new(alloc: Global, number: u64) -> Result<ClientEntry, OutOfMemory>
        ensures { IfOk result (λ client. client ≡ new_client number) }
    {
        Ok(ClientEntry {
            peer: Peer::new(alloc, number)?,
            framer: Framer::new(alloc, Framing::Control),
        })
    }

    /// Whether it is lost.
    pub fn is_lost(&self) -> bool
        ensures { result ≡ is_standing_lost self.now.peer.standing }
    {
        matches!(self.peer.standing(), Standing::Lost(_))
    }

    /// Its stream is gone: what it left open is closed, where it isn't lost already.
    pub fn lose(&mut self, core: &mut Core, up: &mut Queue)
        requires room { is_standing_lost self.old.peer.standing ≡ false → FAREWELL_ROOM ≤ up.old.spare }
        ensures loses { LosesIn core.old core.new up.old up.new self.old self.new }
        ensures policy { core.new.policy ≡ core.old.policy }
        ensures number { self.new.peer.number ≡ self.old.peer.number }
        ensures spare { up.old.spare ≤ up.new.spare + FAREWELL_ROOM }
        ensures room { LeavesRoom up.old up.new self.old self.new }
    {
        if !self.is_lost() {
            self.peer.lose(core, up);
        }
    }

    /// Its stream gave bytes, which are read where it is: what they did beyond it.
    pub fn got<H: Asks>(
        &mut self,
        pid: u32,
        bytes: &[u8],
        house: &mut H,
        asks: &mut AskLog,
        core: &mut Core,
        up: &mut Queue,
    ) -> Result<RunChange, OutOfMemory>
        requires room { is_read self.old.peer.standing ≡ true → FAREWELL_ROOM ≤ up.old.spare }
        requires ordering { (H.state house.old).known.ordering ≡ None }
        ensures number { OnOk result (self.new.peer.number ≡ self.old.peer.number) }
        ensures room { OnOk result (LeavesRoom up.old up.new self.old self.new) }
        ensures receives { IfOk result (λ change.
            ReceivesIn H.may (Some asks.old) (Some asks.new) pid bytes.now core.old core.new
            up.old up.new change self.old self.new) }
        ensures applies { Applies result asks.old asks.new (H.state house.old) (H.state house.new) }
        ensures cut { OnErr result (ReceivesSome H.may (H.state house.old).recorded
            (H.state house.new).recorded pid bytes.now core.old up.old self.old) }
        ensures policy { OnOk result (core.new.policy ≡ core.old.policy) }
    {
        if self.peer.is_read() {
            return self.read(pid, bytes, house, asks, core, up);
        }
        Ok(RunChange {
            stops: false,
            ended: None,
        })
    }

    /// Its number, by which the wire names its stream.
    pub fn number(&self) -> u64
        ensures { result ≡ self.now.peer.number }
    {
        self.peer.number()
    }

    /// Whether what it sends is read.
    pub fn is_read(&self) -> bool
        ensures { result ≡ is_read self.now.peer.standing }
    {
        self.peer.is_read()
    }

    /// How it stands.
    pub fn standing(&self) -> Standing
        ensures { result ≡ self.now.peer.standing }
    {
        self.peer.standing()
    }

    /// How many of its bytes are not cut yet: none of one that isn't read.
    pub fn rest_len(&self) -> usize
        ensures exact { result ≡ length self.now.rest }
        ensures unread { is_read self.now.peer.standing ≡ false → self.now.rest ≡ [] }
    {
        if self.peer.is_read() {
            self.framer.rest_len()
        } else {
            0
        }
    }

    /// The bytes that wait for it.
    pub fn queue(&self) -> &[u8]
        ensures { result.now ≡ self.now.peer.queue }
    {
        self.peer.queue()
    }

    /// So many of them were accepted.
    pub fn took(&mut self, n: usize)
        requires { n ≤ length self.old.peer.queue }
        ensures { self.new ≡ client_took n self.old }
    {
        self.peer.took(n);
    }

    /// It receives a payload of the server, and then so many refusals, after the core has received
    /// it. One that is lost receives nothing.
    pub fn deliver(
        &mut self,
        payload: &[u8],
        refusals: u32,
        core: &mut Core,
        up: &mut Queue,
    ) -> Result<(), OutOfMemory>
        requires payload { IsContent Proxy payload.now }
        requires room { is_standing_lost self.old.peer.standing ≡ false → FAREWELL_ROOM ≤ up.old.spare }
        ensures stands { OnOk result (ReceivesRecorded (frame_payload payload.now ∷ refusals_of refusals)
            (part core.old self.old.peer up.old) (part core.new self.new.peer up.new)) }
        ensures reads { is_standing_lost self.new.peer.standing ≡ false
            → (self.new.peer.standing ≡ self.old.peer.standing) × (self.new.rest ≡ self.old.rest) }
        ensures policy { core.new.policy ≡ core.old.policy }
        ensures room { OnOk result (LeavesRoom up.old up.new self.old self.new) }
    {
        if self.is_lost() {
            return Ok(());
        }
        self.peer.deliver(payload, refusals, core, up)
    }

    /// The forwarder replies to a request of it later than at once. One that is lost is sent
    /// nothing.
    pub fn answered(
        &mut self,
        id: u32,
        reply: HouseReply,
        core: &mut Core,
        up: &mut Queue,
    ) -> Result<(), OutOfMemory>
        requires room { is_standing_lost self.old.peer.standing ≡ false → FAREWELL_ROOM ≤ up.old.spare }
        ensures answers { OnOk result (AnswersIn id reply core.old core.new up.old up.new self.old
            self.new) }
        ensures number { OnOk result (self.new.peer.number ≡ self.old.peer.number) }
        ensures reads { is_standing_lost self.new.peer.standing ≡ false
            → (self.new.peer.standing ≡ self.old.peer.standing) × (self.new.rest ≡ self.old.rest) }
        ensures policy { core.new.policy ≡ core.old.policy }
        ensures room { OnOk result (LeavesRoom up.old up.new self.old self.new) }
    {
        if self.is_lost() {
            return Ok(());
        }
        self.peer.answered(id, reply, core, up)
    }

    // What it sends next: whether anything whole was there.
    fn send_next<H: Asks>(
        &mut self,
        pid: u32,
        change: &mut RunChange,
        house: &mut H,
        asks: &mut AskLog,
        core: &mut Core,
        up: &mut Queue,
    ) -> Result<bool, OutOfMemory>
        requires { MaySend self.old.peer.standing up.old (H.state house.old) }
        ensures applies { Applies result asks.old asks.new (H.state house.old) (H.state house.new) }
        ensures next { IfOk result (λ more.
            SendsNext H.may (Some asks.old) (Some asks.new) pid more
            (first_in (parse_mode_of self.old.peer.standing) self.old.rest) core.old core.new up.old
            up.new self.old change.old self.new change.new) }
        ensures cut { OnErr result (AsksNext H.may (H.state house.old).recorded (H.state house.new).recorded
            self.old.peer.number self.old.peer.standing
            (first_in (parse_mode_of self.old.peer.standing) self.old.rest)) }
        ensures policy { core.new.policy ≡ core.old.policy }
        ensures keeps { OnOk result (KeepsPeer up.old up.new self.old.peer self.new.peer) }
    {
        match self.framer.next() {
            Next::More => Ok(false),
            Next::Bad(fault) => {
                self.peer.fails(fault, core, up);
                Ok(true)
            }
            Next::Frame => {
                if self.peer.is_proxied() {
                    self.peer.says(self.framer.frame(), core, up)?;
                    return Ok(true);
                }
                let body = self.framer.content();
                let decision = decide(
                    self.peer.number(),
                    pid,
                    self.peer.is_greeted(),
                    body,
                    house,
                    asks,
                )?;
                self.peer.follows(&decision, change, core, up)?;
                if self.peer.is_proxied() {
                    self.framer.switch(Framing::Proxy);
                }
                Ok(true)
            }
        }
    }

    // Reads a piece of its bytes: what they did beyond it.
    fn read<H: Asks>(
        &mut self,
        pid: u32,
        bytes: &[u8],
        house: &mut H,
        asks: &mut AskLog,
        core: &mut Core,
        up: &mut Queue,
    ) -> Result<RunChange, OutOfMemory>
        requires { MaySend self.old.peer.standing up.old (H.state house.old) }
        ensures applies { Applies result asks.old asks.new (H.state house.old) (H.state house.new) }
        ensures receives { IfOk result (λ change.
            ReceivesPiece H.may (Some asks.old) (Some asks.new) pid bytes.now core.old up.old
            self.old core.new up.new self.new change) }
        ensures cut { OnErr result (ReceivesSome H.may (H.state house.old).recorded
            (H.state house.new).recorded pid bytes.now core.old up.old self.old) }
        ensures policy { OnOk result (core.new.policy ≡ core.old.policy) }
        ensures keeps { OnOk result (KeepsPeer up.old up.new self.old.peer self.new.peer) }
    {
        let mut change = RunChange {
            stops: false,
            ended: None,
        };
        self.framer.push(bytes)?;
        while self.peer.is_read() {
            if !self.send_next(pid, &mut change, house, asks, core, up)? {
                break;
            }
        }
        Ok(change)
    }
}
