ghost use Rattle.std.specs.Prelude.{◌≡◌, ◌≢◌, [], false, IsErr, length};
ghost use Rattle.mux_outside.specs.Seen.{seen_after_close, seen_after_connect, seen_after_listen, seen_after_note, seen_after_silence};
ghost use Rattle.mux_outside.specs.Wire.{JoinFaults, MakeFaults, MayWait, MayWrite, OpenFaults, OwnFits, TurnFaults, TurnFits, WroteFaults, WroteFits};
ghost use Rattle.mux_outside.specs.WireState.{seeing, state_after_join, state_after_open, state_after_wait, state_after_write};
ghost use Rattle.mux_outside.specs.declared.house_mark.HouseMark.TheVariants.{HouseSaid};
ghost use Rattle.mux_outside.specs.declared.turn.Turn.TheVariants.{End, NoMemory};
ghost use Rattle.mux_outside.specs.declared.turn.Want.TheVariants.{Read, WriteOnly};
ghost use Rattle.mux_outside.specs.declared.turn.Wrote.TheVariants.{NoMemory as NoMemoryToWrite};
ghost use Rattle.mux_drill.specs.Plan.{plan_of};
ghost use Rattle.mux_drill.specs.Play.{GivesNextTurn, drill_piece_of};
ghost use Rattle.mux_drill.specs.declared.play.PlayChange.TheVariants.{Nothing};
ghost use Rattle.mux_drill.specs.declared.stage.DrillStage.TheVariants.{Ending};

use crate::plan::Plan;
use crate::play::{GivenTurn, Play, PlayChange};
use mux_outside::{FileError, HouseMark, Piece, Streams, Tally, Turn, Want, Wire, WireLog, Wrote};
use ssh_fields::OutOfMemory;
use std::alloc::Global;

/// A wire in memory, which plays the clients and the server of a drill, and records everything. It
/// opens no listener and no stream of the master's own.
#[derive(Drop)]
pub struct DrillWire {
    alloc: Global,
    play: Play,
    log: WireLog,
    ghost no_listener: { log.state.seen.listeners ≡ [] },
    ghost no_stream: { log.state.seen.own ≡ [] },
}

impl DrillWire {
    ghost use Rattle.mux_drill.specs.DrillWire.{IsNewDrill};

    /// A wire that isn't open.
    pub fn new(alloc: Global) -> DrillWire
        ensures { IsNewDrill result }
    {
        DrillWire {
            alloc,
            play: Play::nothing(alloc),
            log: WireLog::new(alloc),
        }
    }

    /// What it keeps of its calls.
    pub fn log(&self) -> &WireLog
        ensures { result.now ≡ self.now.log }
    {
        &self.log
    }
}

impl Wire for DrillWire {
    ghost use Rattle.mux_drill.specs.DrillWire.{CountsToTheEnd, DrillOpens, Plays, SamePlay, TakesAll, tally_of};

    ghost state = { λ w. record w.log.state { tally = tally_of w } };

    ghost faults = { λ w. w.log.faults };

    fn open(&mut self, control: &[u8], transport: &[u8]) -> Result<(), FileError>
        ensures state { self.new.log.state ≡ state_after_open result control.now transport.now
            self.old.log.state.tally self.old.log.state }
        ensures cause { OpenFaults result self.old.log.faults self.new.log.faults }
        ensures exact { DrillOpens result (plan_of transport.now) self.old self.new }
    {
        let Some(plan) = Plan::read(self.alloc, transport)? else {
            return self.log.opened(control, transport, false);
        };
        let play = Play::start(self.alloc, plan)?;
        self.log.opened(control, transport, true)?;
        self.play = play;
        Ok(())
    }

    fn join(&mut self, control: &[u8]) -> Result<(), FileError>
        ensures state { self.new.log.state
            ≡ state_after_join result control.now self.old.log.state }
        ensures cause { JoinFaults result self.old.log.faults self.new.log.faults }
        ensures fails { IsErr result }
        ensures same { SamePlay self.old self.new }
    {
        self.log.joined(control, false)
    }

    fn wait(&mut self, waiting: &Streams, want: Want, into: &mut Piece) -> Turn
        requires may { MayWait waiting.now want self.old.log.state.seen }
        ensures turn { TurnFits result want self.old.log.state.seen into.new }
        ensures own_turn { OwnFits result self.old.log.state.seen }
        ensures state { self.new.log.state ≡ state_after_wait result waiting.now want into.new
            self.old.log.state.tally self.old.log.state }
        ensures cause { TurnFaults result self.old.log.faults self.new.log.faults }
        ensures counts { CountsToTheEnd result self.old self.new }
        ensures plays { Plays want result into.new self.old self.new }
        ensures kept { result ≡ NoMemory → into.new ≡ into.old }
    {
        let given = self.given(waiting, want);
        let bytes = self.play.piece(&given.change);
        if self.log.waited(given.turn, waiting, want, bytes).is_err() {
            return Turn::NoMemory;
        }
        into.set(bytes);
        self.play.keep(given.change);
        given.turn
    }

    fn write(&mut self, stream: u64, bytes: &[u8]) -> Wrote
        requires may { MayWrite stream bytes.now self.old.log.state.seen }
        ensures wrote { WroteFits result (length bytes.now) }
        ensures state { self.new.log.state ≡ state_after_write result stream bytes.now
            self.old.log.state.tally self.old.log.state }
        ensures cause { WroteFaults result stream self.old.log.faults self.new.log.faults }
        ensures all { result ≢ NoMemoryToWrite
            → TakesAll stream bytes.now self.old self.new result }
        ensures over { tally_of self.new ≡ tally_of self.old }
        ensures err { result ≡ NoMemoryToWrite → SamePlay self.old self.new }
    {
        if self.play.unread.add(stream, bytes).is_err() {
            let _ = self.log.wrote(Wrote::NoMemory, stream, bytes);
            return Wrote::NoMemory;
        }
        let wrote = Wrote::Took(bytes.len());
        if self.log.wrote(wrote, stream, bytes).is_err() {
            self.play.unread.take_back(stream, bytes.len());
            return Wrote::NoMemory;
        }
        wrote
    }

    fn stop_listening(&mut self)
        ensures state { self.new.log.state ≡ seeing seen_after_silence self.old.log.state }
        ensures faults { self.new.log.faults ≡ self.old.log.faults }
        ensures same { SamePlay self.old self.new }
    {
        self.log.stop_listening();
    }

    fn close(&mut self, stream: u64)
        ensures state { self.new.log.state
            ≡ seeing (seen_after_close stream) self.old.log.state }
        ensures faults { self.new.log.faults ≡ self.old.log.faults }
        ensures same { SamePlay self.old self.new }
    {
        self.log.close(stream);
    }

    fn note(&mut self, m: &HouseMark) -> Result<(), OutOfMemory>
        ensures state { self.new.log.state
            ≡ seeing (seen_after_note result m.now) self.old.log.state }
        ensures faults { self.new.log.faults ≡ self.old.log.faults }
        ensures same { SamePlay self.old self.new }
    {
        self.log.noted(m)
    }

    fn note_said(&mut self, piece: &[u8]) -> Result<(), OutOfMemory>
        ensures state { self.new.log.state
            ≡ seeing (seen_after_note result (HouseSaid piece.now)) self.old.log.state }
        ensures faults { self.new.log.faults ≡ self.old.log.faults }
        ensures same { SamePlay self.old self.new }
    {
        self.log.noted_said(piece)
    }

    fn listen(&mut self, host: &[u8], port: u32) -> Result<u64, FileError>
        ensures state { self.new.log.state
            ≡ seeing (seen_after_listen result host.now port) self.old.log.state }
        ensures cause { MakeFaults result self.old.log.faults self.new.log.faults }
        ensures fails { IsErr result }
        ensures same { SamePlay self.old self.new }
    {
        self.log.listened(host, port, true)
    }

    fn connect(&mut self, host: &[u8], port: u32) -> Result<u64, FileError>
        ensures state { self.new.log.state
            ≡ seeing (seen_after_connect result host.now port) self.old.log.state }
        ensures cause { MakeFaults result self.old.log.faults self.new.log.faults }
        ensures fails { IsErr result }
        ensures same { SamePlay self.old self.new }
    {
        self.log.connected(host, port, true)
    }

    fn unlisten(&mut self, _listener: u64)
        ensures same { self.new ≡ self.old }
    {}

    fn pause(&mut self, _stream: u64)
        ensures same { self.new ≡ self.old }
    {}

    fn resume(&mut self, _stream: u64)
        ensures same { self.new ≡ self.old }
    {}

    fn finish(&mut self, _stream: u64)
        ensures same { self.new ≡ self.old }
    {}

    fn tally(&self) -> Tally
        ensures { result ≡ tally_of self.now }
    {
        self.play.trace.tally()
    }
}

impl DrillWire {
    // The turn of a wait, and what it leaves.
    fn given(&self, waiting: &Streams, want: Want) -> GivenTurn
        requires may { MayWait waiting.now want self.now.log.state.seen }
        ensures turn { TurnFits result.turn want self.now.log.state.seen
            (drill_piece_of result.change self.now.play) }
        ensures own_turn { OwnFits result.turn self.now.log.state.seen }
        ensures gives { want ≡ Read → result.turn ≢ NoMemory
            → GivesNextTurn self.now.play self.now.log.state.seen result }
        ensures starved { result.turn ≡ NoMemory → result.change ≡ Nothing }
        ensures ends { result.turn ≡ End 0 → self.now.play.trace.stage ≡ Ending }
        ensures frees { want ≡ WriteOnly → result.change ≡ Nothing }
    {
        match want {
            Want::Read => self.play.next(&self.log),
            Want::WriteOnly => GivenTurn {
                turn: Turn::Writable(waiting.as_slice()[0]),
                change: PlayChange::Nothing,
            },
        }
    }
}
