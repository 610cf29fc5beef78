ghost use Rattle.std.specs.Prelude.{◌≡◌, ◌≢◌, ◌<◌, ◌⊎◌, ◌&&◌, not, ℕ, List, length, true, Err, IfSome, IsErr, OnErr, IsNone, IsSome, IsSomeAnd, IsTrue, IsUtf8, None, OnOk, Some, false, nat_eq, option_map};
ghost use Rattle.indexmap.specs.IndexMap.{get};
ghost use Rattle.mux_outside.specs.Faults.{no_faults};
ghost use Rattle.mux_outside.specs.OwnStreams.{is_own, is_silent};
ghost use Rattle.mux_outside.specs.Seen.{moved_by_connect, moved_by_listen, seen_after_close, seen_after_finish, seen_after_join, seen_after_pause, seen_after_silence, seen_after_unlisten};
ghost use Rattle.mux_outside.specs.Streams.{among};
ghost use Rattle.mux_outside.specs.Wire.{IsNewOwn, JoinFaults, MakeFaults, MayWait, MayWrite, NumberFits, OpenFaults, OwnFits, TurnFaults, TurnFits, WroteFaults, WroteFits};
ghost use Rattle.mux_outside.specs.WireState.{nothing_called, opens_stream, seeing, state_opened, state_waited, state_written, untelling};
ghost use Rattle.mux_outside.specs.declared.turn.Turn.TheVariants.{NoMemory};
ghost use Rattle.mux_outside.specs.declared.turn.Want.{Want as TheWant};
ghost use Rattle.mux_edge.specs.Entries.{HasEntry, IsFinished, IsPaused};
ghost use Rattle.mux_edge.specs.Sockets.{HaveFew, StayFew, TouchesAlone, TurnRecords};
ghost use Rattle.mux_edge.specs.StreamTable.{HasFew};

use crate::control::ControlSocket;
use crate::opening::{Fault, join, open};
use crate::workers::Workers;
use mux_edge::opened::{
    connect, drop_socket, finish, listen, next_turn, pause, resume, stop_listening, unlisten, write,
};
use mux_edge::{
    RealSockets, RealTable, Sockets, count_made, keep_listener, keep_stream, next_number,
};
use mux_outside::{
    FaultCounts, FileError, HouseMark, Piece, Streams, Tally, Turn, Want, Whose, Wire, WireState,
    Wrote,
};
use ssh_fields::OutOfMemory;
use std::alloc::Global;
use std::fs::Files;
use std::mem;
use std::net::Net;
use std::process::Processes;
use std::time::Clock;

/// A wire over the system's sockets: a Unix socket for the clients, and a Unix socket or TCP for
/// the server. A client that fails, resets or takes its bytes slowly is that client's matter alone;
/// while the system has no descriptors left, clients wait. The master's own listeners and streams
/// are over TCP. At most 512 such streams are open at a time, and fewer where the process may have
/// few descriptors. They listen at numeric addresses, and connect to these or to names, which
/// `getent ahosts` looks up.
#[derive(Drop)]
pub struct RealWire<R: Files + Net + Processes + Clock + Clone + Drop> {
    rt: R,
    alloc: Global,
    // it stands before the sockets, so that the name goes before its listener: as long as that
    // stands, no other file has the same number
    control: Option<ControlSocket<R>>,
    sockets: Option<RealSockets<Workers<R>>>,
    state: WireState,
    faults: FaultCounts,
}

impl<R: Files + Net + Processes + Clock + Clone + Drop> RealWire<R> {
    /// A wire that isn't open.
    pub fn new(rt: R, alloc: Global) -> RealWire<R>
        ensures state { result.state ≡ nothing_called }
        ensures faults { result.faults ≡ no_faults }
    {
        RealWire {
            rt,
            alloc,
            control: None,
            sockets: None,
            state: WireState::new(alloc),
            faults: FaultCounts::new(),
        }
    }

    // The children that will look up names.
    fn workers(&self) -> Result<Workers<R>, OutOfMemory> {
        match self.rt.clone() {
            Ok(rt) => Ok(Workers::new(rt, self.alloc)),
            Err(_) => Err(OutOfMemory),
        }
    }

    // Takes in what was opened or joined.
    fn take_in(&mut self, control: Option<ControlSocket<R>>, table: RealTable, workers: Workers<R>)
        ensures control { self.new.control ≡ control }
        ensures few { HasFew table → HaveFew self.new.sockets }
        ensures listens { IsSome table.listener
            → IsSomeAnd self.new.sockets (λ sockets. IsSome sockets.table.listener) }
        ensures deaf { IsNone table.listener
            → IsSomeAnd self.new.sockets (λ sockets. IsNone sockets.table.listener) }
        ensures rest { self.new
            ≡ record self.old { control = self.new.control; sockets = self.new.sockets } }
    {
        drop(mem::replace(&mut self.control, control));
        let sockets = Sockets::new(self.alloc, table, workers);
        drop(self.sockets.replace(sockets));
    }

    // Opens the sockets, and keeps them.
    fn open_sockets(&mut self, control: &[u8], transport: &[u8]) -> Result<(), FileError>
        ensures not_text { ¬ (IsUtf8 control.now) → IsErr result }
        ensures few { HaveFew self.old.sockets → HaveFew self.new.sockets }
        ensures named { OnOk result (IsSome self.new.control) }
        ensures listens { OnOk result
            (IsSomeAnd self.new.sockets (λ sockets. IsSome sockets.table.listener)) }
        ensures state { OnOk result (self.new.state ≡ self.old.state) }
        ensures failed { OnErr result (self.new.state ≡ state_opened result self.old.state) }
        ensures cause { OpenFaults result self.old.faults self.new.faults }
    {
        let workers = self.workers()?;
        match open(&self.rt, self.alloc, control, transport) {
            Ok((control, table)) => {
                self.take_in(Some(control), table, workers);
                Ok(())
            }
            Err(fault) => {
                drop(workers);
                Err(self.not_opened(fault))
            }
        }
    }

    // Joins another master, and keeps the socket to it.
    fn join_sockets(&mut self, control: &[u8]) -> Result<(), FileError>
        ensures not_text { ¬ (IsUtf8 control.now) → IsErr result }
        ensures few { HaveFew self.old.sockets → HaveFew self.new.sockets }
        ensures unnamed { OnOk result (IsNone self.new.control) }
        ensures deaf { OnOk result
            (IsSomeAnd self.new.sockets (λ sockets. IsNone sockets.table.listener)) }
        ensures state { self.new.state ≡ self.old.state }
        ensures cause { JoinFaults result self.old.faults self.new.faults }
    {
        let workers = self.workers()?;
        match join(&self.rt, self.alloc, control) {
            Ok(table) => {
                self.take_in(None, table, workers);
                Ok(())
            }
            Err(fault) => {
                drop(workers);
                Err(self.not_joined(fault))
            }
        }
    }

    // Counts that nothing was opened.
    fn not_opened(&mut self, fault: Fault) -> FileError
        ensures named { self.new.control ≡ self.old.control }
        ensures sockets { self.new.sockets ≡ self.old.sockets }
        ensures state { self.new.state ≡ state_opened (Err result) self.old.state }
        ensures cause { OpenFaults (Err result) self.old.faults self.new.faults }
    {
        match fault {
            Fault::ControlSocket => self.faults.of(Whose::Client(0)),
            Fault::Transport => self.faults.of(Whose::Server),
            Fault::Memory => return FileError::OutOfMemory,
        }
        self.state.not_opened();
        FileError::Failed
    }

    // Counts that nothing was joined.
    fn not_joined(&mut self, fault: Fault) -> FileError
        ensures same { self.new ≡ record self.old { faults = self.new.faults } }
        ensures cause { JoinFaults (Err result) self.old.faults self.new.faults }
    {
        match fault {
            Fault::ControlSocket | Fault::Transport => {
                self.faults.of(Whose::Server);
                FileError::Failed
            }
            Fault::Memory => FileError::OutOfMemory,
        }
    }

    // Keeps a turn. A client or a stream that is joined, for which there is no memory, is let go
    // of.
    fn keep(&mut self, turn: Turn) -> Turn
        requires { OwnFits turn self.old.state.seen }
        ensures turn { (want : TheWant) → (bytes : List ℕ)
            → TurnFits turn want self.old.state.seen bytes
            → TurnFits result want self.old.state.seen bytes }
        ensures own_turn { OwnFits result self.old.state.seen }
        ensures recorded { TurnRecords turn result }
        ensures room { result ≡ NoMemory → (opens_stream turn ≡ true) ⊎ (turn ≡ NoMemory) }
        ensures named { self.new.control ≡ self.old.control }
        ensures few { StayFew self.old.sockets self.new.sockets }
        ensures sockets { result ≢ NoMemory → self.new.sockets ≡ self.old.sockets }
        ensures listener { option_map (λ s. s.table.listener) self.new.sockets
            ≡ option_map (λ s. s.table.listener) self.old.sockets }
        ensures state { self.new.state ≡ state_waited result self.old.state }
        ensures cause { TurnFaults result self.old.faults self.new.faults }
    {
        if self.state.waited(turn).is_err() {
            if let Turn::Accepted(number) | Turn::Joined(_, number) = turn {
                drop_socket(&mut self.sockets, number);
            }
            return Turn::NoMemory;
        }
        self.faults.waited(turn);
        turn
    }

    // Listens at an address with the next number.
    fn listen_at(&mut self, host: &[u8], port: u32) -> Result<u64, FileError>
        ensures named { self.new.control ≡ self.old.control }
        ensures few { StayFew self.old.sockets self.new.sockets }
        ensures fits { NumberFits result self.old.state.seen.last_own }
        ensures state { self.new.state ≡ seeing (moved_by_listen result) self.old.state }
        ensures faults { self.new.faults ≡ self.old.faults }
    {
        let number = next_number(&self.state)?;
        listen(&mut self.sockets, &self.rt, number, host, port)?;
        let kept = keep_listener(&mut self.state, number);
        if kept.is_err() {
            unlisten(&mut self.sockets, number);
        }
        kept
    }

    // Begins to connect with the next number.
    fn connect_to(&mut self, host: &[u8], port: u32) -> Result<u64, FileError>
        ensures named { self.new.control ≡ self.old.control }
        ensures few { StayFew self.old.sockets self.new.sockets }
        ensures fits { NumberFits result self.old.state.seen.last_own }
        ensures state { self.new.state ≡ seeing (moved_by_connect result) self.old.state }
        ensures faults { self.new.faults ≡ self.old.faults }
    {
        let number = next_number(&self.state)?;
        connect(&mut self.sockets, &self.rt, number, host, port)?;
        let kept = keep_stream(&mut self.state, number);
        if kept.is_err() {
            drop_socket(&mut self.sockets, number);
        }
        kept
    }
}

impl<R: Files + Net + Processes + Clock + Clone + Drop> Wire for RealWire<R> {
    ghost state = { λ w. untelling w.state };

    ghost faults = { λ w. w.faults };

    fn open(&mut self, control: &[u8], transport: &[u8]) -> Result<(), FileError>
        ensures not_text { ¬ (IsUtf8 control.now) → IsErr result }
        ensures few { HaveFew self.old.sockets → HaveFew self.new.sockets }
        ensures named { OnOk result (IsSome self.new.control) }
        ensures listens { OnOk result
            (IsSomeAnd self.new.sockets (λ sockets. IsSome sockets.table.listener)) }
        ensures state { self.new.state ≡ state_opened result self.old.state }
        ensures cause { OpenFaults result self.old.faults self.new.faults }
    {
        let server = Streams::one(self.alloc, 0)?;
        match self.open_sockets(control, transport) {
            Ok(()) => {
                self.state.opened(server);
                Ok(())
            }
            Err(e) => {
                drop(server);
                Err(e)
            }
        }
    }

    fn join(&mut self, control: &[u8]) -> Result<(), FileError>
        ensures not_text { ¬ (IsUtf8 control.now) → IsErr result }
        ensures few { HaveFew self.old.sockets → HaveFew self.new.sockets }
        ensures unnamed { OnOk result (IsNone self.new.control) }
        ensures deaf { OnOk result
            (IsSomeAnd self.new.sockets (λ sockets. IsNone sockets.table.listener)) }
        ensures state { self.new.state ≡ seeing (seen_after_join result) self.old.state }
        ensures cause { JoinFaults result self.old.faults self.new.faults }
    {
        let server = Streams::one(self.alloc, 0)?;
        match self.join_sockets(control) {
            Ok(()) => {
                self.state.joined(server);
                Ok(())
            }
            Err(e) => {
                drop(server);
                Err(e)
            }
        }
    }

    fn wait(&mut self, waiting: &Streams, want: Want, into: &mut Piece) -> Turn
        requires may { MayWait waiting.now want self.old.state.seen }
        ensures named { self.new.control ≡ self.old.control }
        ensures few { StayFew self.old.sockets self.new.sockets }
        ensures turn { TurnFits result want self.old.state.seen into.new }
        ensures own_turn { OwnFits result self.old.state.seen }
        ensures state { self.new.state ≡ state_waited result self.old.state }
        ensures cause { TurnFaults result self.old.faults self.new.faults }
        ensures kept { result ≡ NoMemory → into.new ≡ into.old }
        ensures listener { option_map (λ s. s.table.listener) self.new.sockets
            ≡ option_map (λ s. s.table.listener) self.old.sockets }
    {
        let sockets = &mut self.sockets;
        let turn = next_turn(sockets, &self.rt, &self.state, waiting, want, into);
        self.keep(turn)
    }

    fn write(&mut self, stream: u64, bytes: &[u8]) -> Wrote
        requires may { MayWrite stream bytes.now self.old.state.seen }
        ensures named { self.new.control ≡ self.old.control }
        ensures wrote { WroteFits result (length bytes.now) }
        ensures state { self.new.state ≡ state_written result stream self.old.state }
        ensures cause { WroteFaults result stream self.old.faults self.new.faults }
        ensures rest { TouchesAlone stream self.old.sockets self.new.sockets }
    {
        // The room for a stream that blocks comes before the write, which can't be taken back.
        if self.state.hold(stream).is_err() {
            return Wrote::NoMemory;
        }
        let wrote = write(&mut self.sockets, stream, bytes);
        self.state.held(wrote, stream);
        self.faults.wrote(wrote, stream);
        wrote
    }

    fn stop_listening(&mut self)
        ensures unnamed { IsNone self.new.control }
        ensures few { StayFew self.old.sockets self.new.sockets }
        ensures deaf { IfSome self.new.sockets (λ sockets. IsNone sockets.table.listener) }
        ensures state { self.new.state ≡ seeing seen_after_silence self.old.state }
        ensures faults { self.new.faults ≡ self.old.faults }
    {
        self.state.stop_listening();
        drop(self.control.take());
        stop_listening(&mut self.sockets);
    }

    fn close(&mut self, stream: u64)
        ensures named { self.new.control ≡ self.old.control }
        ensures state { self.new.state ≡ seeing (seen_after_close stream) self.old.state }
        ensures faults { self.new.faults ≡ self.old.faults }
        ensures rest { TouchesAlone stream self.old.sockets self.new.sockets }
    {
        self.state.close(stream);
        drop_socket(&mut self.sockets, stream);
    }

    fn note(&mut self, _m: &HouseMark) -> Result<(), OutOfMemory> {
        Ok(())
    }

    fn note_said(&mut self, _piece: &[u8]) -> Result<(), OutOfMemory> {
        Ok(())
    }

    fn listen(&mut self, host: &[u8], port: u32) -> Result<u64, FileError>
        ensures named { self.new.control ≡ self.old.control }
        ensures few { StayFew self.old.sockets self.new.sockets }
        ensures fits { NumberFits result self.old.state.seen.last_own }
        ensures state { self.new.state ≡ seeing (moved_by_listen result) self.old.state }
        ensures cause { MakeFaults result self.old.faults self.new.faults }
    {
        let answer = self.listen_at(host, port);
        count_made(&answer, &mut self.faults);
        answer
    }

    fn connect(&mut self, host: &[u8], port: u32) -> Result<u64, FileError>
        ensures named { self.new.control ≡ self.old.control }
        ensures few { StayFew self.old.sockets self.new.sockets }
        ensures fits { NumberFits result self.old.state.seen.last_own }
        ensures state { self.new.state ≡ seeing (moved_by_connect result) self.old.state }
        ensures cause { MakeFaults result self.old.faults self.new.faults }
    {
        let answer = self.connect_to(host, port);
        count_made(&answer, &mut self.faults);
        answer
    }

    fn unlisten(&mut self, listener: u64)
        ensures named { self.new.control ≡ self.old.control }
        ensures few { StayFew self.old.sockets self.new.sockets }
        ensures state { self.new.state ≡ seeing (seen_after_unlisten listener) self.old.state }
        ensures faults { self.new.faults ≡ self.old.faults }
    {
        self.state.unlistened(listener);
        unlisten(&mut self.sockets, listener);
    }

    fn pause(&mut self, stream: u64)
        ensures named { self.new.control ≡ self.old.control }
        ensures paused { IfSome self.old.sockets (λ old. is_own stream ≡ true
            → HasEntry stream old.table.entries
            → IsSomeAnd self.new.sockets (λ new. IsPaused true stream new.table.entries)) }
        ensures state { self.new.state ≡ seeing (seen_after_pause true stream) self.old.state }
        ensures faults { self.new.faults ≡ self.old.faults }
        ensures rest { TouchesAlone stream self.old.sockets self.new.sockets }
    {
        self.state.set_paused(stream, true);
        pause(&mut self.sockets, stream);
    }

    fn resume(&mut self, stream: u64)
        ensures named { self.new.control ≡ self.old.control }
        ensures resumed { IfSome self.old.sockets (λ old. is_own stream ≡ true
            → HasEntry stream old.table.entries
            → IsSomeAnd self.new.sockets (λ new. IsPaused false stream new.table.entries)) }
        ensures state { self.new.state ≡ seeing (seen_after_pause false stream) self.old.state }
        ensures faults { self.new.faults ≡ self.old.faults }
        ensures rest { TouchesAlone stream self.old.sockets self.new.sockets }
    {
        self.state.set_paused(stream, false);
        resume(&mut self.sockets, stream);
    }

    fn finish(&mut self, stream: u64)
        ensures named { self.new.control ≡ self.old.control }
        ensures finished { IfSome self.old.sockets (λ old. is_own stream ≡ true
            → HasEntry stream old.table.entries
            → IsSomeAnd self.new.sockets (λ new. IsFinished stream new.table.entries)) }
        ensures state { self.new.state ≡ seeing (seen_after_finish stream) self.old.state }
        ensures faults { self.new.faults ≡ self.old.faults }
        ensures rest { TouchesAlone stream self.old.sockets self.new.sockets }
    {
        self.state.finish(stream);
        finish(&mut self.sockets, stream);
    }

    fn tally(&self) -> Tally {
        Tally::zero()
    }
}
