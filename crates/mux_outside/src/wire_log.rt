//! What a wire in memory keeps of its calls.
ghost use Rattle.std.specs.Prelude.{◌≡◌, ◌≢◌, ◌≤◌, Some, IfOk, OnOk, length};
ghost use Rattle.std.specs.Option.{option_map};
ghost use Rattle.mux_outside.specs.Marks.{bytes_taken as all_taken};
ghost use Rattle.mux_outside.specs.Seen.{seen_after_close, seen_after_connect, seen_after_finish, seen_after_listen, seen_after_note, seen_after_pause, seen_after_silence, seen_after_unlisten, without_record};
ghost use Rattle.mux_outside.specs.Wire.{JoinFaults, MakeFaults, NumberFits, OpenFaults, OwnFits, TurnFaults, WroteFaults, WroteFits};
ghost use Rattle.mux_outside.specs.WireLog.{MakesAs, NextOwn, OpensAs, nothing_logged};
ghost use Rattle.mux_outside.specs.WireState.{answer_kept, seeing, state_after_join, state_after_open, state_after_wait, state_after_write, turn_kept};
ghost use Rattle.mux_outside.specs.declared.house_mark.HouseMark.TheVariants.{HouseSaid};
ghost use Rattle.mux_outside.specs.declared.own_streams.TheConstants.{LAST_CLIENT};
ghost use Rattle.mux_outside.specs.declared.turn.Turn.TheVariants.{NoMemory};

use crate::fault_counts::FaultCounts;
use crate::file_error::FileError;
use crate::house_mark::HouseMark;
use crate::kept_mark::KeptMark;
use crate::mark::{Mark, OpenCall, bytes_taken};
use crate::marks::Marks;
use crate::order::Order;
use crate::record::{mark_of_made, mark_of_write, marks_of_wait};
use crate::streams::Streams;
use crate::turn::{Turn, Want, Wrote};
use crate::whose::Whose;
use crate::wire_state::WireState;
use ssh_fields::{OutOfMemory, Text};
use std::alloc::{AllocError, Global};
use std::marker::Model;

/// What a wire in memory keeps of its calls: all that a wire may record, and what it counts.
#[derive(Drop)]
pub struct WireLog {
    alloc: Global,
    openings: Vec<OpenCall>,
    joinings: Vec<Text>,
    marks: Marks,
    state: WireState,
    faults: FaultCounts,
}

impl Model for WireLog {
    ghost use Rattle.mux_outside.specs.WireLog.{Logged};
    ghost use Rattle.mux_outside.specs.WireState.{recording};

    ghost Value = { Logged };

    ghost view = { λ l. record {
      state = recording l.openings.items l.joinings.items l.marks.recorded.items l.state;
      faults = l.faults;
    } };
}

impl WireLog {
    /// The log of a wire that was never called.
    pub fn new(alloc: Global) -> WireLog
        ensures { result ≡ nothing_logged }
    {
        WireLog {
            alloc,
            openings: Vec::new(alloc),
            joinings: Vec::new(alloc),
            marks: Marks::new(alloc),
            state: WireState::new(alloc),
            faults: FaultCounts::new(),
        }
    }

    /// What is always known of the wire.
    pub fn state(&self) -> &WireState
        ensures { without_record result.now.seen ≡ without_record self.now.state.seen }
    {
        &self.state
    }

    /// The open streams, in the order in which they were opened.
    pub fn streams(&self) -> &Streams
        ensures { result.now ≡ self.now.state.seen.streams }
    {
        self.state.streams()
    }

    /// Whether clients are accepted.
    pub fn is_listening(&self) -> bool
        ensures { result ≡ self.now.state.seen.listens }
    {
        self.state.is_listening()
    }

    /// The last client accepted, 0 before the first. The numbers of the master's own are above
    /// those of all clients.
    pub fn last(&self) -> u64
        ensures value { result ≡ self.now.state.seen.last }
        ensures own_above { LAST_CLIENT ≤ self.now.state.seen.last_own }
    {
        self.state.last()
    }

    /// The marks so far.
    pub fn marks(&self) -> &[Mark]
        ensures { Some result.now ≡ self.now.state.seen.recorded }
    {
        self.marks.recorded.as_slice()
    }

    /// The arguments of the calls of `open` so far.
    pub fn openings(&self) -> &[OpenCall]
        ensures { Some result.now ≡ self.now.state.openings }
    {
        self.openings.as_slice()
    }

    /// The arguments of the calls of `join` so far.
    pub fn joinings(&self) -> &[Text]
        ensures { Some result.now ≡ self.now.state.joinings }
    {
        self.joinings.as_slice()
    }

    /// All bytes that a stream accepted.
    pub fn taken(&self, stream: u64) -> Result<Text, OutOfMemory>
        ensures { IfOk result (λ bytes. Some bytes
            ≡ option_map (all_taken stream) self.now.state.seen.recorded) }
    {
        bytes_taken(self.alloc, &self.marks.recorded, stream)
    }

    /// Keeps a call of `open` with these arguments, which succeeds or fails. A failure counts as
    /// the server's.
    pub fn opened(&mut self, control: &[u8], transport: &[u8], opens: bool) -> Result<(), FileError>
        ensures opens { OpensAs opens result }
        ensures state { self.new.state ≡ state_after_open result control.now transport.now
            self.old.state.tally self.old.state }
        ensures cause { OpenFaults result self.old.faults self.new.faults }
    {
        let opening = OpenCall {
            control: Text::copy(self.alloc, control)?,
            transport: Text::copy(self.alloc, transport)?,
        };
        let server = Streams::one(self.alloc, 0)?;
        if self.openings.push(opening).is_err() {
            return Err(FileError::OutOfMemory);
        }
        if !opens {
            self.state.not_opened();
            self.faults.of(Whose::Server);
            return Err(FileError::Failed);
        }
        self.state.opened(server);
        Ok(())
    }

    /// Keeps a call of `join` with this argument, which succeeds or fails. A failure counts as the
    /// server's.
    pub fn joined(&mut self, control: &[u8], joins: bool) -> Result<(), FileError>
        ensures joins { OpensAs joins result }
        ensures state { self.new.state ≡ state_after_join result control.now self.old.state }
        ensures cause { JoinFaults result self.old.faults self.new.faults }
    {
        let joining = Text::copy(self.alloc, control)?;
        let server = Streams::one(self.alloc, 0)?;
        if self.joinings.push(joining).is_err() {
            return Err(FileError::OutOfMemory);
        }
        if !joins {
            self.faults.of(Whose::Server);
            return Err(FileError::Failed);
        }
        self.state.joined(server);
        Ok(())
    }

    /// Keeps a call of `wait` that gives this turn, with the bytes that it gives. Where there is no
    /// memory for it, the call is counted as one that found none.
    pub fn waited(
        &mut self,
        turn: Turn,
        waiting: &Streams,
        want: Want,
        bytes: &[u8],
    ) -> Result<(), OutOfMemory>
        requires { OwnFits turn self.old.state.seen }
        ensures state { self.new.state ≡ state_after_wait (turn_kept result turn) waiting.now want
            bytes.now self.old.state.tally self.old.state }
        ensures cause { TurnFaults (turn_kept result turn) self.old.faults self.new.faults }
        ensures memory { OnOk result (turn ≢ NoMemory) }
    {
        let marks = marks_of_wait(
            self.alloc,
            &mut self.marks,
            &mut self.state,
            turn,
            waiting,
            want,
            bytes,
        );
        let Ok((waits, gives)) = marks else {
            self.state.starved();
            return Err(OutOfMemory);
        };
        self.state.waited(turn)?;
        self.faults.waited(turn);
        self.marks.recorded.push_reserved(waits);
        self.marks.recorded.push_reserved(gives);
        Ok(())
    }

    /// Keeps a call of `write` that has this answer. Where there is no memory for it, the call is
    /// counted as one that found none.
    pub fn wrote(&mut self, wrote: Wrote, stream: u64, bytes: &[u8]) -> Result<(), OutOfMemory>
        requires { WroteFits wrote (length bytes.now) }
        ensures state { self.new.state ≡ state_after_write (answer_kept result wrote) stream
            bytes.now self.old.state.tally self.old.state }
        ensures cause { WroteFaults (answer_kept result wrote) stream
            self.old.faults self.new.faults }
    {
        let listens = self.state.is_listening();
        let mark = mark_of_write(self.alloc, &mut self.marks, wrote, stream, bytes, listens);
        let Ok(mark) = mark else {
            self.state.starved_write(stream);
            return Err(OutOfMemory);
        };
        self.state.wrote(wrote, stream)?;
        self.faults.wrote(wrote, stream);
        self.marks.recorded.push_reserved(mark);
        Ok(())
    }

    /// Keeps that no more clients are accepted.
    pub fn stop_listening(&mut self)
        ensures state { self.new.state ≡ seeing seen_after_silence self.old.state }
        ensures faults { self.new.faults ≡ self.old.faults }
    {
        self.state.stop_listening();
    }

    /// Keeps that a stream was closed.
    pub fn close(&mut self, stream: u64)
        ensures state { self.new.state ≡ seeing (seen_after_close stream) self.old.state }
        ensures faults { self.new.faults ≡ self.old.faults }
    {
        self.state.close(stream);
    }

    /// Keeps a forwarder's mark.
    pub fn noted(&mut self, mark: &HouseMark) -> Result<(), OutOfMemory>
        ensures state { self.new.state ≡ seeing (seen_after_note result mark.now) self.old.state }
        ensures faults { self.new.faults ≡ self.old.faults }
    {
        let kept = KeptMark::copy(self.alloc, mark)?;
        self.marks.recorded.push(Mark::House(kept))?;
        Ok(())
    }

    /// Keeps the mark that a forwarder sent these bytes.
    pub fn noted_said(&mut self, piece: &[u8]) -> Result<(), OutOfMemory>
        ensures state { self.new.state
            ≡ seeing (seen_after_note result (HouseSaid piece.now)) self.old.state }
        ensures faults { self.new.faults ≡ self.old.faults }
    {
        let said = HouseMark::HouseSaid(Text::copy(self.alloc, piece)?);
        let kept = KeptMark::keep(self.alloc, said)?;
        self.marks.recorded.push(Mark::House(kept))?;
        Ok(())
    }

    /// Keeps that a listener was to be opened there.
    pub fn listened(&mut self, host: &[u8], port: u32, fails: bool) -> Result<u64, FileError>
        ensures makes { MakesAs fails self.old.state.seen.last_own result }
        ensures fits { NumberFits result self.old.state.seen.last_own }
        ensures state { self.new.state
            ≡ seeing (seen_after_listen result host.now port) self.old.state }
        ensures cause { MakeFaults result self.old.faults self.new.faults }
    {
        let host = Text::copy(self.alloc, host)?;
        let number = self.next_own(fails);
        let order = Order::Listen { host, port };
        let mark = mark_of_made(self.alloc, &mut self.marks, order, number)?;
        let Some(number) = number else {
            self.faults.of(Whose::Own);
            self.marks.recorded.push_reserved(mark);
            return Err(FileError::Failed);
        };
        self.state.listened(number)?;
        self.marks.recorded.push_reserved(mark);
        Ok(number)
    }

    /// Keeps that a stream was to be made that connects there.
    pub fn connected(&mut self, host: &[u8], port: u32, fails: bool) -> Result<u64, FileError>
        ensures makes { MakesAs fails self.old.state.seen.last_own result }
        ensures fits { NumberFits result self.old.state.seen.last_own }
        ensures state { self.new.state
            ≡ seeing (seen_after_connect result host.now port) self.old.state }
        ensures cause { MakeFaults result self.old.faults self.new.faults }
    {
        let host = Text::copy(self.alloc, host)?;
        let number = self.next_own(fails);
        let order = Order::Connect { host, port };
        let mark = mark_of_made(self.alloc, &mut self.marks, order, number)?;
        let Some(number) = number else {
            self.faults.of(Whose::Own);
            self.marks.recorded.push_reserved(mark);
            return Err(FileError::Failed);
        };
        self.state.connected(number)?;
        self.marks.recorded.push_reserved(mark);
        Ok(number)
    }

    // The number of what is to be made, where one is left and it isn't to fail.
    fn next_own(&self, fails: bool) -> Option<u64>
        ensures { NextOwn fails self.now.state.seen.last_own result }
    {
        match self.state.next_own() {
            Some(number) if !fails => Some(number),
            _ => None,
        }
    }

    /// Keeps that a listener was closed.
    pub fn unlistened(&mut self, listener: u64)
        ensures state { self.new.state ≡ seeing (seen_after_unlisten listener) self.old.state }
        ensures faults { self.new.faults ≡ self.old.faults }
    {
        self.state.unlistened(listener);
    }

    /// Keeps that an own stream was paused, or is so no longer.
    pub fn paused(&mut self, stream: u64, paused: bool)
        ensures state { self.new.state ≡ seeing (seen_after_pause paused stream) self.old.state }
        ensures faults { self.new.faults ≡ self.old.faults }
    {
        self.state.set_paused(stream, paused);
    }

    /// Keeps that an own stream was finished.
    pub fn finished(&mut self, stream: u64)
        ensures state { self.new.state ≡ seeing (seen_after_finish stream) self.old.state }
        ensures faults { self.new.faults ≡ self.old.faults }
    {
        self.state.finish(stream);
    }
}
