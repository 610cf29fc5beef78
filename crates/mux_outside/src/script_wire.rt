ghost use Rattle.std.specs.Prelude.{◌≡◌, ◌≢◌, ◌≤◌, ◌++◌, ℕ, List, true, false, Some, IfSome, length, unwrap_or};
ghost use Rattle.mux_outside.specs.Script.{given_bytes_in};
ghost use Rattle.mux_outside.specs.ScriptWire.{FollowsEntry, GivesAt, GivesNext, KeepsOpens, KeepsSteps, KeepsWrites, MakesByNumber, OpensByNumber, SameScript, Starts};
ghost use Rattle.mux_outside.specs.Seen.{seen_after_close, seen_after_connect, seen_after_finish, seen_after_listen, seen_after_note, seen_after_pause, seen_after_silence, seen_after_unlisten};
ghost use Rattle.mux_outside.specs.Tally.{no_tally};
ghost use Rattle.mux_outside.specs.Wire.{JoinFaults, MakeFaults, MayWait, MayWrite, NumberFits, OpenFaults, OwnFits, TurnFaults, TurnFits, WroteFaults, WroteFits};
ghost use Rattle.mux_outside.specs.WireState.{seeing, state_after_join, state_after_open, state_after_wait, state_after_write};
ghost use Rattle.mux_outside.specs.declared.house_mark.HouseMark.TheVariants.{HouseSaid};
ghost use Rattle.mux_outside.specs.declared.turn.Turn.TheVariants.{NoMemory};
ghost use Rattle.mux_outside.specs.declared.turn.Wrote.TheVariants.{NoMemory as NoMemoryToWrite};

use crate::calls::Calls;
use crate::counts::counted;
use crate::file_error::FileError;
use crate::house_mark::HouseMark;
use crate::piece::{LONGEST_PIECE, Piece};
use crate::plan::{Given, Place, answer_at, find, give};
use crate::script::{Step, Steps, Writes};
use crate::streams::Streams;
use crate::turn::{Tally, Turn, Want, Wrote};
use crate::wire::Wire;
use crate::wire_log::WireLog;
use ssh_fields::OutOfMemory;
use std::alloc::Global;

/// A wire in memory, which gives the turns of its steps, answers writes by its entries, and records
/// everything. After the last step the server ends; after the last entry all bytes are accepted.
#[derive(Drop)]
pub struct ScriptWire {
    steps: Steps,
    // the next step
    place: Place,
    writes: Writes,
    // how many writes were answered
    written: usize,
    fails: Calls,
    // how many calls of `open`, `join`, `listen` and `connect` were counted
    opens: u64,
    log: WireLog,
}

impl ScriptWire {
    /// A wire that isn't open. The calls of `open`, `join`, `listen` and `connect`, counted
    /// together, fail that have one of the given numbers.
    pub fn new(alloc: Global, steps: Steps, writes: Writes, fails: Calls) -> ScriptWire
        ensures starts { Starts result steps writes fails }
    {
        ScriptWire {
            steps,
            place: Place { step: 0, offset: 0 },
            writes,
            written: 0,
            fails,
            opens: 0,
            log: WireLog::new(alloc),
        }
    }

    /// What it keeps of its calls.
    pub fn log(&self) -> &WireLog
        ensures { result.now ≡ self.now.log }
    {
        &self.log
    }
}

// The turn of a wait, the bytes that it gives, if any, and the place in the script after it.
fn given<'a>(
    steps: &'a [Step],
    place: Place,
    log: &WireLog,
    waiting: &Streams,
    want: Want,
) -> Given<'a>
    requires may { MayWait waiting.now want log.now.state.seen }
    ensures turn { (piece : List ℕ) → TurnFits result.turn want log.now.state.seen
        (unwrap_or (given_bytes_in result) piece) }
    ensures own_turn { OwnFits result.turn log.now.state.seen }
    ensures short { IfSome (given_bytes_in result) (λ bytes. length bytes ≤ LONGEST_PIECE) }
    ensures script { (piece : List ℕ) → GivesAt want waiting.now log.now.state.seen steps.now
        place result.place result.turn piece (unwrap_or (given_bytes_in result) piece) }
{
    match want {
        Want::Read => {
            let place = find(steps, place, log.state());
            give(steps, place, log.last())
        }
        Want::WriteOnly => Given {
            turn: Turn::Writable(waiting.as_slice()[0]),
            bytes: None,
            place,
        },
    }
}

impl Wire for ScriptWire {
    ghost state = { λ w. record w.log.state { tally = no_tally } };

    ghost faults = { λ w. w.log.faults };

    fn open(&mut self, control: &[u8], transport: &[u8]) -> Result<(), FileError>
        ensures state { self.new.log.state ≡ state_after_open result control.now transport.now
            self.old.log.state.tally self.old.log.state }
        ensures cause { OpenFaults result self.old.log.faults self.new.log.faults }
        ensures exact { OpensByNumber result self.old self.new }
        ensures script { KeepsSteps self.old self.new × KeepsWrites self.old self.new }
    {
        let opens = counted(self.opens);
        let answer = self
            .log
            .opened(control, transport, !self.fails.contains(opens));
        if answer != Err(FileError::OutOfMemory) {
            self.opens = opens;
        }
        answer
    }

    fn join(&mut self, control: &[u8]) -> Result<(), FileError>
        ensures state { self.new.log.state
            ≡ state_after_join result control.now self.old.log.state }
        ensures cause { JoinFaults result self.old.log.faults self.new.log.faults }
        ensures exact { OpensByNumber result self.old self.new }
        ensures script { KeepsSteps self.old self.new × KeepsWrites self.old self.new }
    {
        let opens = counted(self.opens);
        let answer = self.log.joined(control, !self.fails.contains(opens));
        if answer != Err(FileError::OutOfMemory) {
            self.opens = opens;
        }
        answer
    }

    fn wait(&mut self, waiting: &Streams, want: Want, into: &mut Piece) -> Turn
        requires may { MayWait waiting.now want self.old.log.state.seen }
        ensures turn { TurnFits result want self.old.log.state.seen into.new }
        ensures own_turn { OwnFits result self.old.log.state.seen }
        ensures state { self.new.log.state ≡ state_after_wait result waiting.now want into.new
            self.old.log.state.tally self.old.log.state }
        ensures cause { TurnFaults result self.old.log.faults self.new.log.faults }
        ensures script { result ≢ NoMemory
            → GivesNext want waiting.now self.old self.new result into.old into.new }
        ensures err { result ≡ NoMemory → KeepsSteps self.old self.new }
        ensures kept { result ≡ NoMemory → into.new ≡ into.old }
        ensures others { KeepsWrites self.old self.new × KeepsOpens self.old self.new }
    {
        let steps = self.steps.as_slice();
        let given = given(steps, self.place, &self.log, waiting, want);
        let bytes = into.filled(given.bytes);
        if self.log.waited(given.turn, waiting, want, bytes).is_err() {
            return Turn::NoMemory;
        }
        into.fill(given.bytes);
        self.place = given.place;
        given.turn
    }

    fn write(&mut self, stream: u64, bytes: &[u8]) -> Wrote
        requires may { MayWrite stream bytes.now self.old.log.state.seen }
        ensures wrote { WroteFits result (length bytes.now) }
        ensures state { self.new.log.state ≡ state_after_write result stream bytes.now
            self.old.log.state.tally self.old.log.state }
        ensures cause { WroteFaults result stream self.old.log.faults self.new.log.faults }
        ensures script { result ≢ NoMemoryToWrite
            → FollowsEntry (length bytes.now) self.old self.new result }
        ensures err { result ≡ NoMemoryToWrite → KeepsWrites self.old self.new }
        ensures others { KeepsSteps self.old self.new × KeepsOpens self.old self.new }
    {
        let wrote = answer_at(self.writes.as_slice(), self.written, bytes.len());
        if self.log.wrote(wrote, stream, bytes).is_err() {
            return Wrote::NoMemory;
        }
        self.written = self.written.saturating_add(1);
        wrote
    }

    fn stop_listening(&mut self)
        ensures state { self.new.log.state ≡ seeing seen_after_silence self.old.log.state }
        ensures faults { self.new.log.faults ≡ self.old.log.faults }
        ensures same { SameScript self.old self.new }
    {
        self.log.stop_listening();
    }

    fn close(&mut self, stream: u64)
        ensures state { self.new.log.state
            ≡ seeing (seen_after_close stream) self.old.log.state }
        ensures faults { self.new.log.faults ≡ self.old.log.faults }
        ensures same { SameScript self.old self.new }
    {
        self.log.close(stream);
    }

    fn note(&mut self, m: &HouseMark) -> Result<(), OutOfMemory>
        ensures state { self.new.log.state
            ≡ seeing (seen_after_note result m.now) self.old.log.state }
        ensures faults { self.new.log.faults ≡ self.old.log.faults }
        ensures same { SameScript self.old self.new }
    {
        self.log.noted(m)
    }

    fn note_said(&mut self, piece: &[u8]) -> Result<(), OutOfMemory>
        ensures state { self.new.log.state
            ≡ seeing (seen_after_note result (HouseSaid piece.now)) self.old.log.state }
        ensures faults { self.new.log.faults ≡ self.old.log.faults }
        ensures same { SameScript self.old self.new }
    {
        self.log.noted_said(piece)
    }

    fn listen(&mut self, host: &[u8], port: u32) -> Result<u64, FileError>
        ensures fits { NumberFits result self.old.log.state.seen.last_own }
        ensures state { self.new.log.state
            ≡ seeing (seen_after_listen result host.now port) self.old.log.state }
        ensures cause { MakeFaults result self.old.log.faults self.new.log.faults }
        ensures exact { MakesByNumber result self.old self.new }
        ensures script { KeepsSteps self.old self.new × KeepsWrites self.old self.new }
    {
        let opens = counted(self.opens);
        let answer = self.log.listened(host, port, self.fails.contains(opens));
        if answer != Err(FileError::OutOfMemory) {
            self.opens = opens;
        }
        answer
    }

    fn connect(&mut self, host: &[u8], port: u32) -> Result<u64, FileError>
        ensures fits { NumberFits result self.old.log.state.seen.last_own }
        ensures state { self.new.log.state
            ≡ seeing (seen_after_connect result host.now port) self.old.log.state }
        ensures cause { MakeFaults result self.old.log.faults self.new.log.faults }
        ensures exact { MakesByNumber result self.old self.new }
        ensures script { KeepsSteps self.old self.new × KeepsWrites self.old self.new }
    {
        let opens = counted(self.opens);
        let answer = self.log.connected(host, port, self.fails.contains(opens));
        if answer != Err(FileError::OutOfMemory) {
            self.opens = opens;
        }
        answer
    }

    fn unlisten(&mut self, listener: u64)
        ensures state { self.new.log.state
            ≡ seeing (seen_after_unlisten listener) self.old.log.state }
        ensures faults { self.new.log.faults ≡ self.old.log.faults }
        ensures same { SameScript self.old self.new }
    {
        self.log.unlistened(listener);
    }

    fn pause(&mut self, stream: u64)
        ensures state { self.new.log.state
            ≡ seeing (seen_after_pause true stream) self.old.log.state }
        ensures faults { self.new.log.faults ≡ self.old.log.faults }
        ensures same { SameScript self.old self.new }
    {
        self.log.paused(stream, true);
    }

    fn resume(&mut self, stream: u64)
        ensures state { self.new.log.state
            ≡ seeing (seen_after_pause false stream) self.old.log.state }
        ensures faults { self.new.log.faults ≡ self.old.log.faults }
        ensures same { SameScript self.old self.new }
    {
        self.log.paused(stream, false);
    }

    fn finish(&mut self, stream: u64)
        ensures state { self.new.log.state
            ≡ seeing (seen_after_finish stream) self.old.log.state }
        ensures faults { self.new.log.faults ≡ self.old.log.faults }
        ensures same { SameScript self.old self.new }
    {
        self.log.finished(stream);
    }

    fn tally(&self) -> Tally {
        Tally::zero()
    }
}
