ghost use Rattle.std.specs.Prelude.{◌≡◌, false, true, length};
ghost use Rattle.mux_outside.specs.declared.house_mark.HouseMark.TheVariants.{HouseSaid};
ghost use Rattle.mux_outside.specs.declared.turn.Turn.TheVariants.{NoMemory};
ghost use Rattle.mux_outside.specs.declared.turn.Wrote.TheVariants.{NoMemory as NoMemoryToWrite};
ghost use Rattle.mux_outside.specs.Faults.{Faults as TheFaults};
ghost use Rattle.mux_outside.specs.Seen.{seen_after_close, seen_after_connect, seen_after_finish, seen_after_listen, seen_after_note, seen_after_pause, seen_after_silence, seen_after_unlisten};
ghost use Rattle.mux_outside.specs.Wire.{JoinFaults, MakeFaults, MayNote, MayWait, MayWrite, NumberFits, OpenFaults, OwnFits, TurnFaults, TurnFits, WroteFaults, WroteFits};
ghost use Rattle.mux_outside.specs.WireState.{WireState as TheState, seeing, state_after_join, state_after_open, state_after_wait, state_after_write};

use crate::file_error::FileError;
use crate::house_mark::HouseMark;
use crate::piece::Piece;
use crate::streams::Streams;
use crate::turn::{Tally, Turn, Want, Wrote};
use ssh_fields::OutOfMemory;

/// The streams of a run: the server's, which is stream 0; those of the clients, which are numbered
/// from 1 in the order in which they are accepted; and the master's own, which are numbered
/// together with its listeners from 2^63 on.
pub trait Wire {
    /// What is always known of it: what is seen, and how often it was called.
    ghost state: { Self → TheState };

    /// How often something failed.
    ghost faults: { Self → TheFaults };

    /// Listens at the path of the control socket, and connects stream 0 to the transport.
    fn open(&mut self, control: &[u8], transport: &[u8]) -> Result<(), FileError>
        ensures state { state self.new ≡ state_after_open result control.now transport.now
            (state self.new).tally (state self.old) }
        ensures cause { OpenFaults result (faults self.old) (faults self.new) };

    /// Connects stream 0 to the control socket of another master. Whatever stood before, it alone
    /// is open then, with no listener, no stream is blocked, and no client is accepted.
    fn join(&mut self, control: &[u8]) -> Result<(), FileError>
        ensures state { state self.new ≡ state_after_join result control.now (state self.old) }
        ensures cause { JoinFaults result (faults self.old) (faults self.new) };

    /// Waits for what happens next: of all streams with `Want::Read`, of the waiting ones alone
    /// with `Want::WriteOnly`, which reads and accepts nothing.
    fn wait(&mut self, waiting: &Streams, want: Want, into: &mut Piece) -> Turn
        requires may { MayWait waiting.now want (state self.old).seen }
        ensures turn { TurnFits result want (state self.old).seen into.new }
        ensures own_turn { OwnFits result (state self.old).seen }
        ensures state { state self.new ≡ state_after_wait result waiting.now want into.new
            (state self.new).tally (state self.old) }
        ensures cause { TurnFaults result (faults self.old) (faults self.new) }
        ensures err { result ≡ NoMemory → (state self.new).tally ≡ (state self.old).tally }
        ensures kept { result ≡ NoMemory → into.new ≡ into.old };

    /// Hands bytes to a stream, which accepts one of them at least, or none for now.
    fn write(&mut self, stream: u64, bytes: &[u8]) -> Wrote
        requires may { MayWrite stream bytes.now (state self.old).seen }
        ensures wrote { WroteFits result (length bytes.now) }
        ensures state { state self.new ≡ state_after_write result stream bytes.now
            (state self.new).tally (state self.old) }
        ensures cause { WroteFaults result stream (faults self.old) (faults self.new) }
        ensures err { result ≡ NoMemoryToWrite
            → (state self.new).tally ≡ (state self.old).tally };

    /// Accepts no more clients.
    fn stop_listening(&mut self)
        ensures state { state self.new ≡ seeing seen_after_silence (state self.old) }
        ensures faults { faults self.new ≡ faults self.old };

    /// Closes a stream.
    fn close(&mut self, stream: u64)
        ensures state { state self.new ≡ seeing (seen_after_close stream) (state self.old) }
        ensures faults { faults self.new ≡ faults self.old };

    /// Adds a mark of a forwarder to those that are recorded. What is made by an order is recorded
    /// by `listen` and `connect`.
    fn note(&mut self, m: &HouseMark) -> Result<(), OutOfMemory>
        requires may { MayNote m.now }
        ensures state { state self.new ≡ seeing (seen_after_note result m.now) (state self.old) }
        ensures faults { faults self.new ≡ faults self.old };

    /// Adds the mark that a forwarder sent these bytes, as `note` of it does. A wire that records no
    /// marks copies none of them.
    fn note_said(&mut self, piece: &[u8]) -> Result<(), OutOfMemory>
        ensures state { state self.new
            ≡ seeing (seen_after_note result (HouseSaid piece.now)) (state self.old) }
        ensures faults { faults self.new ≡ faults self.old };

    /// Opens a listener of the master's own there, and records the mark of that order.
    fn listen(&mut self, host: &[u8], port: u32) -> Result<u64, FileError>
        ensures fits { NumberFits result (state self.old).seen.last_own }
        ensures state { state self.new
            ≡ seeing (seen_after_listen result host.now port) (state self.old) }
        ensures cause { MakeFaults result (faults self.old) (faults self.new) };

    /// Makes a stream of the master's own that connects there, and records the mark of that order.
    /// The stream is blocked until it is connected.
    fn connect(&mut self, host: &[u8], port: u32) -> Result<u64, FileError>
        ensures fits { NumberFits result (state self.old).seen.last_own }
        ensures state { state self.new
            ≡ seeing (seen_after_connect result host.now port) (state self.old) }
        ensures cause { MakeFaults result (faults self.old) (faults self.new) };

    /// Closes a listener of the master's own.
    fn unlisten(&mut self, listener: u64)
        ensures state { state self.new ≡ seeing (seen_after_unlisten listener) (state self.old) }
        ensures faults { faults self.new ≡ faults self.old };

    /// One of the master's own streams gives nothing for now.
    fn pause(&mut self, stream: u64)
        ensures state { state self.new ≡ seeing (seen_after_pause true stream) (state self.old) }
        ensures faults { faults self.new ≡ faults self.old };

    /// One of the master's own streams gives again what comes.
    fn resume(&mut self, stream: u64)
        ensures state { state self.new ≡ seeing (seen_after_pause false stream) (state self.old) }
        ensures faults { faults self.new ≡ faults self.old };

    /// One of the master's own streams accepts no more bytes.
    fn finish(&mut self, stream: u64)
        ensures state { state self.new ≡ seeing (seen_after_finish stream) (state self.old) }
        ensures faults { faults self.new ≡ faults self.old };

    /// What was counted so far.
    fn tally(&self) -> Tally
        ensures { result ≡ (state self.now).tally };
}
