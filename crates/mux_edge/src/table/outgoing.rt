//! What was accepted for the server's stream: when its socket is given it, and the outcome of its
//! failure.
ghost use Rattle.std.specs.Prelude.{◌≡◌, ◌≢◌, [], length, false, true};
ghost use Rattle.mux_outside.specs.declared.turn.Want.TheVariants.{Read, WriteOnly};
ghost use Rattle.mux_edge.specs.Entries.{HasEntry, IsBlocked, IsConnected, IsOpen, StopsShort};
ghost use Rattle.std.specs.Io.KnownBytes.{Keeps};
ghost use Rattle.mux_edge.specs.Recorded.{LosesNone, SocketsStay, accepted, recorded_at};
ghost use Rattle.mux_edge.specs.StreamTable.{IsHandedOn, StreamMayRead, Touches};

use super::StreamTable;
use crate::socket::{TcpSocket, UnixSocket};
use mux_exchange::OutboxProgress;
use mux_outside::Want;

impl<U: UnixSocket, T: TcpSocket> StreamTable<U, T> {
    // Gives the server's socket what was accepted for it, as far as it accepts that now.
    pub(super) fn hand_on(&mut self)
        ensures handed { IsHandedOn self.new }
        ensures bytes { LosesNone U.remaining T.remaining U.contents T.contents self.old self.new }
        ensures rest { Touches 0 self.old self.new }
    {
        if self.full || self.outbox.is_empty() {
            return;
        }
        let given = self.give();
        self.note_given(given);
    }

    // Gives the server's socket what it accepts of the outbox.
    fn give(&mut self) -> OutboxProgress
        ensures all { result ≡ OutboxProgress.All → self.new.outbox ≡ [] }
        ensures connected { IsConnected 0 self.old.entries → IsConnected 0 self.new.entries }
        ensures unread { recorded_at U.remaining T.remaining 0 self.new.entries
            ≡ recorded_at U.remaining T.remaining 0 self.old.entries }
        ensures given { Keeps
            (accepted 0 (recorded_at U.contents T.contents 0 self.old.entries) self.old.outbox)
            (accepted 0 (recorded_at U.contents T.contents 0 self.new.entries) self.new.outbox) }
        ensures rest { Touches 0 self.old self.new }
    {
        match self.entries.get_mut(&0) {
            Some(entry) => self.outbox.give(&mut entry.stream),
            None => OutboxProgress::Waits,
        }
    }

    // Notes how far the server's socket accepted what it was given.
    fn note_given(&mut self, given: OutboxProgress)
        ensures all { given ≡ OutboxProgress.All → self.new ≡ self.old }
        ensures waits { given ≡ OutboxProgress.Waits → self.new ≡ record self.old { full = true } }
        ensures failed { given ≡ OutboxProgress.Failed → IsOpen 0 self.old.entries
            → self.new.broken ≡ true }
        ensures full { given ≢ OutboxProgress.All → self.new.full ≡ true }
        ensures sockets { SocketsStay self.old.entries self.new.entries }
        ensures outbox { self.new.outbox ≡ self.old.outbox }
        ensures rest { Touches 0 self.old self.new }
    {
        match given {
            OutboxProgress::All => {}
            OutboxProgress::Waits => self.full = true,
            OutboxProgress::Failed => self.break_off(),
        }
    }

    // The server's socket failed at a write: it is given no more, and what the server still sent
    // is read before the failure is reported. After its end there is nothing to read.
    pub(super) fn break_off(&mut self)
        ensures broken { IsOpen 0 self.old.entries → self.new.broken ≡ true }
        ensures short { IsOpen 0 self.old.entries → StopsShort 0 self.new.entries }
        ensures noted { IsOpen 0 self.old.entries → StreamMayRead 0 self.old self.new }
        ensures full { self.new.full ≡ true }
        ensures blocked { IsBlocked 0 self.old.entries → IsBlocked 0 self.new.entries }
        ensures sockets { SocketsStay self.old.entries self.new.entries }
        ensures outbox { self.new.outbox ≡ self.old.outbox }
        ensures rest { Touches 0 self.old self.new }
    {
        self.full = true;
        let Some(entry) = self.entries.get_mut(&0) else {
            return;
        };
        if entry.ended {
            return;
        }
        self.broken = true;
        entry.stops_short = true;
        let _ = self.ready.note_read(0, entry);
    }

    /// Whether the server's stream fails at once: a write to it failed, and only writes are wanted,
    /// so that its last words aren't read.
    pub fn fails_at_once(&mut self, want: Want) -> bool
        ensures at_once { want ≡ WriteOnly → result ≡ self.old.broken }
        ensures told { result ≡ true → self.new.broken ≡ false }
        ensures reads { want ≡ Read → result ≡ false }
        ensures goes_on { result ≡ false → self.new ≡ self.old }
        ensures sockets { SocketsStay self.old.entries self.new.entries }
        ensures outbox { self.new.outbox ≡ self.old.outbox }
        ensures rest { Touches 0 self.old self.new }
    {
        if want == Want::Read || !self.broken {
            return false;
        }
        self.broken = false;
        if let Some(entry) = self.entries.get_mut(&0) {
            entry.ended = true;
        }
        true
    }

    // Gives a stream that is dropped next what its socket accepts of the outbox, if it is for it.
    pub(super) fn give_last(&mut self, number: u64)
        ensures empty { number ≡ 0 → HasEntry number self.old.entries
            → length self.new.outbox ≡ 0 }
        ensures apart { number ≢ 0 → self.new ≡ self.old }
        ensures rest { Touches number self.old self.new }
    {
        if number != 0 {
            return;
        }
        if let Some(entry) = self.entries.get_mut(&number) {
            let _ = self.outbox.end(&mut entry.stream);
        }
    }
}
