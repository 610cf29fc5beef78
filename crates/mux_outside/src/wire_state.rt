//! What is always known of a wire.
ghost use Rattle.std.specs.Prelude.{◌≡◌, ◌<◌, ◌≤◌, ◌+◌, ◌⊎◌, [], ◌∷◌, ◌++◌, Ok, Err, false, true, IfNone, IfOk, IfSome, OnErr, OnOk};
ghost use Rattle.mux_outside.specs.OwnStreams.{new_stream};
ghost use Rattle.mux_outside.specs.Seen.{moved_by_connect, moved_by_listen, moved_by_turn, seen_after_close, seen_after_finish, seen_after_join, seen_after_pause, seen_after_silence, seen_after_unlisten};
ghost use Rattle.mux_outside.specs.Wire.{IsNewOwn, OwnFits};
ghost use Rattle.mux_outside.specs.WireState.{WireState as TheState, answer_kept, nothing_called, opens_stream, seeing, state_in_write, state_opened, state_waited, state_written, turn_kept};
ghost use Rattle.mux_outside.specs.declared.file_error.FileError.TheVariants.{Failed as FailedFile};
ghost use Rattle.mux_outside.specs.declared.own_streams.TheConstants.{LAST_CLIENT as THE_LAST_CLIENT, LAST_OWN as THE_LAST_OWN};
ghost use Rattle.mux_outside.specs.declared.turn.Turn.TheVariants.{NoMemory};
ghost use Rattle.mux_outside.specs.declared.turn.Wrote.TheVariants.{NoMemory as NoMemoryToWrite};

use crate::call_counts::CallCounts;
use crate::kept_streams::KeptStreams;
use crate::open_streams::OpenStreams;
use crate::own_streams::{LAST_CLIENT, LAST_OWN, OwnStreams};
use crate::streams::Streams;
use crate::turn::{Turn, Wrote};
use ssh_fields::OutOfMemory;
use std::alloc::Global;
use std::marker::Model;

/// What is always known of a wire: its streams, clients and listeners, and how often it was called.
/// It records nothing of the calls themselves.
#[derive(Drop)]
pub struct WireState {
    alloc: Global,
    streams: OpenStreams,
    blocked: Streams,
    listening: bool,
    last: u64,
    listeners: Streams,
    own: OwnStreams,
    last_own: u64,
    calls: CallCounts,
}

impl Model for WireState {
    ghost use Rattle.std.specs.Prelude.{◌≤◌, None};
    ghost use Rattle.mux_outside.specs.Tally.{no_tally};
    ghost use Rattle.mux_outside.specs.WireState.{WireState as TheState};
    ghost use Rattle.mux_outside.specs.declared.own_streams.TheConstants.{LAST_CLIENT};

    ghost Value = { TheState };

    ghost view = { λ s. record {
      seen = record {
        recorded = None;
        streams = s.streams;
        blocked = s.blocked;
        listens = s.listening;
        last = s.last;
        listeners = s.listeners;
        own = s.own;
        last_own = s.last_own;
      };
      openings = None;
      joinings = None;
      calls = s.calls;
      tally = no_tally;
    } };

    ghost invariant = { λ s. LAST_CLIENT ≤ s.last_own };
}

impl WireState {
    /// That of a wire that was never called.
    pub fn new(alloc: Global) -> WireState
        ensures { result ≡ nothing_called }
    {
        WireState {
            alloc,
            streams: OpenStreams::new(Streams::new(alloc)),
            blocked: Streams::new(alloc),
            listening: false,
            last: 0,
            listeners: Streams::new(alloc),
            own: OwnStreams::new(alloc),
            last_own: LAST_CLIENT,
            calls: CallCounts::new(),
        }
    }

    /// The open streams, in the order in which they were opened.
    pub fn streams(&self) -> &Streams
        ensures { result.now ≡ self.now.seen.streams }
    {
        self.streams.streams()
    }

    /// The streams that accept no bytes for now.
    pub fn blocked(&self) -> &Streams
        ensures { result.now ≡ self.now.seen.blocked }
    {
        &self.blocked
    }

    /// Whether clients are accepted.
    pub fn is_listening(&self) -> bool
        ensures { result ≡ self.now.seen.listens }
    {
        self.listening
    }

    /// The last client accepted, 0 before the first. The numbers of the master's own are above
    /// those of all clients.
    pub fn last(&self) -> u64
        ensures value { result ≡ self.now.seen.last }
        ensures own_above { THE_LAST_CLIENT ≤ self.now.seen.last_own }
    {
        self.last
    }

    /// The master's own listeners that are open, in the order in which they were opened.
    pub fn listeners(&self) -> &Streams
        ensures { result.now ≡ self.now.seen.listeners }
    {
        &self.listeners
    }

    /// The master's own streams that are open.
    pub fn own(&self) -> &OwnStreams
        ensures { result.now ≡ self.now.seen.own }
    {
        &self.own
    }

    /// The last number of the master's own listeners and streams.
    pub fn last_own(&self) -> u64
        ensures value { result ≡ self.now.seen.last_own }
        ensures least { THE_LAST_CLIENT ≤ result }
    {
        self.last_own
    }

    /// The number of the client that may come now, if clients are accepted and one is left.
    pub fn next_client(&self) -> Option<u64>
        ensures next { IfSome result (λ k. (self.now.seen.listens ≡ true)
            × (k ≡ self.now.seen.last + 1) × (self.now.seen.last < THE_LAST_CLIENT)) }
        ensures none { IfNone result ((self.now.seen.listens ≡ false)
            ⊎ (THE_LAST_CLIENT ≤ self.now.seen.last)) }
    {
        if self.listening && self.last < LAST_CLIENT {
            Some(self.last + 1)
        } else {
            None
        }
    }

    /// The number of the next listener or stream of the master's own, if one is left.
    pub fn next_own(&self) -> Option<u64>
        ensures next { IfSome result (λ n. IsNewOwn self.now.seen.last_own n) }
        ensures left { IfSome result (λ _. self.now.seen.last_own < THE_LAST_OWN) }
        ensures none { IfNone result (THE_LAST_OWN ≤ self.now.seen.last_own) }
    {
        if self.last_own < LAST_OWN {
            Some(self.last_own + 1)
        } else {
            None
        }
    }

    /// The open streams for a mark, which shares them with the marks before where none was opened
    /// or closed since.
    pub fn keep(&mut self) -> Result<KeptStreams, OutOfMemory>
        ensures kept { IfOk result (λ kept. kept ≡ self.old.seen.streams) }
        ensures same { self.new ≡ self.old }
    {
        self.streams.keep(self.alloc)
    }
}

// ---- open and join

impl WireState {
    /// A call of `open` succeeded: from now on the server's stream alone is open.
    pub fn opened(&mut self, server: Streams)
        requires { server ≡ 0 ∷ [] }
        ensures { self.new ≡ state_opened (Ok tt) self.old }
    {
        self.begin(server, true);
        self.calls.opened();
    }

    /// A call of `open` failed.
    pub fn not_opened(&mut self)
        ensures { self.new ≡ state_opened (Err FailedFile) self.old }
    {
        self.calls.opened();
    }

    /// A call of `join` succeeded: from now on the server's stream alone is open.
    pub fn joined(&mut self, server: Streams)
        requires { server ≡ 0 ∷ [] }
        ensures { self.new ≡ seeing (seen_after_join (Ok tt)) self.old }
    {
        self.begin(server, false);
    }

    // From now on these streams alone are open, none of them the master's own.
    fn begin(&mut self, streams: Streams, listening: bool)
        ensures { self.new ≡ seeing (λ seen. record seen {
          streams = streams;
          blocked = [];
          listens = listening;
          listeners = [];
          own = [];
        }) self.old }
    {
        self.streams = OpenStreams::new(streams);
        self.blocked = Streams::new(self.alloc);
        self.listening = listening;
        self.listeners = Streams::new(self.alloc);
        self.own = OwnStreams::new(self.alloc);
    }
}

// ---- wait

impl WireState {
    /// A call of `wait` gives this turn. Where there is no memory for it, the call is counted as
    /// one that found none.
    pub fn waited(&mut self, turn: Turn) -> Result<(), OutOfMemory>
        requires { OwnFits turn self.old.seen }
        ensures state { self.new ≡ state_waited (turn_kept result turn) self.old }
        ensures room { OnErr result (opens_stream turn ≡ true) }
    {
        if self.moved(turn).is_err() {
            self.starved();
            return Err(OutOfMemory);
        }
        self.calls.waited(turn);
        Ok(())
    }

    /// A call of `wait` found no memory.
    pub fn starved(&mut self)
        ensures { self.new ≡ state_waited NoMemory self.old }
    {
        self.calls.waited(Turn::NoMemory);
    }

    // The streams and clients after a turn. An `Err` changes nothing.
    fn moved(&mut self, turn: Turn) -> Result<(), OutOfMemory>
        requires { OwnFits turn self.old.seen }
        ensures ok { OnOk result (self.new ≡ seeing (moved_by_turn turn) self.old) }
        ensures err { OnErr result (self.new ≡ self.old) }
        ensures room { OnErr result (opens_stream turn ≡ true) }
    {
        match turn {
            Turn::Accepted(client) => {
                self.streams.push(client)?;
                self.last = client;
            }
            Turn::End(stream) => self.own.end(stream),
            Turn::Writable(stream) => self.blocked.remove(stream),
            Turn::Joined(_, stream) => self.push_own(stream)?,
            Turn::Got(_) | Turn::Failed(_) | Turn::NoMemory => {}
        }
        Ok(())
    }

    // A stream of the master's own is open. An `Err` changes nothing.
    fn push_own(&mut self, number: u64) -> Result<(), OutOfMemory>
        requires { IsNewOwn self.old.seen.last_own number }
        ensures ok { OnOk result (self.new ≡ seeing (λ seen. record seen {
          streams = seen.streams ++ number ∷ [];
          own = seen.own ++ new_stream number ∷ [];
          last_own = number;
        }) self.old) }
        ensures err { OnErr result (self.new ≡ self.old) }
    {
        self.own.push(number)?;
        if self.streams.push(number).is_err() {
            self.own.pop();
            return Err(OutOfMemory);
        }
        self.last_own = number;
        Ok(())
    }
}

// ---- write

impl WireState {
    /// A call of `write` has this answer. Where there is no memory for it, the call is counted as
    /// one that found none.
    pub fn wrote(&mut self, wrote: Wrote, stream: u64) -> Result<(), OutOfMemory>
        ensures { self.new ≡ state_written (answer_kept result wrote) stream self.old }
    {
        if wrote == Wrote::Later && self.blocked.push(stream).is_err() {
            self.starved_write(stream);
            return Err(OutOfMemory);
        }
        self.calls.wrote(wrote);
        Ok(())
    }

    /// Keeps room for a stream that may block at a write, which can't be taken back. Where there
    /// is none, the call is counted as one that found no memory.
    pub fn hold(&mut self, stream: u64) -> Result<(), OutOfMemory>
        ensures ok { OnOk result (self.new ≡ state_in_write stream self.old) }
        ensures err { OnErr result (self.new ≡ state_written NoMemoryToWrite stream self.old) }
    {
        if self.blocked.push(stream).is_err() {
            self.starved_write(stream);
            return Err(OutOfMemory);
        }
        Ok(())
    }

    /// A write for which there is room has this answer.
    pub fn held(&mut self, wrote: Wrote, stream: u64)
        ensures { (before : TheState) → self.old ≡ state_in_write stream before
            → self.new ≡ state_written wrote stream before }
    {
        if wrote != Wrote::Later {
            let _ = self.blocked.pop();
        }
        self.calls.wrote(wrote);
    }

    /// A call of `write` found no memory.
    pub fn starved_write(&mut self, stream: u64)
        ensures { self.new ≡ state_written NoMemoryToWrite stream self.old }
    {
        self.calls.wrote(Wrote::NoMemory);
    }
}

// ---- the other calls

impl WireState {
    /// No more clients are accepted.
    pub fn stop_listening(&mut self)
        ensures { self.new ≡ seeing seen_after_silence self.old }
    {
        self.listening = false;
    }

    /// A stream is closed.
    pub fn close(&mut self, stream: u64)
        ensures { self.new ≡ seeing (seen_after_close stream) self.old }
    {
        self.streams.remove(stream);
        self.blocked.remove(stream);
        self.own.remove(stream);
    }

    /// A listener is opened with this number. An `Err` changes nothing.
    pub fn listened(&mut self, number: u64) -> Result<(), OutOfMemory>
        requires { IsNewOwn self.old.seen.last_own number }
        ensures ok { OnOk result (self.new ≡ seeing (moved_by_listen (Ok number)) self.old) }
        ensures err { OnErr result (self.new ≡ self.old) }
    {
        self.listeners.push(number)?;
        self.last_own = number;
        Ok(())
    }

    /// A stream is made with this number, and isn't connected yet. An `Err` changes nothing.
    pub fn connected(&mut self, number: u64) -> Result<(), OutOfMemory>
        requires { IsNewOwn self.old.seen.last_own number }
        ensures ok { OnOk result (self.new ≡ seeing (moved_by_connect (Ok number)) self.old) }
        ensures err { OnErr result (self.new ≡ self.old) }
    {
        self.blocked.push(number)?;
        if self.push_own(number).is_err() {
            let _ = self.blocked.pop();
            return Err(OutOfMemory);
        }
        Ok(())
    }

    /// A listener is closed.
    pub fn unlistened(&mut self, listener: u64)
        ensures { self.new ≡ seeing (seen_after_unlisten listener) self.old }
    {
        self.listeners.remove(listener);
    }

    /// A stream of the master's own is paused from now on, or is so no longer.
    pub fn set_paused(&mut self, stream: u64, paused: bool)
        ensures { self.new ≡ seeing (seen_after_pause paused stream) self.old }
    {
        self.own.set_paused(stream, paused);
    }

    /// A stream of the master's own accepts no more bytes.
    pub fn finish(&mut self, stream: u64)
        ensures { self.new ≡ seeing (seen_after_finish stream) self.old }
    {
        self.own.finish(stream);
    }
}
