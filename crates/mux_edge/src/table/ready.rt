//! What is ready, in the order in which it became so.
ghost use Rattle.std.specs.Prelude.{◌≡◌, ◌≤◌, ◌+◌, ◌-◌, ◌*◌, ◌^◌, ◌||◌, not, ◌++◌, ◌∷◌, [], false, true, filter, min, IfSome, IsNone, IsSomeAnd, Some, OnErr, OnOk, slice_get};
ghost use Rattle.std.specs.VecDeque.{deque_capacity, deque_len};
ghost use Rattle.mux_edge.specs.Ready.{IsReadyFull, IsLookedFor, is_ready_accept, is_join, is_ready_of, is_round_over};

use crate::socket::{TcpSocket, UnixSocket};
use crate::stream::Stream;
use mio::net::TcpListener;
use mux_outside::{Turn, Want, is_own};
use std::alloc::{AllocError, Global};
use std::collections::VecDeque;
use std::io;

/// A stream with what is known of it.
#[derive(Drop)]
pub struct StreamEntry<U: UnixSocket, T: TcpSocket> {
    pub stream: Stream<U, T>,
    /// a read may stop short of what is there
    pub stops_short: bool,
    /// descriptors may be passed beside its bytes, at which a read stops short
    pub passes: bool,
    /// its last read may have stopped at descriptors
    pub doubted: bool,
    /// nothing more is read
    pub ended: bool,
    /// a write would wait, as far as is known
    pub blocked: bool,
    /// it is among those to be read
    pub reads: bool,
    /// it is among those that can be written to
    pub writes: bool,
    /// its connection isn't made yet
    pub connecting: bool,
    /// nothing is read for now
    pub paused: bool,
    /// it may be read once it gives something again
    pub held: bool,
    /// nothing more is written
    pub finished: bool,
}

/// A listener of the master's own.
#[derive(Drop)]
pub struct OwnListener {
    pub listener: TcpListener,
    /// it is among those at which a socket may wait
    pub joins: bool,
}

#[derive(Clone, Copy, PartialEq, Eq)]
pub enum Ready {
    Accept,
    Join(u64),
    Read(u64),
    Write(u64),
    Connect(u64),
}

/// What is ready, each once, so at most twice as many as there are streams and listeners, and one.
/// A round goes over it twice: the second read of a stream mostly shows that nothing is left.
#[derive(Drop)]
pub struct ReadyQueue {
    items: VecDeque<Ready>,
    accepts: bool,
    // how many at the front were there when the round last began to go over it
    front: usize,
    // the round goes over it once more
    again: bool,
}

impl<U: UnixSocket, T: TcpSocket> StreamEntry<U, T> {
    ghost use Rattle.std.specs.Prelude.{if◌then◌else◌};
    ghost use Rattle.mux_edge.specs.Connections.{met_turn};
    ghost use Rattle.mux_edge.specs.Recorded.{ended_once, of_socket};
    ghost use Rattle.mux_edge.specs.Entries.{gives_nothing};

    /// A stream, whose connection is made or is being made.
    pub fn new(stream: Stream<U, T>, passes: bool, connecting: bool) -> StreamEntry<U, T>
        ensures stream { result.stream ≡ stream }
        ensures passes { result.passes ≡ passes }
        ensures connecting { result.connecting ≡ connecting }
        ensures blocked { result.blocked ≡ connecting }
    {
        StreamEntry {
            stream,
            stops_short: false,
            passes,
            doubted: false,
            ended: false,
            blocked: connecting,
            reads: false,
            writes: false,
            connecting,
            paused: false,
            held: false,
            finished: false,
        }
    }

    /// Whether it gives nothing for now, or nothing more.
    pub fn is_silent(&self) -> bool
        ensures { result ≡ gives_nothing self.now }
    {
        self.paused || (self.connecting || self.ended)
    }

    /// Sends the end to the other side, as soon as its connection is made.
    pub fn finish(&mut self)
        ensures rest { self.new
            ≡ record self.old { finished = true; stream = self.new.stream } }
        ensures ended { of_socket U.ended T.ended self.new.stream
            ≡ (if self.old.connecting then of_socket U.ended T.ended self.old.stream
            else ended_once (of_socket U.ended T.ended self.old.stream)) }
        ensures unread { of_socket U.remaining T.remaining self.new.stream
            ≡ of_socket U.remaining T.remaining self.old.stream }
        ensures unwritten { of_socket U.contents T.contents self.new.stream
            ≡ of_socket U.contents T.contents self.old.stream }
    {
        self.finished = true;
        if !self.connecting {
            self.stream.finish();
        }
    }

    /// Goes on by what a look at its connection showed: it is made, or not yet, or it failed.
    pub fn meet(&mut self, number: u64, made: &io::Result<bool>) -> Option<Turn>
        ensures turn { result ≡ met_turn made.now number }
        ensures writable { result ≡ Some (Turn.Writable number)
            → self.new ≡ record self.old {
              connecting = false;
              blocked = false;
              stream = self.new.stream;
            } }
        ensures failed { result ≡ Some (Turn.Failed number)
            → self.new ≡ record self.old { ended = true } }
        ensures not_yet { IsNone result → self.new ≡ self.old }
    {
        match made {
            Ok(true) => {
                self.made();
                Some(Turn::Writable(number))
            }
            Ok(false) => None,
            Err(_) => {
                self.ended = true;
                Some(Turn::Failed(number))
            }
        }
    }

    // Its connection is made.
    fn made(&mut self)
        ensures rest { self.new ≡ record self.old {
          connecting = false;
          blocked = false;
          stream = self.new.stream;
        } }
        ensures ended { of_socket U.ended T.ended self.new.stream
            ≡ (if self.old.finished then ended_once (of_socket U.ended T.ended self.old.stream)
            else of_socket U.ended T.ended self.old.stream) }
    {
        self.connecting = false;
        self.blocked = false;
        if self.finished {
            self.stream.finish();
        }
    }
}

impl OwnListener {
    /// A listener at which no socket waits, as far as is known.
    pub fn new(listener: TcpListener) -> OwnListener
        ensures listener { result.listener ≡ listener }
        ensures joins { result.joins ≡ false }
    {
        OwnListener {
            listener,
            joins: false,
        }
    }
}

// Whether this is of a stream.
fn is_of(number: u64, ready: Ready) -> bool
    ensures { result ≡ is_ready_of number ready }
{
    match ready {
        Ready::Read(n) | Ready::Write(n) | Ready::Connect(n) => n == number,
        Ready::Accept | Ready::Join(_) => false,
    }
}

// Whether this is of clients.
fn is_ready_accept(ready: Ready) -> bool
    ensures { result ≡ is_ready_accept ready }
{
    matches!(ready, Ready::Accept)
}

// Whether this is of a listener of the master's own.
fn is_join(number: u64, ready: Ready) -> bool
    ensures { result ≡ is_join number ready }
{
    matches!(ready, Ready::Join(n) if n == number)
}

impl ReadyQueue {
    ghost use Rattle.mux_edge.specs.Entries.{gives_nothing};

    /// Nothing is ready so far, and no round is begun.
    pub fn new(alloc: Global) -> ReadyQueue
        ensures items { result.items.items ≡ [] }
        ensures accepts { result.accepts ≡ false }
        ensures front { result.front ≡ 0 }
        ensures again { result.again ≡ false }
    {
        ReadyQueue {
            items: VecDeque::new(alloc),
            accepts: false,
            front: 0,
            again: false,
        }
    }

    /// Makes room for all that can be ready of so many streams and listeners.
    pub fn reserve(&mut self, streams: usize) -> Result<(), AllocError>
        ensures items { self.new.items.items ≡ self.old.items.items }
        ensures rest { self.new ≡ record self.old { items = self.new.items } }
        ensures room { OnOk result (deque_len self.new.items
            + min (2 * streams + 1) (2 ^ 64 - 1) ≤ deque_capacity self.new.items) }
    {
        self.items
            .reserve(streams.saturating_mul(2).saturating_add(1))
    }

    /// Notes that clients may wait to be accepted.
    pub fn note_accept(&mut self) -> Result<(), AllocError>
        ensures noted { OnOk result (self.new.accepts ≡ true) }
        ensures queued { OnOk result (self.old.accepts ≡ false
            → self.new.items.items ≡ self.old.items.items ++ Ready.Accept ∷ []) }
        ensures once { self.old.accepts ≡ true → self.new ≡ self.old }
        ensures full { OnErr result (IsReadyFull self.old) }
    {
        if !self.accepts {
            self.items.push_back(Ready::Accept)?;
            self.accepts = true;
        }
        Ok(())
    }

    /// Notes that a socket may wait at a listener of the master's own.
    pub fn note_join(
        &mut self,
        number: u64,
        own_listener: &mut OwnListener,
    ) -> Result<(), AllocError>
        ensures listener { own_listener.new ≡ record own_listener.old { joins = own_listener.new.joins } }
        ensures noted { OnOk result (own_listener.new.joins ≡ true) }
        ensures queued { OnOk result (own_listener.old.joins ≡ false
            → self.new.items.items ≡ self.old.items.items ++ Ready.Join number ∷ []) }
        ensures once { own_listener.old.joins ≡ true → self.new ≡ self.old }
        ensures full { OnErr result (IsReadyFull self.old) }
    {
        if !own_listener.joins {
            self.items.push_back(Ready::Join(number))?;
            own_listener.joins = true;
        }
        Ok(())
    }

    /// Notes that a stream may be read, or that it may be once it isn't silent any more.
    pub fn note_bytes<U: UnixSocket, T: TcpSocket>(
        &mut self,
        number: u64,
        entry: &mut StreamEntry<U, T>,
    ) -> Result<(), AllocError>
        ensures entry { entry.new
            ≡ record entry.old { reads = entry.new.reads; held = entry.new.held } }
        ensures held { gives_nothing entry.old ≡ true → entry.new.held ≡ true }
        ensures noted { OnOk result (gives_nothing entry.old ≡ false → entry.new.reads ≡ true) }
        ensures full { OnErr result (IsReadyFull self.old) }
    {
        if entry.is_silent() {
            entry.held = true;
            return Ok(());
        }
        self.note_read(number, entry)
    }

    /// Notes that a stream may be read of which that was kept back, where it isn't silent any more.
    pub fn note_held<U: UnixSocket, T: TcpSocket>(
        &mut self,
        number: u64,
        entry: &mut StreamEntry<U, T>,
    ) -> Result<(), AllocError>
        ensures entry { entry.new
            ≡ record entry.old { reads = entry.new.reads; held = entry.new.held } }
        ensures noted { OnOk result (gives_nothing entry.old ≡ false → entry.old.held ≡ true
            → entry.new.reads ≡ true) }
        ensures full { OnErr result (IsReadyFull self.old) }
    {
        if entry.held && !entry.is_silent() {
            self.note_read(number, entry)?;
            entry.held = false;
        }
        Ok(())
    }

    /// Notes that a stream may be read.
    pub fn note_read<U: UnixSocket, T: TcpSocket>(
        &mut self,
        number: u64,
        entry: &mut StreamEntry<U, T>,
    ) -> Result<(), AllocError>
        ensures entry { entry.new ≡ record entry.old { reads = entry.new.reads } }
        ensures noted { OnOk result (entry.new.reads ≡ true) }
        ensures queued { OnOk result (entry.old.reads ≡ false
            → self.new.items.items ≡ self.old.items.items ++ Ready.Read number ∷ []) }
        ensures once { entry.old.reads ≡ true → self.new ≡ self.old }
        ensures full { OnErr result (IsReadyFull self.old) }
    {
        if !entry.reads {
            self.items.push_back(Ready::Read(number))?;
            entry.reads = true;
        }
        Ok(())
    }

    /// Notes that a stream can be written to.
    pub fn note_write<U: UnixSocket, T: TcpSocket>(
        &mut self,
        number: u64,
        entry: &mut StreamEntry<U, T>,
    ) -> Result<(), AllocError>
        ensures entry { entry.new ≡ record entry.old { writes = entry.new.writes } }
        ensures noted { OnOk result (entry.new.writes ≡ true) }
        ensures queued { OnOk result (entry.old.writes ≡ false
            → self.new.items.items ≡ self.old.items.items ++ Ready.Write number ∷ []) }
        ensures once { entry.old.writes ≡ true → self.new ≡ self.old }
        ensures full { OnErr result (IsReadyFull self.old) }
    {
        if !entry.writes {
            self.items.push_back(Ready::Write(number))?;
            entry.writes = true;
        }
        Ok(())
    }

    /// Notes that a connection may be made.
    pub fn note_connect<U: UnixSocket, T: TcpSocket>(
        &mut self,
        number: u64,
        entry: &mut StreamEntry<U, T>,
    ) -> Result<(), AllocError>
        ensures entry { entry.new ≡ record entry.old { writes = entry.new.writes } }
        ensures noted { OnOk result (entry.new.writes ≡ true) }
        ensures queued { OnOk result (entry.old.writes ≡ false
            → self.new.items.items ≡ self.old.items.items ++ Ready.Connect number ∷ []) }
        ensures once { entry.old.writes ≡ true → self.new ≡ self.old }
        ensures full { OnErr result (IsReadyFull self.old) }
    {
        if !entry.writes {
            self.items.push_back(Ready::Connect(number))?;
            entry.writes = true;
        }
        Ok(())
    }

    /// Forgets the clients that may wait.
    pub fn drop_accept(&mut self)
        ensures items { self.new.items.items
            ≡ filter (λ ready. not (is_ready_accept ready)) self.old.items.items }
        ensures rest { self.new
            ≡ record self.old { items = self.new.items; accepts = false } }
    {
        self.items.retain(|r| !is_ready_accept(*r));
        self.accepts = false;
    }

    /// Forgets a stream.
    pub fn drop_stream<U: UnixSocket, T: TcpSocket>(
        &mut self,
        number: u64,
        entry: &StreamEntry<U, T>,
    )
        ensures gone { (entry.now.reads || entry.now.writes) ≡ true → self.new.items.items
            ≡ filter (λ ready. not (is_ready_of number ready)) self.old.items.items }
        ensures kept { (entry.now.reads || entry.now.writes) ≡ false
            → self.new.items.items ≡ self.old.items.items }
        ensures rest { self.new ≡ record self.old { items = self.new.items } }
    {
        if entry.reads || entry.writes {
            self.items.retain(|r| !is_of(number, *r));
        }
    }

    /// Forgets a listener of the master's own.
    pub fn drop_own_listener(&mut self, number: u64, own_listener: &OwnListener)
        ensures gone { own_listener.now.joins ≡ true → self.new.items.items
            ≡ filter (λ ready. not (is_join number ready)) self.old.items.items }
        ensures kept { own_listener.now.joins ≡ false
            → self.new.items.items ≡ self.old.items.items }
        ensures rest { self.new ≡ record self.old { items = self.new.items } }
    {
        if own_listener.joins {
            self.items.retain(|r| !is_join(number, *r));
        }
    }

    /// Begins a round over all that is ready.
    pub fn begin_round(&mut self)
        ensures { self.new
            ≡ record self.old { front = deque_len self.old.items; again = true } }
    {
        self.front = self.items.len();
        self.again = true;
    }

    /// Whether the round is over, where this is the first place that may be served.
    pub fn is_round_over(&self, at: Option<usize>) -> bool
        ensures { result ≡ is_round_over at self.now }
    {
        match at {
            Some(at) => at >= self.front && !self.again,
            None => true,
        }
    }

    /// Where the first is that may be served. Of the master's own streams none is read where they
    /// are held back.
    pub fn first(
        &self,
        waiting: &[u64],
        want: Want,
        accepts: bool,
        joins: bool,
        holds_own: bool,
    ) -> Option<usize>
        ensures { IfSome result (λ at.
            IsSomeAnd (slice_get self.now.items.items at) (IsLookedFor holds_own)) }
    {
        self.items.iter().position(|r| match *r {
            Ready::Accept => want == Want::Read && accepts,
            Ready::Join(_) => want == Want::Read && joins,
            Ready::Read(number) => want == Want::Read && !(holds_own && is_own(number)),
            Ready::Write(number) => waiting.contains(&number),
            Ready::Connect(number) => want == Want::Read || waiting.contains(&number),
        })
    }

    /// Takes out what is at this place.
    pub fn take(&mut self, at: Option<usize>) -> Option<Ready>
        ensures { IfSome result (λ ready.
            IsSomeAnd at (λ at. slice_get self.old.items.items at ≡ Some ready)) }
    {
        let at = at?;
        if at >= self.front {
            self.front = self.items.len();
            self.again = false;
        }
        let taken = self.items.remove(at)?;
        self.front = self.front.saturating_sub(1);
        if taken == Ready::Accept {
            self.accepts = false;
        }
        Some(taken)
    }
}
