//! The master's own listeners and streams.
ghost use Rattle.std.specs.Prelude.{◌≡◌, ◌⊎◌, false, true, IfSome, IsNone, IsSome, None, OnErr, OnOk, OnSome, Some, nat_eq};
ghost use Rattle.indexmap.specs.IndexMap.{get};
ghost use Rattle.mux_edge.specs.Entries.{EntriesStay, HasEntry, IsAwaited, IsBlocked, IsConnected, IsFinished, IsKeptBack, IsNoted, IsPaused};
ghost use Rattle.mux_edge.specs.Recorded.{SocketsStay};
ghost use Rattle.mux_edge.specs.StreamTable.{StaysFew, Touches};
ghost use Rattle.mux_edge.specs.Ready.{IsReadyFull};

use super::StreamTable;
use super::ready::OwnListener;
use crate::lookups::Lookups;
use crate::socket::{TcpSocket, UnixSocket};
use crate::stream::Stream;
use mio::net::TcpListener;
use mio::{Interest, Token};
use mux_outside::Turn;
use std::alloc::AllocError;
use std::io;
use std::io::ErrorKind;
use std::net::{Net, SocketAddr};

impl<U: UnixSocket, T: TcpSocket> StreamTable<U, T> {
    /// Listens at an address, with a listener of this number.
    pub fn listen<N: Net>(&mut self, rt: &N, number: u64, address: SocketAddr) -> io::Result<()>
        ensures there { OnOk result (IsSome (get nat_eq self.new.own_listeners number)) }
        ensures few { StaysFew self.old self.new }
        ensures entries { self.new.entries ≡ self.old.entries }
        ensures listener { self.new.listener ≡ self.old.listener }
    {
        self.make_room()?;
        self.own_listeners.reserve(1)?;
        let mut listener = TcpListener::bind(rt, address)?;
        self.poll
            .registry()
            .register(&mut listener, Token(number as usize), Interest::READABLE)?;
        self.own_listeners
            .insert(number, OwnListener::new(listener))
            .map_err(|_| AllocError)?;
        Ok(())
    }

    /// Begins to connect to an address, with a stream of this number.
    pub fn connect<N: Net>(&mut self, rt: &N, number: u64, address: SocketAddr) -> io::Result<()>
        ensures there { OnOk result (HasEntry number self.new.entries) }
        ensures waits { OnOk result (IsBlocked number self.new.entries) }
        ensures rest { Touches number self.old self.new }
    {
        self.make_place(number)?;
        let stream = Stream::connect(rt, address)?;
        self.put(number, stream, true)
    }

    // Looks whether a connection is made. What may be read of it is noted then. Where it isn't
    // made, the next of its addresses is tried, if the host is a name.
    pub(super) fn meet<N: Net>(
        &mut self,
        rt: &N,
        lookups: &mut Lookups,
        number: u64,
    ) -> Option<Turn>
        ensures turn { IfSome result (λ turn.
            (turn ≡ Turn.Writable number) ⊎ (turn ≡ Turn.Failed number)) }
        ensures connected { result ≡ Some (Turn.Writable number)
            → IsConnected number self.new.entries }
        ensures noted { result ≡ Some (Turn.Writable number) → IsAwaited number self.old.entries
            → IsNoted number self.new.entries ⊎ IsReadyFull self.old.ready }
        ensures sockets { IsConnected number self.old.entries
            → SocketsStay self.old.entries self.new.entries }
        ensures outbox { self.new.outbox ≡ self.old.outbox }
        ensures rest { Touches number self.old self.new }
    {
        let entry = self.entries.get_mut(&number)?;
        entry.writes = false;
        if !entry.connecting {
            return None;
        }
        let mut made = entry.stream.is_made();
        if made.is_err() || entry.stream.is_begun() {
            made = lookups
                .connect(rt, self.poll.registry(), number, &mut entry.stream)
                .map(|()| false);
        }
        let turn = entry.meet(number, &made);
        let _ = self.ready.note_held(number, entry);
        turn
    }
}

impl<U: UnixSocket, T: TcpSocket> StreamTable<U, T> {
    /// Drops a listener.
    pub fn unlisten(&mut self, number: u64)
        ensures gone { get nat_eq self.new.own_listeners number ≡ None }
        ensures few { StaysFew self.old self.new }
        ensures entries { self.new.entries ≡ self.old.entries }
        ensures listener { self.new.listener ≡ self.old.listener }
    {
        let Some(own_listener) = self.own_listeners.swap_remove(&number) else {
            return;
        };
        self.ready.drop_own_listener(number, &own_listener);
    }

    /// Notes that the addresses of a stream are known.
    pub fn meet_soon(&mut self, number: u64)
        ensures waits { IsBlocked number self.old.entries → IsBlocked number self.new.entries }
        ensures rest { Touches number self.old self.new }
    {
        if let Some(entry) = self.entries.get_mut(&number) {
            let _ = self.ready.note_connect(number, entry);
        }
    }

    // Accepts a socket at a listener, as a stream of this number.
    pub(super) fn join_at(&mut self, listener: u64, number: u64) -> Option<Turn>
        ensures turn { IfSome result (λ turn. turn ≡ Turn.Joined listener number) }
        ensures there { OnSome result (HasEntry number self.new.entries) }
        ensures not_taken { IsNone result → EntriesStay self.old.entries self.new.entries }
        ensures outbox { self.new.outbox ≡ self.old.outbox }
        ensures rest { Touches number self.old self.new }
    {
        let own_listener = self.own_listeners.get_mut(&listener)?;
        own_listener.joins = false;
        if let Err(e) = self.accept_at(listener, number) {
            self.not_joined(listener, &e);
            return None;
        }
        // More may wait.
        self.join_again(listener);
        Some(Turn::Joined(listener, number))
    }

    // Accepts a socket at a listener, once it has a place. Without one it waits there.
    fn accept_at(&mut self, listener: u64, number: u64) -> io::Result<()>
        ensures there { OnOk result (HasEntry number self.new.entries) }
        ensures not_taken { OnErr result (EntriesStay self.old.entries self.new.entries) }
        ensures outbox { self.new.outbox ≡ self.old.outbox }
        ensures rest { Touches number self.old self.new }
    {
        self.make_place(number)?;
        let Some(own_listener) = self.own_listeners.get(&listener) else {
            return Err(io::Error::from(ErrorKind::NotFound));
        };
        let stream = T::accept(&own_listener.listener)?;
        self.put(number, Stream::Tcp(stream), false)
    }

    // A socket that could not be accepted is no fault of the run.
    fn not_joined(&mut self, listener: u64, e: &io::Error)
        ensures { self.new ≡ record self.old {
          own_listeners = self.new.own_listeners;
          ready = self.new.ready;
          joins_pause = self.new.joins_pause;
        } }
    {
        match e.kind() {
            ErrorKind::WouldBlock => {}
            ErrorKind::Interrupted | ErrorKind::ConnectionAborted => self.join_again(listener),
            _ => {
                self.join_again(listener);
                self.joins_pause = true;
            }
        }
    }

    // Tries to accept again at a listener.
    fn join_again(&mut self, listener: u64)
        ensures { self.new ≡ record self.old { own_listeners = self.new.own_listeners; ready = self.new.ready } }
    {
        if let Some(own_listener) = self.own_listeners.get_mut(&listener) {
            let _ = self.ready.note_join(listener, own_listener);
        }
    }

    /// Reads nothing of a stream for now.
    pub fn pause(&mut self, number: u64)
        ensures paused { HasEntry number self.old.entries → IsPaused true number self.new.entries }
        ensures rest { Touches number self.old self.new }
    {
        if let Some(entry) = self.entries.get_mut(&number) {
            entry.paused = true;
        }
    }

    /// Reads a stream again, and first what came meanwhile.
    pub fn resume(&mut self, number: u64)
        ensures resumed { HasEntry number self.old.entries
            → IsPaused false number self.new.entries }
        ensures noted { IsKeptBack number self.old.entries
            → IsNoted number self.new.entries ⊎ IsReadyFull self.old.ready }
        ensures rest { Touches number self.old self.new }
    {
        if let Some(entry) = self.entries.get_mut(&number) {
            entry.paused = false;
            let _ = self.ready.note_held(number, entry);
        }
    }

    /// Sends the end of a stream to the other side.
    pub fn finish(&mut self, number: u64)
        ensures finished { HasEntry number self.old.entries
            → IsFinished number self.new.entries }
        ensures rest { Touches number self.old self.new }
    {
        if let Some(entry) = self.entries.get_mut(&number) {
            entry.finish();
        }
    }
}
