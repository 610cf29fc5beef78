//! How the system is asked what became ready, and what it reports.
ghost use Rattle.std.specs.Prelude.{◌≡◌, ◌*◌, ◌≤◌, ◌||◌, if◌then◌else◌, [], None, OnOk, false, true, is_some, IfSome, IsSomeAnd};
ghost use Rattle.std.specs.Duration.{as_nanos};
ghost use Rattle.std.specs.List.{list_any};
ghost use Rattle.mio.specs.Events.{items};
ghost use Rattle.mux_edge.specs.Recorded.{LosesNone, SocketsStay};
ghost use Rattle.mux_edge.specs.StreamTable.{IsHandedOn, StaysFew, tells_server_takes, tells_write};

use super::{LISTENER, OwnListener, ReadyQueue, StreamEntry, StreamTable, number_at};
use crate::lookups::Lookups;
use crate::socket::{TcpSocket, UnixSocket};
use indexmap::IndexMap;
use mio::event::Event;
use mio::{Events, Token};
use mux_outside::Want;
use std::alloc::AllocError;
use std::io;
use std::io::ErrorKind;
use std::time::Duration;

// The server's stream has this token.
const SERVER: Token = Token(0);

const PAUSE_MILLIS: u64 = 100;

// Doubted streams are read once more when nothing came for so long, or the system was asked so often.
const DOUBT_MILLIS: u64 = 10;

const DOUBT_LOOKS: u32 = 64;

impl<U: UnixSocket, T: TcpSocket> StreamTable<U, T> {
    /// Hands on what was accepted for the server, and then notes what became ready: waits for it if
    /// nothing is so far. A fault, where only writes are wanted and one to the server failed.
    pub fn look(
        &mut self,
        lookups: &mut Lookups,
        want: Want,
        some: bool,
        is_busy: bool,
    ) -> io::Result<()>
        ensures bytes { LosesNone U.remaining T.remaining U.contents T.contents self.old self.new }
        ensures few { StaysFew self.old self.new }
        ensures listener { self.new.listener ≡ self.old.listener }
        ensures freed { OnOk result (list_any tells_server_takes (items self.new.events) ≡ true
            → self.new.full ≡ false) }
        ensures settled { OnOk result (some ≡ false → self.new.broken ≡ false
            → items self.new.events ≡ [] → self.new.doubts ≡ None) }
    {
        self.hand_on();
        self.look_on(lookups, want, some, is_busy)
    }

    // Notes what became ready, once nothing waits that the server's socket accepts.
    fn look_on(
        &mut self,
        lookups: &mut Lookups,
        want: Want,
        some: bool,
        is_busy: bool,
    ) -> io::Result<()>
        requires handed { IsHandedOn self.old }
        ensures sockets { SocketsStay self.old.entries self.new.entries }
        ensures few { StaysFew self.old self.new }
        ensures outbox { self.new.outbox ≡ self.old.outbox }
        ensures listener { self.new.listener ≡ self.old.listener }
        ensures freed { OnOk result (list_any tells_server_takes (items self.new.events) ≡ true
            → self.new.full ≡ false) }
        ensures settled { OnOk result (some ≡ false → self.new.broken ≡ false
            → items self.new.events ≡ [] → self.new.doubts ≡ None) }
    {
        if self.fails_at_once(want) {
            return Err(io::Error::from(ErrorKind::BrokenPipe));
        }
        let at_once = some || self.broken;
        self.ask(self.timeout(at_once, is_busy))?;
        note_all(
            &self.events,
            lookups,
            &mut self.entries,
            &mut self.own_listeners,
            &mut self.ready,
        )?;
        self.full = self.full && !server_takes(&self.events);
        let came = !self.events.is_empty();
        self.settle_doubts(at_once || came);
        Ok(())
    }

    // How long to wait for what becomes ready: not where something is, and not for long where
    // something is to be tried again.
    fn timeout(&self, some: bool, is_busy: bool) -> Option<Duration>
        ensures at_once { some ≡ true → IsSomeAnd result (λ d. as_nanos d ≡ 0) }
        ensures ends { some ≡ false → is_some result ≡ (is_some self.now.doubts
            || (self.now.pauses || (self.now.joins_pause || is_busy))) }
        ensures short { some ≡ false → IfSome result (λ d. as_nanos d
            ≡ (if is_some self.now.doubts then DOUBT_MILLIS else PAUSE_MILLIS) * 1_000_000) }
    {
        if some {
            Some(Duration::from_millis(0))
        } else if self.doubts.is_some() {
            Some(Duration::from_millis(DOUBT_MILLIS))
        } else {
            (self.pauses || self.joins_pause || is_busy).then_some(Duration::from_millis(
                PAUSE_MILLIS,
            ))
        }
    }

    // Asks the system, and waits so long. Nothing waits meanwhile that the server's socket accepts.
    fn ask(&mut self, timeout: Option<Duration>) -> io::Result<()>
        requires handed { IsHandedOn self.old }
        ensures { self.new ≡ record self.old { poll = self.new.poll; events = self.new.events } }
    {
        self.poll.poll(&mut self.events, timeout)
    }

    // Has doubted streams read once more, where nothing came for a while or often was asked.
    fn settle_doubts(&mut self, some: bool)
        ensures settled { some ≡ false → self.new.doubts ≡ None }
        ensures often { IfSome self.old.doubts
            (λ looks. DOUBT_LOOKS ≤ looks → self.new.doubts ≡ None) }
        ensures sockets { SocketsStay self.old.entries self.new.entries }
        ensures rest { self.new ≡ record self.old {
          entries = self.new.entries;
          ready = self.new.ready;
          doubts = self.new.doubts;
        } }
    {
        let Some(looks) = self.doubts else {
            return;
        };
        if some && looks < DOUBT_LOOKS {
            self.doubts = Some(looks + 1);
            return;
        }
        self.doubts = None;
        note_doubted(&mut self.entries, &mut self.ready);
    }
}

// Whether the server's socket can be written to, or a write would show that it can't.
fn server_takes(events: &Events) -> bool
    ensures { result ≡ list_any tells_server_takes (items events.now) }
{
    events
        .iter()
        .any(|event| event.token() == SERVER && can_write(event))
}

// Whether a socket can be written to, or a write would show that it can't.
fn can_write(event: &Event) -> bool
    ensures { result ≡ tells_write event.now }
{
    event.is_writable() || event.is_write_closed() || event.is_error()
}

// Notes the doubted streams, and doubts none any more.
fn note_doubted<U: UnixSocket, T: TcpSocket>(
    entries: &mut IndexMap<u64, StreamEntry<U, T>>,
    ready: &mut ReadyQueue,
)
    ensures { SocketsStay entries.old entries.new }
{
    for at in 0..entries.len() {
        if let Some(number) = number_at(entries, at) {
            note_if_doubted(number, entries, ready);
        }
    }
}

// Notes a stream, if it is doubted.
fn note_if_doubted<U: UnixSocket, T: TcpSocket>(
    number: u64,
    entries: &mut IndexMap<u64, StreamEntry<U, T>>,
    ready: &mut ReadyQueue,
)
    ensures { SocketsStay entries.old entries.new }
{
    if let Some(entry) = entries.get_mut(&number) {
        if entry.doubted {
            entry.doubted = false;
            let _ = ready.note_bytes(number, entry);
        }
    }
}

// Notes all that the system reported.
fn note_all<U: UnixSocket, T: TcpSocket>(
    events: &Events,
    lookups: &mut Lookups,
    entries: &mut IndexMap<u64, StreamEntry<U, T>>,
    own_listeners: &mut IndexMap<u64, OwnListener>,
    ready: &mut ReadyQueue,
) -> Result<(), AllocError>
    ensures { SocketsStay entries.old entries.new }
{
    for event in events.iter() {
        if !lookups.note(event.token().0 as u64) {
            note_event(event, entries, own_listeners, ready)?;
        }
    }
    Ok(())
}

fn note_event<U: UnixSocket, T: TcpSocket>(
    event: &Event,
    entries: &mut IndexMap<u64, StreamEntry<U, T>>,
    own_listeners: &mut IndexMap<u64, OwnListener>,
    ready: &mut ReadyQueue,
) -> Result<(), AllocError>
    ensures { SocketsStay entries.old entries.new }
{
    if event.token() == LISTENER {
        return ready.note_accept();
    }
    let number = event.token().0 as u64;
    if let Some(entry) = entries.get_mut(&number) {
        return note_stream(event, number, entry, ready);
    }
    match own_listeners.get_mut(&number) {
        Some(own_listener) => ready.note_join(number, own_listener),
        None => Ok(()),
    }
}

fn note_stream<U: UnixSocket, T: TcpSocket>(
    event: &Event,
    number: u64,
    entry: &mut StreamEntry<U, T>,
    ready: &mut ReadyQueue,
) -> Result<(), AllocError>
    ensures { entry.new ≡ record entry.old {
      stops_short = entry.new.stops_short;
      reads = entry.new.reads;
      writes = entry.new.writes;
      held = entry.new.held;
    } }
{
    // An error and a peer that went away show at the next read or write.
    let ends = event.is_read_closed() || event.is_error();
    entry.stops_short |= ends || event.is_priority();
    if (event.is_readable() || ends) && !entry.ended {
        ready.note_bytes(number, entry)?;
    }
    let writes = can_write(event);
    if writes && entry.connecting {
        ready.note_connect(number, entry)?;
    } else if writes && entry.blocked {
        ready.note_write(number, entry)?;
    }
    Ok(())
}
