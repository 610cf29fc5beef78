//! The sockets of streams and listeners, and which of them are ready.
ghost use Rattle.std.specs.Prelude.{◌≡◌, ◌≢◌, ◌≤◌, ◌↔◌, min, IsTrue, None, OnErr, OnOk, false, true, IfOk, IsNone, IsSome, IsSomeAnd, nat_eq};
ghost use Rattle.mux_outside.specs.OwnStreams.{is_own};
ghost use Rattle.mux_edge.specs.Entries.{EntriesStay, HasEntry, HasPlace, IsBlocked, MayPass, own_streams};
ghost use Rattle.mux_edge.specs.Recorded.{KeepsSocket, SocketsStay};
ghost use Rattle.mux_edge.specs.StreamTable.{HasFew, StaysFew, Touches, own_streams_among};
ghost use Rattle.mux_edge.specs.Transport.{passes_descriptors};
ghost use Rattle.indexmap.specs.IndexMap.{IsUnchanged, get};

mod look;
mod outgoing;
mod own;
mod ready;
mod served;
mod shares;

pub use self::ready::{OwnListener, Ready, ReadyQueue, StreamEntry};
pub use self::shares::Shares;
use crate::lookups::Lookups;
use crate::socket::{TcpSocket, UnixSocket};
use crate::stream::Stream;
use indexmap::IndexMap;
use mio::net::UnixListener;
use mio::{Events, Interest, Poll, Registry, Token};
use mux_exchange::Outbox;
use mux_outside::{Piece, is_own};
use std::alloc::{AllocError, Global};
use std::io;
use std::io::ErrorKind;
use std::net::Net;

/// The sockets of a run, each under the number of its stream or listener, which is the system's
/// token for it too.
///
/// - **Reading.** The system reports once that bytes came (epoll(7)). So a stream stays noted until
///   a read would wait, or is short. At a Unix socket a read stops at a passed descriptor: a client
///   whose read was short is read once more when nothing came for a while, or when the system was
///   asked often since. After a report of an error, the end or urgent bytes this is not so.
/// - **Writing.** Few bytes to the server wait in an outbox. Its socket is given them before the
///   system is asked again, and at the end. If that fails, what the server still sends is read first.
/// - **Order.** What becomes ready goes after what was ready before. The system is asked again when
///   all of that was served at most twice.
/// - **The master's own streams.** They are at most `most_own`. At that number, who connects waits
///   in the backlog, and no connection is begun. While the server's stream is waited for, they
///   are read no further than the clients are. That one may be read is kept while it is paused or
///   its connection isn't made.
pub struct StreamTable<U: UnixSocket, T: TcpSocket> {
    poll: Poll,
    events: Events,
    /// `None`: no client comes, as at first and after `stop_listening`
    pub listener: Option<UnixListener>,
    pub entries: IndexMap<u64, StreamEntry<U, T>>,
    /// the listeners of the master's own
    pub own_listeners: IndexMap<u64, OwnListener>,
    /// an accept failed for lack of descriptors or memory, and is tried again
    pub pauses: bool,
    /// the same at a listener of the master's own, or it has as many streams as it may have
    pub joins_pause: bool,
    pub ready: ReadyQueue,
    pub shares: Shares,
    /// how many streams of its own the master may have at a time
    pub most_own: usize,
    /// what is read into
    pub spare: Piece,
    /// what was accepted for the server's stream, and wasn't given to its socket yet
    pub outbox: Outbox,
    /// its socket accepts none of that for now
    pub full: bool,
    /// a write to its socket failed, which is reported once its last words were read
    pub broken: bool,
    /// some streams are doubted, and so often the system was asked since
    pub doubts: Option<u32>,
}

// The listener of clients has this token, and no stream has this number.
const LISTENER: Token = Token(usize::MAX);

// How many events one look takes.
const EVENTS: usize = 64;

/// How many streams of its own the master has at a time, at most. With 64 clients, its listeners,
/// look-ups and files it then stays within the usual limit of 1,024 descriptors.
pub const MOST_OWN_STREAMS: usize = 512;

/// So many descriptors are kept for clients, listeners, look-ups and files.
pub const KEPT_DESCRIPTORS: usize = 256;

/// How many streams of its own a master may have that has so many descriptors: what it needn't keep,
/// or a quarter where that is more, and never more than `MOST_OWN_STREAMS`.
pub fn own_streams_among(descriptors: usize) -> usize
    ensures exact { result ≡ own_streams_among descriptors }
    ensures most { result ≤ MOST_OWN_STREAMS }
{
    let spare = descriptors.saturating_sub(KEPT_DESCRIPTORS);
    spare.max(descriptors / 4).min(MOST_OWN_STREAMS)
}

impl<U: UnixSocket, T: TcpSocket> StreamTable<U, T> {
    /// Stream 0 alone, without a listener. The master may have so many streams of its own, and at
    /// most `MOST_OWN_STREAMS`.
    pub fn alone<N: Net>(
        rt: &N,
        alloc: Global,
        stream: Stream<U, T>,
        most_own: usize,
    ) -> io::Result<StreamTable<U, T>>
        ensures server { IfOk result (λ table. HasEntry 0 table.entries) }
        ensures deaf { IfOk result (λ table. IsNone table.listener) }
        ensures limit { IfOk result (λ table. table.most_own ≡ min most_own MOST_OWN_STREAMS) }
        ensures few { IfOk result HasFew }
    {
        let mut table = StreamTable::new(rt, alloc, most_own)?;
        table.add(0, stream, false)?;
        Ok(table)
    }

    // No stream yet.
    fn new<N: Net>(rt: &N, alloc: Global, most_own: usize) -> io::Result<StreamTable<U, T>>
        ensures deaf { IfOk result (λ table. IsNone table.listener) }
        ensures limit { IfOk result (λ table. table.most_own ≡ min most_own MOST_OWN_STREAMS) }
        ensures few { IfOk result HasFew }
    {
        let poll = Poll::new(rt)?;
        let events = Events::with_capacity(alloc, EVENTS)?;
        let spare = Piece::new(alloc).map_err(|_| AllocError)?;
        let outbox = Outbox::new(alloc)?;
        Ok(StreamTable::over(alloc, poll, events, spare, outbox, most_own))
    }

    // No stream yet, over this.
    fn over(
        alloc: Global,
        poll: Poll,
        events: Events,
        spare: Piece,
        outbox: Outbox,
        most_own: usize,
    ) -> StreamTable<U, T>
        ensures deaf { IsNone result.listener }
        ensures limit { result.most_own ≡ min most_own MOST_OWN_STREAMS }
        ensures few { HasFew result }
    {
        StreamTable {
            poll,
            events,
            listener: None,
            entries: IndexMap::new(alloc),
            own_listeners: IndexMap::new(alloc),
            pauses: false,
            joins_pause: false,
            ready: ReadyQueue::new(alloc),
            shares: Shares::new(),
            most_own: most_own.min(MOST_OWN_STREAMS),
            spare,
            outbox,
            full: false,
            broken: false,
            doubts: None,
        }
    }

    /// Takes a stream in, with room for all that can be ready. Whoever is a client may pass
    /// descriptors. One of the master's own isn't taken in where it has as many as it may have.
    pub fn add(&mut self, number: u64, stream: Stream<U, T>, connecting: bool) -> io::Result<()>
        ensures there { OnOk result (HasEntry number self.new.entries) }
        ensures taken { OnOk result (IsSomeAnd (get nat_eq self.new.entries number)
            (λ entry. KeepsSocket U.keeps T.keeps stream entry.stream)) }
        ensures not_taken { OnErr result (EntriesStay self.old.entries self.new.entries) }
        ensures outbox { self.new.outbox ≡ self.old.outbox }
        ensures client { OnOk result (number ≢ 0 → passes_descriptors stream ≡ true
            → MayPass number self.new.entries) }
        ensures waits { OnOk result (connecting ≡ true → IsBlocked number self.new.entries) }
        ensures rest { Touches number self.old self.new }
    {
        self.make_place(number)?;
        self.put(number, stream, connecting)
    }

    // Makes a place for one more stream, with room for all that can be ready. One of the master's
    // own has none where there are as many as there may be.
    fn make_place(&mut self, number: u64) -> io::Result<()>
        ensures place { OnOk result (HasPlace self.new.most_own number self.new.entries) }
        ensures entries { IsUnchanged self.old.entries self.new.entries }
        ensures rest { self.new
            ≡ record self.old { entries = self.new.entries; ready = self.new.ready } }
    {
        if is_own(number) && self.has_most_own() {
            return Err(io::Error::from(ErrorKind::Other));
        }
        self.make_room()?;
        self.entries.reserve(1)?;
        Ok(())
    }

    // Whether the master has as many streams of its own as it may have.
    fn has_most_own(&self) -> bool
        ensures { IsTrue result ↔ (self.now.most_own ≤ own_streams self.now.entries) }
    {
        self.own_streams() >= self.most_own
    }

    // How many streams are the master's own.
    fn own_streams(&self) -> usize
        ensures { result ≡ own_streams self.now.entries }
    {
        self.entries.keys().filter(|n| is_own(**n)).count()
    }

    // Puts a stream into the place that was made for it.
    fn put(&mut self, number: u64, mut stream: Stream<U, T>, connecting: bool) -> io::Result<()>
        requires place { HasPlace self.old.most_own number self.old.entries }
        ensures there { OnOk result (HasEntry number self.new.entries) }
        ensures taken { OnOk result (IsSomeAnd (get nat_eq self.new.entries number)
            (λ entry. KeepsSocket U.keeps T.keeps stream entry.stream)) }
        ensures not_taken { OnErr result (EntriesStay self.old.entries self.new.entries) }
        ensures outbox { self.new.outbox ≡ self.old.outbox }
        ensures client { OnOk result (number ≢ 0 → passes_descriptors stream ≡ true
            → MayPass number self.new.entries) }
        ensures waits { OnOk result (connecting ≡ true → IsBlocked number self.new.entries) }
        ensures rest { Touches number self.old self.new }
    {
        let passes = number != 0 && stream.passes_descriptors();
        stream.register(self.poll.registry(), Token(number as usize))?;
        let entry = StreamEntry::new(stream, passes, connecting);
        self.entries.insert(number, entry).map_err(|_| AllocError)?;
        Ok(())
    }

    /// What has the system report of new sockets.
    pub fn registry(&self) -> &Registry {
        self.poll.registry()
    }

    // Makes room for all that can be ready, with one more.
    fn make_room(&mut self) -> Result<(), AllocError>
        ensures { self.new ≡ record self.old { ready = self.new.ready } }
    {
        let all = self.entries.len().saturating_add(self.own_listeners.len());
        self.ready.reserve(all.saturating_add(1))
    }

    /// Takes a stream out.
    pub fn remove(&mut self, number: u64) -> Option<StreamEntry<U, T>>
        ensures gone { get nat_eq self.new.entries number ≡ None }
        ensures apart { number ≢ 0 → self.new.outbox ≡ self.old.outbox }
        ensures rest { Touches number self.old self.new }
    {
        self.give_last(number);
        let entry = self.entries.swap_remove(&number)?;
        self.ready.drop_stream(number, &entry);
        if self.pauses {
            self.accept_again();
        }
        self.joins_pause = false;
        Some(entry)
    }

    /// Takes in the listener of clients.
    pub fn listen_to_clients(&mut self, mut listener: UnixListener) -> io::Result<()>
        ensures listens { OnOk result (IsSome self.new.listener) }
        ensures few { StaysFew self.old self.new }
        ensures entries { self.new.entries ≡ self.old.entries }
    {
        self.poll
            .registry()
            .register(&mut listener, LISTENER, Interest::READABLE)?;
        self.listener = Some(listener);
        Ok(())
    }

    /// Accepts no more clients, and drops the listener.
    pub fn stop_listening(&mut self)
        ensures deaf { IsNone self.new.listener }
        ensures unpaused { self.new.pauses ≡ false }
        ensures few { StaysFew self.old self.new }
        ensures entries { self.new.entries ≡ self.old.entries }
    {
        self.listener = None;
        self.pauses = false;
        self.ready.drop_accept();
    }

    // Tries to accept again.
    fn accept_again(&mut self)
        ensures { self.new ≡ record self.old { pauses = self.new.pauses; ready = self.new.ready } }
    {
        if self.ready.note_accept().is_ok() {
            self.pauses = false;
        }
    }
}

impl<U: UnixSocket, T: TcpSocket> StreamTable<U, T> {
    /// A round begins. Where a look-up has ended, the streams that wait for one are noted.
    pub fn begin_round(&mut self, is_one_over: bool)
        ensures sockets { SocketsStay self.old.entries self.new.entries }
        ensures few { StaysFew self.old self.new }
        ensures outbox { self.new.outbox ≡ self.old.outbox }
        ensures listener { self.new.listener ≡ self.old.listener }
    {
        if is_one_over {
            note_begun(&mut self.entries, &mut self.ready);
        }
        if self.pauses {
            self.accept_again();
        }
        self.joins_pause = false;
        self.ready.begin_round();
    }
}

impl<U: UnixSocket, T: TcpSocket> Drop for StreamTable<U, T> {
    fn drop(mut self) {
        self.give_last(0);
        let StreamTable {
            poll: _,
            events: _,
            listener: _,
            entries: _,
            own_listeners: _,
            pauses: _,
            joins_pause: _,
            ready: _,
            shares: _,
            most_own: _,
            spare: _,
            outbox: _,
            full: _,
            broken: _,
            doubts: _,
        } = self;
    }
}

// Notes the streams that wait for look-ups, of which one has ended.
fn note_begun<U: UnixSocket, T: TcpSocket>(
    entries: &mut IndexMap<u64, StreamEntry<U, T>>,
    ready: &mut ReadyQueue,
)
    ensures { SocketsStay entries.old entries.new }
{
    for at in 0..entries.len() {
        if let Some(number) = number_at(entries, at) {
            note_if_begun(number, entries, ready);
        }
    }
}

// Notes a stream, if it waits for a look-up.
fn note_if_begun<U: UnixSocket, T: TcpSocket>(
    number: u64,
    entries: &mut IndexMap<u64, StreamEntry<U, T>>,
    ready: &mut ReadyQueue,
)
    ensures { SocketsStay entries.old entries.new }
{
    if let Some(entry) = entries.get_mut(&number) {
        if entry.stream.is_begun() && !entry.ended {
            let _ = ready.note_connect(number, entry);
        }
    }
}

// The number of the stream at this place.
fn number_at<U: UnixSocket, T: TcpSocket>(
    entries: &IndexMap<u64, StreamEntry<U, T>>,
    at: usize,
) -> Option<u64> {
    entries.get_index(at).map(|(number, _)| *number)
}
