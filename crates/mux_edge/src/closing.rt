//! Streams of the master's own that were closed while their peer may still send.
ghost use Rattle.std.specs.Prelude.{◌≡◌, ◌<◌, ◌≤◌, ◌↔◌, ◌≢◌, ◌||◌, if◌then◌else◌, length, max, false, true, None, Some, IfSome, IsNone, IsTrue};
ghost use Rattle.std.specs.IoError.{error_kind};
ghost use Rattle.mux_edge.specs.Recorded.{ended_once, of_socket};

use crate::lookup::is_within;
use crate::socket::{TcpSocket, UnixSocket};
use crate::stream::Stream;
use crate::table::StreamEntry;
use mux_exchange::ByteChannel;
use mux_outside::{LONGEST_PIECE, Piece};
use std::alloc::Global;
use std::io;
use std::io::ErrorKind;
use std::time::Instant;

// For how many seconds a closed stream is read on, and how many of them there are at a time.
const CLOSING_SECONDS: u64 = 2;

const MOST_CLOSING: usize = 64;

// How often one is read at a look.
const MOST_READS: u32 = 16;

/// Streams that were closed. A socket that is closed with bytes unread resets its connection, and
/// then its peer loses what it hasn't read (RFC 2525, 2.17). So the half that is written to is ended
/// first, and what still comes is read and dropped: until the peer ends too, or for two seconds.
#[derive(Drop)]
pub struct ClosingStreams<U: UnixSocket, T: TcpSocket> {
    streams: Vec<ClosingStream<U, T>>,
}

// A stream that was closed.
#[derive(Drop)]
struct ClosingStream<U: UnixSocket, T: TcpSocket> {
    stream: Stream<U, T>,
    /// `None`: since the last look
    since: Option<Instant>,
}

impl<U: UnixSocket, T: TcpSocket> ClosingStreams<U, T> {
    /// None so far.
    pub fn new(alloc: Global) -> ClosingStreams<U, T>
        ensures { length result.streams.items ≡ 0 }
    {
        ClosingStreams {
            streams: Vec::new(alloc),
        }
    }

    /// Whether there are any.
    pub fn is_busy(&self) -> bool
        ensures { IsTrue result ↔ (0 < length self.now.streams.items) }
    {
        !self.streams.is_empty()
    }

    /// Takes a stream in whose peer may still send. Where there are as many as may be, or there is
    /// no memory, it is closed at once.
    pub fn add(&mut self, entry: StreamEntry<U, T>)
        ensures few { length self.new.streams.items
            ≤ max MOST_CLOSING (length self.old.streams.items) }
    {
        if self.streams.len() >= MOST_CLOSING {
            return;
        }
        if let Some(stream) = still_to_read(entry) {
            let _ = self.streams.push(ClosingStream {
                stream,
                since: None,
            });
        }
    }

    /// Reads and drops what came, and closes the streams that have ended and those whose time is
    /// over. `now` is `None` where there is no clock.
    pub fn go_on(&mut self, spare: &mut Piece, now: Option<Instant>)
        ensures fewer { length self.new.streams.items ≤ length self.old.streams.items }
    {
        self.streams
            .retain_mut(|closing| closing.goes_on(spare, now));
    }
}

impl<U: UnixSocket, T: TcpSocket> ClosingStream<U, T> {
    // Reads and drops what came: whether the stream goes on.
    fn goes_on(&mut self, spare: &mut Piece, now: Option<Instant>) -> bool
        ensures late { IsNone now → result ≡ false }
        ensures unwritten { of_socket U.contents T.contents self.new.stream
            ≡ of_socket U.contents T.contents self.old.stream }
    {
        let Some(now) = now else {
            return false;
        };
        let since = *self.since.get_or_insert(now);
        is_within(CLOSING_SECONDS, since, Some(now)) && self.gives_more(spare)
    }

    // Reads what came: whether more may come.
    fn gives_more(&mut self, spare: &mut Piece) -> bool
        ensures unwritten { of_socket U.contents T.contents self.new.stream
            ≡ of_socket U.contents T.contents self.old.stream }
    {
        for _ in 0..MOST_READS {
            if let Some(more) = self.read_once(spare) {
                return more;
            }
        }
        true
    }

    // Reads once: whether more may come, where nothing is there for now.
    fn read_once(&mut self, spare: &mut Piece) -> Option<bool>
        ensures unwritten { of_socket U.contents T.contents self.new.stream
            ≡ of_socket U.contents T.contents self.old.stream }
    {
        match self.stream.read_once(spare, LONGEST_PIECE) {
            Ok(0) => Some(false),
            Ok(_) => None,
            Err(e) => more_after(&e),
        }
    }
}

// The stream of one whose peer may still send. Its own end is sent, if it wasn't.
fn still_to_read<U: UnixSocket, T: TcpSocket>(entry: StreamEntry<U, T>) -> Option<Stream<U, T>>
    ensures none { (entry.connecting || entry.ended) ≡ true → IsNone result }
    ensures ended { IfSome result (λ stream. of_socket U.ended T.ended stream
        ≡ (if entry.finished then of_socket U.ended T.ended entry.stream
        else ended_once (of_socket U.ended T.ended entry.stream))) }
{
    if entry.connecting || entry.ended {
        return None;
    }
    let StreamEntry {
        mut stream,
        finished,
        ..
    } = entry;
    if !finished {
        stream.finish();
    }
    Some(stream)
}

// Whether more may come after this, where nothing is there for now.
fn more_after(e: &io::Error) -> Option<bool>
    ensures waits { error_kind e.now ≡ ErrorKind.WouldBlock → result ≡ Some true }
    ensures interrupted { error_kind e.now ≡ ErrorKind.Interrupted → result ≡ None }
    ensures failed { error_kind e.now ≢ ErrorKind.WouldBlock
        → error_kind e.now ≢ ErrorKind.Interrupted → result ≡ Some false }
{
    match e.kind() {
        ErrorKind::WouldBlock => Some(true),
        ErrorKind::Interrupted => None,
        _ => Some(false),
    }
}
