//! What a stream goes over: a socket of the system, or one that records what is done with it.
ghost use Rattle.std.specs.Prelude.{◌≡◌, ◌<◌, ◌≤◌, ◌++◌, ◌∷◌, [], ℕ, Bool, List, Option, None, length, option_map, IfOk, IfSome, OnErr, OnOk};
ghost use Rattle.std.specs.Io.{WritesAtMost};
ghost use Rattle.std.specs.Io.KnownBytes.{Consumes, IsAtEnd, Keeps, WriteAppends};
ghost use Rattle.std.specs.declared.net.Shutdown.{Shutdown as Half};
ghost use Rattle.std.specs.declared.net.socket_addr.SocketAddr.{SocketAddr as Address};
ghost use Rattle.mux_edge.specs.Socket.{RecordsError, RecordsPeer};

use mio::event::Source;
use mio::net::{TcpListener, TcpStream, UnixListener, UnixStream};
use mux_outside::{LONGEST_PIECE, Piece};
use std::io;
use std::io::Write;
use std::net::{Net, Shutdown, SocketAddr};

/// A socket that a stream goes over, whose calls do not wait. One of the system records nothing;
/// all that is proved of streams holds of those that record.
pub trait Socket: Source + Drop {
    // the bytes that reads will give from here on, where they are recorded
    ghost remaining: { Self → Option (List ℕ) } = { λ _. None };

    // the bytes that were written, where they are recorded
    ghost contents: { Self → Option (List ℕ) } = { λ _. None };

    // the halves that were ended, where they are recorded
    ghost ended: { Self → Option (List Half) } = { λ _. None };

    /// Reads once, so many bytes at most, and puts them in place of those of the piece.
    fn read_once(&mut self, into: &mut Piece, most: usize) -> io::Result<usize>
        requires { 0 < most }
        ensures count { IfOk result (λ n. n ≡ length into.new) }
        ensures at_most { OnOk result (length into.new ≤ LONGEST_PIECE) }
        ensures most { OnOk result (length into.new ≤ most) }
        ensures bytes { OnOk result
            (Consumes (remaining self.old) (remaining self.new) into.new) }
        ensures end { IfOk result (λ n. n ≡ 0 → IsAtEnd (remaining self.new)) }
        ensures kept { OnErr result (Keeps (remaining self.old) (remaining self.new)) }
        ensures apart { contents self.new ≡ contents self.old };

    /// Writes once.
    fn write_once(&mut self, bytes: &[u8]) -> io::Result<usize>
        ensures bound { WritesAtMost result bytes.now }
        ensures bytes { WriteAppends (contents self.old) (contents self.new) result bytes.now }
        ensures apart { remaining self.new ≡ remaining self.old };

    /// Ends a half of it. Where that fails, the next read shows it.
    fn end(&mut self, half: Shutdown)
        ensures ends { ended self.new ≡ option_map (λ halves. halves ++ half ∷ []) (ended self.old) }
        ensures unread { remaining self.new ≡ remaining self.old }
        ensures unwritten { contents self.new ≡ contents self.old };
}

/// A socket of a client, or of a server on the same machine.
pub trait UnixSocket: Socket {
    /// The next one that waits at a listener.
    fn accept(listener: &UnixListener) -> io::Result<Self>;
}

/// A socket over TCP, which sends what it is given at once.
pub trait TcpSocket: Socket {
    // whether a connection that was begun is made, where it is recorded; `None` inside: it failed
    ghost made: { Self → Option (Option Bool) } = { λ _. None };

    // where it connects to, where it is recorded
    ghost target: { Self → Option Address } = { λ _. None };

    /// The next one that waits at a listener.
    fn accept(listener: &TcpListener) -> io::Result<Self>;

    /// Begins to connect to an address.
    fn connect<N: Net>(rt: &N, address: SocketAddr) -> io::Result<Self>
        ensures { IfOk result (λ socket. IfSome (target socket) (λ to. to ≡ address)) };

    /// The error of a connection that was begun.
    fn error(&self) -> io::Result<Option<io::Error>>
        ensures { RecordsError (made self.now) result };

    /// Whether it has another side.
    fn has_peer(&self) -> bool
        ensures { RecordsPeer (made self.now) result };
}

impl Socket for UnixStream {
    fn read_once(&mut self, into: &mut Piece, most: usize) -> io::Result<usize> {
        into.read_from(self, most)
    }

    fn write_once(&mut self, bytes: &[u8]) -> io::Result<usize> {
        self.write(bytes)
    }

    fn end(&mut self, half: Shutdown) {
        let _ = self.shutdown(half);
    }
}

impl UnixSocket for UnixStream {
    fn accept(listener: &UnixListener) -> io::Result<UnixStream> {
        Ok(listener.accept()?.0)
    }
}

impl Socket for TcpStream {
    fn read_once(&mut self, into: &mut Piece, most: usize) -> io::Result<usize> {
        into.read_from(self, most)
    }

    fn write_once(&mut self, bytes: &[u8]) -> io::Result<usize> {
        self.write(bytes)
    }

    fn end(&mut self, half: Shutdown) {
        let _ = self.shutdown(half);
    }
}

impl TcpSocket for TcpStream {
    fn accept(listener: &TcpListener) -> io::Result<TcpStream> {
        let stream = listener.accept()?.0;
        let _ = stream.set_nodelay(true);
        Ok(stream)
    }

    fn connect<N: Net>(rt: &N, address: SocketAddr) -> io::Result<TcpStream> {
        let stream = TcpStream::connect(rt, address)?;
        stream.set_nodelay(true)?;
        Ok(stream)
    }

    fn error(&self) -> io::Result<Option<io::Error>> {
        self.take_error()
    }

    fn has_peer(&self) -> bool {
        self.peer_addr().is_ok()
    }
}
