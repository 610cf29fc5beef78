//! A stream over a Unix socket or over TCP, whose calls do not wait. It has no socket yet while the
//! name of its host is looked up.
ghost use Rattle.std.specs.Prelude.{◌≡◌, None, false, true, Ok, IfOk, IfSome, IsErr, IsNone, IsSome};
ghost use Rattle.mux_edge.specs.Recorded.{KeepsSocket, ended_once, of_socket};
ghost use Rattle.mux_edge.specs.Socket.{RecordsMade};
ghost use Rattle.mux_edge.specs.Transport.{IsOverTcp, IsOverUnix, is_begun, passes_descriptors};

use crate::socket::{TcpSocket, UnixSocket};
use mio::{Interest, Registry, Token};
use mux_exchange::ByteChannel;
use mux_outside::Piece;
use std::io;
use std::io::ErrorKind;
use std::net::{Net, Shutdown, SocketAddr};

#[derive(Drop)]
pub enum Stream<U: UnixSocket, T: TcpSocket> {
    Unix(U),
    Tcp(T),
    /// without a socket so far
    Begun,
}

impl<U: UnixSocket, T: TcpSocket> Stream<U, T> {
    /// Begins to connect to an address.
    pub fn connect<R: Net>(rt: &R, address: SocketAddr) -> io::Result<Stream<U, T>>
        ensures over { IfOk result IsOverTcp }
        ensures target { IfOk result (λ stream.
            IfSome (of_socket (λ _. None) T.target stream) (λ to. to ≡ address)) }
    {
        Ok(Stream::Tcp(T::connect(rt, address)?))
    }

    /// Whether descriptors can be passed beside its bytes.
    pub fn passes_descriptors(&self) -> bool
        ensures { result ≡ passes_descriptors self.now }
    {
        matches!(self, Stream::Unix(_))
    }

    /// Whether it has no socket yet.
    pub fn is_begun(&self) -> bool
        ensures { result ≡ is_begun self.now }
    {
        matches!(self, Stream::Begun)
    }

    /// Has the system report what comes and what can be written, over TCP also urgent bytes.
    pub fn register(&mut self, registry: &Registry, token: Token) -> io::Result<()>
        ensures begun { is_begun self.old ≡ true → result ≡ Ok tt }
        ensures same { is_begun self.new ≡ is_begun self.old }
        ensures socket { KeepsSocket U.keeps T.keeps self.old self.new }
    {
        let both = Interest::READABLE | Interest::WRITABLE;
        match self {
            Stream::Unix(stream) => registry.register(stream, token, both),
            Stream::Tcp(stream) => registry.register(stream, token, both | Interest::PRIORITY),
            Stream::Begun => Ok(()),
        }
    }
}

impl<U: UnixSocket, T: TcpSocket> Stream<U, T> {
    /// Whether a connection that was begun is made. An `Err`: it isn't and won't be.
    pub fn is_made(&self) -> io::Result<bool>
        ensures unix { IsOverUnix self.now → result ≡ Ok true }
        ensures begun { is_begun self.now ≡ true → result ≡ Ok false }
        ensures recorded { RecordsMade (of_socket (λ _. None) T.made self.now) result }
    {
        match self {
            Stream::Unix(_) => Ok(true),
            Stream::Tcp(stream) => made_of(stream.error()?, stream.has_peer()),
            Stream::Begun => Ok(false),
        }
    }

    /// Sends the end to the other side.
    pub fn finish(&mut self)
        ensures ended { of_socket U.ended T.ended self.new
            ≡ ended_once (of_socket U.ended T.ended self.old) }
        ensures unread { of_socket U.remaining T.remaining self.new
            ≡ of_socket U.remaining T.remaining self.old }
        ensures unwritten { of_socket U.contents T.contents self.new
            ≡ of_socket U.contents T.contents self.old }
    {
        match self {
            Stream::Unix(stream) => stream.end(finished_half()),
            Stream::Tcp(stream) => stream.end(finished_half()),
            Stream::Begun => {}
        }
    }
}

// Whether a connection is made, by its error and whether it has another side.
fn made_of(error: Option<io::Error>, has_peer: bool) -> io::Result<bool>
    ensures failed { IsSome error → IsErr result }
    ensures made { IsNone error → result ≡ Ok has_peer }
{
    match error {
        Some(e) => Err(e),
        None => Ok(has_peer),
    }
}

// Which half of a stream ends where its end is sent: what comes is still read.
fn finished_half() -> Shutdown
    ensures { result ≡ Shutdown.Write }
{
    Shutdown::Write
}

impl<U: UnixSocket, T: TcpSocket> ByteChannel for Stream<U, T> {
    ghost remaining = { of_socket U.remaining T.remaining };

    ghost contents = { of_socket U.contents T.contents };

    fn read_once(&mut self, into: &mut Piece, most: usize) -> io::Result<usize> {
        match self {
            Stream::Unix(stream) => stream.read_once(into, most),
            Stream::Tcp(stream) => stream.read_once(into, most),
            Stream::Begun => Err(io::Error::from(ErrorKind::WouldBlock)),
        }
    }

    fn write_once(&mut self, bytes: &[u8]) -> io::Result<usize> {
        match self {
            Stream::Unix(stream) => stream.write_once(bytes),
            Stream::Tcp(stream) => stream.write_once(bytes),
            Stream::Begun => Err(io::Error::from(ErrorKind::WouldBlock)),
        }
    }
}
