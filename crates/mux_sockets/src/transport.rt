//! The connection to the server.
ghost use Rattle.std.specs.Prelude.{IfOk, IsErr, IsUtf8};
ghost use Rattle.mux_edge.specs.Transport.{IsOverTransport, IsOverUnix};

use mio::net::TcpStream;
use mio::{Events, Interest, Poll, Token};
use mux_edge::{RealStream, Stream};
use std::alloc::Global;
use std::fs::Files;
use std::net::{Net, SocketAddr};
use std::os::unix::net;
use std::time::Duration;
use std::{io, str};

// How many seconds a connection over TCP may take.
const CONNECT_SECONDS: u32 = 60;

/// Connects to a Unix socket's path where there is a slash, else to a numeric address and port.
pub fn connect<R: Files + Net>(rt: &R, alloc: Global, transport: &[u8]) -> io::Result<RealStream>
    ensures { IfOk result (λ stream. IsOverTransport stream transport.now) }
{
    if transport.contains(&b'/') {
        return connect_unix(rt, transport);
    }
    let Ok(addr) = SocketAddr::parse_ascii(transport) else {
        return Err(io::Error::from(io::ErrorKind::InvalidInput));
    };
    let mut stream = TcpStream::connect(rt, addr)?;
    finish(rt, alloc, &mut stream)?;
    stream.set_nodelay(true)?;
    Ok(Stream::Tcp(stream))
}

/// Connects to a Unix socket's path.
pub fn connect_unix<R: Files + Net>(rt: &R, path: &[u8]) -> io::Result<RealStream>
    ensures over { IfOk result (λ stream. IsOverUnix stream) }
    ensures not_text { ¬ (IsUtf8 path.now) → IsErr result }
{
    let Ok(path) = str::from_utf8(path) else {
        return Err(io::Error::from(io::ErrorKind::InvalidInput));
    };
    // This waits where the server's backlog is full; a non-blocking connect would be refused there.
    let stream = net::UnixStream::connect(rt, path)?;
    stream.set_nonblocking(true)?;
    Ok(Stream::Unix(mio::net::UnixStream::from_std(stream)))
}

// Waits, with a poll of its own, until the connection is made.
fn finish<R: Net>(rt: &R, alloc: Global, stream: &mut TcpStream) -> io::Result<()> {
    let mut poll = Poll::new(rt)?;
    let mut events = Events::with_capacity(alloc, 4)?;
    poll.registry()
        .register(stream, Token(0), Interest::WRITABLE)?;
    wait_until_made(&mut poll, &mut events, stream)?;
    poll.registry().deregister(stream)
}

// Waits until the connection is made.
fn wait_until_made(poll: &mut Poll, events: &mut Events, stream: &TcpStream) -> io::Result<()> {
    for _ in 0..CONNECT_SECONDS {
        poll.poll(events, Some(Duration::from_secs(1)))?;
        if is_made(stream)? {
            return Ok(());
        }
    }
    Err(io::Error::from(io::ErrorKind::TimedOut))
}

// Whether a connection is made. `Err`: it can't be.
fn is_made(stream: &TcpStream) -> io::Result<bool> {
    match stream.take_error()? {
        Some(e) => Err(e),
        None => Ok(stream.peer_addr().is_ok()),
    }
}
