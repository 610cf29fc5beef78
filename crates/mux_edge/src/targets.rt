//! Where a stream connects to by a name: the addresses of the name, tried in turn.
ghost use Rattle.std.specs.Prelude.{◌≡◌, ◌<◌, ◌+◌, Some, OnErr, OnOk, OnSome, IfNone, IfOk, IfSome, slice_get};
ghost use Rattle.std.specs.Net.Socket.{IsPlainSocket, socket_ip};
ghost use Rattle.mux_edge.specs.Targets.{IsBegunTo};

use crate::socket::{TcpSocket, UnixSocket};
use crate::stream::Stream;
use mio::{Registry, Token};
use std::alloc::{AllocError, Global};
use std::io;
use std::io::ErrorKind;
use std::net::{IpAddr, Net, SocketAddr};

/// Where a stream connects to: a name and a port, and the addresses that are tried in turn.
#[derive(Drop)]
pub struct Target {
    pub name: Vec<u8>,
    pub port: u16,
    /// `None`: the look-up hasn't ended
    pub addresses: Option<Vec<IpAddr>>,
    pub tried: usize,
}

impl Target {
    ghost use Rattle.mux_edge.specs.Targets.{IsResolved, IsTriedAddress, awaits_lookup, addresses_left_of};

    // The address that is tried next.
    fn next(&mut self) -> Option<SocketAddr>
        ensures port { IfSome result (λ address. IsPlainSocket address self.old.port) }
        ensures in_turn { IfSome result (λ address. IfSome self.old.addresses (λ addresses.
            slice_get addresses.items self.old.tried ≡ Some (socket_ip address))) }
        ensures moved { OnSome result (self.new ≡ record self.old { tried = self.old.tried + 1 }) }
        ensures fewer { OnSome result (addresses_left_of self.new < addresses_left_of self.old) }
        ensures same { IfNone result (self.new ≡ self.old) }
        ensures none_left { IfNone result (addresses_left_of self.new ≡ 0) }
    {
        let address = *self.addresses.as_ref()?.get(self.tried)?;
        self.tried = self.tried.saturating_add(1);
        Some(SocketAddr::new(address, self.port))
    }

    /// Begins to connect to the next address that can be tried, under this number. `Err`: none is
    /// left.
    pub fn connect<N: Net, U: UnixSocket, T: TcpSocket>(
        &mut self,
        rt: &N,
        registry: &Registry,
        number: u64,
    ) -> io::Result<Stream<U, T>>
        ensures connects { IfOk result
            (IsBegunTo U.keeps T.keeps T.target (IsTriedAddress self.old self.new)) }
        ensures rest { self.new ≡ record self.old { tried = self.new.tried } }
        ensures none_left { OnErr result (addresses_left_of self.new ≡ 0) }
    {
        while let Some(address) = self.next() {
            if let Ok(stream) = connected(rt, registry, number, address) {
                return Ok(stream);
            }
        }
        Err(io::Error::from(ErrorKind::NotFound))
    }

    /// Takes the addresses of this name, if it waits for them.
    pub fn resolve(
        &mut self,
        alloc: Global,
        name: &[u8],
        addresses: &[IpAddr],
    ) -> Result<(), AllocError>
        ensures ok { OnOk result (IsResolved name.now addresses.now self.old self.new) }
        ensures err { OnErr result (self.new ≡ self.old) }
    {
        if self.awaits(name) {
            self.addresses = Some(Vec::from_slice(alloc, addresses)?);
        }
        Ok(())
    }

    /// Whether it waits for the look-up of this name.
    pub fn awaits(&self, name: &[u8]) -> bool
        ensures { result ≡ awaits_lookup self.now name.now }
    {
        self.addresses.is_none() && self.name.as_slice() == name
    }
}

// Begins to connect to an address, under this number.
fn connected<N: Net, U: UnixSocket, T: TcpSocket>(
    rt: &N,
    registry: &Registry,
    number: u64,
    address: SocketAddr,
) -> io::Result<Stream<U, T>>
    ensures { IfOk result (IsBegunTo U.keeps T.keeps T.target (λ to. to ≡ address)) }
{
    let mut stream = Stream::connect(rt, address)?;
    stream.register(registry, Token(number as usize))?;
    Ok(stream)
}
