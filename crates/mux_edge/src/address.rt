//! Numeric addresses.
ghost use Rattle.std.specs.Prelude.{◌≡◌, IfSome, List, MatchOption, ℕ};
ghost use Rattle.std.specs.Net.Socket.{IsPlainSocket, socket_ip};
ghost use Rattle.std.specs.declared.net.ip_addr.IpAddr.{IpAddr as Ip};
ghost use Rattle.mux_edge.specs.Hosts.{IsHost, IsInBrackets, IsIpv6};

use std::net::{IpAddr, Ipv6Addr, SocketAddr};

/// The address of a numeric host, which may stand in brackets where it is one of IPv6, and a port.
pub fn address_of(host: &[u8], port: u16) -> Option<SocketAddr>
    ensures ip { MatchOption result ((ip : Ip) → ¬ (IsHost host.now ip))
        (λ address. IsHost host.now (socket_ip address)) }
    ensures port { IfSome result (λ address. IsPlainSocket address port) }
{
    Some(SocketAddr::new(ip_of(host)?, port))
}

// The address that a host is.
fn ip_of(host: &[u8]) -> Option<IpAddr>
    ensures { MatchOption result ((ip : Ip) → ¬ (IsHost host.now ip)) (IsHost host.now) }
{
    match within_brackets(host) {
        Some(inner) => ipv6_of(inner),
        None => IpAddr::parse_ascii(host).ok(),
    }
}

// The address of IPv6 that a text is.
fn ipv6_of(text: &[u8]) -> Option<IpAddr>
    ensures { MatchOption result ((ip : Ip) → ¬ (IsIpv6 text.now ip)) (IsIpv6 text.now) }
{
    Some(IpAddr::V6(Ipv6Addr::parse_ascii(text).ok()?))
}

// What stands in brackets, if anything does.
fn within_brackets(host: &[u8]) -> Option<&[u8]>
    ensures { MatchOption result ((inner : List ℕ) → ¬ (IsInBrackets host.now inner))
        (λ inner. IsInBrackets host.now inner.now) }
{
    host.strip_prefix(b"[")?.strip_suffix(b"]")
}
