//! A dialog of SOCKS 5 (RFC 1928), from the count of its methods on.
ghost use Rattle.std.specs.Prelude.{◌≡◌, ◌==◌};
ghost use Rattle.std.specs.List.{list_any};
ghost use Rattle.ssh_fields.specs.Fields.{take_u8, split_at};
ghost use Rattle.socks_dialog.specs.Hosts.{dotted, grouped};
ghost use Rattle.socks_dialog.specs.Socks.{on, end5, name5, address5, reserved5, command5, request5, methods5, socks5};
ghost use Rattle.socks_dialog.specs.Reads.{IsReading, IsPlainDialog};

use crate::hosts::{dotted_decimal, eight_groups};
use crate::numbers::{
    ADDRESS_TYPE_NOT_SUPPORTED, COMMAND_NOT_SUPPORTED, CONNECT, DOMAIN_NAME, GENERAL_FAILURE, IPV4,
    IPV6, NO_AUTHENTICATION, RESERVED, VERSION_5,
};
use crate::outcome::{DialogReading, asks_for, ends_with, wants_more};
use crate::replies::{no_method_taken, reply_of_5};
use ssh_fields::Small;

// The port, which ends the request.
fn read_port(host: Small, bytes: &[u8]) -> DialogReading
    ensures { IsPlainDialog result (end5 host bytes.now) }
{
    match bytes {
        [high, low, rest @ ..] => asks_for(host, u16::from_be_bytes([*high, *low]), rest),
        _ => wants_more(),
    }
}

// An IPv4 address, and the port.
fn read_ipv4(bytes: &[u8]) -> DialogReading
    ensures { IsPlainDialog result (on (split_at 4 bytes.now) (λ address. end5 (dotted address))) }
{
    if bytes.len() < 4 {
        return wants_more();
    }
    let (address, rest) = bytes.split_at(4);
    read_port(dotted_decimal(address), rest)
}

// A name, which isn't empty, and the port.
fn read_name(bytes: &[u8]) -> DialogReading
    ensures { IsPlainDialog result (on (take_u8 bytes.now) name5) }
{
    match bytes {
        [] => wants_more(),
        [0, rest @ ..] => ends_with(reply_of_5(GENERAL_FAILURE), rest),
        [size, rest @ ..] => {
            let size = *size as usize;
            if rest.len() < size {
                return wants_more();
            }
            let (name, rest) = rest.split_at(size);
            read_port(Small::copy(name), rest)
        }
    }
}

// An IPv6 address, and the port.
fn read_ipv6(bytes: &[u8]) -> DialogReading
    ensures { IsPlainDialog result (on (split_at 16 bytes.now) (λ address. end5 (grouped address))) }
{
    if bytes.len() < 16 {
        return wants_more();
    }
    let (address, rest) = bytes.split_at(16);
    read_port(eight_groups(address), rest)
}

// The type of the address, and the address.
fn read_address(bytes: &[u8]) -> DialogReading
    ensures { IsPlainDialog result (on (take_u8 bytes.now) address5) }
{
    match bytes {
        [] => wants_more(),
        [IPV4, rest @ ..] => read_ipv4(rest),
        [DOMAIN_NAME, rest @ ..] => read_name(rest),
        [IPV6, rest @ ..] => read_ipv6(rest),
        [_, rest @ ..] => ends_with(reply_of_5(ADDRESS_TYPE_NOT_SUPPORTED), rest),
    }
}

// The reserved byte, and the address.
fn read_reserved(bytes: &[u8]) -> DialogReading
    ensures { IsPlainDialog result (on (take_u8 bytes.now) reserved5) }
{
    match bytes {
        [] => wants_more(),
        [RESERVED, rest @ ..] => read_address(rest),
        [_, rest @ ..] => ends_with(reply_of_5(GENERAL_FAILURE), rest),
    }
}

// The command, and what follows it.
fn read_command(bytes: &[u8]) -> DialogReading
    ensures { IsPlainDialog result (on (take_u8 bytes.now) command5) }
{
    match bytes {
        [] => wants_more(),
        [CONNECT, rest @ ..] => read_reserved(rest),
        [_, rest @ ..] => ends_with(reply_of_5(COMMAND_NOT_SUPPORTED), rest),
    }
}

// The request.
fn read_request(bytes: &[u8]) -> DialogReading
    ensures { IsPlainDialog result (on (take_u8 bytes.now) request5) }
{
    match bytes {
        [] => wants_more(),
        [VERSION_5, rest @ ..] => read_command(rest),
        [_, rest @ ..] => ends_with(reply_of_5(GENERAL_FAILURE), rest),
    }
}

// Whether one of the methods is to need no authentication.
fn needs_none(methods: &[u8]) -> bool
    ensures { result ≡ list_any (λ method. method == 0) methods.now }
{
    methods.iter().any(|method| *method == NO_AUTHENTICATION)
}

// The request after these methods, if one of them is chosen.
fn read_offer(methods: &[u8], rest: &[u8]) -> DialogReading
    ensures { IsReading result (methods5 methods.now rest.now) }
{
    if needs_none(methods) {
        let request = read_request(rest);
        DialogReading {
            chosen: true,
            outcome: request.outcome,
            rest: request.rest,
        }
    } else {
        ends_with(no_method_taken(), rest)
    }
}

/// The dialog, from the count of methods on.
pub fn read_methods(bytes: &[u8]) -> DialogReading
    ensures { IsReading result (socks5 bytes.now) }
{
    match bytes {
        [] => wants_more(),
        [count, rest @ ..] => {
            let count = *count as usize;
            if rest.len() < count {
                return wants_more();
            }
            let (methods, rest) = rest.split_at(count);
            read_offer(methods, rest)
        }
    }
}
