//! A request of SOCKS 4 or 4a, from its command on.
ghost use Rattle.std.specs.Prelude.{◌≡◌, length};
ghost use Rattle.socks_dialog.specs.Socks.{on, is_for_name, take_text, take_port, name4, user4, address4, socks4};
ghost use Rattle.socks_dialog.specs.Reads.{IsPlainDialog};

use crate::hosts::dotted_decimal;
use crate::numbers::{CONNECT, REJECTED};
use crate::outcome::{DialogReading, asks_for, ends_with, wants_more};
use crate::replies::reply_of_4;
use crate::text::{DialogText, text_of};
use ssh_fields::Small;

// The host's name, which ends the request.
fn read_name(port: u16, bytes: &[u8]) -> DialogReading
    ensures { IsPlainDialog result (on (take_text bytes.now) (name4 port)) }
{
    match text_of(bytes) {
        DialogText::Open => wants_more(),
        DialogText::TooLong { rest } => ends_with(reply_of_4(REJECTED), rest),
        DialogText::Whole { text, rest } => {
            if text.is_empty() {
                ends_with(reply_of_4(REJECTED), rest)
            } else {
                asks_for(Small::copy(text), port, rest)
            }
        }
    }
}

// Whether an address represents a name that follows.
fn represents_name(address: &[u8]) -> bool
    ensures { result ≡ is_for_name address.now }
{
    match address {
        [0, 0, 0, x] => *x != 0,
        _ => false,
    }
}

// The user, and then the end of the request or a name.
fn read_user(port: u16, address: &[u8], bytes: &[u8]) -> DialogReading
    requires { length address.now ≡ 4 }
    ensures { IsPlainDialog result (on (take_text bytes.now) (user4 port address.now)) }
{
    match text_of(bytes) {
        DialogText::Open => wants_more(),
        DialogText::TooLong { rest } => ends_with(reply_of_4(REJECTED), rest),
        DialogText::Whole { rest, .. } => {
            if represents_name(address) {
                read_name(port, rest)
            } else {
                asks_for(dotted_decimal(address), port, rest)
            }
        }
    }
}

// A port and an address, and what follows them.
fn read_port(bytes: &[u8]) -> DialogReading
    ensures { IsPlainDialog result (on (take_port bytes.now) address4) }
{
    match bytes {
        [high, low, rest @ ..] => {
            if rest.len() < 4 {
                return wants_more();
            }
            let (address, rest) = rest.split_at(4);
            read_user(u16::from_be_bytes([*high, *low]), address, rest)
        }
        _ => wants_more(),
    }
}

/// The request, from its command on.
pub fn read_command(bytes: &[u8]) -> DialogReading
    ensures { IsPlainDialog result (socks4 bytes.now) }
{
    match bytes {
        [] => wants_more(),
        [CONNECT, rest @ ..] => read_port(rest),
        [_, rest @ ..] => ends_with(reply_of_4(REJECTED), rest),
    }
}
