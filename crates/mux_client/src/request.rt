//! Requests, written as frames.
ghost use Rattle.std.specs.Prelude.{◌≡◌, ◌++◌, length, IfOk, OnOk, is_some};
ghost use Rattle.mux_client.specs.Requests.{hello_frame, short_frame, request_frame, frame_due, request_at, requests_of, MayAsk, HasShortHosts, forward_kind, forward_request};

use crate::asks::Asks;
use mux_outside::StartAsk;
use ssh_fields::{OutOfMemory, put_string, put_u32};
use ssh_grammar::numbers::{
    ALIVE_CHECK, CLOSE_FWD, HELLO, OPEN_FWD, STOP_LISTENING, TERMINATE, VERSION,
};

/// Writes the hello, which has no extension.
pub fn put_hello(out: &mut Vec<u8>) -> Result<(), OutOfMemory>
    ensures { OnOk result (out.new.items ≡ out.old.items ++ hello_frame) }
{
    put_short(out, HELLO, VERSION)
}

// Writes a frame of a type and one number.
fn put_short(out: &mut Vec<u8>, kind: u32, n: u32) -> Result<(), OutOfMemory>
    ensures { OnOk result (out.new.items ≡ out.old.items ++ short_frame kind n) }
{
    put_u32(out, 8)?;
    put_u32(out, kind)?;
    put_u32(out, n)
}

// The type of a request to open a forwarding, or to close it.
fn kind_of(opening: bool) -> u32
    ensures { result ≡ forward_kind opening }
{
    if opening { OPEN_FWD } else { CLOSE_FWD }
}

// Writes a request to open a forwarding, or to close it.
fn put_forward(out: &mut Vec<u8>, id: u32, opening: bool, ask: &StartAsk) -> Result<(), OutOfMemory>
    requires { HasShortHosts ask.now }
    ensures { OnOk result (out.new.items ≡ out.old.items
        ++ request_frame id (forward_request opening ask.now)) }
{
    let listen_host = ask.listen_host.as_bytes();
    let connect_host = ask.connect_host.as_bytes();
    let size = 28 + listen_host.len() as u32 + connect_host.len() as u32;
    put_u32(out, size)?;
    put_u32(out, kind_of(opening))?;
    put_u32(out, id)?;
    put_u32(out, ask.kind)?;
    put_string(out, listen_host)?;
    put_u32(out, ask.listen_port)?;
    put_string(out, connect_host)?;
    put_u32(out, ask.connect_port)?;
    Ok(())
}

/// How many requests there are.
pub fn count_of(asks: &Asks) -> usize
    ensures { result ≡ length (requests_of asks.now) }
{
    match asks {
        Asks::Forwards { what, .. } => what.len(),
        _ => 1,
    }
}

/// Writes the request with this id, where there is one: whether there is.
pub fn put_request(out: &mut Vec<u8>, asks: &Asks, id: u32) -> Result<bool, OutOfMemory>
    requires { MayAsk asks.now }
    ensures some { IfOk result (λ some. some ≡ is_some (request_at asks.now id)) }
    ensures exact { OnOk result (out.new.items ≡ out.old.items
        ++ frame_due id (request_at asks.now id)) }
{
    match asks {
        Asks::Forwards { opening, what } => match what.as_slice().get(id as usize) {
            Some(ask) => {
                put_forward(out, id, *opening, ask)?;
                Ok(true)
            }
            None => Ok(false),
        },
        _ if id > 0 => Ok(false),
        Asks::Check => {
            put_short(out, ALIVE_CHECK, id)?;
            Ok(true)
        }
        Asks::Exit => {
            put_short(out, TERMINATE, id)?;
            Ok(true)
        }
        Asks::Stop => {
            put_short(out, STOP_LISTENING, id)?;
            Ok(true)
        }
    }
}
