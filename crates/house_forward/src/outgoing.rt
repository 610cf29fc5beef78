//! What the forwarder sends as a client: whole frames, each in a piece of its own.
ghost use Rattle.std.specs.Prelude.{◌≡◌, ◌<◌, ◌≤◌, ◌++◌, ◌∷◌, [], false, length, take, is_some, OnOk, IfOk, IfSome};
ghost use Rattle.ssh_fields.specs.Fields.{str, u32};
ghost use Rattle.ssh_grammar.specs.Messages.{To, Data as GivesData};
ghost use Rattle.ssh_grammar.specs.SpellMessage.{spell};
ghost use Rattle.mux_outside.specs.House.{SendsFits};
ghost use Rattle.house_relay.specs.Next.{sends_of};
ghost use Rattle.house_relay.specs.Relay.{IsSending, RelayGoesOn};
ghost use Rattle.house_forward.specs.Going.{act_of_sending};
ghost use Rattle.house_forward.specs.Links.{relay_after_sending};
ghost use Rattle.house_forward.specs.Said.{framed, payload_of, direct, confirmation_of_open, sent_in_live, in_offer, is_data, limits, forwarding_request};
ghost use Rattle.mux_outside.specs.declared.piece.TheConstants.{LONGEST_PIECE};

use conn_messages::{close, open_failure};
use house_relay::{ChannelState, MAXIMUM, Outgoing, Relay, WINDOW};
use mux_outside::Piece;
use ssh_fields::{OutOfMemory, put_string, put_u32};
use ssh_grammar::numbers::{
    CHANNEL_DATA, CHANNEL_EOF, CHANNEL_FAILURE, CHANNEL_OPEN, CHANNEL_OPEN_CONFIRMATION,
    CHANNEL_WINDOW_ADJUST, CONNECT_FAILED, GLOBAL_REQUEST,
};
use std::alloc::Global;

/// The text of an OPEN_FAILURE where a socket couldn't be connected.
const NOT_CONNECTED: &[u8] = b"connect failed";

/// Puts these bytes into the piece.
pub fn put_whole(into: &mut Piece, bytes: &[u8]) -> Result<(), OutOfMemory>
    ensures bytes { OnOk result (into.new ≡ bytes.now) }
    ensures short { OnOk result (length into.new ≤ LONGEST_PIECE) }
{
    if bytes.len() > mux_outside::LONGEST_PIECE {
        return Err(OutOfMemory);
    }
    into.set(bytes);
    Ok(())
}

/// Puts the frame of a payload into the piece.
pub fn put_frame(into: &mut Piece, payload: &[u8]) -> Result<(), OutOfMemory>
    ensures frame { OnOk result (into.new ≡ framed payload.now) }
    ensures short { OnOk result (length into.new ≤ LONGEST_PIECE) }
{
    if payload.len() + 5 > mux_outside::LONGEST_PIECE {
        return Err(OutOfMemory);
    }
    let length = payload.len() as u32 + 1;
    into.set(&length.to_be_bytes());
    into.add(&[0]);
    into.add(payload);
    Ok(())
}

// Puts the frame of data in a channel into the piece.
fn put_data(into: &mut Piece, remote: u32, bytes: &[u8]) -> Result<(), OutOfMemory>
    ensures frame { OnOk result (into.new ≡ framed (spell (To remote (GivesData bytes.now)))) }
    ensures short { OnOk result (length into.new ≤ LONGEST_PIECE) }
{
    if bytes.len() + 14 > mux_outside::LONGEST_PIECE {
        return Err(OutOfMemory);
    }
    let count = bytes.len() as u32;
    into.set(&(count + 10).to_be_bytes());
    into.add(&[0, CHANNEL_DATA]);
    into.add(&remote.to_be_bytes());
    into.add(&count.to_be_bytes());
    into.add(bytes);
    Ok(())
}

/// Puts what a relay has to send into the piece, and whether there was something. It has sent it
/// then.
pub fn send(alloc: Global, relay: &mut Relay, into: &mut Piece) -> Result<bool, OutOfMemory>
    ensures exact { IfOk result (λ said. said ≡ is_some (sends_of relay.old)) }
    ensures fits { SendsFits result into.new }
    ensures said { IfOk result (λ said. relay.new ≡ relay_after_sending (sends_of relay.old) relay.old) }
    ensures spelled { IfOk result (λ said. IfSome (sends_of relay.old)
        (λ outgoing. into.new ≡ framed (payload_of relay.old outgoing))) }
    ensures goes { OnOk result (RelayGoesOn relay.old relay.new
        (act_of_sending (sends_of relay.old) relay.old)) }
    ensures few { length relay.new.held.waiting ≤ length relay.old.held.waiting }
{
    let Some(outgoing) = relay.says() else {
        return Ok(false);
    };
    put_sending(alloc, relay, outgoing, into)?;
    relay.said(outgoing);
    Ok(true)
}

// Puts the frame of what a relay sends into the piece.
fn put_sending(
    alloc: Global,
    relay: &Relay,
    outgoing: Outgoing,
    into: &mut Piece,
) -> Result<(), OutOfMemory>
    requires { IsSending outgoing relay.now }
    ensures frame { OnOk result (into.new ≡ framed (payload_of relay.now outgoing)) }
    ensures short { OnOk result (length into.new ≤ LONGEST_PIECE) }
{
    match &relay.line {
        ChannelState::Asked { host, port, .. } => {
            let payload = open(alloc, relay.number, host.as_bytes(), *port)?;
            put_frame(into, &payload)
        }
        ChannelState::Offered { remote, .. } => {
            let payload = answer(alloc, outgoing, *remote, relay.number)?;
            put_frame(into, &payload)
        }
        ChannelState::Live(live) => put_in_channel(
            alloc,
            outgoing,
            live.remote,
            relay.held.front(),
            into,
        ),
        ChannelState::Dialing(_) | ChannelState::Opened { .. } | ChannelState::Over => Err(
            OutOfMemory,
        ),
    }
}

// An OPEN of `direct-tcpip` (RFC 4254, section 7.2).
fn open(alloc: Global, number: u32, host: &[u8], port: u32) -> Result<Vec<u8>, OutOfMemory>
    ensures { IfOk result (λ payload. payload.items ≡ direct number host.now port) }
{
    let mut payload = Vec::new(alloc);
    payload.push(CHANNEL_OPEN)?;
    put_string(&mut payload, b"direct-tcpip")?;
    put_u32(&mut payload, number)?;
    put_limits(&mut payload)?;
    put_text(&mut payload, host)?;
    put_u32(&mut payload, port)?;
    put_string(&mut payload, b"127.0.0.1")?;
    put_u32(&mut payload, 0)?;
    Ok(payload)
}

// A host, which is never longer than any message.
fn put_text(out: &mut Vec<u8>, text: &[u8]) -> Result<(), OutOfMemory>
    ensures { OnOk result (out.new.items ≡ out.old.items ++ str text.now) }
{
    if text.len() > 65_536 {
        return Err(OutOfMemory);
    }
    put_string(out, text)
}

// A CONFIRMATION (RFC 4254, section 5.1).
fn confirmation(alloc: Global, remote: u32, number: u32) -> Result<Vec<u8>, OutOfMemory>
    ensures { IfOk result (λ payload. payload.items ≡ confirmation_of_open remote number) }
{
    let mut payload = Vec::new(alloc);
    payload.push(CHANNEL_OPEN_CONFIRMATION)?;
    put_u32(&mut payload, remote)?;
    put_u32(&mut payload, number)?;
    put_limits(&mut payload)?;
    Ok(payload)
}

// The window of a channel, and the longest data of one message.
fn put_limits(out: &mut Vec<u8>) -> Result<(), OutOfMemory>
    ensures { OnOk result (out.new.items ≡ out.old.items ++ limits) }
{
    put_u32(out, WINDOW)?;
    put_u32(out, MAXIMUM)?;
    Ok(())
}

// The answer to the server's OPEN.
fn answer(
    alloc: Global,
    outgoing: Outgoing,
    remote: u32,
    number: u32,
) -> Result<Vec<u8>, OutOfMemory>
    ensures { IfOk result (λ payload. payload.items ≡ in_offer outgoing remote number) }
{
    if outgoing == Outgoing::Confirmation {
        return confirmation(alloc, remote, number);
    }
    let mut payload = Vec::new(alloc);
    payload.extend_from_slice(open_failure(remote, CONNECT_FAILED, NOT_CONNECTED).as_bytes())?;
    Ok(payload)
}

// Puts the frame of what a relay sends in its confirmed channel into the piece. Data goes there at
// once.
fn put_in_channel(
    alloc: Global,
    outgoing: Outgoing,
    remote: u32,
    held: &[u8],
    into: &mut Piece,
) -> Result<(), OutOfMemory>
    ensures frame { OnOk result (into.new ≡ framed (sent_in_live outgoing remote held.now)) }
    ensures short { OnOk result (length into.new ≤ LONGEST_PIECE) }
{
    if let Outgoing::Data(count) = outgoing {
        return put_data(into, remote, first_of(held, count));
    }
    let payload = besides_data(alloc, outgoing, remote)?;
    put_frame(into, &payload)
}

// What a relay sends in its confirmed channel, but data.
fn besides_data(alloc: Global, outgoing: Outgoing, remote: u32) -> Result<Vec<u8>, OutOfMemory>
    requires { is_data outgoing ≡ false }
    ensures { IfOk result (λ payload. payload.items ≡ sent_in_live outgoing remote []) }
{
    let mut payload = Vec::new(alloc);
    match outgoing {
        Outgoing::Close => payload.extend_from_slice(close(remote).as_bytes())?,
        Outgoing::OpenFailure => {
            payload.extend_from_slice(open_failure(
                remote,
                CONNECT_FAILED,
                NOT_CONNECTED,
            ).as_bytes())?;
        }
        Outgoing::Failure => put_to(&mut payload, CHANNEL_FAILURE, remote)?,
        Outgoing::Eof => put_to(&mut payload, CHANNEL_EOF, remote)?,
        Outgoing::Adjust(owed) => {
            put_to(&mut payload, CHANNEL_WINDOW_ADJUST, remote)?;
            put_u32(&mut payload, owed)?;
        }
        Outgoing::Open | Outgoing::Confirmation | Outgoing::Data(_) => {}
    }
    Ok(payload)
}

// The number of a message, and its recipient.
fn put_to(out: &mut Vec<u8>, number: u8, remote: u32) -> Result<(), OutOfMemory>
    ensures { OnOk result (out.new.items ≡ out.old.items ++ (number ∷ u32 remote)) }
{
    out.push(number)?;
    put_u32(out, remote)?;
    Ok(())
}

/// A request about a forwarding that wants a reply (RFC 4254, section 7.1).
pub fn request(
    alloc: Global,
    name: &[u8],
    address: &[u8],
    port: u32,
) -> Result<Vec<u8>, OutOfMemory>
    ensures { IfOk result (λ payload. payload.items ≡ forwarding_request name.now address.now port) }
{
    let mut payload = Vec::new(alloc);
    payload.push(GLOBAL_REQUEST)?;
    put_text(&mut payload, name)?;
    payload.push(1)?;
    put_text(&mut payload, address)?;
    put_u32(&mut payload, port)?;
    Ok(payload)
}

// So many of the bytes, or all if there are fewer.
fn first_of(bytes: &[u8], count: u32) -> &[u8]
    ensures { result.now ≡ take count bytes.now }
{
    let count = count as usize;
    if count < bytes.len() {
        &bytes[..count]
    } else {
        bytes
    }
}
