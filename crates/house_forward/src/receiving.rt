//! What the forwarder receives as a client.
ghost use Rattle.std.specs.Prelude.{◌≡◌, ◌≤◌, ◌+◌, length, OnOk, IfSome, None};
ghost use Rattle.std.specs.Option.{option_copied};
ghost use Rattle.house_forward.specs.Forwardings.{listeners_of};
ghost use Rattle.house_forward.specs.Known.{open_asks};
ghost use Rattle.house_forward.specs.Links.{streams_of, Offers};
ghost use Rattle.house_forward.specs.RelayTraces.{HouseGoes, ReceivesReading};
ghost use Rattle.ssh_grammar.specs.ReadMessage.{read_message as reading};

use crate::asks::PendingRequests;
use crate::forwarding::Forwarding;
use crate::forwardings::Forwardings;
use crate::link::{Link, LinkStream};
use crate::relays::Relays;
use crate::two_texts::TwoTexts;
use conn_messages::{Key, Message, Opening, read_message};
use house_relay::Relay;
use ssh_fields::{Cursor, OutOfMemory};
use std::alloc::Global;

/// Receives a payload. What doesn't fit is ignored: the master lets nothing of the kind through.
pub fn receive(
    alloc: Global,
    payload: &[u8],
    forwardings: &mut Forwardings,
    asks: &mut PendingRequests,
    relays: &mut Relays,
) -> Result<(), OutOfMemory>
    ensures open { open_asks asks.new.waiting.items ≡ open_asks asks.old.waiting.items }
    ensures asked { length asks.new.waiting.items ≡ length asks.old.waiting.items }
    ensures listeners { listeners_of forwardings.new.all.items
        ≡ listeners_of forwardings.old.all.items }
    ensures fewer { length forwardings.new.all.items ≤ length forwardings.old.all.items }
    ensures streams { streams_of relays.new.all.items ≡ streams_of relays.old.all.items }
    ensures count { length relays.new.all.items ≤ length relays.old.all.items + 1 }
    ensures goes { OnOk result (HouseGoes (ReceivesReading (reading payload.now))
        relays.old forwardings.old asks.old relays.new forwardings.new asks.new) }
{
    let Ok(message) = read_message(payload) else {
        return Ok(());
    };
    match message {
        Message::RequestSuccess { rest } => {
            let port = Cursor::new(rest).take_u32();
            forwardings.replied(true, port, asks);
            Ok(())
        }
        Message::RequestFailure => {
            forwardings.replied(false, None, asks);
            Ok(())
        }
        Message::Open {
            sender,
            window,
            maximum,
            what: Opening::Forwarded(Key::Tcp { address, port }),
            ..
        } => take_open(
            alloc,
            forwardings.of_server(address, port),
            relays,
            sender,
            window,
            maximum,
        ),
        Message::Transport { .. } | Message::GlobalRequest { .. } | Message::Open { .. } => Ok(()),
        Message::Confirmation { recipient, .. }
        | Message::OpenFailure { recipient, .. }
        | Message::Adjust { recipient, .. }
        | Message::Data { recipient, .. }
        | Message::Extended { recipient, .. }
        | Message::Eof { recipient }
        | Message::Close { recipient }
        | Message::Request { recipient, .. }
        | Message::Success { recipient }
        | Message::Failure { recipient } => relays.receive(recipient, &message),
    }
}

// An OPEN of the server at an address and a port: for a forwarding that it listens for there a socket
// is to be connected, and for others none.
#[tactic(auto, using(crate::proofs::Changes::offered_more))]
fn take_open(
    alloc: Global,
    forwarding: Option<&Forwarding>,
    relays: &mut Relays,
    remote: u32,
    window: u32,
    maximum: u32,
) -> Result<(), OutOfMemory>
    ensures others { option_copied forwarding.entry ≡ None
        → relays.new.all.items ≡ relays.old.all.items }
    ensures offered { OnOk result (IfSome (option_copied forwarding.entry)
        (λ f. Offers f remote window maximum relays.old.all.items relays.new.all.items)) }
    ensures streams { streams_of relays.new.all.items ≡ streams_of relays.old.all.items }
    ensures count { length relays.new.all.items ≤ length relays.old.all.items + 1 }
{
    let Some(forwarding) = forwarding else {
        return Ok(());
    };
    let host = TwoTexts::copy(alloc, forwarding.connect_host.as_bytes())?;
    let number = relays.free_number().ok_or(OutOfMemory)?;
    relays.push(Link {
        relay: Relay::offered(alloc, number, remote, window, maximum),
        stream: LinkStream::Offered {
            host,
            port: forwarding.connect_port,
        },
    })?;
    Ok(())
}
