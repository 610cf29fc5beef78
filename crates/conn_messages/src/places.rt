ghost use Rattle.std.specs.Prelude.{◌≡◌, ◌+◌, ◌≤◌, length, IfSome};
ghost use Rattle.ssh_grammar.specs.SpellMessage.{recipient_place, sender_place, recipient_at, sender_at};
ghost use Rattle.conn_messages.specs.Message.{message_of};

use crate::message::Message;
use crate::read::read_message;

/// The place after the message's number.
const AFTER_NUMBER: usize = 1;

/// The place after the message's number and a recipient.
const AFTER_RECIPIENT: usize = 5;

/// The bytes of the message's number and of a string's length.
const BEFORE_TYPE: usize = 5;

fn recipient_place(message: &Message<'_>) -> Option<usize>
    ensures { result ≡ recipient_place (message_of message.now) }
{
    match message {
        Message::Transport { .. }
        | Message::GlobalRequest { .. }
        | Message::RequestSuccess { .. }
        | Message::RequestFailure
        | Message::Open { .. } => None,
        _ => Some(AFTER_NUMBER),
    }
}

fn sender_place(message: &Message<'_>) -> Option<usize>
    ensures { result ≡ sender_place (message_of message.now) }
{
    match message {
        Message::Open { kind, .. } => Some(BEFORE_TYPE + kind.len()),
        Message::Confirmation { .. } => Some(AFTER_RECIPIENT),
        _ => None,
    }
}

/// Where the recipient's four bytes stand in a payload; None exactly where it doesn't read, or has
/// no recipient.
pub fn recipient_at(payload: &[u8]) -> Option<usize>
    ensures place { result ≡ recipient_at payload.now }
    ensures within { IfSome result (λ at. at + 4 ≤ length payload.now) }
{
    let message = read_message(payload).ok()?;
    recipient_place(&message)
}

/// Where the sender's four bytes stand in a payload; None exactly where it doesn't read, or has no
/// sender.
pub fn sender_at(payload: &[u8]) -> Option<usize>
    ensures place { result ≡ sender_at payload.now }
    ensures within { IfSome result (λ at. at + 4 ≤ length payload.now) }
{
    let message = read_message(payload).ok()?;
    sender_place(&message)
}
