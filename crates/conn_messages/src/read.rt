ghost use Rattle.std.specs.Prelude.{◌≡◌, ◌≤◌, IfOk, Ok};
ghost use Rattle.ssh_grammar.specs.Gives.{Gives};
ghost use Rattle.ssh_grammar.specs.ReadMessage.{read_global_request, read_open, read_confirmation, read_open_failure, read_adjust, read_data, read_extended, read_request, message_on_end, read_as, read_message as reading};
ghost use Rattle.ssh_grammar.specs.IsMessage.{Spells};
ghost use Rattle.ssh_grammar.specs.Messages as grammar;
ghost use Rattle.conn_messages.specs.Message.{message_of, GivesPlain, GivesTo, form_of};

use crate::further::{opening_data, request_data};
use crate::message::Message;
use ssh_fields::FieldReader;
use ssh_grammar::Bad;
use ssh_grammar::numbers::*;

// A message with no field that isn't read yet.
fn bare<'a>(message: Message<'a>, fields: &mut FieldReader<'a>) -> Result<Message<'a>, Bad>
    ensures { Gives message_of result
        (message_on_end fields.old.cursor fields.old.at (message_of message.entry)) }
{
    fields.end()?;
    Ok(message)
}

// ---- the messages to no channel

fn global_request<'a>(fields: &mut FieldReader<'a>) -> Result<Message<'a>, Bad>
    requires { fields.old.at ≡ 1 }
    ensures { GivesPlain result (read_global_request fields.old.cursor) }
{
    let name = fields.take_string()?;
    let want = fields.take_bool()?;
    let rest = fields.rest();
    let what = request_data(name, fields)?;
    Ok(Message::GlobalRequest {
        name,
        want,
        rest,
        what,
    })
}

fn open<'a>(fields: &mut FieldReader<'a>) -> Result<Message<'a>, Bad>
    requires { fields.old.at ≡ 1 }
    ensures { GivesPlain result (read_open fields.old.cursor) }
{
    let kind = fields.take_string()?;
    let sender = fields.take_u32()?;
    let window = fields.take_u32()?;
    let maximum = fields.take_u32()?;
    let rest = fields.rest();
    let what = opening_data(kind, fields)?;
    Ok(Message::Open {
        kind,
        sender,
        window,
        maximum,
        rest,
        what,
    })
}

// ---- the messages to a channel, after the recipient

fn confirmation<'a>(recipient: u32, fields: &mut FieldReader<'a>) -> Result<Message<'a>, Bad>
    requires { fields.old.at ≡ 5 }
    ensures { GivesTo recipient result (read_confirmation fields.old.cursor) }
{
    let sender = fields.take_u32()?;
    let window = fields.take_u32()?;
    let maximum = fields.take_u32()?;
    let rest = fields.rest();
    Ok(Message::Confirmation {
        recipient,
        sender,
        window,
        maximum,
        rest,
    })
}

fn open_failure<'a>(recipient: u32, fields: &mut FieldReader<'a>) -> Result<Message<'a>, Bad>
    requires { fields.old.at ≡ 5 }
    ensures { GivesTo recipient result (read_open_failure fields.old.cursor) }
{
    let reason = fields.take_u32()?;
    let text = fields.take_string()?;
    let language = fields.take_string()?;
    fields.end()?;
    Ok(Message::OpenFailure {
        recipient,
        reason,
        text,
        language,
    })
}

fn adjust<'a>(recipient: u32, fields: &mut FieldReader<'a>) -> Result<Message<'a>, Bad>
    requires { fields.old.at ≡ 5 }
    ensures { GivesTo recipient result (read_adjust fields.old.cursor) }
{
    let add = fields.take_u32()?;
    fields.end()?;
    Ok(Message::Adjust { recipient, add })
}

fn data<'a>(recipient: u32, fields: &mut FieldReader<'a>) -> Result<Message<'a>, Bad>
    requires { fields.old.at ≡ 5 }
    ensures { GivesTo recipient result (read_data fields.old.cursor) }
{
    let bytes = fields.take_string()?;
    fields.end()?;
    Ok(Message::Data { recipient, bytes })
}

fn extended<'a>(recipient: u32, fields: &mut FieldReader<'a>) -> Result<Message<'a>, Bad>
    requires { fields.old.at ≡ 5 }
    ensures { GivesTo recipient result (read_extended fields.old.cursor) }
{
    let code = fields.take_u32()?;
    let bytes = fields.take_string()?;
    fields.end()?;
    Ok(Message::Extended {
        recipient,
        code,
        bytes,
    })
}

fn request<'a>(recipient: u32, fields: &mut FieldReader<'a>) -> Result<Message<'a>, Bad>
    requires { fields.old.at ≡ 5 }
    ensures { GivesTo recipient result (read_request fields.old.cursor) }
{
    let kind = fields.take_string()?;
    let want = fields.take_bool()?;
    let rest = fields.rest();
    Ok(Message::Request {
        recipient,
        kind,
        want,
        rest,
    })
}

// A message to a channel, by its number. The recipient comes first in each.
fn channel_message<'a>(number: u8, fields: &mut FieldReader<'a>) -> Result<Message<'a>, Bad>
    requires place { fields.old.at ≡ 1 }
    requires low { CHANNEL_OPEN_CONFIRMATION ≤ number }
    requires high { number ≤ CHANNEL_FAILURE }
    ensures { Gives message_of result (read_as number (form_of number) fields.old.cursor) }
{
    let recipient = fields.take_u32()?;
    match number {
        CHANNEL_OPEN_CONFIRMATION => confirmation(recipient, fields),
        CHANNEL_OPEN_FAILURE => open_failure(recipient, fields),
        CHANNEL_WINDOW_ADJUST => adjust(recipient, fields),
        CHANNEL_DATA => data(recipient, fields),
        CHANNEL_EXTENDED_DATA => extended(recipient, fields),
        CHANNEL_EOF => bare(Message::Eof { recipient }, fields),
        CHANNEL_CLOSE => bare(Message::Close { recipient }, fields),
        CHANNEL_REQUEST => request(recipient, fields),
        CHANNEL_SUCCESS => bare(Message::Success { recipient }, fields),
        CHANNEL_FAILURE => bare(Message::Failure { recipient }, fields),
        _ => unreachable!(),
    }
}

fn message<'a>(payload: &'a [u8]) -> Result<Message<'a>, Bad>
    ensures { Gives message_of result (reading payload.now) }
{
    let Some((number, rest)) = payload.split_first() else {
        return Err(Bad::Empty);
    };
    let number = *number;
    let mut fields = FieldReader::new(rest, 1);
    match number {
        DISCONNECT..=DEBUG => Ok(Message::Transport { number, rest }),
        GLOBAL_REQUEST => global_request(&mut fields),
        REQUEST_SUCCESS => Ok(Message::RequestSuccess { rest }),
        REQUEST_FAILURE => bare(Message::RequestFailure, &mut fields),
        CHANNEL_OPEN => open(&mut fields),
        CHANNEL_OPEN_CONFIRMATION..=CHANNEL_FAILURE => channel_message(number, &mut fields),
        _ => Err(Bad::Kind(number)),
    }
}

/// The message that a payload is, all of the payload; or its first fault from left to right, and
/// the fault's place.
pub fn read_message(payload: &[u8]) -> Result<Message<'_>, Bad>
    // What is read is spelled so.
    ensures spelled { IfOk result (λ m. Spells (message_of m) payload.now) }
    // What is spelled so is read.
    ensures only { (m : grammar.Message) → Spells m payload.now → Gives message_of result (Ok m) }
    // Which fault it is.
    ensures exact { Gives message_of result (reading payload.now) }
{
    message(payload)
}
