//! What clients, server and master write in a drill.
ghost use Rattle.std.specs.Prelude.{◌≡◌, ◌≤◌, ◌<◌, ◌+◌, ◌^◌, [], ◌++◌, OnOk, IfOk, length, replicate, codes};
ghost use Rattle.ssh_fields.specs.Fields.{u32, u32_at};
ghost use Rattle.ssh_grammar.specs.Frames.{frame_body, frame_payload};
ghost use Rattle.ssh_grammar.specs.Messages.{Session, Plain, To, Open, Confirmation, Adjust, Data};
ghost use Rattle.ssh_grammar.specs.SpellMessage.{spell};
ghost use Rattle.mux_drill.specs.Frames.{open_frame, confirmation_frame, adjust_frame, data_frame, close_frame, greeting, welcome, opener_in};

use conn_messages::close;
use ssh_fields::{OutOfMemory, Small, Text, put_string, put_u32};
use ssh_grammar::numbers::*;
use std::alloc::Global;

const WINDOW: u32 = 2_097_152;

const MAXIMUM: u32 = 32_768;

// Adds a payload as a frame.
fn add_frame(text: &mut Text, payload: &[u8]) -> Result<(), OutOfMemory>
    requires { length payload.now < 4096 }
    ensures { OnOk result (text.new ≡ text.old ++ frame_payload payload.now) }
{
    let mut head = Small::copy(&[]);
    head.push_u32(payload.len() as u32 + 1);
    head.push(&[0]);
    text.add(head.as_bytes())?;
    text.add(payload)
}

fn open_payload(sender: u32) -> Small
    ensures spelled { result
        ≡ spell (Plain (Open (codes "session") sender 2097152 32768 [] Session)) }
    ensures short { length result ≤ 512 }
{
    let mut payload = Small::copy(&[CHANNEL_OPEN]);
    payload.push_string(b"session");
    payload.push_u32(sender);
    payload.push_u32(WINDOW);
    payload.push_u32(MAXIMUM);
    payload
}

fn confirmation_payload(recipient: u32, sender: u32) -> Small
    ensures { result ≡ spell (To recipient (Confirmation sender 2097152 32768 [])) }
{
    let mut payload = Small::copy(&[CHANNEL_OPEN_CONFIRMATION]);
    payload.push_u32(recipient);
    payload.push_u32(sender);
    payload.push_u32(WINDOW);
    payload.push_u32(MAXIMUM);
    payload
}

fn adjust_payload(recipient: u32, len: u32) -> Small
    ensures { result ≡ spell (To recipient (Adjust len)) }
{
    let mut payload = Small::copy(&[CHANNEL_WINDOW_ADJUST]);
    payload.push_u32(recipient);
    payload.push_u32(len);
    payload
}

fn data_payload(alloc: Global, recipient: u32, len: u32, byte: u8) -> Result<Text, OutOfMemory>
    requires { len ≤ 1024 }
    ensures spelled { IfOk result (λ payload.
        payload ≡ spell (To recipient (Data (replicate len byte)))) }
    ensures short { IfOk result (λ payload. length payload < 4096) }
{
    let mut bytes = Vec::new(alloc);
    bytes.resize(len as usize, byte)?;
    let mut head = Small::copy(&[CHANNEL_DATA]);
    head.push_u32(recipient);
    head.push_u32(len);
    let mut payload = Text::copy(alloc, head.as_bytes())?;
    payload.add(&bytes)?;
    Ok(payload)
}

// A control message of a number and a word.
fn control_frame(number: u32, word: u32) -> Small
    ensures { result ≡ frame_body (u32 number ++ u32 word) }
{
    let mut body = Small::copy(&[]);
    body.push_u32(number);
    body.push_u32(word);
    let mut frame = Small::copy(&[]);
    frame.push_string(body.as_bytes());
    frame
}

/// Adds the frame of a session's open.
#[tactic(auto, unfolding(crate::specs::Frames::open_frame))]
pub fn add_open(text: &mut Text, sender: u32) -> Result<(), OutOfMemory>
    ensures { OnOk result (text.new ≡ text.old ++ open_frame sender) }
{
    add_frame(text, open_payload(sender).as_bytes())
}

/// Adds the frame that confirms an open.
#[tactic(auto, unfolding(crate::specs::Frames::confirmation_frame))]
pub fn add_confirmation(text: &mut Text, recipient: u32, sender: u32) -> Result<(), OutOfMemory>
    ensures { OnOk result (text.new ≡ text.old ++ confirmation_frame recipient sender) }
{
    add_frame(text, confirmation_payload(recipient, sender).as_bytes())
}

/// Adds the frame of an adjustment.
#[tactic(auto, unfolding(crate::specs::Frames::adjust_frame))]
pub fn add_adjust(text: &mut Text, recipient: u32, len: u32) -> Result<(), OutOfMemory>
    ensures { OnOk result (text.new ≡ text.old ++ adjust_frame recipient len) }
{
    add_frame(text, adjust_payload(recipient, len).as_bytes())
}

/// Adds the frame of data.
#[tactic(auto, unfolding(crate::specs::Frames::data_frame))]
pub fn add_data(
    alloc: Global,
    text: &mut Text,
    recipient: u32,
    len: u32,
    byte: u8,
) -> Result<(), OutOfMemory>
    requires { len ≤ 1024 }
    ensures { OnOk result (text.new ≡ text.old ++ data_frame recipient len byte) }
{
    let payload = data_payload(alloc, recipient, len, byte)?;
    add_frame(text, payload.as_bytes())
}

/// Adds the frame that closes a channel.
#[tactic(auto, unfolding(crate::specs::Frames::close_frame))]
pub fn add_close(text: &mut Text, recipient: u32) -> Result<(), OutOfMemory>
    ensures { OnOk result (text.new ≡ text.old ++ close_frame recipient) }
{
    add_frame(text, close(recipient).as_bytes())
}

/// Adds what a client sends first.
#[tactic(auto, unfolding(crate::specs::Frames::greeting))]
pub fn add_greeting(text: &mut Text) -> Result<(), OutOfMemory>
    ensures { OnOk result (text.new ≡ text.old ++ greeting) }
{
    text.add(control_frame(HELLO, 4).as_bytes())?;
    text.add(control_frame(PROXY, 0).as_bytes())?;
    add_open(text, 0)
}

/// Adds what a client reads first.
#[tactic(auto, unfolding(crate::specs::Frames::welcome))]
pub fn add_welcome(text: &mut Text, number: u32) -> Result<(), OutOfMemory>
    ensures { OnOk result (text.new ≡ text.old ++ welcome number) }
{
    text.add(control_frame(HELLO, 4).as_bytes())?;
    text.add(control_frame(S_PROXY, 0).as_bytes())?;
    add_confirmation(text, 0, number)
}

// The number that four bytes spell, 0 where too few are there.
fn first_u32(bytes: &[u8]) -> u32
    ensures { result ≡ u32_at 0 bytes.now }
{
    match bytes {
        [a, b, c, d, ..] => u32::from_be_bytes([*a, *b, *c, *d]),
        _ => 0,
    }
}

/// The sender's number in an open of a session, 0 where too few bytes are there.
#[tactic(auto, using(std::proofs::lemmas::List::drop_min), unfolding(crate::specs::Frames::opener_in))]
pub fn opener_in(bytes: &[u8]) -> u32
    ensures { result ≡ opener_in bytes.now }
{
    first_u32(&bytes[17.min(bytes.len())..])
}
