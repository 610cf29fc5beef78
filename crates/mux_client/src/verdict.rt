//! What a master's reply means, and what is shown of it.
ghost use Rattle.std.specs.Prelude.{◌≡◌, IfOk, Some};
ghost use Rattle.mux_client.specs.Requests.{Request, request_at};
ghost use Rattle.mux_client.specs.Replies.{verdict as verdict_by_body, for_id};
ghost use Rattle.mux_client.specs.Verdicts.{meant_by, text_of_line, on_okay, on_alive, on_port, verdict_by};

use crate::answer::{Answer, read_answer};
use crate::asks::Asks;
use ssh_fields::{OutOfMemory, Text};
use std::alloc::Global;

/// What is shown where a request was granted.
#[derive(Clone, Copy, PartialEq, Eq)]
pub enum OutLine {
    /// The master runs with this process id.
    Running { pid: u32 },
    /// The master ends.
    ExitSent,
    /// The master accepts no more clients.
    StopSent,
    /// The server chose this port.
    Port { port: u32 },
    Nothing,
}

/// What a reply means.
#[derive(Clone, Copy, PartialEq, Eq)]
pub enum ReplyVerdict {
    /// The request is done.
    Grants(OutLine),
    Refuses,
    /// No reply to the request: the master broke the protocol.
    Breaks,
}

// What a success without a value means.
fn okay(asks: &Asks) -> ReplyVerdict
    ensures { meant_by result ≡ on_okay asks.now }
{
    match asks {
        Asks::Check => ReplyVerdict::Breaks,
        Asks::Exit => ReplyVerdict::Grants(OutLine::ExitSent),
        Asks::Stop => ReplyVerdict::Grants(OutLine::StopSent),
        Asks::Forwards { .. } => ReplyVerdict::Grants(OutLine::Nothing),
    }
}

// What it means that the master runs with this process id.
fn alive(asks: &Asks, pid: u32) -> ReplyVerdict
    ensures { meant_by result ≡ on_alive asks.now pid }
{
    match asks {
        Asks::Check => ReplyVerdict::Grants(OutLine::Running { pid }),
        _ => ReplyVerdict::Breaks,
    }
}

// What it means that the server chose this port.
fn bound(asks: &Asks, port: u32) -> ReplyVerdict
    ensures { meant_by result ≡ on_port asks.now port }
{
    match asks {
        Asks::Forwards { opening: true, .. } => ReplyVerdict::Grants(OutLine::Port { port }),
        _ => ReplyVerdict::Breaks,
    }
}

// A reply answers the request alone whose id it has.
fn to_request(id: u32, of: u32, verdict: ReplyVerdict) -> ReplyVerdict
    ensures { meant_by result ≡ for_id id of (meant_by verdict) }
{
    if of == id {
        verdict
    } else {
        ReplyVerdict::Breaks
    }
}

// What an answer means to the request with this id.
fn meaning(asks: &Asks, id: u32, answer: Answer) -> ReplyVerdict
    ensures { meant_by result ≡ verdict_by asks.now id answer }
{
    match answer {
        Answer::Okay { id: of } => to_request(id, of, okay(asks)),
        Answer::Refusal { id: of } => to_request(id, of, ReplyVerdict::Refuses),
        Answer::Alive { id: of, pid } => to_request(id, of, alive(asks, pid)),
        Answer::RemotePort { id: of, port } => to_request(id, of, bound(asks, port)),
        Answer::Other => ReplyVerdict::Breaks,
    }
}

/// What a body means to the request with this id.
pub fn verdict_of(asks: &Asks, id: u32, body: &[u8]) -> ReplyVerdict
    ensures { (request : Request) → request_at asks.now id ≡ Some request
        → meant_by result ≡ verdict_by_body request id body.now }
{
    match read_answer(body) {
        Some(answer) => meaning(asks, id, answer),
        None => ReplyVerdict::Breaks,
    }
}

/// A line, as it is shown.
pub fn text_of(alloc: Global, line: OutLine) -> Result<Text, OutOfMemory>
    ensures { IfOk result (λ text. text ≡ text_of_line line) }
{
    let mut text = Text::new(alloc);
    match line {
        OutLine::Running { pid } => {
            let digits = pid.to_string(alloc)?;
            text.add(b"Master running (pid=")?;
            text.add(digits.as_bytes())?;
            text.add(b")\n")?;
        }
        OutLine::ExitSent => text.add(b"Exit request sent.\n")?,
        OutLine::StopSent => text.add(b"Stop listening request sent.\n")?,
        OutLine::Port { port } => {
            let digits = port.to_string(alloc)?;
            text.add(digits.as_bytes())?;
            text.add(b"\n")?;
        }
        OutLine::Nothing => {}
    }
    Ok(text)
}
