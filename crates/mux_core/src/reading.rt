ghost use Rattle.std.specs.Prelude.{◌≡◌, Ok, Err, MatchResult};
ghost use Rattle.ssh_grammar.specs.IsMessage.{IsMessage};
ghost use Rattle.conn_messages.specs.Message.{message_of};
ghost use Rattle.mux_history.specs.Summary.{Within, summary, read_summary};
ghost use Rattle.window_ledger.specs.Act.{summary_act_of};
ghost use Rattle.mux_core.specs.Summaries.{summary_of};

use conn_messages::{Bad, Message, Opening, Request, read_message};
use window_ledger::Act;

/// What a message does, without the texts and data that only pass.
#[derive(Clone, Copy)]
pub enum Summary<'a> {
    Transport {
        number: u8,
    },
    Requests {
        what: Request<'a>,
        want: bool,
    },
    Succeeds {
        rest: &'a [u8],
    },
    Refuses,
    Open {
        what: Opening<'a>,
        sender: u32,
        window: u32,
        maximum: u32,
    },
    Confirmation {
        recipient: u32,
        sender: u32,
        window: u32,
        maximum: u32,
    },
    /// A failed open.
    Fails {
        recipient: u32,
    },
    Within {
        recipient: u32,
        act: Act,
    },
}

// An act in a channel that both sides have confirmed.
fn act_in<'a>(recipient: u32, act: Act) -> Summary<'a>
    ensures { summary_of result ≡ Within recipient (summary_act_of act) }
{
    Summary::Within { recipient, act }
}

fn summary_of<'a>(message: Message<'a>) -> Summary<'a>
    requires { IsMessage (message_of message) }
    ensures { summary_of result ≡ summary (message_of message.entry) }
{
    match message {
        Message::Transport { number, .. } => Summary::Transport { number },
        Message::GlobalRequest { what, want, .. } => Summary::Requests { what, want },
        Message::RequestSuccess { rest } => Summary::Succeeds { rest },
        Message::RequestFailure => Summary::Refuses,
        Message::Open {
            sender,
            window,
            maximum,
            what,
            ..
        } => Summary::Open {
            what,
            sender,
            window,
            maximum,
        },
        Message::Confirmation {
            recipient,
            sender,
            window,
            maximum,
            ..
        } => Summary::Confirmation {
            recipient,
            sender,
            window,
            maximum,
        },
        Message::OpenFailure { recipient, .. } => Summary::Fails { recipient },
        Message::Adjust { recipient, add } => act_in(recipient, Act::Grant(add)),
        Message::Data { recipient, bytes }
        | Message::Extended {
            recipient,
            bytes,
            ..
        } => { act_in(recipient, Act::Data(bytes.len() as u32)) }
        Message::Eof { recipient } => act_in(recipient, Act::Eof),
        Message::Close { recipient } => act_in(recipient, Act::Close),
        Message::Request {
            recipient,
            want,
            ..
        } => act_in(recipient, Act::Request(want)),
        Message::Success { recipient } | Message::Failure { recipient } => {
            act_in(recipient, Act::Reply)
        }
    }
}

/// The summary of a payload, or why it doesn't read.
pub fn read_summary(payload: &[u8]) -> Result<Summary<'_>, Bad>
    ensures { MatchResult result (λ m. read_summary payload.now ≡ Ok (summary_of m)) (λ e.
        read_summary payload.now ≡ Err e) }
{
    match read_message(payload) {
        Ok(message) => Ok(summary_of(message)),
        Err(bad) => Err(bad),
    }
}
