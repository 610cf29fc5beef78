//! A master's messages, read in place.
ghost use Rattle.std.specs.Prelude.{◌≡◌, ℕ, List, None};
ghost use Rattle.mux_client.specs.Replies.{is_hello};
ghost use Rattle.ssh_grammar.specs.Control as grammar;
ghost use Rattle.ssh_grammar.specs.ReadAnswer.{read_one, read_two, read_reason, answer_forms, read_answer as reading};
ghost use Rattle.ssh_grammar.specs.Tables.{by_number};
ghost use Rattle.mux_client.specs.Answers.{GivesAnswer, ReadsAnswer, ReadsReason};

use mux_messages::{Control, read_control};
use ssh_fields::Cursor;
use ssh_grammar::numbers::{
    HELLO, S_ALIVE, S_FAILURE, S_OK, S_PERMISSION_DENIED, S_PROXY, S_REMOTE_PORT, VERSION,
};

/// An answer of a master.
#[derive(Clone, Copy, PartialEq, Eq)]
pub enum Answer {
    Okay { id: u32 },
    /// S_PERMISSION_DENIED or S_FAILURE, whose reason is skipped.
    Refusal { id: u32 },
    Alive { id: u32, pid: u32 },
    RemotePort { id: u32, port: u32 },
    /// A message that answers no request of a control client.
    Other,
}

/// Whether a body is a hello of version 4. Its extensions are skipped.
pub fn is_hello_of_4(body: &[u8]) -> bool
    ensures { result ≡ is_hello body.now }
{
    match read_control(body) {
        Ok(Control::Hello { version }) => version == VERSION,
        _ => false,
    }
}

// A number, and nothing after it.
fn one(mut fields: Cursor<'_>) -> Option<u32>
    ensures { (answer : ℕ → grammar.Answer) → ReadsAnswer answer result (read_one answer fields.entry) }
{
    let n = fields.take_u32()?;
    if fields.is_empty() { Some(n) } else { None }
}

// Two numbers, and nothing after them.
fn two(mut fields: Cursor<'_>) -> Option<(u32, u32)>
    ensures { (answer : ℕ → ℕ → grammar.Answer)
        → ReadsAnswer (λ p. answer p.0 p.1) result (read_two answer fields.entry) }
{
    let id = fields.take_u32()?;
    let n = fields.take_u32()?;
    if fields.is_empty() {
        Some((id, n))
    } else {
        None
    }
}

// A number and a text, and nothing after them: the number.
fn reason(mut fields: Cursor<'_>) -> Option<u32>
    ensures { (answer : ℕ → List ℕ → grammar.Answer)
        → ReadsReason answer result (read_reason answer fields.entry) }
{
    let id = fields.take_u32()?;
    fields.take_string()?;
    if fields.is_empty() { Some(id) } else { None }
}

// An answer, by its type.
fn by_kind(kind: u32, fields: Cursor<'_>) -> Option<Answer>
    ensures { GivesAnswer result (by_number answer_forms kind (λ rest. None) fields.entry) }
{
    match kind {
        HELLO => match one(fields) {
            None => None,
            Some(_) => Some(Answer::Other),
        },
        S_OK => match one(fields) {
            None => None,
            Some(id) => Some(Answer::Okay { id }),
        },
        S_PERMISSION_DENIED => match reason(fields) {
            None => None,
            Some(id) => Some(Answer::Refusal { id }),
        },
        S_FAILURE => match reason(fields) {
            None => None,
            Some(id) => Some(Answer::Refusal { id }),
        },
        S_ALIVE => match two(fields) {
            None => None,
            Some((id, pid)) => Some(Answer::Alive { id, pid }),
        },
        S_REMOTE_PORT => match two(fields) {
            None => None,
            Some((id, port)) => Some(Answer::RemotePort { id, port }),
        },
        S_PROXY => match one(fields) {
            None => None,
            Some(_) => Some(Answer::Other),
        },
        _ => None,
    }
}

/// The answer that a body is, all of the body.
pub fn read_answer(body: &[u8]) -> Option<Answer>
    ensures { GivesAnswer result (reading body.now) }
{
    let mut fields = Cursor::new(body);
    match fields.take_u32() {
        None => None,
        Some(kind) => by_kind(kind, fields),
    }
}
