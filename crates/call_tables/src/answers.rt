ghost use Rattle.std.specs.Prelude.{IfSome};
ghost use Rattle.global_replies.specs.Asks.{IsShortRequest, what_of};

use CallStep::{Refused, Replied, Sent};
use conn_messages::{Key, OwnKey};
use global_replies::{Ask, Askers, ClientAnswers};
use mux_history::limits::MAX_ADDRESS;
use ssh_fields::OutOfMemory;
use std::process::Abort;

/// A client, and what it asks: the request, its address or path, and its port.
type AnswerRow = (u64, AnswerKind, &'static [u8], u32);

/// The requests by their names.
#[derive(Clone, Copy, PartialEq, Eq)]
enum AnswerKind {
    Alive,
    Port,
    PortEnds,
    Path,
    PathEnds,
}

/// Three clients ask by turns; one asks twice for one address and port.
const ASKED: [AnswerRow; 7] = [
    (7, AnswerKind::Port, b"localhost", 8_080),
    (9, AnswerKind::Alive, b"", 0),
    (7, AnswerKind::PortEnds, b"localhost", 8_080),
    (3, AnswerKind::Path, b"/run/a", 0),
    (7, AnswerKind::Port, b"localhost", 8_080),
    (3, AnswerKind::PathEnds, b"/run/a", 0),
    (9, AnswerKind::Port, b"", 0),
];

fn ask_of(kind: AnswerKind, text: &[u8], port: u32) -> Option<Ask>
    ensures { IfSome result (λ ask. IsShortRequest (what_of ask)) }
{
    if text.len() > MAX_ADDRESS {
        return None;
    }
    let end = Key::Tcp {
        address: text,
        port,
    };
    Some(match kind {
        AnswerKind::Alive => Ask::KeepAlive,
        AnswerKind::Port => Ask::Forward(OwnKey::copy(end)),
        AnswerKind::PortEnds => Ask::Cancel(OwnKey::copy(end)),
        AnswerKind::Path => Ask::Forward(OwnKey::copy(Key::Path(text))),
        AnswerKind::PathEnds => Ask::Cancel(OwnKey::copy(Key::Path(text))),
    })
}

fn is(ask: &Ask, row: &AnswerRow) -> bool {
    let (_, kind, text, port) = *row;
    let end = Key::Tcp {
        address: text,
        port,
    };
    match (ask, kind) {
        (Ask::KeepAlive, AnswerKind::Alive) => true,
        (Ask::Forward(key), AnswerKind::Port) | (Ask::Cancel(key), AnswerKind::PortEnds) => key.is(
            end,
        ),
        (Ask::Forward(key), AnswerKind::Path) | (Ask::Cancel(key), AnswerKind::PathEnds) => {
            key.is(Key::Path(text))
        }
        _ => false,
    }
}

fn ask_all(askers: &mut Askers, rows: &[AnswerRow]) -> Result<(), OutOfMemory> {
    for (client, kind, text, port) in rows.iter() {
        if let Some(ask) = ask_of(*kind, text, *port) {
            askers.ask(*client, ask)?;
        }
    }
    Ok(())
}

// The place of the first row that isn't answered in its turn.
fn answer_all(askers: &mut Askers, rows: &[AnswerRow]) -> Option<usize> {
    for (i, row) in rows.iter().enumerate() {
        let Some((client, ask)) = askers.answered() else {
            return Some(i);
        };
        if client != row.0 || !is(&ask, row) {
            return Some(i);
        }
    }
    None
}

// How many requests of the clients 7, 9, 3 and 1 wait.
fn counts(askers: &Askers) -> [u32; 4] {
    [
        askers.count(7),
        askers.count(9),
        askers.count(3),
        askers.count(1),
    ]
}

fn no_one_waits(askers: &mut Askers) -> bool {
    askers.answered().is_none()
}

// Asks all rows, answers four, asks the first once more, and answers the rest.
fn ask_and_answer(rt: &impl Abort, askers: &mut Askers) -> Result<(), OutOfMemory> {
    assert!(rt; no_one_waits(askers));
    ask_all(askers, &ASKED)?;
    assert_eq!(rt; counts(askers), [3, 2, 2, 0]);
    let wrong = answer_all(askers, &ASKED[..4]);
    assert_eq!(rt; (wrong, counts(askers)), (None, [1, 1, 1, 0]));
    ask_all(askers, &ASKED[..1])?;
    let wrong = answer_all(askers, &ASKED[4..]).or(answer_all(askers, &ASKED[..1]));
    assert!(rt; wrong.is_none() && no_one_waits(askers));
    Ok(())
}

#[test]
fn replies_answer_the_requests_in_their_order(rt: HostRuntime) -> Result<(), OutOfMemory> {
    let mut askers = Askers::new(rt.alloc());
    let done = ask_and_answer(&rt, &mut askers);
    drop(askers);
    done
}

/// What happens to a client's requests.
#[derive(Clone, Copy)]
enum CallStep {
    /// One is sent.
    Sent,
    /// One is refused, now or later.
    Refused { now: bool },
    /// One is replied to, and so many refusals follow.
    Replied { refusals: u32 },
}

/// With each step, how many have no answer then.
const STEPS: [(CallStep, u32); 14] = [
    (Replied { refusals: 0 }, 0),
    (Refused { now: true }, 0),
    (Sent, 1),
    (Refused { now: false }, 2),
    (Refused { now: false }, 3),
    (Sent, 4),
    (Sent, 5),
    (Refused { now: false }, 6),
    (Replied { refusals: 2 }, 3),
    (Replied { refusals: 0 }, 2),
    (Refused { now: false }, 3),
    (Replied { refusals: 2 }, 0),
    (Refused { now: true }, 0),
    (Replied { refusals: 0 }, 0),
];

// The place of the first step that goes otherwise.
fn follow(
    answers: &mut ClientAnswers,
    steps: &[(CallStep, u32)],
) -> Result<Option<usize>, OutOfMemory> {
    for (i, (step, waiting)) in steps.iter().enumerate() {
        let right = match *step {
            Sent => {
                answers.awaited()?;
                true
            }
            Refused { now } => answers.local()? == now,
            Replied { refusals } => answers.server_answered() == refusals,
        };
        if !right || answers.waiting() != *waiting {
            return Ok(Some(i));
        }
    }
    Ok(None)
}

#[test]
fn a_refusal_waits_until_the_requests_before_it_are_answered(
    rt: HostRuntime,
) -> Result<(), OutOfMemory> {
    let mut answers = ClientAnswers::new(rt.alloc());
    let wrong = follow(&mut answers, &STEPS);
    drop(answers);
    assert_eq!(rt; wrong?, None);
    Ok(())
}
