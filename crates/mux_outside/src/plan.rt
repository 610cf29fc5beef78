//! What a script gives next.
ghost use Rattle.std.specs.Prelude.{◌≡◌, ◌≤◌, drop, take, length, IfSome};
ghost use Rattle.mux_outside.specs.declared.turn.Want.TheVariants.{Read};
ghost use Rattle.mux_outside.specs.Streams.{among};
ghost use Rattle.mux_outside.specs.Script.{is_given, cut_step, steps_from, from_first, FirstGives, turn_of, step_bytes_of, given_bytes_in, steps_after, write_entry_at, write_answer};
ghost use Rattle.mux_outside.specs.Wire.{TurnFits};

use crate::own_streams::{LAST_CLIENT, LAST_OWN};
use crate::piece::LONGEST_PIECE;
use crate::script::{Step, WriteEntry};
use crate::turn::{Turn, Wrote};
use crate::wire_state::WireState;

/// A place in a script: a step, and how many of its bytes were given.
#[derive(Clone, Copy, PartialEq, Eq)]
pub struct Place {
    pub step: usize,
    pub offset: usize,
}

/// A turn, the bytes that it gives, if any, and the place after it.
#[derive(Clone, Copy)]
pub struct Given<'a> {
    pub turn: Turn,
    pub bytes: Option<&'a [u8]>,
    pub place: Place,
}

// Whether a step that has given so many bytes isn't skipped.
fn is_due(step: &Step, offset: usize, state: &WireState) -> bool
    ensures { result ≡ is_given state.now.seen (cut_step offset step.now) }
{
    match step {
        Step::Accept => state.is_listening() && state.last() < LAST_CLIENT,
        Step::Bytes(stream, text) => {
            state.streams().contains(*stream)
                && !state.own().is_silent(*stream)
                && offset < text.as_bytes().len()
        }
        Step::End(stream) => {
            state.streams().contains(*stream) && !state.own().is_silent(*stream)
        }
        Step::Fail(stream) => state.streams().contains(*stream),
        Step::Writable(stream) => {
            state.streams().contains(*stream) && state.blocked().contains(*stream)
        }
        Step::Join(listener, stream) => {
            state.listeners().contains(*listener)
                && state.last_own() < *stream
                && *stream <= LAST_OWN
        }
    }
}

/// The first place from this one on whose step isn't skipped.
pub fn find(steps: &[Step], place: Place, state: &WireState) -> Place
    ensures { steps_from steps.now result
        ≡ from_first (is_given state.now.seen) (steps_from steps.now place) }
{
    let mut offset = place.offset;
    for step in place.step..steps.len() {
        if is_due(&steps[step], offset, state) {
            return Place { step, offset };
        }
        offset = 0;
    }
    Place {
        step: steps.len(),
        offset: 0,
    }
}

/// The turn at a place, the bytes that it gives, and the place after it.
pub fn give<'a>(steps: &'a [Step], place: Place, last: u64) -> Given<'a>
    requires { FirstGives last (steps_from steps.now place) }
    ensures turn { result.turn ≡ turn_of last (steps_from steps.now place) }
    ensures bytes { given_bytes_in result ≡ step_bytes_of (steps_from steps.now place) }
    ensures short { IfSome (given_bytes_in result) (λ bytes. length bytes ≤ LONGEST_PIECE) }
    ensures place { steps_from steps.now result.place ≡ steps_after (steps_from steps.now place) }
{
    let Some(step) = steps.get(place.step) else {
        return Given {
            turn: Turn::End(0),
            bytes: None,
            place,
        };
    };
    let behind = Place {
        step: place.step + 1,
        offset: 0,
    };
    match step {
        Step::Accept => Given {
            turn: Turn::Accepted(last + 1),
            bytes: None,
            place: behind,
        },
        Step::Bytes(stream, text) => {
            let (bytes, offset) = next_piece(text.as_bytes(), place.offset);
            Given {
                turn: Turn::Got(*stream),
                bytes: Some(bytes),
                place: Place {
                    step: place.step,
                    offset,
                },
            }
        }
        Step::End(stream) => Given {
            turn: Turn::End(*stream),
            bytes: None,
            place: behind,
        },
        Step::Fail(stream) => Given {
            turn: Turn::Failed(*stream),
            bytes: None,
            place: behind,
        },
        Step::Writable(stream) => Given {
            turn: Turn::Writable(*stream),
            bytes: None,
            place: behind,
        },
        Step::Join(listener, stream) => Given {
            turn: Turn::Joined(*listener, *stream),
            bytes: None,
            place: behind,
        },
    }
}

// The next piece after the bytes that were given, and how many were given with it.
fn next_piece(text: &[u8], offset: usize) -> (&[u8], usize)
    ensures piece { result.0.now ≡ take LONGEST_PIECE (drop offset text.now) }
    ensures short { length result.0.now ≤ LONGEST_PIECE }
    ensures rest { drop result.1 text.now ≡ drop LONGEST_PIECE (drop offset text.now) }
{
    let start = offset.min(text.len());
    let rest = &text[start..];
    let count = LONGEST_PIECE.min(rest.len());
    (&rest[..count], start + count)
}

/// The answer to a write of so many bytes after so many others.
pub fn answer_at(entries: &[WriteEntry], written: usize, len: usize) -> Wrote
    ensures { result ≡ write_answer (write_entry_at entries.now written) len }
{
    match entries.get(written) {
        None => Wrote::Took(len),
        Some(WriteEntry::All) => Wrote::Took(len),
        Some(WriteEntry::Some(count)) => Wrote::Took((*count).max(1).min(len)),
        Some(WriteEntry::Later) => Wrote::Later,
        Some(WriteEntry::Fail) => Wrote::Failed,
    }
}
