//! The turn that a wire gives for what its sockets found.
ghost use Rattle.std.specs.Prelude.{◌≡◌, ◌≢◌, ◌⊎◌, ◌&&◌, not, ℕ, List, [], Some, true, IsTrue};
ghost use Rattle.std.specs.IoError.{error_kind};
ghost use Rattle.mux_outside.specs.OwnStreams.{is_own, is_silent};
ghost use Rattle.mux_outside.specs.Streams.{among};
ghost use Rattle.mux_outside.specs.Wire.{OwnFits, TurnFits};
ghost use Rattle.mux_outside.specs.WireState.{opens_stream};
ghost use Rattle.mux_outside.specs.declared.turn.Turn.TheVariants.{NoMemory};
ghost use Rattle.mux_edge.specs.Recorded.{reported};
ghost use Rattle.mux_edge.specs.Sockets.{FoundFits, MayBeGiven};
ghost use Rattle.mux_edge.specs.declared.numbers.StreamNumbers.{StreamNumbers};

use crate::numbers::StreamNumbers;
use mux_outside::{Turn, Want, WireState, is_own};
use std::io;
use std::io::ErrorKind;

/// The turn of what the sockets found. What they may not find is a fault of the server's stream.
pub fn turn_of(state: &WireState, found: Turn, want: Want, numbers: StreamNumbers) -> Turn
    requires numbers { MayBeGiven numbers want state.now.seen }
    requires server { IsTrue (among 0 state.now.seen.streams) }
    ensures turn { (before now : List ℕ) → FoundFits found numbers before now
        → TurnFits result want state.now.seen now }
    ensures own_turn { OwnFits result state.now.seen }
    ensures recorded { (before now : List ℕ) → FoundFits found numbers before now
        → TurnFits found want state.now.seen now → OwnFits found state.now.seen
        → result ≡ found }
    ensures as_found { result ≢ Turn.Failed 0 → result ≡ found }
    ensures kept { (before now : List ℕ) → FoundFits found numbers before now
        → (opens_stream result ≡ true) ⊎ (result ≡ NoMemory) → now ≡ before }
{
    match found {
        Turn::Accepted(k) if numbers.client == Some(k) => Turn::Accepted(k),
        Turn::Joined(l, t) if numbers.own == Some(t) && state.listeners().contains(l) => {
            Turn::Joined(l, t)
        }
        Turn::Got(t) if want == Want::Read && gives(state, t) => Turn::Got(t),
        Turn::End(t) if want == Want::Read && gives(state, t) => Turn::End(t),
        Turn::Writable(t) if state.streams().contains(t) && state.blocked().contains(t) => {
            Turn::Writable(t)
        }
        Turn::Failed(t) if state.streams().contains(t) => Turn::Failed(t),
        Turn::NoMemory => Turn::NoMemory,
        _ => Turn::Failed(0),
    }
}

// Whether a stream is open and may give something.
fn gives(state: &WireState, stream: u64) -> bool
    ensures { result ≡ among stream state.now.seen.streams
        && not (is_own stream && is_silent stream state.now.seen.own) }
{
    state.streams().contains(stream) && !(is_own(stream) && state.own().is_silent(stream))
}

/// The turn of an error at a wait: a fault of the server's stream, or out of memory.
pub fn failure_of(e: &io::Error) -> Turn
    ensures memory { error_kind e.now ≡ ErrorKind.OutOfMemory → result ≡ Turn.NoMemory }
    ensures other { error_kind e.now ≢ ErrorKind.OutOfMemory → result ≡ Turn.Failed 0 }
    ensures fits { (numbers : StreamNumbers) (piece : List ℕ) → FoundFits result numbers piece piece }
    ensures no_bytes { (stream : ℕ) (bytes : List ℕ) → reported (Some result) stream bytes ≡ [] }
{
    match e.kind() {
        ErrorKind::OutOfMemory => Turn::NoMemory,
        _ => Turn::Failed(0),
    }
}
