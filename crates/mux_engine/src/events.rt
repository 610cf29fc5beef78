ghost use Rattle.std.specs.Prelude.{List, ℕ};
ghost use Rattle.ssh_fields.specs.Fields.{AreBytes};
ghost use Rattle.mux_outside.specs.declared.turn.Turn.TheVariants.{Got, End, Writable, Failed};
ghost use Rattle.mux_outside.specs.declared.mark.Mark.TheVariants.{Gets, Fails, WriteFails};
ghost use Rattle.mux_state.specs.Events.{MarkRecords};
ghost use Rattle.mux_engine.specs.Turns.{IsNextEvent};

use mux_outside::{OwnTurn, Turn, Whose, is_own};
use mux_state::Event;

/// What a turn reports.
#[derive(Clone, Copy)]
pub enum NextEvent<'a> {
    /// An event of the engine.
    Event(Event<'a>),
    /// Something of the master's own listeners and streams.
    Own(OwnTurn<'a>),
    /// The server's stream or a client's accepts bytes again.
    Freed(u64),
    /// There was no memory.
    NoMemory,
}

// The event of bytes that a stream gave.
pub fn event_of_bytes<'a>(stream: u64, bytes: &'a [u8]) -> Event<'a>
    ensures records { MarkRecords result (Gets stream bytes.now) }
    ensures bytes { AreBytes bytes.now }
{
    match Whose::of(stream) {
        Whose::Server => Event::FromServer(bytes),
        _ => Event::FromClient(stream, bytes),
    }
}

// The event of a stream that failed, at a wait or at a write.
pub fn event_of_fault<'a>(stream: u64) -> Event<'a>
    ensures wait { MarkRecords result (Fails stream) }
    ensures write { MarkRecords result (WriteFails stream) }
{
    match Whose::of(stream) {
        Whose::Server => Event::ServerFailed,
        _ => Event::ClientFailed(stream),
    }
}

// What a stream that gave bytes reports.
fn next_of_bytes<'a>(stream: u64, bytes: &'a [u8]) -> NextEvent<'a>
    ensures { IsNextEvent result (Got stream) bytes.now }
{
    if is_own(stream) {
        NextEvent::Own(OwnTurn::Got(stream, bytes))
    } else {
        NextEvent::Event(event_of_bytes(stream, bytes))
    }
}

// What a stream that gives no more reports.
fn next_of_end<'a>(stream: u64) -> NextEvent<'a>
    ensures { (bytes : List ℕ) → IsNextEvent result (End stream) bytes }
{
    match Whose::of(stream) {
        Whose::Server => NextEvent::Event(Event::ServerEnd),
        Whose::Client(client) => NextEvent::Event(Event::ClientEnd(client)),
        Whose::Own => NextEvent::Own(OwnTurn::End(stream)),
    }
}

// What a stream that failed reports.
fn next_of_fault<'a>(stream: u64) -> NextEvent<'a>
    ensures { (bytes : List ℕ) → IsNextEvent result (Failed stream) bytes }
{
    if is_own(stream) {
        NextEvent::Own(OwnTurn::Failed(stream))
    } else {
        NextEvent::Event(event_of_fault(stream))
    }
}

// What a stream that accepts bytes again reports.
fn next_of_room<'a>(stream: u64) -> NextEvent<'a>
    ensures { (bytes : List ℕ) → IsNextEvent result (Writable stream) bytes }
{
    if is_own(stream) {
        NextEvent::Own(OwnTurn::Writable(stream))
    } else {
        NextEvent::Freed(stream)
    }
}

// What a turn reports.
pub fn next_of<'a>(turn: Turn, bytes: &'a [u8]) -> NextEvent<'a>
    ensures next { IsNextEvent result turn bytes.now }
    ensures bytes { AreBytes bytes.now }
{
    match turn {
        Turn::Accepted(client) => NextEvent::Event(Event::Accepted(client)),
        Turn::Got(stream) => next_of_bytes(stream, bytes),
        Turn::End(stream) => next_of_end(stream),
        Turn::Failed(stream) => next_of_fault(stream),
        Turn::Writable(stream) => next_of_room(stream),
        Turn::Joined(listener, stream) => NextEvent::Own(OwnTurn::Joined { listener, stream }),
        Turn::NoMemory => NextEvent::NoMemory,
    }
}
