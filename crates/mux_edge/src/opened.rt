//! The calls of a wire to its sockets, where they are open.
ghost use Rattle.std.specs.Prelude.{◌≡◌, ◌≢◌, ◌<◌, ◌⊎◌, length, false, true, IfSome, IsNone, IsSome, IsSomeAnd, IsTrue, None, OnOk, Some, nat_eq, option_map};
ghost use Rattle.indexmap.specs.IndexMap.{get};
ghost use Rattle.mux_outside.specs.OwnStreams.{is_own};
ghost use Rattle.mux_outside.specs.Streams.{among};
ghost use Rattle.mux_outside.specs.Wire.{OwnFits, TurnFits, WroteFits};
ghost use Rattle.mux_outside.specs.WireState.{opens_stream};
ghost use Rattle.mux_edge.specs.Entries.{HasEntry, IsFinished, IsPaused, Stands};
ghost use Rattle.mux_edge.specs.Recorded.{RecordsWrite, ReportsLost, accepted, recorded_at};
ghost use Rattle.mux_edge.specs.Shares.{PassesOwn, holds_own};
ghost use Rattle.mux_edge.specs.Sockets.{FoundFits, StayFew, TouchesAlone};

use crate::address::address_of;
use crate::children::Children;
use crate::faults::file_error;
use crate::names::is_name;
use crate::numbers::{StreamNumbers, numbers_to_give};
use crate::socket::{TcpSocket, UnixSocket};
use crate::sockets::Sockets;
use crate::turns::turn_of;
use mux_outside::{FileError, Piece, Streams, Turn, Want, WireState, Wrote, is_own};
use std::net::Net;
use std::time::Clock;

/// What the sockets find next.
pub fn found_next<C: Children + Drop, U: UnixSocket, T: TcpSocket, N: Net + Clock>(
    sockets: &mut Option<Sockets<C, U, T>>,
    rt: &N,
    waiting: &Streams,
    want: Want,
    numbers: StreamNumbers,
    into: &mut Piece,
) -> Turn
    ensures fits { FoundFits result numbers into.old into.new }
    ensures stands { IfSome sockets.new (λ s. Stands result s.table.entries) }
    ensures passes { IfSome sockets.old (λ s.
        holds_own waiting.now s.table.shares ≡ true → PassesOwn result) }
    ensures bytes { IfSome sockets.old (λ old. IfSome sockets.new (λ new.
        ReportsLost U.remaining T.remaining U.contents T.contents (Some result) into.new
        old.table new.table)) }
    ensures few { StayFew sockets.old sockets.new }
    ensures listener { option_map (λ s. s.table.listener) sockets.new
        ≡ option_map (λ s. s.table.listener) sockets.old }
{
    match sockets {
        Some(sockets) => sockets.next(rt, waiting.as_slice(), want, numbers, into),
        None => Turn::Failed(0),
    }
}

/// The next turn of a wire in this state. What the sockets may not find is a fault of the server's
/// stream.
pub fn next_turn<C: Children + Drop, U: UnixSocket, T: TcpSocket, N: Net + Clock>(
    sockets: &mut Option<Sockets<C, U, T>>,
    rt: &N,
    state: &WireState,
    waiting: &Streams,
    want: Want,
    into: &mut Piece,
) -> Turn
    requires server { IsTrue (among 0 state.now.seen.streams) }
    ensures turn { TurnFits result want state.now.seen into.new }
    ensures own_turn { OwnFits result state.now.seen }
    ensures kept { (opens_stream result ≡ true) ⊎ (result ≡ Turn.NoMemory) → into.new ≡ into.old }
    ensures bytes { result ≢ Turn.Failed 0
        → IfSome sockets.old (λ old. IfSome sockets.new (λ new.
        ReportsLost U.remaining T.remaining U.contents T.contents (Some result) into.new
        old.table new.table)) }
    ensures few { StayFew sockets.old sockets.new }
    ensures listener { option_map (λ s. s.table.listener) sockets.new
        ≡ option_map (λ s. s.table.listener) sockets.old }
{
    let numbers = numbers_to_give(state, want);
    let found = found_next(sockets, rt, waiting, want, numbers, into);
    turn_of(state, found, want, numbers)
}

/// Hands bytes to a stream's socket.
pub fn write<C: Children + Drop, U: UnixSocket, T: TcpSocket>(
    sockets: &mut Option<Sockets<C, U, T>>,
    stream: u64,
    bytes: &[u8],
) -> Wrote
    requires { 0 < length bytes.now }
    ensures fits { WroteFits result (length bytes.now) }
    ensures recorded { IfSome sockets.old (λ old. IfSome sockets.new (λ new.
        RecordsWrite result
        (accepted stream (recorded_at U.contents T.contents stream old.table.entries)
        old.table.outbox)
        (accepted stream (recorded_at U.contents T.contents stream new.table.entries)
        new.table.outbox) bytes.now)) }
    ensures rest { TouchesAlone stream sockets.old sockets.new }
{
    match sockets {
        Some(sockets) => sockets.table.write(stream, bytes),
        None => Wrote::Failed,
    }
}

/// Drops a stream's socket.
pub fn drop_socket<C: Children + Drop, U: UnixSocket, T: TcpSocket>(
    sockets: &mut Option<Sockets<C, U, T>>,
    stream: u64,
)
    ensures gone { IfSome sockets.new (λ s. get nat_eq s.table.entries stream ≡ None) }
    ensures rest { TouchesAlone stream sockets.old sockets.new }
    ensures listener { option_map (λ s. s.table.listener) sockets.new
        ≡ option_map (λ s. s.table.listener) sockets.old }
{
    if let Some(sockets) = sockets {
        sockets.remove(stream);
    }
}

/// Reads nothing of a stream of the master's own for now.
pub fn pause<C: Children + Drop, U: UnixSocket, T: TcpSocket>(
    sockets: &mut Option<Sockets<C, U, T>>,
    stream: u64,
)
    ensures paused { IfSome sockets.old (λ old. is_own stream ≡ true
        → HasEntry stream old.table.entries
        → IsSomeAnd sockets.new (λ new. IsPaused true stream new.table.entries)) }
    ensures rest { TouchesAlone stream sockets.old sockets.new }
{
    match sockets {
        Some(sockets) if is_own(stream) => sockets.table.pause(stream),
        _ => {}
    }
}

/// Reads a stream of the master's own again.
pub fn resume<C: Children + Drop, U: UnixSocket, T: TcpSocket>(
    sockets: &mut Option<Sockets<C, U, T>>,
    stream: u64,
)
    ensures resumed { IfSome sockets.old (λ old. is_own stream ≡ true
        → HasEntry stream old.table.entries
        → IsSomeAnd sockets.new (λ new. IsPaused false stream new.table.entries)) }
    ensures rest { TouchesAlone stream sockets.old sockets.new }
{
    match sockets {
        Some(sockets) if is_own(stream) => sockets.table.resume(stream),
        _ => {}
    }
}

/// Sends the end of a stream of the master's own to the other side.
pub fn finish<C: Children + Drop, U: UnixSocket, T: TcpSocket>(
    sockets: &mut Option<Sockets<C, U, T>>,
    stream: u64,
)
    ensures finished { IfSome sockets.old (λ old. is_own stream ≡ true
        → HasEntry stream old.table.entries
        → IsSomeAnd sockets.new (λ new. IsFinished stream new.table.entries)) }
    ensures rest { TouchesAlone stream sockets.old sockets.new }
{
    match sockets {
        Some(sockets) if is_own(stream) => sockets.table.finish(stream),
        _ => {}
    }
}

/// Accepts no more clients.
pub fn stop_listening<C: Children + Drop, U: UnixSocket, T: TcpSocket>(
    sockets: &mut Option<Sockets<C, U, T>>,
)
    ensures few { StayFew sockets.old sockets.new }
    ensures deaf { IfSome sockets.new (λ sockets. IsNone sockets.table.listener) }
{
    if let Some(sockets) = sockets {
        sockets.table.stop_listening();
    }
}

/// Closes a listener of the master's own.
pub fn unlisten<C: Children + Drop, U: UnixSocket, T: TcpSocket>(
    sockets: &mut Option<Sockets<C, U, T>>,
    listener: u64,
)
    ensures gone { IfSome sockets.new (λ s. get nat_eq s.table.own_listeners listener ≡ None) }
    ensures few { StayFew sockets.old sockets.new }
    ensures rest { option_map (λ s. s.table.entries) sockets.new
        ≡ option_map (λ s. s.table.entries) sockets.old }
    ensures listener { option_map (λ s. s.table.listener) sockets.new
        ≡ option_map (λ s. s.table.listener) sockets.old }
{
    if let Some(sockets) = sockets {
        sockets.table.unlisten(listener);
    }
}

/// Listens at an address with this number.
pub fn listen<C: Children + Drop, U: UnixSocket, T: TcpSocket, N: Net + Clock>(
    sockets: &mut Option<Sockets<C, U, T>>,
    rt: &N,
    number: u64,
    host: &[u8],
    port: u32,
) -> Result<(), FileError>
    ensures there { OnOk result
        (IfSome sockets.new (λ s. IsSome (get nat_eq s.table.own_listeners number))) }
    ensures few { StayFew sockets.old sockets.new }
    ensures listener { option_map (λ s. s.table.listener) sockets.new
        ≡ option_map (λ s. s.table.listener) sockets.old }
{
    let port = u16::try_from(port).map_err(|_| FileError::Failed)?;
    let address = address_of(host, port).ok_or(FileError::Failed)?;
    match sockets {
        Some(sockets) => sockets
            .table
            .listen(rt, number, address)
            .map_err(|e| file_error(&e)),
        None => Err(FileError::Failed),
    }
}

/// Begins to connect to an address, or to look up a name, with this number.
pub fn connect<C: Children + Drop, U: UnixSocket, T: TcpSocket, N: Net + Clock>(
    sockets: &mut Option<Sockets<C, U, T>>,
    rt: &N,
    number: u64,
    host: &[u8],
    port: u32,
) -> Result<(), FileError>
    ensures there { OnOk result (IfSome sockets.new (λ s. HasEntry number s.table.entries)) }
    ensures few { StayFew sockets.old sockets.new }
    ensures listener { option_map (λ s. s.table.listener) sockets.new
        ≡ option_map (λ s. s.table.listener) sockets.old }
{
    let sockets = sockets.as_mut().ok_or(FileError::Failed)?;
    let port = u16::try_from(port).map_err(|_| FileError::Failed)?;
    let begun = match address_of(host, port) {
        Some(address) => sockets.table.connect(rt, number, address),
        None if is_name(host) => sockets.connect_by_name(rt, number, host, port),
        None => return Err(FileError::Failed),
    };
    begun.map_err(|e| file_error(&e))
}
