//! The numbers of clients, and of the master's own listeners and streams.
ghost use Rattle.std.specs.Prelude.{◌≡◌};
ghost use Rattle.mux_outside.specs.Seen.{moved_by_connect, moved_by_listen};
ghost use Rattle.mux_outside.specs.Wire.{IsNewOwn, NumberFits};
ghost use Rattle.mux_outside.specs.WireState.{seeing};
ghost use Rattle.mux_edge.specs.Sockets.{MayBeGiven};

use mux_outside::{FileError, Want, WireState};

/// The numbers that may be given now. `None`: nothing that would get one is accepted.
#[derive(Clone, Copy)]
pub struct StreamNumbers {
    /// for a client
    pub client: Option<u64>,
    /// for a socket that is accepted at a listener of the master's own
    pub own: Option<u64>,
}

/// The numbers that may be given now.
pub fn numbers_to_give(state: &WireState, want: Want) -> StreamNumbers
    ensures { MayBeGiven result want state.now.seen }
{
    match want {
        Want::Read => StreamNumbers {
            client: state.next_client(),
            own: state.next_own(),
        },
        Want::WriteOnly => StreamNumbers {
            client: None,
            own: None,
        },
    }
}

/// The next number of a listener or stream of the master's own.
pub fn next_number(state: &WireState) -> Result<u64, FileError>
    ensures { NumberFits result state.now.seen.last_own }
{
    match state.next_own() {
        Some(number) => Ok(number),
        None => Err(FileError::Failed),
    }
}

/// Keeps a listener with this number, if there is memory.
pub fn keep_listener(state: &mut WireState, number: u64) -> Result<u64, FileError>
    requires { IsNewOwn state.old.seen.last_own number }
    ensures fits { NumberFits result state.old.seen.last_own }
    ensures state { state.new ≡ seeing (moved_by_listen result) state.old }
{
    match state.listened(number) {
        Ok(()) => Ok(number),
        Err(_) => Err(FileError::OutOfMemory),
    }
}

/// Keeps a stream of the master's own with this number, if there is memory.
pub fn keep_stream(state: &mut WireState, number: u64) -> Result<u64, FileError>
    requires { IsNewOwn state.old.seen.last_own number }
    ensures fits { NumberFits result state.old.seen.last_own }
    ensures state { state.new ≡ seeing (moved_by_connect result) state.old }
{
    match state.connected(number) {
        Ok(()) => Ok(number),
        Err(_) => Err(FileError::OutOfMemory),
    }
}
