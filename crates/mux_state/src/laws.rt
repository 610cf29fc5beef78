//! What happens to an engine: each function's contract is the law.

ghost use Rattle.mux_state.specs.Moves.{AnsweredGoesOn, ClosedGoesOn, EnteredGoesOn, GainedGoesOn, ReceivedGoesOn, LossLaws, OverStays, ServerLaws, TakenGoesOn, UnheardStays};
ghost use Rattle.mux_state.specs.Others.{ReceivedLeavesIdle, KeptByOwnRows};
ghost use Rattle.mux_state.specs.Twins.{HouseIsClient, OwnIsSilent, StandsAlike};

use mux_outside::Asks;

/// The stream of the client that was lost first is closed.
pub fn a_stream_is_closed()
    ensures { ClosedGoesOn }
{}

/// A stream accepts bytes of what waits for it.
pub fn bytes_are_taken()
    ensures { TakenGoesOn }
{}

/// After the end of the run nothing changes.
pub fn an_end_stays()
    ensures { OverStays }
{}

/// The server's stream ends or fails.
pub fn the_server_ends()
    ensures { ServerLaws }
{}

/// A client comes, and is admitted or refused.
pub fn a_client_comes()
    ensures { EnteredGoesOn }
{}

/// The stream of a client is gone.
pub fn a_client_is_lost()
    ensures { LossLaws }
{}

/// A client that is read gave bytes, by which something may have been requested of a forwarder.
pub fn a_client_is_received<H: Asks>()
    ensures { GainedGoesOn H.may }
{}

/// Bytes of a client that isn't read are passed over.
pub fn a_client_is_not_read<H: Asks>()
    ensures { UnheardStays H.may }
{}

/// The server gave bytes.
pub fn the_server_is_received()
    ensures { ReceivedGoesOn }
{}

/// A piece of the server's bytes that makes no row for a client leaves the client as it was,
/// whomever else it drops.
pub fn the_server_leaves_others()
    ensures { ReceivedLeavesIdle }
{}

/// What is kept of a client follows from its own rows, whatever else happens.
pub fn a_client_follows_from_its_rows()
    ensures { KeptByOwnRows }
{}

/// The forwarder replies to a client's request later than at once.
pub fn the_house_replies()
    ensures { AnsweredGoesOn }
{}

/// The forwarder is admitted, sends and accepts as a client does, and what else is recorded of it
/// and of its streams leaves the engine as it was.
pub fn the_house_is_a_client()
    ensures alike { StandsAlike }
    ensures client { HouseIsClient }
    ensures own { OwnIsSilent }
{}
