//! What holds of a run with a forwarder. Each function's contract is the law.

ghost use Rattle.house_history.specs.Runs.{HouseStays, LeadsOn, RunsKeep};
ghost use Rattle.house_history.specs.RunsRelay.{RunsRelay};

use house_forward::Forwarder;
use mux_outside::{Asks, House, Notes};

/// No row drops the forwarder: what it sends breaks no rule of the channels and requests that the
/// history has of it, and what it is sent fits the queue of a client. That holds whatever is
/// permitted, whichever numbers are picked, and whatever clients and the server send.
pub fn no_row_drops_the_house()
    ensures { HouseStays }
{}

/// The same of each run of the program with a forwarder whose calls lead to a trace, unless memory
/// ran out or its own streams accepted 2^64 bytes or more.
pub fn no_run_drops_the_house<H: House>(house: &H)
    ensures { LeadsOn (H.state house.now).stands → RunsKeep H.may H.state house.now }
{}

/// The calls of this forwarder do, whatever it notes.
pub fn its_calls_lead_on<N: Notes + Drop>(house: &Forwarder<N>)
    ensures { LeadsOn (⟦<Forwarder<N> as Asks>⟧.state house.now).stands }
{}

/// What a run of the program with this forwarder does for its relays and for the requests of its
/// clients, whatever it notes, unless its own streams accepted 2^64 bytes or more.
///
/// At each moment of the run, what was sent in each relay's channel is, in order, a prefix of what
/// its socket gave after its dialog; what its socket accepted, and then what waits for it, are the
/// dialog's replies and then what was delivered in its channel. Opens, connects, closes and replies
/// have their causes. At each wait at which more is read all is at rest. No row drops the forwarder.
pub fn a_run_relays<N: Notes + Drop>(house: &Forwarder<N>)
    ensures { RunsRelay ⟦<Forwarder<N> as Asks>⟧.may ⟦<Forwarder<N> as Asks>⟧.state (⟦<Forwarder<N> as Asks>⟧.state house.now) }
{}
