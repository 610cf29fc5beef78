//! Where the forwarder of a run listens on this machine. The function's contract is the law.

ghost use Rattle.house_history.specs.Listening.{RunsListen};
ghost use Rattle.house_history.specs.Runs.{LeadsOn};

use mux_outside::House;

/// No listener stands where the list of the start doesn't permit it: in each run of the program
/// with a forwarder whose calls lead to a trace, each order to listen on this machine is for an end
/// that this list permits, unless memory ran out or its own streams accepted 2^64 bytes or more.
pub fn no_listener_stands_where_none_may<H: House>(house: &H)
    ensures { LeadsOn (H.state house.now).stands → RunsListen H.may H.state house.now }
{}
