//! What the calls of a journal show of the streams of the forwarder: each function's contract is
//! the law.

ghost use Rattle.mux_engine.specs.CallLaws.{IsGivenAll, IsRecordedAll, OwnStreamsAreCalled};

/// The forwarder is given what a stream of its own gave.
pub fn a_house_is_given_what_its_streams_gave()
    ensures { IsGivenAll }
{}

/// The forwarder is handed all that a stream of its own accepted, as byte counts.
pub fn a_house_is_recorded_what_its_streams_took()
    ensures { IsRecordedAll }
{}

/// A worked journal.
pub fn own_streams_are_called()
    ensures { OwnStreamsAreCalled }
{}
