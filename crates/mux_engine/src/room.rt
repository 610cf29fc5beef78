ghost use Rattle.std.specs.Prelude.{◌≡◌, [], false};

use mux_outside::Streams;
use mux_peers::AskLog;
use std::alloc::Global;

/// The streams of a run, between its engine, its wire and its forwarder.
#[derive(Drop)]
pub struct Lists {
    /// The streams that are blocked.
    pub held: Streams,
    /// The master's own streams that are open.
    pub own: Streams,
    /// Those of them that failed.
    pub failed: Streams,
    /// Room for the numbers of streams that are still to be offered something.
    pub todo: Streams,
    /// Room for what the forwarder is asked at an event, until it is noted.
    pub asks: AskLog,
    /// Whether the run is over and each stream, the master's own too, was offered what waits for it.
    pub settled: bool,
}

impl Lists {
    /// No stream.
    pub fn new(alloc: Global) -> Lists
        ensures held { result.held ≡ [] }
        ensures own { result.own ≡ [] }
        ensures failed { result.failed ≡ [] }
        ensures settled { result.settled ≡ false }
    {
        Lists {
            held: Streams::new(alloc),
            own: Streams::new(alloc),
            failed: Streams::new(alloc),
            todo: Streams::new(alloc),
            asks: AskLog::new(alloc),
            settled: false,
        }
    }
}
