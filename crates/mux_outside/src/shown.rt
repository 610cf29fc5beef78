ghost use Rattle.std.specs.Prelude.{◌≡◌, true, IfOk};
ghost use Rattle.mux_outside.specs.Seen.{shown_of};

use crate::own_streams::OwnStreams;
use crate::streams::Streams;
use crate::wire_state::WireState;
use ssh_fields::OutOfMemory;
use std::alloc::Global;

/// What a wire shows of itself beside the open streams.
#[derive(Drop)]
pub struct Shown {
    /// Whether clients are accepted.
    pub listens: bool,
    /// The master's own streams that are open, and how they stand.
    pub own: OwnStreams,
    /// The master's own listeners that are open.
    pub listeners: Streams,
}

impl Shown {
    /// What a wire shows now.
    pub fn copy(alloc: Global, state: &WireState) -> Result<Shown, OutOfMemory>
        ensures { IfOk result (λ shown. shown ≡ shown_of state.now.seen) }
    {
        Ok(Shown {
            listens: state.is_listening(),
            own: OwnStreams::copy(alloc, state.own().as_slice())?,
            listeners: Streams::copy(alloc, state.listeners().as_slice())?,
        })
    }

    /// Whether a wire shows the same now.
    pub fn is_of(&self, state: &WireState) -> bool
        ensures { result ≡ true → self.now ≡ shown_of state.now.seen }
    {
        if self.listens != state.is_listening() {
            return false;
        }
        if self.own.as_slice() != state.own().as_slice() {
            return false;
        }
        self.listeners.as_slice() == state.listeners().as_slice()
    }
}
