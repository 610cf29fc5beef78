//! All that the forwarder has but its notes.
ghost use Rattle.std.specs.Prelude.{◌≡◌, true};
ghost use Rattle.house_forward.specs.Known.{is_there};

mod asking;
mod orders;
mod sockets;
mod talking;

use crate::asks::PendingRequests;
use crate::forwardings::Forwardings;
use crate::ordering::Ordering;
use crate::relays::Relays;
use crate::rules::ListenRules;
use proxy_frames::Framer;
use std::alloc::Global;

/// How what is written to the forwarder is read.
#[derive(Clone, Copy, PartialEq, Eq)]
enum ForwarderStage {
    /// Control messages, until PROXY is granted.
    Control,
    /// Messages of the connection protocol.
    Proxy,
}

/// All that the forwarder has but its notes.
#[derive(Drop)]
pub struct ForwarderState {
    alloc: Global,
    rules: ListenRules,
    pub must: bool,
    pub asks: PendingRequests,
    ordering: Option<Ordering>,
    greeted: bool,
    stage: ForwarderStage,
    framer: Framer,
    pub forwardings: Forwardings,
    pub relays: Relays,
    ghost there: { is_there ordering forwardings.all.items relays.all.items ≡ true },
}
