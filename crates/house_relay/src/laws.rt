//! What holds of every relay, whatever happened in it: the function's contract is the law.

ghost use Rattle.std.specs.Prelude.{◌≡◌, [], false, Bool, List, Some, None};
ghost use Rattle.house_relay.specs.Acts.{RelayAct, Relays};
ghost use Rattle.house_relay.specs.Next.{sends_of, orders_of};
ghost use Rattle.house_relay.specs.Relay.{RelayRepresents, RelayKeeps, SilentIn, IsResting, socket_stream_of};
ghost use Rattle.mux_outside.specs.declared.own_streams.OwnStream.{OwnStream as TheStream};
ghost use Rattle.house_relay.specs.declared.relay.Relay.{Relay as TheRelay};

/// - What is sent was read before it, after the dialog, in order.
/// - What the socket accepts are the replies to the dialog and then what was delivered before it,
///   in order.
/// - No more room is given back than data was accepted.
/// - EOF goes on after everything alone.
/// - No more is held than one piece has at most, the dialog's own bytes left aside.
/// - What is held and what waits are exactly the rest.
pub fn relays_relay()
    ensures relays { (dials : Bool) (acts : List RelayAct) (r : TheRelay)
        → RelayRepresents dials acts r → Relays dials acts }
    ensures keeps { (dials : Bool) (acts : List RelayAct) (r : TheRelay)
        → RelayRepresents dials acts r → RelayKeeps dials acts r }
{}

/// A relay that has nothing to send, and nothing to order of its stream, is at rest.
pub fn relays_that_want_nothing_rest()
    ensures silent { (r : TheRelay) → sends_of r ≡ None → SilentIn r.line r }
    ensures rests { (r : TheRelay) (stream : TheStream) → socket_stream_of r.socket ≡ Some stream.number
        → orders_of r stream ≡ None → IsResting r stream }
{}

/// At rest nothing is held of a stream that isn't paused: whatever piece it gives next may be held.
pub fn streams_at_rest_hold_nothing()
    ensures { (r : TheRelay) (stream : TheStream) → SilentIn r.line r → IsResting r stream
        → stream.paused ≡ false → r.held.waiting ≡ [] }
{}
