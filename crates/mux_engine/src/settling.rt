ghost use Rattle.std.specs.Prelude.{[], ◌∷◌, ◌≡◌, ◌≢◌, List, ℕ, true, false, None, OnOk, IfOk, if◌then◌else◌};
ghost use Rattle.mux_outside.specs.Streams.{among, without};
ghost use Rattle.mux_state.specs.Events.{here};
ghost use Rattle.mux_state.specs.State.{queue_in};
ghost use Rattle.mux_engine.specs.Rests.{HasNoneToClose, StaysReady};
ghost use Rattle.mux_engine.specs.Serving.{CanBeOffered, CanTakeMore, IsOfferedTo, IsRunServed, OffersOn, ServesOn, StaysOrFails, StaysServed};
ghost use Rattle.mux_engine.specs.Sides.{SameSockets, SameStreamsSeen};
ghost use Rattle.mux_engine.specs.SilentAnswers.{AcceptsAs};
ghost use Rattle.mux_engine.specs.Wires.{IsIdleWire, NoFault, Works};

use crate::events::event_of_fault;
use mux_history::limits::HOUSE;
use mux_outside::{House, NoHouse, Streams, Wire, Wrote};
use mux_peers::AskLog;
use mux_state::Engine;
use ssh_fields::OutOfMemory;

// Offers a stream what waits for it, once: whether it accepted some and can be offered the rest. A
// client whose stream fails leaves its farewell to the server, whose stream is offered that later;
// it requests nothing of the forwarder, and `asks` is room for none.
fn offer_once<W: Wire, H: House>(
    engine: &mut Engine,
    wire: &mut W,
    held: &mut Streams,
    asks: &mut AskLog,
    stream: u64,
) -> Result<bool, OutOfMemory>
    requires served { IsRunServed H.may H.state (W.state wire.old).seen held.old engine.old }
    requires stream { CanBeOffered stream engine.old }
    requires free { among stream (W.state wire.old).seen.blocked ≡ false }
    requires silence { AcceptsAs (W.state wire.old).seen engine.old }
    ensures serving { (todo : List ℕ) → among 0 (stream ∷ todo) ≡ true →
        ServesOn result H.may H.state (W.state wire.old).seen (W.state wire.new).seen held.old
        held.new todo (λ more. if more then stream ∷ todo else without stream todo) engine.old
        engine.new }
    ensures engine { OnOk result (IsOfferedTo stream engine.old engine.new (W.faults wire.old)
        (W.faults wire.new)) }
    ensures holds { OnOk result ((t : ℕ) → among t held.old ≡ true → among t held.new ≡ true) }
    ensures places { SameSockets (W.state wire.old).seen (W.state wire.new).seen }
    ensures more { IfOk result (λ more. more ≡ true
        → CanTakeMore stream engine.old engine.new (W.state wire.new).seen) }
    ensures silence { OnOk result (stream ≢ 0 → AcceptsAs (W.state wire.new).seen engine.new) }
    ensures wire { Works 0 result (W.state wire.old) (W.state wire.new) (W.faults wire.old)
        (W.faults wire.new) }
    ensures idle { queue_in engine.old stream ≡ []
        → (engine.new ≡ engine.old) × (wire.new ≡ wire.old) }
{
    let bytes = engine.queue_of(stream);
    if bytes.is_empty() {
        return Ok(false);
    }
    match wire.write(stream, bytes) {
        Wrote::Took(n) => {
            engine.took(stream, n);
            Ok(true)
        }
        Wrote::Later => {
            held.push(stream)?;
            Ok(false)
        }
        Wrote::Failed => {
            engine.event(event_of_fault(stream), &mut NoHouse, asks)?;
            Ok(false)
        }
        Wrote::NoMemory => Err(OutOfMemory),
    }
}

// Offers a stream what waits for it, until all is accepted, or it accepts no more for now, or it
// fails.
fn offer<W: Wire, H: House>(
    engine: &mut Engine,
    wire: &mut W,
    held: &mut Streams,
    asks: &mut AskLog,
    stream: u64,
) -> Result<(), OutOfMemory>
    requires served { IsRunServed H.may H.state (W.state wire.old).seen held.old engine.old }
    requires stream { CanBeOffered stream engine.old }
    requires silence { AcceptsAs (W.state wire.old).seen engine.old }
    ensures serving { (todo : List ℕ) → among 0 (stream ∷ todo) ≡ true →
        ServesOn result H.may H.state (W.state wire.old).seen (W.state wire.new).seen held.old
        held.new (stream ∷ todo) (λ done. todo) engine.old engine.new }
    ensures engine { OnOk result (IsOfferedTo stream engine.old engine.new (W.faults wire.old)
        (W.faults wire.new)) }
    ensures holds { OnOk result ((t : ℕ) → among t held.old ≡ true → among t held.new ≡ true) }
    ensures places { SameSockets (W.state wire.old).seen (W.state wire.new).seen }
    ensures wire { Works 0 result (W.state wire.old) (W.state wire.new) (W.faults wire.old)
        (W.faults wire.new) }
    ensures silence { OnOk result (stream ≢ 0 → AcceptsAs (W.state wire.new).seen engine.new) }
    ensures idle { queue_in engine.old stream ≡ []
        → (engine.new ≡ engine.old) × (wire.new ≡ wire.old) }
{
    if held.contains(stream) {
        return Ok(());
    }
    while offer_once::<W, H>(engine, wire, held, asks, stream)? {}
    Ok(())
}

// Offers the clients' streams what waits for them; `todo` is room for their numbers.
fn offer_clients<W: Wire, H: House>(
    engine: &mut Engine,
    wire: &mut W,
    held: &mut Streams,
    todo: &mut Streams,
    asks: &mut AskLog,
) -> Result<(), OutOfMemory>
    requires served { IsRunServed H.may H.state (W.state wire.old).seen held.old engine.old }
    requires silence { AcceptsAs (W.state wire.old).seen engine.old }
    ensures serving { OffersOn result H.may H.state (W.state wire.old).seen (W.state wire.new).seen
        held.old held.new engine.old engine.new (λ left. 0 ∷ left) }
    ensures streams { OnOk result (here engine.new ≡ here engine.old) }
    ensures ended { OnOk result (engine.new.ended ≡ engine.old.ended) }
    ensures holds { OnOk result ((t : ℕ) → among t held.old ≡ true → among t held.new ≡ true) }
    ensures places { SameSockets (W.state wire.old).seen (W.state wire.new).seen }
    ensures wire { Works 0 result (W.state wire.old) (W.state wire.new) (W.faults wire.old)
        (W.faults wire.new) }
    ensures silence { OnOk result (AcceptsAs (W.state wire.new).seen engine.new) }
    ensures idle { engine.old.waiting ≡ [] → (engine.new ≡ engine.old) × (wire.new ≡ wire.old) }
{
    todo.refill(engine.waiting().as_slice())?;
    todo.remove(0);
    todo.remove(HOUSE);
    for stream in todo.as_slice() {
        offer::<W, H>(engine, wire, held, asks, *stream)?;
    }
    Ok(())
}

// Accepts no more clients where the engine wants none, or its run is over.
pub fn stop_accepting<W: Wire, H: House>(engine: &Engine, wire: &mut W)
    requires receives { engine.now.ended ≡ None → engine.now.listening ≡ true
        → (W.state wire.old).seen.listens ≡ true }
    ensures serving { (held : List ℕ) → StaysServed H.may H.state (W.state wire.old).seen
        (W.state wire.new).seen held held engine.now engine.now }
    ensures receives { engine.now.ended ≡ None
        → (W.state wire.new).seen.listens ≡ engine.now.listening }
    ensures silence { AcceptsAs (W.state wire.new).seen engine.now }
    ensures streams { SameStreamsSeen (W.state wire.old).seen (W.state wire.new).seen }
    ensures wire { IsIdleWire (W.state wire.old) (W.state wire.new) (W.faults wire.old)
        (W.faults wire.new) }
{
    if engine.listening() && engine.ended().is_none() {
        return;
    }
    wire.stop_listening();
}

// Offers each stream what waits for it: the server's last, since a client that is lost leaves its
// farewell to it. The forwarder was handed what waits for it before. Where clients are accepted no
// more, none is once a client can read the answer to its request.
pub fn flush<W: Wire, H: House>(
    engine: &mut Engine,
    wire: &mut W,
    held: &mut Streams,
    todo: &mut Streams,
    asks: &mut AskLog,
) -> Result<(), OutOfMemory>
    requires served { IsRunServed H.may H.state (W.state wire.old).seen held.old engine.old }
    ensures serving { OffersOn result H.may H.state (W.state wire.old).seen (W.state wire.new).seen
        held.old held.new engine.old engine.new (λ left. left) }
    ensures streams { OnOk result (here engine.new ≡ here engine.old) }
    ensures ended { OnOk result (StaysOrFails engine.old.ended engine.new.ended
        (W.faults wire.old) (W.faults wire.new)) }
    ensures holds { OnOk result ((t : ℕ) → among t held.old ≡ true → among t held.new ≡ true) }
    ensures places { SameSockets (W.state wire.old).seen (W.state wire.new).seen }
    ensures wire { Works 0 result (W.state wire.old) (W.state wire.new) (W.faults wire.old)
        (W.faults wire.new) }
    ensures idle { engine.old.waiting ≡ []
        → (engine.new ≡ engine.old) × NoFault (W.faults wire.old) (W.faults wire.new) }
{
    stop_accepting::<W, H>(engine, wire);
    offer_clients::<W, H>(engine, wire, held, todo, asks)?;
    offer::<W, H>(engine, wire, held, asks, 0)
}

// Closes the streams of the clients that are lost or refused.
pub fn close_lost<W: Wire, H: House>(engine: &mut Engine, wire: &mut W, held: &mut Streams)
    requires served { IsRunServed H.may H.state (W.state wire.old).seen held.old engine.old }
    ensures serving { StaysServed H.may H.state (W.state wire.old).seen (W.state wire.new).seen
        held.old held.new engine.old engine.new }
    ensures ready { StaysReady (W.state wire.old).seen (W.state wire.new).seen held.old held.new
        engine.old engine.new }
    ensures closed { HasNoneToClose engine.new }
    ensures ended { engine.new.ended ≡ engine.old.ended }
    ensures unopened { (W.state wire.new).seen.last_own ≡ (W.state wire.old).seen.last_own }
    ensures wire { IsIdleWire (W.state wire.old) (W.state wire.new) (W.faults wire.old)
        (W.faults wire.new) }
{
    while let Some((client, _)) = engine.closing() {
        wire.close(client);
        held.remove(client);
        engine.closed(client);
    }
}
