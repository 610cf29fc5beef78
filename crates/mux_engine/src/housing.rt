ghost use Rattle.std.specs.Prelude.{◌≡◌, ℕ, true, false, List, [], ◌∷◌, IfOk, OnOk, None, Ok, if◌then◌else◌};
ghost use Rattle.mux_outside.specs.Streams.{without};
ghost use Rattle.mux_outside.specs.declared.house.HouseReply.{HouseReply as TheReply};
ghost use Rattle.mux_outside.specs.declared.mark.Mark.{Mark as TheMark};
ghost use Rattle.mux_outside.specs.declared.turn.Want.TheVariants.{Read as ToRead};
ghost use Rattle.mux_history.specs.declared.limits.TheConstants.{HOUSE as TheHouse};
ghost use Rattle.mux_history.specs.Journal.{is_accepted};
ghost use Rattle.mux_state.specs.Events.{here};
ghost use Rattle.mux_state.specs.Stands.{RepresentsSoFar};
ghost use Rattle.mux_engine.specs.OwnFaults.{OwnCounted};
ghost use Rattle.mux_engine.specs.Rests.{EndsByAsk, EndsSo, HasAnswered, HasNoMoreFor, HasOffered, IsReadyFor, WaitsAlone};
ghost use Rattle.mux_engine.specs.Serving.{IsOngoing, LetsHouseIn, RunsOn, ServedWith, scene, scene_of};
ghost use Rattle.mux_engine.specs.Sides.{AnsweredOr, OnlyAsked, SentNothing, SameKnown, SameSockets, SameStreamsSeen, StaysHouse, Together};
ghost use Rattle.mux_engine.specs.SilentAnswers.{AcceptsAs};
ghost use Rattle.mux_engine.specs.Turns.{want_of};
ghost use Rattle.mux_engine.specs.Wires.{IsIdleWire, Untouched, Works, WorksOwn};

use crate::asking::apply;
use crate::events::event_of_bytes;
use crate::orders::next_order;
use crate::owned::own_rounds;
use crate::room::Lists;
use crate::settling::{flush, stop_accepting};
use mux_history::limits::{HOUSE, READING_STOPS_AT};
use mux_outside::{House, HouseMark, NoHouse, Piece, Want, Wire};
use mux_peers::AskLog;
use mux_state::{Engine, Event};
use ssh_fields::OutOfMemory;

// Admits the forwarder as a client, before all else.
pub fn let_in<W: Wire, H: House>(
    engine: &mut Engine,
    wire: &mut W,
    asks: &mut AskLog,
) -> Result<(), OutOfMemory>
    requires on { engine.old.ended ≡ None }
    requires refused { engine.old.refused ≡ [] }
    ensures serving { LetsHouseIn result H.may H.state (W.state wire.old).seen (W.state wire.new).seen
        engine.old engine.new }
    ensures places { SameSockets (W.state wire.old).seen (W.state wire.new).seen }
    ensures wire { IsIdleWire (W.state wire.old) (W.state wire.new) (W.faults wire.old)
        (W.faults wire.new) }
{
    wire.note(&HouseMark::HouseIn)?;
    engine.event(Event::Accepted(HOUSE), &mut NoHouse, asks)?;
    Ok(())
}

/// Hands the forwarder all that waits for it as a client. Before that, no more clients are accepted
/// where the engine wants none, or its run is over.
pub fn hand_over<W: Wire, H: House>(
    engine: &mut Engine,
    wire: &mut W,
    house: &mut H,
) -> Result<(), OutOfMemory>
    requires ordering { (H.state house.old).known.ordering ≡ None }
    requires receives { engine.old.ended ≡ None → engine.old.listening ≡ true
        → (W.state wire.old).seen.listens ≡ true }
    ensures serving { (held failed : List ℕ) → RunsOn result H.may H.state house.old house.new
        (scene_of (W.state wire.old) held failed engine.old)
        (scene_of (W.state wire.new) held failed engine.new)
        0 (λ done. 0) (0 ∷ here engine.old)
        (λ done. 0 ∷ without TheHouse (here engine.new)) }
    ensures house { SameKnown result (H.state house.old) (H.state house.new) }
    ensures ended { engine.new.ended ≡ engine.old.ended }
    ensures silence { OnOk result (AcceptsAs (W.state wire.new).seen engine.new) }
    ensures streams { SameStreamsSeen (W.state wire.old).seen (W.state wire.new).seen }
    ensures wire { IsIdleWire (W.state wire.old) (W.state wire.new) (W.faults wire.old)
        (W.faults wire.new) }
{
    stop_accepting::<W, H>(engine, wire);
    let bytes = engine.queue_of(HOUSE);
    if bytes.is_empty() {
        return Ok(());
    }
    let n = bytes.len();
    house.takes(bytes)?;
    wire.note(&HouseMark::HouseTook(n))?;
    engine.took(HOUSE, n);
    Ok(())
}

// A deferred reply of the forwarder: whether there was one.
fn reply<W: Wire, H: House>(
    engine: &mut Engine,
    wire: &mut W,
    house: &mut H,
    asks: &mut AskLog,
) -> Result<bool, OutOfMemory>
    requires ordering { (H.state house.old).known.ordering ≡ None }
    requires present { (H.state house.old).known.present ≡ true }
    requires on { engine.old.ended ≡ None }
    ensures serving { (held failed : List ℕ) → RunsOn result H.may H.state house.old house.new
        (scene_of (W.state wire.old) held failed engine.old)
        (scene_of (W.state wire.new) held failed engine.new)
        0 (λ more. 0) (0 ∷ without TheHouse (here engine.old))
        (λ more. if more then 0 ∷ here engine.new
        else 0 ∷ without TheHouse (here engine.new)) }
    ensures house { OnlyAsked result (H.state house.old) (H.state house.new) }
    ensures answered { IfOk result (λ more. AnsweredOr more (H.state house.old)
        (H.state house.new)) }
    ensures on { (held failed todo : List ℕ) → ServedWith H.may H.state house.old
        (scene_of (W.state wire.old) held failed engine.old) todo
        → OnOk result (engine.new.ended ≡ None) }
    ensures streams { SameStreamsSeen (W.state wire.old).seen (W.state wire.new).seen }
    ensures wire { IsIdleWire (W.state wire.old) (W.state wire.new) (W.faults wire.old)
        (W.faults wire.new) }
{
    let Some((client, id, given)) = house.answer() else {
        return Ok(false);
    };
    wire.note(&HouseMark::HouseAnswer {
        client,
        id,
        reply: given,
    })?;
    engine.event(Event::HouseSays(client, id, given), &mut NoHouse, asks)?;
    Ok(true)
}

/// Hands the forwarder and its streams all that waits for them, and applies its deferred replies,
/// until it has none.
pub fn reply_all<W: Wire, H: House>(
    engine: &mut Engine,
    wire: &mut W,
    house: &mut H,
    lists: &mut Lists,
) -> Result<(), OutOfMemory>
    requires ongoing { IsOngoing H.may H.state house.old (W.state wire.old) lists.old engine.old }
    requires present { (H.state house.old).known.present ≡ true }
    ensures serving { RunsOn result H.may H.state house.old house.new
        (scene (W.state wire.old) lists.old engine.old)
        (scene (W.state wire.new) lists.new engine.new) 0 (λ done. 0) (0 ∷ here engine.old)
        (λ done. 0 ∷ without TheHouse (here engine.new)) }
    ensures house { OnlyAsked result (H.state house.old) (H.state house.new) }
    ensures places { SameSockets (W.state wire.old).seen (W.state wire.new).seen }
    ensures held_is { OnOk result (lists.new.held ≡ (W.state wire.new).seen.blocked) }
    ensures own { lists.new.own ≡ lists.old.own }
    ensures rests { OnOk result (HasAnswered (H.state house.new) lists.new) }
    ensures on { OnOk result (engine.new.ended ≡ None) }
    ensures wire { WorksOwn result (W.state wire.old) (W.state wire.new) (W.faults wire.old)
        (W.faults wire.new) }
{
    loop {
        hand_over(engine, wire, house)?;
        own_rounds(
            wire,
            house,
            &mut lists.held,
            &mut lists.failed,
            &lists.own,
            &mut lists.todo,
        )?;
        if !reply(engine, wire, house, &mut lists.asks)? {
            return Ok(());
        }
    }
}

/// What the next turn may be: while 4,194,304 bytes or more wait for the server, nothing is read.
pub fn wanted(engine: &Engine) -> Want
    ensures { result ≡ want_of engine.now }
{
    if engine.queue_of(0).len() < READING_STOPS_AT {
        Want::Read
    } else {
        Want::WriteOnly
    }
}

// What the forwarder sends next as a client, while fewer than 4,194,304 bytes wait for the server:
// whether it sent something.
fn speak<W: Wire, H: House>(
    engine: &mut Engine,
    wire: &mut W,
    house: &mut H,
    asks: &mut AskLog,
    piece: &mut Piece,
) -> Result<bool, OutOfMemory>
    requires ordering { (H.state house.old).known.ordering ≡ None }
    requires present { (H.state house.old).known.present ≡ true }
    requires on { engine.old.ended ≡ None }
    requires room { want_of engine.old ≡ ToRead }
    ensures serving { (held failed : List ℕ) → RunsOn result H.may H.state house.old house.new
        (scene_of (W.state wire.old) held failed engine.old)
        (scene_of (W.state wire.new) held failed engine.new)
        1 (λ more. if more then 1 else 0) []
        (λ more. if more then 0 ∷ here engine.new else []) }
    ensures house { OnlyAsked result (H.state house.old) (H.state house.new) }
    ensures silent { IfOk result (λ more. more ≡ false
        → SentNothing (H.state house.old) (H.state house.new) (W.state wire.old).seen
        (W.state wire.new).seen engine.old engine.new) }
    ensures ends { (held failed : List ℕ) → ServedWith H.may H.state house.old
        (scene_of (W.state wire.old) held failed engine.old) []
        → OnOk result (EndsByAsk engine.new.ended) }
    ensures streams { SameStreamsSeen (W.state wire.old).seen (W.state wire.new).seen }
    ensures counted { (picked : List ℕ) (replies : List TheReply) (journal : List TheMark)
        (closed : List ℕ) → RepresentsSoFar picked replies engine.old journal closed
        → is_accepted TheHouse journal ≡ true
        → OwnCounted (W.state wire.old).seen.recorded (W.state wire.new).seen.recorded
        (W.faults wire.old).own (W.faults wire.new).own }
    ensures wire { Untouched (W.state wire.old) (W.state wire.new) (W.faults wire.old)
        (W.faults wire.new) }
{
    if !house.says(piece)? {
        return Ok(false);
    }
    wire.note_said(piece.as_bytes())?;
    let said = event_of_bytes(HOUSE, piece.as_bytes());
    apply(engine, wire, house, asks, said)?;
    Ok(true)
}

// The forwarder's replies and then its next order, if there is a forwarder: whether there was an
// order.
fn ask_house<W: Wire, H: House>(
    engine: &mut Engine,
    wire: &mut W,
    house: &mut H,
    lists: &mut Lists,
) -> Result<bool, OutOfMemory>
    requires ongoing { IsOngoing H.may H.state house.old (W.state wire.old) lists.old engine.old }
    ensures serving { RunsOn result H.may H.state house.old house.new
        (scene (W.state wire.old) lists.old engine.old)
        (scene (W.state wire.new) lists.new engine.new) 1 (λ more. if more then 1 else 0)
        (0 ∷ here engine.old)
        (λ more. 0 ∷ without TheHouse (here engine.new)) }
    ensures together { OnOk result (Together (H.state house.new) (W.state wire.new) lists.new) }
    ensures house { StaysHouse result (H.state house.old) (H.state house.new) }
    ensures none { (H.state house.old).known.present ≡ false → (house.new ≡ house.old)
        × (engine.new ≡ engine.old) × (wire.new ≡ wire.old) × (result ≡ Ok false) }
    ensures ready { IfOk result (λ more. more ≡ false
        → HasNoMoreFor (H.state house.new) lists.new) }
    ensures on { OnOk result (engine.new.ended ≡ None) }
    ensures wire { WorksOwn result (W.state wire.old) (W.state wire.new) (W.faults wire.old)
        (W.faults wire.new) }
{
    if !house.present() {
        return Ok(false);
    }
    reply_all(engine, wire, house, lists)?;
    next_order(wire, house, lists)
}

/// What a forwarder does before a wait: whether it used a turn, for an order or for a piece that it
/// sent. Else each stream was offered what waits for it, and the forwarder is ready for a wait,
/// unless the run ended.
pub fn step_house<W: Wire, H: House>(
    engine: &mut Engine,
    wire: &mut W,
    house: &mut H,
    lists: &mut Lists,
    piece: &mut Piece,
) -> Result<bool, OutOfMemory>
    requires ongoing { IsOngoing H.may H.state house.old (W.state wire.old) lists.old engine.old }
    ensures serving { RunsOn result H.may H.state house.old house.new
        (scene (W.state wire.old) lists.old engine.old)
        (scene (W.state wire.new) lists.new engine.new) 1 (λ more. if more then 1 else 0)
        (0 ∷ here engine.old)
        (λ more. if more then 0 ∷ here engine.new else []) }
    ensures together { OnOk result (Together (H.state house.new) (W.state wire.new) lists.new) }
    ensures house { StaysHouse result (H.state house.old) (H.state house.new) }
    ensures alone { (H.state house.old).known.present ≡ false
        → WaitsAlone result engine.old engine.new }
    ensures offered { IfOk result (λ more. more ≡ false
        → HasOffered (H.state house.new) lists.new) }
    ensures ready { IfOk result (λ more. more ≡ false → engine.new.ended ≡ None
        → IsReadyFor (H.state house.new) lists.new engine.new) }
    ensures ended { EndsSo result (H.state house.old).known.present engine.new.ended
        (W.state wire.old) (W.state wire.new) (W.faults wire.old) (W.faults wire.new) }
    ensures wire { Works 0 result (W.state wire.old) (W.state wire.new) (W.faults wire.old)
        (W.faults wire.new) }
{
    if ask_house(engine, wire, house, lists)? {
        return Ok(true);
    }
    flush::<W, H>(
        engine,
        wire,
        &mut lists.held,
        &mut lists.todo,
        &mut lists.asks,
    )?;
    if !house.present() || engine.ended().is_some() || wanted(engine) == Want::WriteOnly {
        return Ok(false);
    }
    speak(engine, wire, house, &mut lists.asks, piece)
}
