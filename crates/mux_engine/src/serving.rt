ghost use Rattle.std.specs.Prelude.{[], ◌∷◌, ◌≡◌, ◌≢◌, true, false, IsOk, OnOk, IfOk, MatchResult, None};
ghost use Rattle.std.specs.Result.{result_unwrap_or};
ghost use Rattle.mux_outside.specs.House.{OwnTurnFits, known_after_own_turn, nothing_known};
ghost use Rattle.mux_outside.specs.HouseCalls.{HandsOn, Turns, happening_of};
ghost use Rattle.mux_outside.specs.Streams.{without};
ghost use Rattle.mux_history.specs.declared.ended.Ended.TheVariants.{OutOfMemory as WantOfMemory};
ghost use Rattle.mux_history.specs.declared.limits.TheConstants.{HOUSE as TheHouse};
ghost use Rattle.mux_state.specs.Events.{went_of, here};
ghost use Rattle.mux_engine.specs.Called.{HasSentNothing, StandsGreeting};
ghost use Rattle.mux_engine.specs.Came.{EndedBy};
ghost use Rattle.mux_engine.specs.Counted.{CountsOfCutCall, Spent, Turned, CountsOfWholeCall};
ghost use Rattle.mux_engine.specs.Rests.{EndsSo, GoesOnSo, HasCalled, HasEnded, HasNoneToClose, HasOffered};
ghost use Rattle.mux_engine.specs.Rests.{IsReadyFor, LeavesPlaces, ended_as, refusal_after, start_refusal_of};
ghost use Rattle.mux_engine.specs.Run.{RunKept};
ghost use Rattle.mux_engine.specs.Serving.{Enters, IsOngoing, RunsOn, RunsWhole, ServedOutside, ServedWith};
ghost use Rattle.mux_engine.specs.Serving.{SpendsTurns, StaysOrFails, TurnsOn, scene, scene_of, to_offer};
ghost use Rattle.mux_engine.specs.Sides.{OwnReceivedBy, Housed, IsAlone, OnlyAsked, SameSockets, StaysHouse, Together};
ghost use Rattle.mux_engine.specs.Wires.{IsIdleWire, IsWireOpened, KeepsWire, NoFault, Works, WorksOwn};

use crate::asking::apply;
use crate::events::{NextEvent, next_of};
use crate::housing::{hand_over, let_in, reply_all, step_house, wanted};
use crate::owned::{list_waiting, own_rounds};
use crate::room::Lists;
use crate::settling::{close_lost, flush, stop_accepting};
use forward_rules::Policy;
use mux_history::Ended;
use mux_outside::{House, OwnTurn, Piece, Wire};
use mux_peers::AskLog;
use mux_state::{Engine, Went};
use ssh_fields::OutOfMemory;
use std::alloc::Global;

// Applies what one of the master's own listeners and streams recorded, and hands it on.
fn hand_on<H: House>(
    house: &mut H,
    lists: &mut Lists,
    recorded: OwnTurn<'_>,
) -> Result<(), OutOfMemory>
    requires ordering { (H.state house.old).known.ordering ≡ None }
    requires fits { OwnTurnFits recorded (H.state house.old).known (H.state house.old).quiet }
    ensures lists { OnOk result (OwnReceivedBy recorded.entry lists.old lists.new) }
    ensures known { OnOk result ((H.state house.new).known
        ≡ known_after_own_turn recorded.entry (H.state house.old).known) }
    ensures must { (H.state house.new).must ≡ (H.state house.old).must }
    ensures recorded { (H.state house.new).recorded ≡ (H.state house.old).recorded }
    ensures stands { OnOk result (HandsOn (H.state house.old).stands (H.state house.new).stands
        (Turns (happening_of recorded.entry) ∷ [])) }
{
    match recorded {
        OwnTurn::Joined { stream, .. } => lists.own.push(stream)?,
        OwnTurn::Writable(stream) => lists.held.remove(stream),
        OwnTurn::Failed(stream) => lists.failed.push(stream)?,
        _ => {}
    }
    house.turn(recorded)
}

// One call of `wait`: what the wire reports next goes into the engine, or to the forwarder.
fn turn<W: Wire, H: House>(
    engine: &mut Engine,
    wire: &mut W,
    house: &mut H,
    lists: &mut Lists,
    piece: &mut Piece,
) -> Result<Went, OutOfMemory>
    requires served { ServedWith H.may H.state house.old
        (scene (W.state wire.old) lists.old engine.old) [] }
    requires together { Together (H.state house.old) (W.state wire.old) lists.old }
    requires ready { IsReadyFor (H.state house.old) lists.old engine.old }
    requires permitted { start_refusal_of (H.state house.old) ≡ None }
    requires closed { HasNoneToClose engine.old }
    requires on { engine.old.ended ≡ None }
    requires receives { (W.state wire.old).seen.listens ≡ engine.old.listening }
    ensures serving { RunsOn result H.may H.state house.old house.new
        (scene (W.state wire.old) lists.old engine.old)
        (scene (W.state wire.new) lists.new engine.new) 1 (λ went. 1) []
        (λ went. 0 ∷ here engine.new) }
    ensures together { OnOk result (Together (H.state house.new) (W.state wire.new) lists.new) }
    ensures house { StaysHouse result (H.state house.old) (H.state house.new) }
    ensures went { IfOk result (λ went. went ≡ went_of engine.new.ended) }
    ensures ended { EndsSo result (H.state house.old).known.present engine.new.ended
        (W.state wire.old) (W.state wire.new) (W.faults wire.old) (W.faults wire.new) }
    ensures wire { Works 1 result (W.state wire.old) (W.state wire.new) (W.faults wire.old)
        (W.faults wire.new) }
{
    list_waiting(house, engine.waiting(), &lists.failed, &mut lists.todo)?;
    let recorded = wire.wait(&lists.todo, wanted(engine), piece);
    match next_of(recorded, piece.as_bytes()) {
        NextEvent::Event(e) => apply(engine, wire, house, &mut lists.asks, e),
        NextEvent::Own(recorded) => {
            hand_on(house, lists, recorded)?;
            Ok(Went::On)
        }
        NextEvent::Freed(stream) => {
            lists.held.remove(stream);
            Ok(Went::On)
        }
        NextEvent::NoMemory => Err(OutOfMemory),
    }
}

// The forwarding of the start that ends the run, since it was refused. By this, a forwarder that is
// present promises that it greets first.
fn refusal<H: House>(house: &H) -> Option<usize>
    ensures refused { result ≡ start_refusal_of (H.state house.now) }
    ensures greets { StandsGreeting (H.state house.now).known.present (H.state house.now).stands }
{
    if !house.present() || !house.must() {
        return None;
    }
    house.refused_start()
}

// Whether the run goes on no more: it ended, or a forwarding of the start was refused.
fn is_over<H: House>(engine: &Engine, house: &H) -> bool
    ensures on { result ≡ false → engine.now.ended ≡ None }
    ensures over { result ≡ true → engine.now.ended ≡ None
        → start_refusal_of (H.state house.now) ≢ None }
    ensures permitted { result ≡ false → start_refusal_of (H.state house.now) ≡ None }
{
    if engine.ended().is_some() {
        return true;
    }
    refusal(house).is_some()
}

// A turn of the run, which is an order of the forwarder, a piece that it sent, or a wait: whether
// the run goes on.
fn one_turn<W: Wire, H: House>(
    engine: &mut Engine,
    wire: &mut W,
    house: &mut H,
    lists: &mut Lists,
    piece: &mut Piece,
) -> Result<bool, OutOfMemory>
    requires ongoing { IsOngoing H.may H.state house.old (W.state wire.old) lists.old engine.old }
    ensures serving { TurnsOn result H.may H.state house.old house.new
        (scene (W.state wire.old) lists.old engine.old)
        (scene (W.state wire.new) lists.new engine.new) lists.new.settled }
    ensures together { OnOk result (Together (H.state house.new) (W.state wire.new) lists.new) }
    ensures house { StaysHouse result (H.state house.old) (H.state house.new) }
    ensures goes { IfOk result (λ on. GoesOnSo on engine.new.ended lists.new.settled
        (start_refusal_of (H.state house.new))) }
    ensures offered { OnOk result (lists.new.settled ≡ true
        → HasOffered (H.state house.new) lists.new) }
    ensures ended { EndsSo result (H.state house.old).known.present engine.new.ended
        (W.state wire.old) (W.state wire.new) (W.faults wire.old) (W.faults wire.new) }
    ensures idle { engine.old.waiting ≡ [] → (H.state house.old).known.present ≡ false
        → IfOk result (λ on. CountsOfWholeCall 1 (W.state wire.old).calls (W.state wire.new).calls) }
    ensures calls { MatchResult result
        (λ on. Turned (H.state house.old).known.present on (W.state wire.old).calls
        (W.state wire.new).calls)
        (λ e. CountsOfCutCall 1 (W.state wire.old).calls (W.state wire.new).calls) }
    ensures wire { KeepsWire (W.state wire.old) (W.state wire.new) (W.faults wire.old)
        (W.faults wire.new) }
{
    if step_house(engine, wire, house, lists, piece)? {
        lists.settled = false;
        return Ok(engine.ended().is_none());
    }
    close_lost::<W, H>(engine, wire, &mut lists.held);
    stop_accepting::<W, H>(engine, wire);
    if is_over(engine, house) {
        lists.settled = true;
        return Ok(false);
    }
    let went = turn(engine, wire, house, lists, piece)?;
    lists.settled = false;
    Ok(went == Went::On)
}

// The turns of a run: whether all were given and it goes on.
fn turns_of<W: Wire, H: House>(
    alloc: Global,
    engine: &mut Engine,
    wire: &mut W,
    house: &mut H,
    lists: &mut Lists,
    turns: u64,
) -> Result<bool, OutOfMemory>
    requires ongoing { IsOngoing H.may H.state house.old (W.state wire.old) lists.old engine.old }
    requires unsettled { lists.old.settled ≡ false }
    requires quiet { (H.state house.old).known.present ≡ false → engine.old.waiting ≡ [] }
    ensures serving { SpendsTurns result turns H.may H.state house.old house.new
        (scene (W.state wire.old) lists.old engine.old)
        (scene (W.state wire.new) lists.new engine.new) lists.new.settled }
    ensures together { OnOk result (Together (H.state house.new) (W.state wire.new) lists.new) }
    ensures house { StaysHouse result (H.state house.old) (H.state house.new) }
    ensures goes { IfOk result (λ all. GoesOnSo all engine.new.ended lists.new.settled
        (start_refusal_of (H.state house.new))) }
    ensures offered { OnOk result (lists.new.settled ≡ true
        → HasOffered (H.state house.new) lists.new) }
    ensures ended { EndsSo result (H.state house.old).known.present engine.new.ended
        (W.state wire.old) (W.state wire.new) (W.faults wire.old) (W.faults wire.new) }
    ensures calls { MatchResult result
        (λ all. Spent (H.state house.old).known.present all turns (W.state wire.old).calls
        (W.state wire.new).calls)
        (λ e. CountsOfCutCall turns (W.state wire.old).calls (W.state wire.new).calls) }
    ensures idle { turns ≡ 0 → (house.new ≡ house.old) × (engine.new ≡ engine.old)
        × NoFault (W.faults wire.old) (W.faults wire.new) }
    ensures wire { KeepsWire (W.state wire.old) (W.state wire.new) (W.faults wire.old)
        (W.faults wire.new) }
{
    let mut piece = Piece::new(alloc)?;
    for _ in 0..turns {
        if !one_turn(engine, wire, house, lists, &mut piece)? {
            return Ok(false);
        }
    }
    Ok(true)
}

// Why a run ended, with its turns spent unless something else ended it. By this, a forwarder that
// is present promises that it greets first.
fn answer_of<H: House>(engine: &Engine, house: &H) -> Ended
    ensures answer { result ≡ ended_as engine.now.ended (start_refusal_of (H.state house.now)) }
    ensures greets { StandsGreeting (H.state house.now).known.present (H.state house.now).stands }
{
    let refused = refusal(house);
    if let Some(cause) = engine.ended() {
        return cause;
    }
    match refused {
        Some(index) => Ended::StartRefused { index },
        None => Ended::Spent,
    }
}

// Admits the forwarder as a client if it is present, before all else.
fn enter<W: Wire, H: House>(
    engine: &mut Engine,
    wire: &mut W,
    house: &H,
    asks: &mut AskLog,
) -> Result<(), OutOfMemory>
    requires on { engine.old.ended ≡ None }
    requires refused { engine.old.refused ≡ [] }
    ensures serving { Enters result H.may H.state house.now (W.state wire.old).seen
        (W.state wire.new).seen engine.old engine.new }
    ensures places { SameSockets (W.state wire.old).seen (W.state wire.new).seen }
    ensures alone { (H.state house.now).known.present ≡ false → (engine.new ≡ engine.old)
        × (wire.new ≡ wire.old) }
    ensures wire { IsIdleWire (W.state wire.old) (W.state wire.new) (W.faults wire.old)
        (W.faults wire.new) }
{
    if !house.present() {
        return Ok(());
    }
    let_in::<W, H>(engine, wire, asks)
}

// After the turns of a run: what waits for the forwarder is handed over, and its streams are offered
// what waits for them. If all turns were given, it is asked for its replies once more.
fn last_words<W: Wire, H: House>(
    engine: &mut Engine,
    wire: &mut W,
    house: &mut H,
    lists: &mut Lists,
    all: bool,
) -> Result<(), OutOfMemory>
    requires served { ServedWith H.may H.state house.old
        (scene (W.state wire.old) lists.old engine.old) (0 ∷ here engine.old) }
    requires together { Together (H.state house.old) (W.state wire.old) lists.old }
    requires on { all ≡ true → engine.old.ended ≡ None }
    ensures serving { RunsOn result H.may H.state house.old house.new
        (scene (W.state wire.old) lists.old engine.old)
        (scene (W.state wire.new) lists.new engine.new) 0 (λ done. 0) (0 ∷ here engine.old)
        (λ done. 0 ∷ without TheHouse (here engine.new)) }
    ensures offered { OnOk result (HasOffered (H.state house.new) lists.new) }
    ensures own { lists.new.own ≡ lists.old.own }
    ensures house { OnlyAsked result (H.state house.old) (H.state house.new) }
    ensures places { SameSockets (W.state wire.old).seen (W.state wire.new).seen }
    ensures ended { OnOk result (engine.new.ended ≡ engine.old.ended) }
    ensures alone { (H.state house.old).known.present ≡ false → (engine.new ≡ engine.old)
        × (wire.new ≡ wire.old) }
    ensures wire { WorksOwn result (W.state wire.old) (W.state wire.new) (W.faults wire.old)
        (W.faults wire.new) }
{
    if !house.present() {
        return Ok(());
    }
    if all {
        return reply_all(engine, wire, house, lists);
    }
    hand_over(engine, wire, house)?;
    own_rounds(
        wire,
        house,
        &mut lists.held,
        &mut lists.failed,
        &lists.own,
        &mut lists.todo,
    )
}

// After the turns of a run: the last that is handed over to the forwarder and offered to its streams,
// and then each other stream is offered what waits for it, unless all were.
fn finish<W: Wire, H: House>(
    engine: &mut Engine,
    wire: &mut W,
    house: &mut H,
    lists: &mut Lists,
    all: bool,
) -> Result<(), OutOfMemory>
    requires served { ServedWith H.may H.state house.old
        (scene (W.state wire.old) lists.old engine.old)
        (to_offer lists.old.settled engine.old) }
    requires together { Together (H.state house.old) (W.state wire.old) lists.old }
    requires on { all ≡ true → engine.old.ended ≡ None }
    requires offered { lists.old.settled ≡ true → HasOffered (H.state house.old) lists.old }
    ensures serving { RunsOn result H.may H.state house.old house.new
        (scene (W.state wire.old) lists.old engine.old)
        (scene (W.state wire.new) lists.new engine.new) 0 (λ done. 0)
        (to_offer lists.old.settled engine.old) (λ done. []) }
    ensures offered { OnOk result (HasOffered (H.state house.new) lists.new) }
    ensures own { lists.new.own ≡ lists.old.own }
    ensures house { OnlyAsked result (H.state house.old) (H.state house.new) }
    ensures places { SameSockets (W.state wire.old).seen (W.state wire.new).seen }
    ensures settled { lists.old.settled ≡ true → house.new ≡ house.old }
    ensures ended { OnOk result (StaysOrFails engine.old.ended engine.new.ended
        (W.faults wire.old) (W.faults wire.new)) }
    ensures idle { engine.old.waiting ≡ [] → (H.state house.old).known.present ≡ false
        → (engine.new ≡ engine.old) × NoFault (W.faults wire.old) (W.faults wire.new) }
    ensures wire { Works 0 result (W.state wire.old) (W.state wire.new) (W.faults wire.old)
        (W.faults wire.new) }
{
    if lists.settled {
        return Ok(());
    }
    last_words(engine, wire, house, lists, all)?;
    flush::<W, H>(
        engine,
        wire,
        &mut lists.held,
        &mut lists.todo,
        &mut lists.asks,
    )
}

// Serves a wire for so many turns: why it ended.
fn run<W: Wire, H: House>(
    alloc: Global,
    engine: &mut Engine,
    wire: &mut W,
    house: &mut H,
    turns: u64,
) -> Result<Ended, OutOfMemory>
    requires running { (v : ServedOutside H.may H.state house.old
        (scene_of (W.state wire.old) [] [] engine.old) (0 ∷ here engine.old))
        × (v.serving.journal ≡ []) }
    requires housed { Housed (H.state house.old).known (W.state wire.old).seen [] }
    requires alone { IsAlone (H.state house.old).known }
    requires on { engine.old.ended ≡ None }
    requires refused { engine.old.refused ≡ [] }
    requires quiet { engine.old.waiting ≡ [] }
    ensures ran { RunsWhole (result_unwrap_or result WantOfMemory) turns H.may H.state house.old
        house.new (W.state wire.old).seen (W.state wire.new).seen engine.old }
    ensures must { (H.state house.new).must ≡ (H.state house.old).must }
    ensures ended { IfOk result (λ answer. HasEnded (H.state house.old).known.present
        (refusal_after (H.state house.old) (H.state house.new)) answer (W.state wire.old)
        (W.state wire.new) (W.faults wire.old) (W.faults wire.new)) }
    ensures greets { OnOk result (StandsGreeting (H.state house.old).known.present
        (H.state house.new).stands) }
    ensures calls { HasCalled (H.state house.old).known.present turns
        (result_unwrap_or result WantOfMemory) (W.state wire.old) (W.state wire.new) }
    ensures places { LeavesPlaces (IsOk result) (H.state house.old) (H.state house.new)
        (W.state wire.old).seen (W.state wire.new).seen }
    ensures idle { turns ≡ 0 → (H.state house.old).known.present ≡ false
        → NoFault (W.faults wire.old) (W.faults wire.new) }
    ensures wire { KeepsWire (W.state wire.old) (W.state wire.new) (W.faults wire.old)
        (W.faults wire.new) }
{
    let mut lists = Lists::new(alloc);
    enter(engine, wire, house, &mut lists.asks)?;
    let all = turns_of(alloc, engine, wire, house, &mut lists, turns)?;
    finish(engine, wire, house, &mut lists, all)?;
    Ok(answer_of(engine, house))
}

/// Serves an open wire until the run ends, for at most `turns` turns, and returns why it ended. A
/// turn is a call of `wait`, an order of the forwarder, or a piece that it sent.
///
/// - What the wire records is permitted by the policy, written, kept open and ended as it must be.
/// - Without a forwarder it waits once a turn, and opens no listener or stream of its own.
/// - At each wait the forwarder has nothing to order or to answer, and is at rest if more is read.
///   Exactly those of its streams are waited for that have not failed and have something waiting.
/// - The wire's own listeners and streams are those that the forwarder ordered. A paused one gives
///   nothing; one that is finished or that failed is not written to.
/// - Unless memory runs out, the forwarder is handed all that happens there, once and in order. At
///   the end nothing waits for it, and each open stream was offered what waits for it.
/// - After the row that ended the connection it orders, sends and answers nothing.
/// - Once a row ended the run or stopped it from accepting clients, a stream accepts bytes only where
///   the wire accepts no clients.
/// - Each order to listen or to connect that got no number is counted as an own fault.
/// - The wire's counts show why the run ended: by the server, a client, or the forwarder.
pub fn serve<W: Wire, H: House>(
    alloc: Global,
    policy: Policy,
    pid: u32,
    wire: &mut W,
    house: &mut H,
    turns: u64,
) -> Ended
    requires opened { IsWireOpened (W.state wire.old).seen }
    requires blank { (H.state house.old).known ≡ nothing_known (H.state house.old).known.present }
    ensures kept { RunKept result policy pid turns H.may H.state house.old house.new
        (W.state wire.old).seen (W.state wire.new).seen }
    ensures must { (H.state house.new).must ≡ (H.state house.old).must }
    ensures ended { HasEnded (H.state house.old).known.present
        (refusal_after (H.state house.old) (H.state house.new)) result (W.state wire.old)
        (W.state wire.new) (W.faults wire.old) (W.faults wire.new) }
    ensures came { HasSentNothing (H.state house.old) → EndedBy result (W.state wire.old).calls
        (W.state wire.new).calls }
    ensures calls { HasCalled (H.state house.old).known.present turns result (W.state wire.old)
        (W.state wire.new) }
    ensures places { LeavesPlaces (result ≢ WantOfMemory) (H.state house.old) (H.state house.new)
        (W.state wire.old).seen (W.state wire.new).seen }
    ensures idle { turns ≡ 0 → (H.state house.old).known.present ≡ false
        → NoFault (W.faults wire.old) (W.faults wire.new) }
    ensures wire { KeepsWire (W.state wire.old) (W.state wire.new) (W.faults wire.old)
        (W.faults wire.new) }
{
    let Ok(mut engine) = Engine::new(alloc, policy, pid) else {
        return Ended::OutOfMemory;
    };
    match run(alloc, &mut engine, wire, house, turns) {
        Ok(ended) => ended,
        Err(_) => Ended::OutOfMemory,
    }
}
