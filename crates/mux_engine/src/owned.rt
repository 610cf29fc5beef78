ghost use Rattle.std.specs.Prelude.{◌≡◌, ◌<◌, ◌++◌, ℕ, true, false, filter, length, OnOk, IfOk, IsTrue};
ghost use Rattle.ssh_fields.specs.Fields.{AreBytes};
ghost use Rattle.mux_outside.specs.OwnStreams.{numbers_of};
ghost use Rattle.mux_outside.specs.Streams.{among};
ghost use Rattle.mux_outside.specs.Wire.{MayWrite, WroteFaults, WroteFits};
ghost use Rattle.mux_outside.specs.WireState.{state_after_write};
ghost use Rattle.mux_engine.specs.Owned.{CanOfferOwn, FailsFurther, IsOwnOffered, IsOpenOwn, KeepsOffers, OwnsStreams, StayOffered, TookOrOffered, waits_for_own};
ghost use Rattle.mux_engine.specs.Serving.{OwnOn};
ghost use Rattle.mux_engine.specs.Sides.{Housed, OnlyTook, SameSockets};
ghost use Rattle.mux_engine.specs.Wires.{WorksOwn};

use mux_outside::{House, OwnTurn, Streams, Wire, Wrote};
use ssh_fields::OutOfMemory;

// Hands bytes to a stream.
fn hand<W: Wire>(wire: &mut W, stream: u64, bytes: &[u8]) -> Wrote
    requires may { MayWrite stream bytes.now (W.state wire.old).seen }
    ensures bytes { AreBytes bytes.now }
    ensures wrote { WroteFits result (length bytes.now) }
    ensures state { W.state wire.new ≡ state_after_write result stream bytes.now
        (W.state wire.new).tally (W.state wire.old) }
    ensures cause { WroteFaults result stream (W.faults wire.old) (W.faults wire.new) }
{
    wire.write(stream, bytes)
}

// Offers one of the master's own streams what waits for it, once: whether it accepted some. A
// stream that fails is not offered any more.
fn own_once<W: Wire, H: House>(
    wire: &mut W,
    house: &mut H,
    held: &mut Streams,
    failed: &mut Streams,
    stream: u64,
) -> Result<bool, OutOfMemory>
    requires { CanOfferOwn (H.state house.old) (W.state wire.old).seen held.old stream }
    ensures house { OnlyTook result (H.state house.old) (H.state house.new) }
    ensures offered { IfOk result (λ more. TookOrOffered more (H.state house.old).queue
        (H.state house.new).queue held.new failed.new stream) }
    ensures serving { OwnOn result H.may H.state house.old house.new (W.state wire.old).seen
        (W.state wire.new).seen held.old held.new failed.old failed.new }
    ensures places { SameSockets (W.state wire.old).seen (W.state wire.new).seen }
    ensures lists { OnOk result (KeepsOffers stream (H.state house.old) (H.state house.new)
        (W.state wire.new).seen held.old held.new failed.old failed.new) }
    ensures wire { WorksOwn result (W.state wire.old) (W.state wire.new) (W.faults wire.old)
        (W.faults wire.new) }
{
    if held.contains(stream) || failed.contains(stream) {
        return Ok(false);
    }
    let bytes = house.queue_of(stream);
    if bytes.is_empty() {
        return Ok(false);
    }
    match hand(wire, stream, bytes) {
        Wrote::Took(n) => {
            house.took(stream, n);
            Ok(true)
        }
        Wrote::Later => {
            held.push(stream)?;
            Ok(false)
        }
        Wrote::Failed => {
            failed.push(stream)?;
            house.turn(OwnTurn::Failed(stream))?;
            Ok(false)
        }
        Wrote::NoMemory => Err(OutOfMemory),
    }
}

// Offers one of the master's own streams what waits for it, until all is accepted, or it accepts no
// more for now, or it fails.
fn offer_own<W: Wire, H: House>(
    wire: &mut W,
    house: &mut H,
    held: &mut Streams,
    failed: &mut Streams,
    stream: u64,
) -> Result<(), OutOfMemory>
    requires { CanOfferOwn (H.state house.old) (W.state wire.old).seen held.old stream }
    ensures house { OnlyTook result (H.state house.old) (H.state house.new) }
    ensures offered { OnOk result (IsOwnOffered ((H.state house.new).queue stream) held.new failed.new
        stream) }
    ensures serving { OwnOn result H.may H.state house.old house.new (W.state wire.old).seen
        (W.state wire.new).seen held.old held.new failed.old failed.new }
    ensures places { SameSockets (W.state wire.old).seen (W.state wire.new).seen }
    ensures lists { OnOk result (KeepsOffers stream (H.state house.old) (H.state house.new)
        (W.state wire.new).seen held.old held.new failed.old failed.new) }
    ensures wire { WorksOwn result (W.state wire.old) (W.state wire.new) (W.faults wire.old)
        (W.faults wire.new) }
{
    while own_once(wire, house, held, failed, stream)? {}
    Ok(())
}

// Offers each of these of the master's own streams what waits for it. Where none fails meanwhile,
// all were offered it; where one fails the forwarder may have more for the others.
fn own_round<W: Wire, H: House>(
    wire: &mut W,
    house: &mut H,
    held: &mut Streams,
    failed: &mut Streams,
    streams: &Streams,
) -> Result<(), OutOfMemory>
    requires knows { OwnsStreams (H.state house.old) (W.state wire.old).seen held.old }
    requires each { (t : ℕ) → among t streams.now ≡ true
        → IsOpenOwn (H.state house.old) (W.state wire.old).seen t }
    ensures serving { OwnOn result H.may H.state house.old house.new (W.state wire.old).seen
        (W.state wire.new).seen held.old held.new failed.old failed.new }
    ensures offered { OnOk result (length failed.new ≡ length failed.old → (t : ℕ)
        → among t streams.now ≡ true
        → IsOwnOffered ((H.state house.new).queue t) held.new failed.new t) }
    ensures keeps { OnOk result (StayOffered (H.state house.old).queue (H.state house.new).queue
        held.old held.new failed.old failed.new) }
    ensures house { OnlyTook result (H.state house.old) (H.state house.new) }
    ensures places { SameSockets (W.state wire.old).seen (W.state wire.new).seen }
    ensures held_is { OnOk result (held.new ≡ (W.state wire.new).seen.blocked) }
    ensures fails { OnOk result (FailsFurther streams.now failed.old failed.new) }
    ensures wire { WorksOwn result (W.state wire.old) (W.state wire.new) (W.faults wire.old)
        (W.faults wire.new) }
{
    for stream in streams.as_slice() {
        offer_own(wire, house, held, failed, *stream)?;
    }
    Ok(())
}

/// Offers each of the master's own streams what waits for it, again as long as one fails; `todo` is
/// room for the numbers of those for which something waits.
pub fn own_rounds<W: Wire, H: House>(
    wire: &mut W,
    house: &mut H,
    held: &mut Streams,
    failed: &mut Streams,
    own: &Streams,
    todo: &mut Streams,
) -> Result<(), OutOfMemory>
    requires housed { Housed (H.state house.old).known (W.state wire.old).seen own.now }
    requires held_is { held.old ≡ (W.state wire.old).seen.blocked }
    ensures serving { OwnOn result H.may H.state house.old house.new (W.state wire.old).seen
        (W.state wire.new).seen held.old held.new failed.old failed.new }
    ensures offered { OnOk result ((t : ℕ) → among t own.now ≡ true
        → IsOwnOffered ((H.state house.new).queue t) held.new failed.new t) }
    ensures house { OnlyTook result (H.state house.old) (H.state house.new) }
    ensures places { SameSockets (W.state wire.old).seen (W.state wire.new).seen }
    ensures held_is { OnOk result (held.new ≡ (W.state wire.new).seen.blocked) }
    ensures wire { WorksOwn result (W.state wire.old) (W.state wire.new) (W.faults wire.old)
        (W.faults wire.new) }
{
    loop {
        let before = failed.len();
        todo.clear();
        house.list_waiting(failed, todo)?;
        own_round(wire, house, held, failed, todo)?;
        if failed.len() <= before {
            return Ok(());
        }
    }
}

/// Lists the streams that are waited for: after these the master's own for which something waits,
/// as long as they did not fail.
pub fn list_waiting<H: House>(
    house: &H,
    waiting: &Streams,
    failed: &Streams,
    todo: &mut Streams,
) -> Result<(), OutOfMemory>
    ensures { OnOk result (todo.new
        ≡ waiting.now ++ filter (waits_for_own (H.state house.now).queue failed.now)
        (numbers_of (H.state house.now).known.streams)) }
{
    todo.refill(waiting.as_slice())?;
    house.list_waiting(failed, todo)
}
