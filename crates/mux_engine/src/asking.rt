ghost use Rattle.std.specs.Prelude.{◌≡◌, IfOk, OnOk, None};
ghost use Rattle.mux_outside.specs.HouseCalls.{HandsOn, calls_of};
ghost use Rattle.mux_state.specs.Events.{went_of};
ghost use Rattle.mux_engine.specs.Asking.{AppliesEvent};
ghost use Rattle.mux_engine.specs.Wires.{Untouched};

use mux_outside::{House, Wire};
use mux_peers::AskLog;
use mux_state::{Engine, Event, Went};
use ssh_fields::OutOfMemory;

/// Applies an event, and notes right after it what was requested of the forwarder by it; `asks` is
/// room for that.
pub fn apply<W: Wire, H: House>(
    engine: &mut Engine,
    wire: &mut W,
    house: &mut H,
    asks: &mut AskLog,
    e: Event<'_>,
) -> Result<Went, OutOfMemory>
    requires ordering { (H.state house.old).known.ordering ≡ None }
    ensures applied { AppliesEvent result H.may e.entry engine.old engine.new asks.new
        (H.state house.old) (H.state house.new) (W.state wire.old).seen (W.state wire.new).seen }
    ensures handed { OnOk result (HandsOn (H.state house.old).stands (H.state house.new).stands
        (calls_of asks.new)) }
    ensures must { (H.state house.new).must ≡ (H.state house.old).must }
    ensures went { IfOk result (λ went. went ≡ went_of engine.new.ended) }
    ensures wire { Untouched (W.state wire.old) (W.state wire.new) (W.faults wire.old)
        (W.faults wire.new) }
    ensures own_faults { (W.faults wire.new).own ≡ (W.faults wire.old).own }
{
    asks.clear();
    let went = engine.event(e, house, asks)?;
    for mark in asks.as_slice() {
        wire.note(mark)?;
    }
    Ok(went)
}
