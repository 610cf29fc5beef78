ghost use Rattle.std.specs.Prelude.{◌≡◌, ℕ, true, false, List, IfOk, OnOk, None, Some, if◌then◌else◌};
ghost use Rattle.mux_outside.specs.House.{order_marks};
ghost use Rattle.mux_outside.specs.declared.order.Order.TheVariants.{Connect as TheConnect};
ghost use Rattle.mux_state.specs.State.{EngineState as TheState};
ghost use Rattle.mux_engine.specs.Orders.{Carries, CarryCounted, HasOrdered, IsMade, makes as does_make};
ghost use Rattle.mux_engine.specs.Serving.{RunsFrom, RunsOn, scene};
ghost use Rattle.mux_engine.specs.Sides.{Housed, OrderedNothing, StaysHouse, noting};
ghost use Rattle.mux_engine.specs.Wires.{IsIdleWire, Untouched};

use crate::room::Lists;
use mux_outside::{FileError, House, HouseMark, Order, Wire};
use ssh_fields::{OutOfMemory, Text};

// The number that was made. Running out of memory is no refusal.
fn made_by(made: Result<u64, FileError>) -> Result<Option<u64>, OutOfMemory>
    ensures { IsMade made result }
{
    match made {
        Ok(number) => Ok(Some(number)),
        Err(FileError::OutOfMemory) => Err(OutOfMemory),
        Err(FileError::Failed) => Ok(None),
    }
}

// Makes a stream that connects there, which is blocked until it is connected, and records the
// forwarder its number.
fn add_stream<W: Wire, H: House>(
    wire: &mut W,
    house: &mut H,
    lists: &mut Lists,
    host: &Text,
    port: u32,
) -> Result<Option<u64>, OutOfMemory>
    requires ordered { HasOrdered (TheConnect host.now port) (H.state house.old).known
        (W.state wire.old).seen lists.old.own }
    ensures carried { Carries result (TheConnect host.now port) (W.state wire.old).seen
        (W.state wire.new).seen lists.old lists.new (H.state house.old) (H.state house.new) }
    ensures counted { CarryCounted result (TheConnect host.now port) (W.faults wire.old).own
        (W.faults wire.new).own }
    ensures must { (H.state house.new).must ≡ (H.state house.old).must }
    ensures wire { Untouched (W.state wire.old) (W.state wire.new) (W.faults wire.old)
        (W.faults wire.new) }
{
    let made = made_by(wire.connect(host.as_bytes(), port))?;
    house.ordered(made);
    if let Some(stream) = made {
        lists.own.push(stream)?;
        lists.held.push(stream)?;
    }
    Ok(made)
}

// Carries out an order of the forwarder: the number of what it made, where it made something.
fn carry_out<W: Wire, H: House>(
    wire: &mut W,
    house: &mut H,
    lists: &mut Lists,
    order: &Order,
) -> Result<Option<u64>, OutOfMemory>
    requires ordered { HasOrdered order.now (H.state house.old).known (W.state wire.old).seen
        lists.old.own }
    ensures carried { Carries result order.now (W.state wire.old).seen (W.state wire.new).seen
        lists.old lists.new (H.state house.old) (H.state house.new) }
    ensures counted { CarryCounted result order.now (W.faults wire.old).own
        (W.faults wire.new).own }
    ensures must { (H.state house.new).must ≡ (H.state house.old).must }
    ensures wire { Untouched (W.state wire.old) (W.state wire.new) (W.faults wire.old)
        (W.faults wire.new) }
{
    match order {
        Order::Listen { host, port } => {
            let made = made_by(wire.listen(host.as_bytes(), *port))?;
            house.ordered(made);
            return Ok(made);
        }
        Order::Connect { host, port } => return add_stream(wire, house, lists, host, *port),
        Order::Unlisten(listener) => wire.unlisten(*listener),
        Order::Pause(stream) => wire.pause(*stream),
        Order::Resume(stream) => wire.resume(*stream),
        Order::Finish(stream) => wire.finish(*stream),
        Order::Close(stream) => {
            wire.close(*stream);
            lists.own.remove(*stream);
            lists.held.remove(*stream);
            lists.failed.remove(*stream);
        }
    }
    Ok(None)
}

// Whether an order is to make something. The wire records such a one itself.
fn makes(order: &Order) -> bool
    ensures { result ≡ does_make order.now }
{
    matches!(order, Order::Listen { .. } | Order::Connect { .. })
}

// Carries out an order that the forwarder just gave, and notes it where the wire didn't record it.
fn obey<W: Wire, H: House>(
    wire: &mut W,
    house: &mut H,
    lists: &mut Lists,
    order: Order,
) -> Result<(), OutOfMemory>
    requires ordered { HasOrdered order (H.state house.old).known (W.state wire.old).seen
        lists.old.own }
    requires present { (H.state house.old).known.present ≡ true }
    ensures serving { (todo : List ℕ) (s : TheState) → s.ended ≡ None → RunsFrom result
        (noting (order_marks (Some order)) (H.state house.old).recorded (H.state house.old).known)
        H.may H.state house.old house.new (scene (W.state wire.old) lists.old s)
        (scene (W.state wire.new) lists.new s) 1 (λ done. 1) todo (λ done. todo) }
    ensures housed { OnOk result
        (Housed (H.state house.new).known (W.state wire.new).seen lists.new.own) }
    ensures house { StaysHouse result (H.state house.old) (H.state house.new) }
    ensures wire { IsIdleWire (W.state wire.old) (W.state wire.new) (W.faults wire.old)
        (W.faults wire.new) }
{
    let number = carry_out(wire, house, lists, &order)?;
    if makes(&order) {
        return Ok(());
    }
    wire.note(&HouseMark::HouseOrder { order, number })
}

/// The next order of the forwarder is carried out: whether there was one.
pub fn next_order<W: Wire, H: House>(
    wire: &mut W,
    house: &mut H,
    lists: &mut Lists,
) -> Result<bool, OutOfMemory>
    requires housed { Housed (H.state house.old).known (W.state wire.old).seen lists.old.own }
    requires present { (H.state house.old).known.present ≡ true }
    ensures serving { (todo : List ℕ) (s : TheState) → s.ended ≡ None → RunsOn result H.may H.state house.old
        house.new (scene (W.state wire.old) lists.old s) (scene (W.state wire.new) lists.new s) 1
        (λ more. if more then 1 else 0) todo (λ more. todo) }
    ensures housed { OnOk result
        (Housed (H.state house.new).known (W.state wire.new).seen lists.new.own) }
    ensures house { StaysHouse result (H.state house.old) (H.state house.new) }
    ensures none { IfOk result (λ more. more ≡ false
        → OrderedNothing (H.state house.old) (H.state house.new) lists.old lists.new) }
    ensures wire { IsIdleWire (W.state wire.old) (W.state wire.new) (W.faults wire.old)
        (W.faults wire.new) }
{
    let Some(order) = house.order() else {
        return Ok(false);
    };
    obey(wire, house, lists, order)?;
    Ok(true)
}
