//! What a step leaves.
ghost use Rattle.std.specs.Prelude.{◌≡◌, ◌≤◌};
ghost use Rattle.mux_drill.specs.Trace.{drill_stage_after as after, place_of_stage, last_of, from_message as message_or_close, drawn_after, counting};
ghost use Rattle.mux_drill.specs.Generator.{length_of};

use crate::draw::{draw, len_of};
use crate::plan::Plan;
use crate::stage::DrillStage;
use mux_outside::{Tally, counted};

// Message i, if there is one, else the first CLOSE.
fn from_message(plan: Plan, i: u64) -> DrillStage
    ensures { result ≡ message_or_close plan i }
{
    if i < plan.messages {
        DrillStage::Sending(i)
    } else {
        DrillStage::Closing(1)
    }
}

/// The step after one.
pub fn stage_after(plan: Plan, stage: DrillStage) -> DrillStage
    requires { place_of_stage stage ≤ last_of plan stage }
    ensures { result ≡ after plan stage }
{
    match stage {
        DrillStage::Unopened => DrillStage::Unopened,
        DrillStage::Accepting(client) => DrillStage::Entering(client),
        DrillStage::Entering(client) if client < plan.clients => DrillStage::Accepting(client + 1),
        DrillStage::Entering(_) => DrillStage::Confirming(1),
        DrillStage::Confirming(client) if client < plan.clients => DrillStage::Confirming(
            client + 1,
        ),
        DrillStage::Confirming(_) => from_message(plan, 0),
        DrillStage::Sending(i) => DrillStage::Echoing(i),
        DrillStage::Echoing(i) => DrillStage::Adjusting(i),
        DrillStage::Adjusting(i) => from_message(plan, i + 1),
        DrillStage::Closing(client) if client < plan.clients => DrillStage::Closing(client + 1),
        DrillStage::Closing(_) => DrillStage::ClosingBack(1),
        DrillStage::ClosingBack(client) if client < plan.clients => DrillStage::ClosingBack(
            client + 1,
        ),
        DrillStage::ClosingBack(_) => DrillStage::Leaving(1),
        DrillStage::Leaving(client) if client < plan.clients => DrillStage::Leaving(client + 1),
        DrillStage::Leaving(_) => DrillStage::Ending,
        DrillStage::Ending => DrillStage::Ending,
    }
}

/// The number drawn last after a step: a message that is sent draws one.
pub fn x_after(stage: DrillStage, x: u64) -> u64
    ensures { result ≡ drawn_after stage x }
{
    match stage {
        DrillStage::Sending(_) => draw(x),
        _ => x,
    }
}

/// What was counted after a step.
pub fn tally_after(plan: Plan, stage: DrillStage, x: u64, tally: Tally) -> Tally
    ensures { result ≡ counting plan stage (length_of x) tally }
{
    match stage {
        DrillStage::Accepting(_) => Tally {
            clients: counted(tally.clients),
            ..tally
        },
        DrillStage::Sending(i) if 0 < i => Tally {
            messages: counted(tally.messages),
            ..tally
        },
        DrillStage::Echoing(_) => Tally {
            data_up: tally.data_up.saturating_add(len_of(x)),
            ..tally
        },
        DrillStage::Adjusting(_) => Tally {
            data_down: tally.data_down.saturating_add(len_of(x)),
            ..tally
        },
        DrillStage::Closing(client) if client == 1 && 0 < plan.messages => Tally {
            messages: counted(tally.messages),
            ..tally
        },
        DrillStage::Leaving(_) => Tally {
            closed: counted(tally.closed),
            ..tally
        },
        _ => tally,
    }
}
