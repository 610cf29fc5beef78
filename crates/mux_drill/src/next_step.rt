//! The step of a stage.
ghost use Rattle.std.specs.Prelude.{◌≡◌, ◌≤◌, IfOk};
ghost use Rattle.mux_drill.specs.Trace.{place_of_stage, last_of, draws_at};
ghost use Rattle.mux_drill.specs.Generator.{drawn};
ghost use Rattle.mux_drill.specs.Plan.{IsPlan};
ghost use Rattle.mux_drill.specs.Steps.{step_at};

use crate::draw::draw;
use crate::frames::opener_in;
use crate::generator::DrillMessage;
use crate::picks::Picks;
use crate::plan::Plan;
use crate::stage::DrillStage;
use crate::step::DrillStep;
use mux_outside::Turn;
use ssh_fields::OutOfMemory;
use std::alloc::Global;

/// The step of a stage, by the number drawn last, the numbers that the master picked and the bytes
/// that wait for the server.
pub fn step_of(
    alloc: Global,
    plan: Plan,
    stage: DrillStage,
    x: u64,
    picks: &Picks,
    waiting: &[u8],
) -> Result<DrillStep, OutOfMemory>
    requires sound { IsPlan plan }
    requires first { 1 ≤ place_of_stage stage }
    requires last { place_of_stage stage ≤ last_of plan stage }
    requires drawn_is { x ≡ drawn plan.seed (draws_at plan stage) }
    ensures { IfOk result (λ step. step ≡ step_at picks.now waiting.now plan stage) }
{
    let clients = plan.clients;
    match stage {
        DrillStage::Unopened => Ok(DrillStep::bare(alloc, Turn::Failed(0))),
        DrillStage::Accepting(client) => Ok(DrillStep::bare(alloc, Turn::Accepted(client))),
        DrillStage::Entering(client) => DrillStep::entering(alloc, client),
        DrillStage::Confirming(client) => DrillStep::confirming(alloc, client, opener_in(waiting)),
        DrillStage::Sending(i) => {
            let before = DrillMessage::before(clients, x, i);
            DrillStep::sending(
                alloc,
                clients,
                i,
                before,
                DrillMessage::of(clients, draw(x), i),
            )
        }
        DrillStage::Echoing(i) => {
            let message = DrillMessage::of(clients, x, i);
            DrillStep::echoing(alloc, picks.at(message.client), message)
        }
        DrillStage::Adjusting(i) => DrillStep::adjusting(alloc, DrillMessage::of(clients, x, i)),
        DrillStage::Closing(client) => {
            let before = DrillMessage::before(clients, x, plan.messages);
            DrillStep::closing(alloc, clients, plan.messages, before, client)
        }
        DrillStage::ClosingBack(client) => DrillStep::closing_back(alloc, picks.at(client), client),
        DrillStage::Leaving(client) => DrillStep::leaving(alloc, client),
        DrillStage::Ending => Ok(DrillStep::bare(alloc, Turn::End(0))),
    }
}
