ghost use Rattle.std.specs.Prelude.{◌≡◌, IfOk};

use crate::after::{stage_after, tally_after, x_after};
use crate::next_step::step_of;
use crate::picks::Picks;
use crate::plan::Plan;
use crate::stage::DrillStage;
use crate::step::DrillStep;
use mux_outside::Tally;
use ssh_fields::OutOfMemory;
use std::alloc::Global;
use std::marker::Model;

/// How far a drill has come, with the number drawn last and what was counted.
#[derive(Drop)]
pub struct Trace {
    plan: Plan,
    stage: DrillStage,
    x: u64,
    tally: Tally,
}

impl Model for Trace {
    ghost use Rattle.mux_drill.specs.Trace.{Spot, IsDrillTrace};

    ghost Value = { Spot };

    ghost view = { λ c. record { plan = c.plan; stage = c.stage } };

    ghost invariant = { λ c. IsDrillTrace c.plan c.stage c.x c.tally };
}

impl Trace {
    ghost use Rattle.mux_drill.specs.Trace.{spot_after, tally_at};
    ghost use Rattle.mux_drill.specs.Plan.{IsPlan};
    ghost use Rattle.mux_drill.specs.Steps.{step_at};
    ghost use Rattle.mux_drill.specs.declared.stage.DrillStage.TheVariants.{Unopened, Accepting, Ending};
    ghost use Rattle.mux_outside.specs.declared.turn.Turn.TheVariants.{End};

    /// No drill.
    pub fn unopened() -> Trace
        ensures { result.stage ≡ Unopened }
    {
        Trace {
            plan: Plan {
                seed: 0,
                clients: 1,
                messages: 0,
            },
            stage: DrillStage::Unopened,
            x: 0,
            tally: Tally::zero(),
        }
    }

    /// The start of a drill.
    pub fn start(plan: Plan) -> Trace
        requires { IsPlan plan }
        ensures { result ≡ record { plan = plan; stage = Accepting 1 } }
    {
        Trace {
            plan,
            stage: DrillStage::Accepting(1),
            x: plan.seed,
            tally: Tally::zero(),
        }
    }

    /// What was counted.
    pub fn tally(&self) -> Tally
        ensures { result ≡ tally_at self.now }
    {
        self.tally
    }

    pub fn stage(&self) -> DrillStage
        ensures { result ≡ self.now.stage }
    {
        self.stage
    }

    /// The step that comes next, by the numbers that the master picked and the bytes that wait for
    /// the server.
    pub fn step(
        &self,
        alloc: Global,
        picks: &Picks,
        waiting: &[u8],
    ) -> Result<DrillStep, OutOfMemory>
        ensures exact { IfOk result (λ step. step
            ≡ step_at picks.now waiting.now self.now.plan self.now.stage) }
        ensures ends { IfOk result (λ step. step.turn ≡ End 0 → self.now.stage ≡ Ending) }
    {
        step_of(alloc, self.plan, self.stage, self.x, picks, waiting)
    }

    /// The step was given.
    pub fn advance(&mut self)
        ensures { self.new ≡ spot_after self.old }
    {
        let tally = tally_after(self.plan, self.stage, self.x, self.tally);
        let x = x_after(self.stage, self.x);
        let stage = stage_after(self.plan, self.stage);
        self.tally = tally;
        self.x = x;
        self.stage = stage;
    }
}
