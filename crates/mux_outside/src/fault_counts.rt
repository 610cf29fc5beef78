ghost use Rattle.std.specs.Prelude.{◌≡◌};
ghost use Rattle.mux_outside.specs.Faults.{FaultOf, no_faults};
ghost use Rattle.mux_outside.specs.Wire.{TurnFaults, WroteFaults};

use crate::counts::raised;
use crate::turn::{Turn, Wrote};
use crate::whose::Whose;
use std::marker::Model;

/// How often something failed at a wire.
#[derive(Drop)]
pub struct FaultCounts {
    server: u64,
    client: u64,
    own: u64,
}

impl Model for FaultCounts {
    ghost use Rattle.mux_outside.specs.Faults.{Faults};

    ghost Value = { Faults };

    ghost view = { λ f. record { server = f.server; client = f.client; own = f.own } };
}

impl FaultCounts {
    /// Nothing failed.
    pub fn new() -> FaultCounts
        ensures { result ≡ no_faults }
    {
        FaultCounts {
            server: 0,
            client: 0,
            own: 0,
        }
    }

    /// Counts a fault of this one.
    pub fn of(&mut self, whose: Whose)
        ensures { FaultOf whose self.old self.new }
    {
        match whose {
            Whose::Server => self.server = raised(self.server),
            Whose::Client(_) => self.client = raised(self.client),
            Whose::Own => self.own = raised(self.own),
        }
    }

    /// Counts what a call of `wait` that gave this turn found to fail.
    pub fn waited(&mut self, turn: Turn)
        ensures { TurnFaults turn self.old self.new }
    {
        if let Turn::Failed(stream) = turn {
            self.of(Whose::of(stream));
        }
    }

    /// Counts what a call of `write` that had this answer found to fail.
    pub fn wrote(&mut self, wrote: Wrote, stream: u64)
        ensures { WroteFaults wrote stream self.old self.new }
    {
        if wrote == Wrote::Failed {
            self.of(Whose::of(stream));
        }
    }
}
