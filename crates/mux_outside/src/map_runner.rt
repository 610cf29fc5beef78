ghost use Rattle.std.specs.Prelude.{◌≡◌, ◌++◌, [], Some};
ghost use Rattle.std.specs.Option.{option_map};
ghost use Rattle.mux_outside.specs.Calls.{FailsByNumber, calls_after};
ghost use Rattle.mux_outside.specs.Counts.{HasCause};
ghost use Rattle.mux_outside.specs.Runner.{EndsWith, commands_run, runner_status_of as status_by};

use crate::calls::Calls;
use crate::counts::{counted, raised};
use crate::file_error::FileError;
use crate::runner::Runner;
use crate::statuses::{CommandStatus, Statuses};
use ssh_fields::{Text, Texts};
use std::alloc::Global;

/// Commands in memory: of equal commands the first status counts, and an unknown command gives 127.
#[derive(Drop)]
pub struct MapRunner {
    alloc: Global,
    statuses: Statuses,
    ran: Texts,
    fails: Calls,
    calls: u64,
    faults: u64,
}

impl MapRunner {
    /// These commands, of which none was run.
    pub fn new(alloc: Global, statuses: Statuses, fails: Calls) -> MapRunner
        ensures statuses { result.statuses ≡ statuses }
        ensures ran { result.ran ≡ [] }
        ensures fails { result.fails ≡ fails }
        ensures calls { result.calls ≡ 0 }
        ensures faults { result.faults ≡ 0 }
    {
        MapRunner {
            alloc,
            statuses,
            ran: Texts::new(alloc),
            fails,
            calls: 0,
            faults: 0,
        }
    }

    /// The commands that were run, in order.
    pub fn ran(&self) -> &Texts
        ensures { result.now ≡ self.now.ran }
    {
        &self.ran
    }
}

// The status of a command.
fn runner_status_of(statuses: &[CommandStatus], command: &[u8]) -> u8
    ensures { result ≡ status_by statuses.now command.now }
{
    for known in statuses {
        if known.command.as_bytes() == command {
            return known.status;
        }
    }
    127
}

impl Runner for MapRunner {
    ghost recorded = { λ r. Some r.statuses };

    ghost ran = { λ r. Some r.ran };

    ghost faults = { λ r. r.faults };

    fn run(&mut self, command: &[u8]) -> Result<u8, FileError>
        ensures status { EndsWith (Some self.old.statuses) command.now result }
        ensures ran { Some self.new.ran
            ≡ option_map (λ cs. cs ++ commands_run result command.now) (Some self.old.ran) }
        ensures cause { HasCause result self.old.faults self.new.faults }
        ensures recorded { Some self.new.statuses ≡ Some self.old.statuses }
        ensures exact { FailsByNumber result self.old.calls self.old.fails }
        ensures calls { self.new.calls ≡ calls_after result self.old.calls }
        ensures fails { self.new.fails ≡ self.old.fails }
    {
        let call = counted(self.calls);
        if self.fails.contains(call) {
            self.calls = call;
            self.faults = raised(self.faults);
            return Err(FileError::Failed);
        }
        let status = runner_status_of(self.statuses.as_slice(), command);
        self.ran.push(Text::copy(self.alloc, command)?)?;
        self.calls = call;
        Ok(status)
    }
}
