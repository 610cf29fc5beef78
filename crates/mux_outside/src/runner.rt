ghost use Rattle.std.specs.Prelude.{◌≡◌, ◌++◌, ℕ, List, Option};
ghost use Rattle.std.specs.Option.{option_map};
ghost use Rattle.mux_outside.specs.declared.statuses.CommandStatus.{CommandStatus as TheStatus};
ghost use Rattle.mux_outside.specs.Counts.{HasCause};
ghost use Rattle.mux_outside.specs.Runner.{EndsWith, commands_run};

use crate::file_error::FileError;

/// What runs commands.
pub trait Runner {
    /// The statuses of commands, if they are recorded.
    ghost recorded: { Self → Option (List TheStatus) };

    /// The commands that were run, in order, if they are recorded.
    ghost ran: { Self → Option (List (List ℕ)) };

    /// How many calls failed.
    ghost faults: { Self → ℕ };

    /// The status with which a command of the shell ends.
    fn run(&mut self, command: &[u8]) -> Result<u8, FileError>
        ensures status { EndsWith (recorded self.old) command.now result }
        ensures ran { ran self.new ≡ option_map (λ cs. cs ++ commands_run result command.now)
            (ran self.old) }
        ensures cause { HasCause result (faults self.old) (faults self.new) }
        ensures recorded { recorded self.new ≡ recorded self.old };
}
