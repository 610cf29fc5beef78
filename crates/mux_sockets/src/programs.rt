//! What programs are started with: the system, or what records them.
ghost use Rattle.std.specs.Prelude.{◌≡◌, List, Option, None, OnErr, OnOk};
ghost use Rattle.std.specs.Process.{command_args, command_program};
ghost use Rattle.mux_sockets.specs.ProgramSteps.{ProgramStep, after_step};
ghost use Rattle.mux_sockets.specs.ProgramSteps.ProgramStep.{Started, Waited};

use std::io;
use std::process::{Child, Command, ExitStatus, Processes};

/// Starts programs. The system's records nothing; all that is proved of commands holds of one that
/// records.
pub trait Programs: Drop {
    type Running: Drop;

    // what was done, the newest first, where it is recorded
    ghost recorded: { Self → Option (List ProgramStep) } = { λ _. None };

    /// Starts a program.
    fn start(&mut self, command: &mut Command) -> io::Result<Self::Running>
        ensures ok { OnOk result (recorded self.new
            ≡ after_step (Started (command_program command.old) (command_args command.old))
            (recorded self.old)) }
        ensures err { OnErr result (recorded self.new ≡ recorded self.old) };

    /// Waits until a program has ended.
    fn wait(&mut self, running: Self::Running) -> io::Result<ExitStatus>
        ensures { recorded self.new ≡ after_step Waited (recorded self.old) };
}

/// The programs of this machine.
#[derive(Drop)]
pub struct SystemPrograms<P: Processes + Drop> {
    rt: P,
}

impl<P: Processes + Drop> SystemPrograms<P> {
    pub fn new(rt: P) -> SystemPrograms<P> {
        SystemPrograms { rt }
    }
}

impl<P: Processes + Drop> Programs for SystemPrograms<P> {
    type Running = Child<P::Started>;

    fn start(&mut self, command: &mut Command) -> io::Result<Child<P::Started>> {
        command.spawn(&self.rt)
    }

    fn wait(&mut self, mut running: Child<P::Started>) -> io::Result<ExitStatus> {
        running.wait()
    }
}
