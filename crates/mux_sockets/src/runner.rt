ghost use Rattle.std.specs.Prelude.{◌≡◌, ◌⊎◌, ◌∷◌, [], None, Err, IfOk, IsUtf8, OnErr, OnOk, codes};
ghost use Rattle.std.specs.Process.{SameProgramAndArgs, command_args, command_program};
ghost use Rattle.mux_outside.specs.Counts.{HasCause};
ghost use Rattle.mux_sockets.specs.ProgramSteps.{ShellRan};

use crate::programs::{Programs, SystemPrograms};
use mux_edge::{count_failed, file_error};
use mux_outside::{FileError, Runner};
use std::alloc::Global;
use std::process::{Command, ExitStatus, Processes, Stdio};
use std::{io, str};

// The status of a command that a signal ended.
const BY_A_SIGNAL: u8 = 255;

/// The system's shell, `/bin/sh -c`. A command reads from nowhere, and what it writes is dropped.
/// An end by a signal gives 255. A command that isn't UTF-8 is a fault.
#[derive(Drop)]
pub struct RealRunner<P: Processes + Drop> {
    programs: SystemPrograms<P>,
    alloc: Global,
    faults: u64,
}

impl<P: Processes + Drop> RealRunner<P> {
    /// The shell, of which no call has failed.
    pub fn new(rt: P, alloc: Global) -> RealRunner<P>
        ensures { result.faults ≡ 0 }
    {
        RealRunner {
            programs: SystemPrograms::new(rt),
            alloc,
            faults: 0,
        }
    }
}

impl<P: Processes + Drop> Runner for RealRunner<P> {
    ghost recorded = { λ _. None };

    ghost ran = { λ _. None };

    ghost faults = { λ r. r.faults };

    fn run(&mut self, command: &[u8]) -> Result<u8, FileError>
        ensures not_text { ¬ (IsUtf8 command.now) → result ≡ Err FileError.Failed }
        ensures cause { HasCause result self.old.faults self.new.faults }
    {
        let answer = run_shell(&mut self.programs, self.alloc, command);
        count_failed(&answer, &mut self.faults);
        answer
    }
}

fn run_shell<P: Programs>(programs: &mut P, alloc: Global, command: &[u8]) -> Result<u8, FileError>
    ensures not_text { ¬ (IsUtf8 command.now) → result ≡ Err FileError.Failed }
    ensures ok { OnOk result
        (ShellRan command.now (P.recorded programs.old) (P.recorded programs.new)) }
    ensures err { OnErr result ((P.recorded programs.new ≡ P.recorded programs.old)
        ⊎ ShellRan command.now (P.recorded programs.old) (P.recorded programs.new)) }
{
    let Ok(text) = str::from_utf8(command) else {
        return Err(FileError::Failed);
    };
    match status_of(programs, alloc, text) {
        Ok(status) => Ok(status),
        Err(e) => Err(file_error(&e)),
    }
}

// The status with which the shell ends.
fn status_of<P: Programs>(programs: &mut P, alloc: Global, command: &str) -> io::Result<u8>
    ensures ok { OnOk result
        (ShellRan command.now (P.recorded programs.old) (P.recorded programs.new)) }
    ensures err { OnErr result ((P.recorded programs.new ≡ P.recorded programs.old)
        ⊎ ShellRan command.now (P.recorded programs.old) (P.recorded programs.new)) }
{
    let mut shell = silent_shell(alloc, command)?;
    let running = programs.start(&mut shell)?;
    let status = programs.wait(running)?;
    Ok(code_of(status))
}

// The shell that runs a command. It reads from nowhere, and what it writes is dropped.
fn silent_shell(alloc: Global, command: &str) -> io::Result<Command>
    ensures program { IfOk result (λ c. command_program c ≡ codes "/bin/sh") }
    ensures args { IfOk result (λ c. command_args c ≡ codes "-c" ∷ (command.now ∷ [])) }
{
    let mut shell = shell_of(alloc, command)?;
    silence(&mut shell);
    Ok(shell)
}

// The shell that runs a command.
fn shell_of(alloc: Global, command: &str) -> io::Result<Command>
    ensures program { IfOk result (λ c. command_program c ≡ codes "/bin/sh") }
    ensures args { IfOk result (λ c. command_args c ≡ codes "-c" ∷ (command.now ∷ [])) }
{
    let mut shell = Command::new(alloc, "/bin/sh")?;
    shell.arg("-c")?;
    shell.arg(command)?;
    Ok(shell)
}

// It reads from nowhere, and what it writes is dropped.
fn silence(shell: &mut Command)
    ensures { SameProgramAndArgs shell.old shell.new }
{
    shell.stdin(Stdio::null());
    shell.stdout(Stdio::null());
    shell.stderr(Stdio::null());
}

// The status as a byte.
fn code_of(status: ExitStatus) -> u8 {
    match status.code() {
        Some(code) => u8::try_from(code).unwrap_or(BY_A_SIGNAL),
        None => BY_A_SIGNAL,
    }
}
