//! The children that look up names: `getent ahosts NAME` for each.
ghost use Rattle.std.specs.Prelude.{◌≡◌, ◌∷◌, [], ◌<◌, ◌≤◌, ◌+◌, ◌↔◌, IfOk, IsTrue, OnErr, OnOk, codes, length, true};
ghost use Rattle.std.specs.Process.{command_args, command_program};
ghost use Rattle.indexmap.specs.IndexMap.{index_map_len};
ghost use Rattle.mux_edge.specs.Names.{is_name};
ghost use Rattle.mux_sockets.specs.ProgramSteps.{after_step, starts_lookup};
ghost use Rattle.mux_sockets.specs.ProgramSteps.ProgramStep.{Started};

use crate::programs::{Programs, SystemPrograms};
use indexmap::IndexMap;
use mux_edge::Children;
use std::alloc::{AllocError, Global};
use std::io::ErrorKind;
use std::os::fd::OwnedFd;
use std::os::unix::net;
use std::process::{Child, Command, Processes, Stdio};
use std::{io, str};

// How many children there may be at once: those of the look-ups, and those that were killed and
// aren't gone yet.
const MOST_CHILDREN: usize = 64;

/// A child. When this is dropped, it is killed and waited for, so that none is left over.
struct Worker<P: Processes> {
    child: Child<P::Started>,
}

impl<P: Processes> Drop for Worker<P> {
    fn drop(self) {
        let Worker { mut child } = self;
        let _ = child.kill();
        let _ = child.wait();
    }
}

impl<P: Processes> Worker<P> {
    // Ends it.
    fn kill(&mut self) {
        let _ = self.child.kill();
    }

    // Whether it is gone, and waited for. This doesn't wait.
    fn is_gone(&mut self) -> bool {
        !matches!(self.child.try_wait(), Ok(None))
    }
}

/// The children that look up names, and those that were killed, until they are gone.
#[derive(Drop)]
pub struct Workers<P: Processes + Drop> {
    programs: SystemPrograms<P>,
    alloc: Global,
    running: IndexMap<u64, Worker<P>>,
    leaving: Vec<Worker<P>>,
}

impl<P: Processes + Drop> Workers<P> {
    /// None so far.
    pub fn new(rt: P, alloc: Global) -> Workers<P>
        ensures running { index_map_len result.running ≡ 0 }
        ensures leaving { length result.leaving.items ≡ 0 }
    {
        Workers {
            programs: SystemPrograms::new(rt),
            alloc,
            running: IndexMap::new(alloc),
            leaving: Vec::new(alloc),
        }
    }
}

impl<P: Processes + Drop> Children for Workers<P> {
    fn is_busy(&self) -> bool
        ensures { IsTrue result ↔ (0 < length self.now.leaving.items) }
    {
        !self.leaving.is_empty()
    }

    fn reap(&mut self)
        ensures running { self.new.running ≡ self.old.running }
        ensures fewer { length self.new.leaving.items ≤ length self.old.leaving.items }
    {
        self.leaving.retain_mut(|worker| !worker.is_gone());
    }

    fn start(&mut self, number: u64, name: &[u8], output: net::UnixStream) -> io::Result<()>
        requires { is_name name.now ≡ true }
        ensures few { OnOk result (index_map_len self.new.running + length self.new.leaving.items
            ≤ MOST_CHILDREN) }
    {
        self.reap();
        if self.running.len().saturating_add(self.leaving.len()) >= MOST_CHILDREN {
            return Err(io::Error::from(ErrorKind::Other));
        }
        let child = spawn(&mut self.programs, self.alloc, name, output)?;
        let worker = Worker { child };
        self.running.insert(number, worker).map_err(|_| AllocError)?;
        Ok(())
    }

    fn end(&mut self, number: u64) {
        if let Some(mut worker) = self.running.swap_remove(&number) {
            worker.kill();
            // Where there is no memory for it, it is waited for here.
            let _ = self.leaving.push(worker);
        }
    }
}

// Has a child write the addresses of a name.
fn spawn<P: Programs>(
    programs: &mut P,
    alloc: Global,
    name: &[u8],
    output: net::UnixStream,
) -> io::Result<P::Running>
    requires { is_name name.now ≡ true }
    ensures ok { OnOk result (P.recorded programs.new
        ≡ after_step (starts_lookup name.now) (P.recorded programs.old)) }
    ensures err { OnErr result (P.recorded programs.new ≡ P.recorded programs.old) }
{
    let mut getent = getent_of(alloc, name)?;
    started(programs, &mut getent, output)
}

// The child of a command, which writes to this.
fn started<P: Programs>(
    programs: &mut P,
    command: &mut Command,
    output: net::UnixStream,
) -> io::Result<P::Running>
    ensures ok { OnOk result (P.recorded programs.new
        ≡ after_step (Started (command_program command.old) (command_args command.old))
        (P.recorded programs.old)) }
    ensures err { OnErr result (P.recorded programs.new ≡ P.recorded programs.old) }
{
    command.stdin(Stdio::null());
    command.stdout(Stdio::from(OwnedFd::from(output)));
    command.stderr(Stdio::null());
    programs.start(command)
}

// The command for a name that is still bytes.
fn getent_of(alloc: Global, name: &[u8]) -> io::Result<Command>
    requires { is_name name.now ≡ true }
    ensures program { IfOk result (λ c. command_program c ≡ codes "getent") }
    ensures args { IfOk result (λ c. command_args c ≡ codes "ahosts" ∷ (name.now ∷ [])) }
{
    match str::from_utf8(name) {
        Ok(name) => Ok(getent(alloc, name)?),
        Err(_) => Err(io::Error::from(ErrorKind::InvalidInput)),
    }
}

// The command that writes the addresses of a name, which it doesn't take for an option.
fn getent(alloc: Global, name: &str) -> Result<Command, AllocError>
    requires { is_name name.now ≡ true }
    ensures program { IfOk result (λ c. command_program c ≡ codes "getent") }
    ensures args { IfOk result (λ c. command_args c ≡ codes "ahosts" ∷ (name.now ∷ [])) }
{
    let mut getent = Command::new(alloc, "getent")?;
    getent.arg("ahosts")?;
    getent.arg(name)?;
    Ok(getent)
}
