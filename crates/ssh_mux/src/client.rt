ghost use Rattle.std.specs.Bool.{OnFalse};
ghost use Rattle.std.specs.Prelude.{◌≡◌};
ghost use Rattle.conf_rules.specs.declared.command.Command.TheVariants as commands;
ghost use Rattle.mux_client.specs.Requests.{MayAsk};
ghost use Rattle.ssh_mux.specs.Answers.{may_have_joined, so_far};
ghost use Rattle.ssh_mux.specs.Asks.{NamesForwards};
ghost use Rattle.ssh_mux.specs.Causes.{OutCause};
ghost use Rattle.ssh_mux.specs.Client.{ClientLeaves, Converses, EndsClient, JoinsAt, TalkCounts};
ghost use Rattle.ssh_mux.specs.Client.{talk_recorded};
ghost use Rattle.ssh_mux.specs.Looks.{Looks, coming};
ghost use Rattle.ssh_mux.specs.World.{output, sources};

use crate::asks::asks_of;
use crate::ending::Ending;
use crate::master::control_of;
use crate::status::Status;
use conf_rules::{Asked, MasterCommand};
use mux_client::{Asks, Talked, talk};
use mux_outside::{Facts, FileError, Files, Runner, Sink, Wire};
use ssh_fields::Text;
use std::alloc::Global;

/// Asks a running master as the words do: `-O`. The wire is joined to the master's socket at the
/// control path of their settings, and what the master answers goes to `out`, a line in one `put`.
/// The talk takes so many turns at most.
pub fn ask_master<W: Wire, F: Files, R: Runner, S: Sink>(
    alloc: Global,
    asked: &Asked,
    control: MasterCommand,
    facts: &Facts,
    wire: &mut W,
    files: &mut F,
    runner: &mut R,
    out: &mut S,
    turns: u64,
) -> Result<Status, Ending>
    requires named { NamesForwards control asked.now.lines }
    ensures looks { Looks facts.now (commands.Control asked.now control) asked.now result
        (sources F.Files R.Runner files.old runner.old)
        (sources F.Files R.Runner files.new runner.new) }
    ensures leaves { ClientLeaves (coming (sources F.Files R.Runner files.old runner.old) facts.now
        (commands.Control asked.now control)) turns result (W.state wire.old) (W.state wire.new)
        (W.faults wire.old) (W.faults wire.new) (output S.Sink out.old) (output S.Sink out.new) }
    ensures untouched { OnFalse (may_have_joined
        (coming (sources F.Files R.Runner files.old runner.old) facts.now
        (commands.Control asked.now control)) (so_far result))
        ((wire.new ≡ wire.old) × (out.new ≡ out.old)) }
{
    let path = control_of(alloc, asked, facts, files, runner)?;
    let asks = asks_of(alloc, asked, control)?;
    join_and_talk(alloc, &path, &asks, wire, out, turns)
}

// Joins the wire to the master's socket, and talks.
fn join_and_talk<W: Wire, S: Sink>(
    alloc: Global,
    path: &Text,
    asks: &Asks,
    wire: &mut W,
    out: &mut S,
    turns: u64,
) -> Result<Status, Ending>
    requires may { MayAsk asks.now }
    ensures ends { EndsClient result }
    ensures joined { JoinsAt path.now (so_far result) (W.state wire.old).joinings
        (W.state wire.new).joinings }
    ensures talked { Converses asks.now (W.state wire.old).seen.recorded (W.state wire.new).seen.recorded
        (S.recorded out.old) (S.recorded out.new) result }
    ensures out_cause { OutCause (so_far result) (S.faults out.old) (S.faults out.new) }
    ensures wire { TalkCounts turns (so_far result) (W.state wire.old) (W.state wire.new)
        (W.faults wire.old) (W.faults wire.new) }
{
    match wire.join(path.as_bytes()) {
        Ok(()) => ending_of(talk(alloc, wire, out, asks, turns)),
        Err(FileError::Failed) => Err(Ending::NotOpened),
        Err(FileError::OutOfMemory) => Err(Ending::NoMemory),
    }
}

// What the end of a talk is for the program.
fn ending_of(talked: Talked) -> Result<Status, Ending>
    ensures ends { EndsClient result }
    ensures recorded { result ≡ talk_recorded talked }
{
    match talked {
        Talked::Done => Ok(Status::Done),
        Talked::Refused { .. } => Err(Ending::MasterRefused),
        Talked::BadMaster { .. } => Err(Ending::MasterBroke),
        Talked::WriteFault => Ok(Status::Write),
        Talked::ServerFailed => Err(Ending::TransportFailed),
        Talked::Spent => Err(Ending::TurnsSpent),
        Talked::OutOfMemory => Err(Ending::NoMemory),
    }
}
