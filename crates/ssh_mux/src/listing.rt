ghost use Rattle.std.specs.Bool.{OnFalse};
ghost use Rattle.std.specs.Prelude.{◌≡◌};
ghost use Rattle.conf_rules.specs.CommandOutcome.{Writes};
ghost use Rattle.conf_rules.specs.declared.command.Command.TheVariants as commands;
ghost use Rattle.mux_outside.specs.Counts.{counted};
ghost use Rattle.ssh_mux.specs.Answers.{may_write, so_far};
ghost use Rattle.ssh_mux.specs.Causes.{OutCause};
ghost use Rattle.ssh_mux.specs.Looks.{FoundFor, Looks, coming};
ghost use Rattle.ssh_mux.specs.Out.{HandsOver, OutTakes};
ghost use Rattle.ssh_mux.specs.Outcomes.{Listing, writes_out};
ghost use Rattle.ssh_mux.specs.Puts.{PutsOnce};
ghost use Rattle.ssh_mux.specs.World.{sources};

use crate::ending::Ending;
use crate::status::Status;
use conf_output::listing;
use conf_resolve::resolve;
use conf_rules::Asked;
use mux_outside::{Facts, FileError, Files, Runner, Sink};
use ssh_fields::Text;
use std::alloc::Global;

/// Lists the settings of what the words ask for: `-G`.
pub fn list<F: Files, R: Runner, S: Sink>(
    alloc: Global,
    asked: &Asked,
    facts: &Facts,
    files: &mut F,
    runner: &mut R,
    out: &mut S,
) -> Result<Status, Ending>
    ensures looks { Looks facts.now (commands.List asked.now) asked.now result
        (sources F.Files R.Runner files.old runner.old)
        (sources F.Files R.Runner files.new runner.new) }
    ensures out { OutTakes (so_far result)
        (coming (sources F.Files R.Runner files.old runner.old) facts.now
        (commands.List asked.now)) (S.recorded out.old) (S.recorded out.new) }
    ensures unwritten { OnFalse (may_write (so_far result)) (out.new ≡ out.old) }
    ensures unlisted { OnFalse (writes_out
        (coming (sources F.Files R.Runner files.old runner.old) facts.now
        (commands.List asked.now))) (out.new ≡ out.old) }
    ensures out_cause { OutCause (so_far result) (S.faults out.old) (S.faults out.new) }
    ensures once { PutsOnce (so_far result) (S.puts out.old) (S.puts out.new) }
{
    let text = listing_of(alloc, asked, facts, files, runner)?;
    hand_over(out, text.as_bytes())
}

// The listing of what the words ask for.
fn listing_of<F: Files, R: Runner>(
    alloc: Global,
    asked: &Asked,
    facts: &Facts,
    files: &mut F,
    runner: &mut R,
) -> Result<Text, Ending>
    ensures { FoundFor Writes Listing facts.now (commands.List asked.now) asked.now result
        (sources F.Files R.Runner files.old runner.old)
        (sources F.Files R.Runner files.new runner.new) }
{
    let settings = resolve(alloc, asked, facts, files, runner)?;
    let text = listing(alloc, &settings, asked.original.as_bytes(), facts)?;
    Ok(text)
}

/// Hands a text over, whole: a listing, or the summary of a drill.
pub fn hand_over<S: Sink>(out: &mut S, text: &[u8]) -> Result<Status, Ending>
    ensures handed { HandsOver result text.now (S.recorded out.old) (S.recorded out.new) }
    ensures cause { OutCause (so_far result) (S.faults out.old) (S.faults out.new) }
    ensures once { S.puts out.new ≡ counted (S.puts out.old) }
{
    match out.put(text) {
        Ok(()) => Ok(Status::Done),
        Err(FileError::Failed) => Ok(Status::Write),
        Err(FileError::OutOfMemory) => Err(Ending::NoMemory),
    }
}
