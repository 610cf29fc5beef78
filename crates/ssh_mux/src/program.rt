ghost use Rattle.std.specs.Bool.{OnTrue};
ghost use Rattle.std.specs.Prelude.{◌≡◌, Ok};
ghost use Rattle.conf_rules.specs.Reading.{reading};
ghost use Rattle.ssh_mux.specs.Answers.{RunLeaves, has_no_line, so_far};
ghost use Rattle.ssh_mux.specs.Err.{IsRecordedBy};
ghost use Rattle.ssh_mux.specs.Looks.{coming_of_words};
ghost use Rattle.ssh_mux.specs.Runs.{Runs};
ghost use Rattle.ssh_mux.specs.World.{OutState, output, sockets, sources, world};
ghost use Rattle.ssh_mux.specs.declared.status.Status.{Status as TheStatus};

use crate::client::ask_master;
use crate::drill::drill;
use crate::ending::Ending;
use crate::listing::list;
use crate::master::share;
use crate::reporting::report;
use crate::status::Status;
use conf_command::read_words;
use conf_rules::Command;
use mux_outside::{Facts, Files, House, Runner, Sink, Wire};
use ssh_fields::Texts;
use std::alloc::Global;

/// Does what the words ask for, over the outside that is handed in, and records how it ended.
///
/// `words` are the program's words without its name. What they ask for is resolved over `files`,
/// whose commands `runner` runs. The listing of `-G` goes to `out` in one `put`, once it is
/// complete. `-M` opens the wire and serves it for at most `turns` turns. `-O` joins the wire to
/// the socket of a running master, asks it for at most `turns` turns, and hands each line of what
/// it answers to `out` in one `put`. `--drill` serves as `-M` does, for clients that are permitted
/// anything but forwardings of the master's own, and where its run ends well the summary of what
/// the wire has counted goes to `out` in one `put`. A status other than that of success or of a
/// failed `out` has its one line, which goes to `err` in one `put`; where there is no memory for it
/// the status is that of running out of memory. `house` is the master's own forwardings, which
/// weren't called before; `-M` alone calls it.
pub fn run<W: Wire, F: Files, R: Runner, S: Sink, H: House>(
    alloc: Global,
    words: &Texts,
    facts: &Facts,
    wire: &mut W,
    files: &mut F,
    runner: &mut R,
    out: &mut S,
    err: &mut S,
    house: &mut H,
    turns: u64,
) -> Status
    requires fresh { H.fresh house.old }
    ensures runs { Runs words.now facts.now
        (world (sockets W.Wire H.Asks.own wire.old house.old)
        (sources F.Files R.Runner files.old runner.old)
        (output S.Sink out.old) (output S.Sink err.old))
        H.may H.state turns result
        (world (sockets W.Wire H.Asks.own wire.new house.new)
        (sources F.Files R.Runner files.new runner.new)
        (output S.Sink out.new) (output S.Sink err.new)) }
    ensures leaves { RunLeaves
        (coming_of_words (sources F.Files R.Runner files.old runner.old) facts.now words.now)
        result (out.new ≡ out.old) (files.new ≡ files.old) (runner.new ≡ runner.old)
        (wire.new ≡ wire.old) (house.new ≡ house.old) }
    ensures silent { OnTrue (has_no_line result) (err.new ≡ err.old) }
{
    match obey(alloc, words, facts, wire, files, runner, out, house, turns) {
        Ok(status) => status,
        Err(ending) => report(alloc, err, &ending),
    }
}

// Does what the words ask for.
fn obey<W: Wire, F: Files, R: Runner, S: Sink, H: House>(
    alloc: Global,
    words: &Texts,
    facts: &Facts,
    wire: &mut W,
    files: &mut F,
    runner: &mut R,
    out: &mut S,
    house: &mut H,
    turns: u64,
) -> Result<Status, Ending>
    requires fresh { H.fresh house.old }
    ensures runs { (status : TheStatus) (err recorded : OutState) → IsRecordedBy result status err recorded
        → Runs words.now facts.now
        (world (sockets W.Wire H.Asks.own wire.old house.old)
        (sources F.Files R.Runner files.old runner.old) (output S.Sink out.old) err)
        H.may H.state turns status
        (world (sockets W.Wire H.Asks.own wire.new house.new)
        (sources F.Files R.Runner files.new runner.new) (output S.Sink out.new) recorded) }
    ensures leaves { RunLeaves
        (coming_of_words (sources F.Files R.Runner files.old runner.old) facts.now words.now)
        (so_far result) (out.new ≡ out.old) (files.new ≡ files.old) (runner.new ≡ runner.old)
        (wire.new ≡ wire.old) (house.new ≡ house.old) }
{
    let command = read_words(alloc, words)?;
    let ended = act(
        alloc, &command, words, facts, wire, files, runner, out, house, turns,
    );
    drop(command);
    ended
}

// Does what a command asks for, which is what the words say.
fn act<W: Wire, F: Files, R: Runner, S: Sink, H: House>(
    alloc: Global,
    command: &Command,
    words: &Texts,
    facts: &Facts,
    wire: &mut W,
    files: &mut F,
    runner: &mut R,
    out: &mut S,
    house: &mut H,
    turns: u64,
) -> Result<Status, Ending>
    requires read { reading words.now ≡ Ok command.now }
    requires fresh { H.fresh house.old }
    ensures runs { (status : TheStatus) (err recorded : OutState) → IsRecordedBy result status err recorded
        → Runs words.now facts.now
        (world (sockets W.Wire H.Asks.own wire.old house.old)
        (sources F.Files R.Runner files.old runner.old) (output S.Sink out.old) err)
        H.may H.state turns status
        (world (sockets W.Wire H.Asks.own wire.new house.new)
        (sources F.Files R.Runner files.new runner.new) (output S.Sink out.new) recorded) }
    ensures leaves { RunLeaves
        (coming_of_words (sources F.Files R.Runner files.old runner.old) facts.now words.now)
        (so_far result) (out.new ≡ out.old) (files.new ≡ files.old) (runner.new ≡ runner.old)
        (wire.new ≡ wire.old) (house.new ≡ house.old) }
{
    match command {
        Command::List(asked) => list(alloc, asked, facts, files, runner, out),
        Command::Master {
            asked,
            transport,
            permits,
        } => share(
            alloc, asked, transport, permits, facts, wire, files, runner, house, turns,
        ),
        Command::Control { asked, control } => ask_master(
            alloc, asked, *control, facts, wire, files, runner, out, turns,
        ),
        Command::Drill { .. } => drill(alloc, words, wire, out, turns),
    }
}
