ghost use Rattle.std.specs.Bool.{OnFalse};
ghost use Rattle.std.specs.Prelude.{◌≡◌, ◌∷◌, [], List, IfOk, IsOk, IsTrue, OnOk, Some};
ghost use Rattle.conf_rules.specs.Texts.{Bytes};
ghost use Rattle.conf_rules.specs.declared.command.Command.TheVariants as commands;
ghost use Rattle.conf_rules.specs.declared.command.Permissions.{Permissions};
ghost use Rattle.conf_rules.specs.declared.control.MasterCommand.{MasterCommand};
ghost use Rattle.forward_rules.specs.Allows.{read_policy};
ghost use Rattle.mux_engine.specs.Called.{HasSentNothing};
ghost use Rattle.mux_engine.specs.Rests.{refusal_after};
ghost use Rattle.mux_engine.specs.Sides.{RestsOf};
ghost use Rattle.mux_history.specs.Policy.{read_list};
ghost use Rattle.mux_outside.specs.HouseCalls.{Begins};
ghost use Rattle.ssh_mux.specs.Answers.{may_share, so_far};
ghost use Rattle.ssh_mux.specs.Here.{here_of as the_here_of};
ghost use Rattle.ssh_mux.specs.Looks.{FoundFor, Looks, coming, machine_of_sources};
ghost use Rattle.ssh_mux.specs.Master.{EndsMaster, OnlyStarves};
ghost use Rattle.ssh_mux.specs.Outcomes.{Client, Master, joins_at, opens_at};
ghost use Rattle.ssh_mux.specs.Places.{recorded_over};
ghost use Rattle.ssh_mux.specs.Sharing.{CountsFor, MasterLeaves, OpensAt, SharesWith, StartCause};
ghost use Rattle.ssh_mux.specs.Sharing.{pid_of, policy_of as the_policy_of, recorded_as};
ghost use Rattle.ssh_mux.specs.Starts.{BeganWith, BegunRests, MustsAs, SettledFor, starts_for};
ghost use Rattle.ssh_mux.specs.World.{sockets, sources};

use crate::ending::Ending;
use crate::here::here_of;
use crate::starts::starts_of;
use crate::status::Status;
use conf_options::Settings;
use conf_output::control_path;
use conf_resolve::resolve;
use conf_rules::{Asked, Permissions};
use forward_rules::{Policy, PolicyError};
use mux_engine::serve;
use mux_history::Ended;
use mux_outside::{Facts, FileError, Files, House, ListenPermit, Runner, Wire};
use ssh_fields::Text;
use std::alloc::Global;

/// What is found of what the words ask for.
#[derive(Drop)]
struct Found {
    settings: Settings,
    /// Their control path.
    control: Text,
}

/// What permissions give: the policy of clients, and where the master's own forwardings may listen.
#[derive(Drop)]
struct Grants {
    policy: Policy,
    here: ListenPermit,
}

/// Shares a connection as the words ask: `-M`. The forwarder begins with the forwardings that their
/// settings ask for, and with where the words permit them to listen. Then the wire is opened at the
/// control path of these settings, and is served for so many turns at most, with the permissions of
/// the words, which have no bad entry.
pub fn share<W: Wire, F: Files, R: Runner, H: House>(
    alloc: Global,
    asked: &Asked,
    transport: &Text,
    permits: &Permissions,
    facts: &Facts,
    wire: &mut W,
    files: &mut F,
    runner: &mut R,
    house: &mut H,
    turns: u64,
) -> Result<Status, Ending>
    requires permitted { IsOk (read_policy permits.now.opens permits.now.listens permits.now.sessions) }
    requires here { IsOk (read_list permits.now.here) }
    requires fresh { H.fresh house.old }
    ensures looks { Looks facts.now
        (commands.Master asked.now transport.now permits.now) asked.now result
        (sources F.Files R.Runner files.old runner.old)
        (sources F.Files R.Runner files.new runner.new) }
    ensures leaves { MasterLeaves H.may H.state
        (coming (sources F.Files R.Runner files.old runner.old) facts.now
        (commands.Master asked.now transport.now permits.now))
        (recorded_over (machine_of_sources (sources F.Files R.Runner files.old runner.old) facts.now)
        asked.now) (pid_of facts.now.pid) turns result
        (sockets W.Wire H.Asks.own wire.old house.old)
        (sockets W.Wire H.Asks.own wire.new house.new) }
    ensures untouched { OnFalse (may_share
        (coming (sources F.Files R.Runner files.old runner.old) facts.now
        (commands.Master asked.now transport.now permits.now)) (so_far result))
        ((wire.new ≡ wire.old) × (house.new ≡ house.old)) }
{
    let found = found_of(alloc, asked, facts, files, runner)?;
    let grants = grants_of(alloc, permits)?;
    let pid = facts.pid.unwrap_or(0);
    begin_and_serve(alloc, &found, transport, grants, pid, wire, house, turns)
}

// The settings of what the words ask for, and the control path of them: of a master, and of a
// client of one.
fn found_of<F: Files, R: Runner>(
    alloc: Global,
    asked: &Asked,
    facts: &Facts,
    files: &mut F,
    runner: &mut R,
) -> Result<Found, Ending>
    ensures master { (transport : Bytes) (permits : Permissions) →
        FoundFor (λ found. opens_at transport permits found.control)
        (Master transport permits) facts.now
        (commands.Master asked.now transport permits) asked.now result
        (sources F.Files R.Runner files.old runner.old)
        (sources F.Files R.Runner files.new runner.new) }
    ensures client { (what : MasterCommand) →
        FoundFor (λ found. joins_at asked.now what found.control) (Client asked.now what) facts.now
        (commands.Control asked.now what) asked.now result
        (sources F.Files R.Runner files.old runner.old)
        (sources F.Files R.Runner files.new runner.new) }
    ensures settled { IfOk result (λ found. SettledFor
        (recorded_over (machine_of_sources (sources F.Files R.Runner files.old runner.old) facts.now)
        asked.now) found.settings) }
{
    let settings = resolve(alloc, asked, facts, files, runner)?;
    let found = control_path(alloc, &settings, asked.original.as_bytes(), facts)?;
    match found {
        Some(control) => Ok(Found { settings, control }),
        None => Err(Ending::NoControlPath),
    }
}

/// The control path of what the words ask for: of a master, and of a client of one.
pub fn control_of<F: Files, R: Runner>(
    alloc: Global,
    asked: &Asked,
    facts: &Facts,
    files: &mut F,
    runner: &mut R,
) -> Result<Text, Ending>
    ensures master { (transport : Bytes) (permits : Permissions) →
        FoundFor (opens_at transport permits) (Master transport permits) facts.now
        (commands.Master asked.now transport permits) asked.now result
        (sources F.Files R.Runner files.old runner.old)
        (sources F.Files R.Runner files.new runner.new) }
    ensures client { (what : MasterCommand) →
        FoundFor (joins_at asked.now what) (Client asked.now what) facts.now
        (commands.Control asked.now what) asked.now result
        (sources F.Files R.Runner files.old runner.old)
        (sources F.Files R.Runner files.new runner.new) }
{
    let found = found_of(alloc, asked, facts, files, runner)?;
    Ok(found.control)
}

/// The policy of permissions without a bad entry.
pub fn policy_of(alloc: Global, permits: &Permissions) -> Result<Policy, Ending>
    requires permitted { IsOk (read_policy permits.now.opens permits.now.listens permits.now.sessions) }
    ensures exact { IfOk result (λ policy. policy ≡ the_policy_of permits.now) }
    ensures err { OnlyStarves result }
{
    match Policy::read(alloc, &permits.opens, &permits.listens, permits.sessions) {
        Ok(policy) => Ok(policy),
        Err(PolicyError::OutOfMemory) => Err(Ending::NoMemory),
        Err(PolicyError::BadEntry { .. }) => unreachable!(),
    }
}

// What permissions without a bad entry give.
fn grants_of(alloc: Global, permits: &Permissions) -> Result<Grants, Ending>
    requires permitted { IsOk (read_policy permits.now.opens permits.now.listens permits.now.sessions) }
    requires here { IsOk (read_list permits.now.here) }
    ensures policy { IfOk result (λ grants. grants.policy ≡ the_policy_of permits.now) }
    ensures here { IfOk result (λ grants. grants.here ≡ the_here_of permits.now.here) }
    ensures err { OnlyStarves result }
{
    let policy = policy_of(alloc, permits)?;
    let here = here_of(alloc, &permits.here)?;
    Ok(Grants { policy, here })
}

// Begins a forwarder with the forwardings that the settings ask for, and with where they may
// listen.
fn begin<H: House>(
    alloc: Global,
    settings: &Settings,
    here: ListenPermit,
    house: &mut H,
) -> Result<(), Ending>
    requires fresh { H.fresh house.old }
    ensures begun { OnOk result (H.begun house.new) }
    ensures known { OnOk result ((H.state house.new).known ≡ (H.state house.old).known) }
    ensures must { OnOk result (IsTrue (H.state house.old).known.present
        → (H.state house.new).must ≡ (starts_for here settings.now).must) }
    ensures recorded { (H.state house.new).recorded ≡ (H.state house.old).recorded }
    ensures stands { OnOk result
        ((H.state house.new).stands (Begins (starts_for here settings.now) ∷ [])) }
    ensures err { OnlyStarves result }
{
    // By this a forwarder that was never called represents no call.
    let _fresh = house.present();
    let starts = starts_of(alloc, here, settings)?;
    house.begin(&starts)?;
    Ok(())
}

// Begins the forwarder, opens the wire, and serves it with both.
fn begin_and_serve<W: Wire, H: House>(
    alloc: Global,
    found: &Found,
    transport: &Text,
    grants: Grants,
    pid: u32,
    wire: &mut W,
    house: &mut H,
    turns: u64,
) -> Result<Status, Ending>
    requires fresh { H.fresh house.old }
    ensures ends { EndsMaster result }
    ensures opened { OpensAt found.now.control transport.now (so_far result)
        (W.state wire.old).openings (W.state wire.new).openings }
    ensures served { SharesWith H.may
        (BegunRests H.state (H.state house.old).known.present
        (starts_for grants.here found.now.settings))
        (BeganWith (starts_for grants.here found.now.settings)) grants.policy pid turns (H.state house.old)
        (H.state house.new) (W.state wire.old) (W.state wire.new) result }
    ensures start { StartCause (so_far result)
        (refusal_after (H.state house.old) (H.state house.new)) }
    ensures must { IsTrue (H.state house.old).known.present → MustsAs (so_far result)
        (Some (starts_for grants.here found.now.settings).must) (H.state house.new).must }
    ensures wire { CountsFor (H.state house.old).known.present turns (so_far result)
        (W.state wire.old) (W.state wire.new) (W.faults wire.old) (W.faults wire.new) }
{
    let Grants { policy, here } = grants;
    begin(alloc, &found.settings, here, house)?;
    open_and_serve(
        alloc,
        &found.control,
        transport,
        policy,
        pid,
        wire,
        house,
        turns,
    )
}

/// Opens the wire, and serves it with a forwarder of which `begin` alone was called.
pub fn open_and_serve<W: Wire, H: House>(
    alloc: Global,
    control: &Text,
    transport: &Text,
    policy: Policy,
    pid: u32,
    wire: &mut W,
    house: &mut H,
    turns: u64,
) -> Result<Status, Ending>
    requires begun { H.begun house.old }
    requires silent { HasSentNothing (H.state house.old) }
    ensures ends { EndsMaster result }
    ensures opened { OpensAt control.now transport.now (so_far result)
        (W.state wire.old).openings (W.state wire.new).openings }
    ensures served { SharesWith H.may
        (RestsOf H.state (H.state house.old).known.present house.old) (H.state house.old).stands
        policy pid turns (H.state house.old) (H.state house.new) (W.state wire.old)
        (W.state wire.new) result }
    ensures start { StartCause (so_far result)
        (refusal_after (H.state house.old) (H.state house.new)) }
    ensures must { (H.state house.new).must ≡ (H.state house.old).must }
    ensures wire { CountsFor (H.state house.old).known.present turns (so_far result)
        (W.state wire.old) (W.state wire.new) (W.faults wire.old) (W.faults wire.new) }
{
    // By this nothing is known of a forwarder that has only begun.
    let _blank = house.present();
    match wire.open(control.as_bytes(), transport.as_bytes()) {
        Ok(()) => ending_of(serve(alloc, policy, pid, wire, house, turns)),
        Err(FileError::Failed) => Err(Ending::NotOpened),
        Err(FileError::OutOfMemory) => Err(Ending::NoMemory),
    }
}

// What the end of a run is for the program.
fn ending_of(ended: Ended) -> Result<Status, Ending>
    ensures ends { EndsMaster result }
    ensures recorded { result ≡ recorded_as ended }
{
    match ended {
        Ended::ServerEnd | Ended::Disconnected | Ended::Terminated { .. } => Ok(Status::Done),
        Ended::ServerFailed => Err(Ending::TransportFailed),
        Ended::Broke { index, why } => Err(Ending::ServerBroke { index, why }),
        Ended::StartRefused { .. } => Err(Ending::StartRefused),
        Ended::Spent => Err(Ending::TurnsSpent),
        Ended::OutOfMemory => Err(Ending::NoMemory),
    }
}
