ghost use Rattle.std.specs.Prelude.{◌≡◌, ◌+◌, ℕ, IfOk, false, None, length, bytes_eq, codes};
ghost use Rattle.conf_rules.specs.CommandLine.{master_of, client_of, control_in, mode_command, host_command, command_with, command_of, walked, walk_from, steps_from, transport_in, asked_of, permissions_of};
ghost use Rattle.conf_rules.specs.Options.{Free};
ghost use Rattle.conf_rules.specs.declared.command.Command.TheVariants as commands;
ghost use Rattle.conf_rules.specs.declared.control.MasterCommand.TheVariants.{Check};
ghost use Rattle.conf_rules.specs.Reading.{reading, drill_of};
ghost use Rattle.conf_command.specs.declared.reader.WordsError.TheVariants as words_errors;
ghost use Rattle.conf_command.specs.Results.{GivesCommand};
ghost use Rattle.conf_command.specs.Shown.{shown_mode_of};

use crate::act::CommandMode;
use crate::bytes::is_same;
use crate::drill::drill_of;
use crate::options::steps_of;
use crate::permits::{bad_permission, texts_in};
use crate::sound::{
    asked_of, control_in, host_in, is_about_forwardings, names_forwarding, sessions_in,
    transport_in,
};
use crate::step::WordStep;
use crate::walk::{first_mode, not_for_others, walk_over};
use conf_rules::{Command, Permissions, PermitList, Usage, UsageError};
use ssh_fields::{OutOfMemory, Text, Texts};
use std::alloc::Global;

/// Why words spell no command.
#[derive(Clone, Copy, Drop, PartialEq, Eq)]
pub enum WordsError {
    /// The first bad word.
    Refused(UsageError),
    OutOfMemory,
}

impl From<OutOfMemory> for WordsError {
    ghost from_gives = { λ _ e. e ≡ words_errors.OutOfMemory };

    fn from(_e: OutOfMemory) -> WordsError {
        WordsError::OutOfMemory
    }
}

// A refusal at a word.
fn refused(word: u64, cause: Usage) -> WordsError
    ensures { result ≡ words_errors.Refused (record { word = word; cause = cause }) }
{
    WordsError::Refused(UsageError { word, cause })
}

// The master's permissions.
fn permissions_of(alloc: Global, steps: &[WordStep]) -> Result<Permissions, OutOfMemory>
    ensures { IfOk result (λ permits. permits ≡ permissions_of steps.now) }
{
    Ok(Permissions {
        opens: texts_in(alloc, PermitList::Open, steps)?,
        listens: texts_in(alloc, PermitList::Listen, steps)?,
        sessions: sessions_in(steps),
        here: texts_in(alloc, PermitList::Here, steps)?,
    })
}

// The master over a transport, with its permissions.
fn master_over(
    alloc: Global,
    host: &[u8],
    steps: &[WordStep],
    transport: Text,
) -> Result<Command, OutOfMemory>
    ensures { IfOk result (λ command. command
        ≡ commands.Master (asked_of host.now steps.now) transport (permissions_of steps.now)) }
{
    Ok(Command::Master {
        asked: asked_of(alloc, host, steps)?,
        transport,
        permits: permissions_of(alloc, steps)?,
    })
}

// The master over a transport, which must be named; bad permissions are refused last, the earliest
// word first.
fn master_of(
    alloc: Global,
    end: u64,
    host: &[u8],
    steps: &[WordStep],
) -> Result<Command, WordsError>
    ensures { (n : ℕ) → end ≡ n + 1
        → GivesCommand result (master_of n host.now steps.now (transport_in None steps.now)) }
{
    let Some(transport) = transport_in(alloc, steps)? else {
        return Err(refused(end, Usage::NoTransport));
    };
    if let Some(word) = bad_permission(alloc, steps)? {
        return Err(refused(word, Usage::BadEntry));
    }
    Ok(master_over(alloc, host, steps, transport)?)
}

// The client of a running master; forwardings must be named if the request is about them.
fn client_of(
    alloc: Global,
    end: u64,
    host: &[u8],
    steps: &[WordStep],
) -> Result<Command, WordsError>
    ensures { (n : ℕ) → end ≡ n + 1
        → GivesCommand result (client_of n host.now steps.now (control_in Check steps.now)) }
{
    let control = control_in(steps);
    if is_about_forwardings(control) && !names_forwarding(steps) {
        return Err(refused(end, Usage::NoForward));
    }
    Ok(Command::Control {
        asked: asked_of(alloc, host, steps)?,
        control,
    })
}

// The command of a mode for a host.
fn mode_command(
    alloc: Global,
    end: u64,
    mode: CommandMode,
    host: &[u8],
    steps: &[WordStep],
) -> Result<Command, WordsError>
    ensures { (n : ℕ) → end ≡ n + 1
        → GivesCommand result (mode_command n steps.now host.now (shown_mode_of mode)) }
{
    match mode {
        CommandMode::Listing => Ok(Command::List(asked_of(alloc, host, steps)?)),
        CommandMode::Master => master_of(alloc, end, host, steps),
        CommandMode::Client => client_of(alloc, end, host, steps),
    }
}

// The command of sound steps; what is missing is refused at the word after the last.
#[tactic(auto, unfolding(conf_rules::specs::CommandLine::command_of))]
fn command_of(alloc: Global, end: u64, steps: &[WordStep]) -> Result<Command, WordsError>
    ensures { (n : ℕ) → end ≡ n + 1 → GivesCommand result (command_of n steps.now) }
{
    let Some(mode) = first_mode(steps) else {
        return Err(refused(end, Usage::NoMode));
    };
    let Some(host) = host_in(steps) else {
        return Err(refused(end, Usage::NoDestination));
    };
    mode_command(alloc, end, mode, host, steps)
}

// The command of the steps of words, up to the first bad one.
fn walked(alloc: Global, end: u64, steps: &[WordStep]) -> Result<Command, WordsError>
    ensures { (n : ℕ) → end ≡ n + 1 → GivesCommand result (walked n (walk_from None false steps.now)) }
{
    let walk = walk_over(steps);
    if let Some(word) = not_for_others(walk.sound) {
        return Err(refused(word, Usage::OnlyForMaster));
    }
    if let Some(e) = walk.fault {
        return Err(WordsError::Refused(e));
    }
    command_of(alloc, end, walk.sound)
}

// Whether the first word is `--drill`.
fn is_drill(word: &[u8]) -> bool
    ensures { result ≡ bytes_eq word.now (codes "--drill") }
{
    is_same(word, b"--drill")
}

// The drill that words spell.
fn drilled(words: &[Text]) -> Result<Command, WordsError>
    ensures { GivesCommand result (drill_of words.now) }
{
    match drill_of(words) {
        Ok(command) => Ok(command),
        Err(e) => Err(WordsError::Refused(e)),
    }
}

// The command of words that begin with no drill.
fn read_steps(alloc: Global, words: &[Text]) -> Result<Command, WordsError>
    ensures { GivesCommand result
        (walked (length words.now) (walk_from None false (steps_from 1 Free words.now))) }
{
    let steps = steps_of(alloc, words)?;
    walked(alloc, words.len() as u64 + 1, steps.as_slice())
}

/// The command that words spell, without the program's name, or the first bad word.
#[tactic(auto, unfolding(conf_rules::specs::Reading::reading))]
pub fn read_words(alloc: Global, words: &Texts) -> Result<Command, WordsError>
    ensures exact { GivesCommand result (reading words.now) }
{
    let words = words.as_slice();
    let [first, rest @ ..] = words else {
        return read_steps(alloc, words);
    };
    if is_drill(first.as_bytes()) {
        return drilled(rest);
    }
    read_steps(alloc, words)
}
