ghost use Rattle.std.specs.Prelude.{◌≡◌, ℕ, [], ◌∷◌, ◌++◌, List, IfOk, OnOk, None, flat_map, true};
ghost use Rattle.std.specs.Option.{option_copied};
ghost use Rattle.std.specs.List.{list_any};
ghost use Rattle.conf_rules.specs.declared.control.MasterCommand.TheVariants.{Check};
ghost use Rattle.conf_rules.specs.declared.asked.ConfigFrom.TheVariants.{Standard};
ghost use Rattle.conf_rules.specs.CommandLine.{line_in, destination_line, from_in, transport_in, sessions_in, control_in, is_forwarding, asks_forwarding, is_about_forwardings, host_in, asked_of};
ghost use Rattle.conf_rules.specs.Destinations.{destination};
ghost use Rattle.conf_command.specs.Sound.{from_at, transport_at, step_host_at};

use crate::act::WordAct;
use crate::bytes::{copied, is_same};
use crate::destinations::destination_in;
use crate::options::key_line;
use crate::step::WordStep;
use conf_rules::{Asked, AskedLine, AskedLines, ConfigFrom, MasterCommand};
use ssh_fields::{OutOfMemory, Text};
use std::alloc::Global;

// A copy of a line: steps are borrowed, since the sound ones are a part of all, which are read
// more than once.
fn copy_line(alloc: Global, line: &AskedLine) -> Result<AskedLine, OutOfMemory>
    ensures { IfOk result (λ copy. copy ≡ line.now) }
{
    match line {
        AskedLine::Line { word, line } => Ok(AskedLine::Line {
            word: *word,
            line: Text::copy(alloc, line.as_bytes())?,
        }),
        AskedLine::Parts {
            word,
            keyword,
            words,
        } => Ok(AskedLine::Parts {
            word: *word,
            keyword: Text::copy(alloc, keyword.as_bytes())?,
            words: copied(alloc, words.as_slice())?,
        }),
    }
}

// Adds the line of a destination's user.
fn add_user(alloc: Global, word: u64, to: &[u8], lines: &mut AskedLines) -> Result<(), OutOfMemory>
    ensures { OnOk result (lines.new ≡ lines.old ++ destination_line word (destination to.now)) }
{
    match destination_in(to) {
        None => Ok(()),
        Some(destination) => match destination.user {
            None => Ok(()),
            Some(user) => {
                let line = key_line(alloc, word, b"user", user)?;
                lines.push(line)
            }
        },
    }
}

// Adds the lines that a step gives.
fn add_line(alloc: Global, step: &WordStep, lines: &mut AskedLines) -> Result<(), OutOfMemory>
    ensures { OnOk result (lines.new ≡ lines.old ++ line_in step.now) }
{
    match step.act() {
        WordAct::Asks(line) => {
            let line = copy_line(alloc, line)?;
            lines.push(line)
        }
        WordAct::Goes(to) => add_user(alloc, step.word(), to.as_bytes(), lines),
        _ => Ok(()),
    }
}

// The lines that steps give.
fn lines_of(alloc: Global, steps: &[WordStep]) -> Result<AskedLines, OutOfMemory>
    ensures { IfOk result (λ lines. lines ≡ flat_map line_in steps.now) }
{
    let mut lines = AskedLines::new(alloc);
    for step in steps {
        add_line(alloc, step, &mut lines)?;
    }
    Ok(lines)
}

// The files that are read after a step.
fn from_behind(alloc: Global, from: ConfigFrom, step: &WordStep) -> Result<ConfigFrom, OutOfMemory>
    ensures { IfOk result (λ f. f ≡ from_at from step.now.act) }
{
    match step.act() {
        WordAct::Reads(ConfigFrom::Standard) => Ok(ConfigFrom::Standard),
        WordAct::Reads(ConfigFrom::Nothing) => Ok(ConfigFrom::Nothing),
        WordAct::Reads(ConfigFrom::File(file)) => {
            let file = Text::copy(alloc, file.as_bytes())?;
            Ok(ConfigFrom::File(file))
        }
        _ => Ok(from),
    }
}

// The files that are read: the last one named counts.
fn from_in(alloc: Global, steps: &[WordStep]) -> Result<ConfigFrom, OutOfMemory>
    ensures { IfOk result (λ from. from ≡ from_in Standard steps.now) }
{
    let mut from = ConfigFrom::Standard;
    for step in steps {
        from = from_behind(alloc, from, step)?;
    }
    Ok(from)
}

// The transport after a step.
fn transport_behind(
    alloc: Global,
    transport: Option<Text>,
    step: &WordStep,
) -> Result<Option<Text>, OutOfMemory>
    ensures { IfOk result (λ t. t ≡ transport_at transport step.now.act) }
{
    match step.act() {
        WordAct::Connects(to) => {
            let to = Text::copy(alloc, to.as_bytes())?;
            Ok(Some(to))
        }
        _ => Ok(transport),
    }
}

/// The last transport.
pub fn transport_in(alloc: Global, steps: &[WordStep]) -> Result<Option<Text>, OutOfMemory>
    ensures { IfOk result (λ transport. transport ≡ transport_in None steps.now) }
{
    let mut transport = None;
    for step in steps {
        transport = transport_behind(alloc, transport, step)?;
    }
    Ok(transport)
}

/// Whether sessions are permitted: the last one named counts.
pub fn sessions_in(steps: &[WordStep]) -> bool
    ensures { result ≡ sessions_in true steps.now }
{
    let mut sessions = true;
    for step in steps {
        if let WordAct::Sessions(may) = step.act() {
            sessions = *may;
        }
    }
    sessions
}

/// The request to a running master: the last one named counts.
pub fn control_in(steps: &[WordStep]) -> MasterCommand
    ensures { result ≡ control_in Check steps.now }
{
    let mut control = MasterCommand::Check;
    for step in steps {
        if let WordAct::Controls(named) = step.act() {
            control = *named;
        }
    }
    control
}

// Whether a line is a forwarding that a letter names.
fn is_forwarding(line: &AskedLine) -> bool
    ensures { result ≡ is_forwarding line.now }
{
    match line {
        AskedLine::Line { .. } => false,
        AskedLine::Parts { keyword, .. } => {
            let keyword = keyword.as_bytes();
            is_same(keyword, b"localforward")
                || is_same(keyword, b"remoteforward")
                || is_same(keyword, b"dynamicforward")
        }
    }
}

// Whether a step names a forwarding.
fn asks_forwarding(step: &WordStep) -> bool
    ensures { result ≡ asks_forwarding step.now }
{
    match step.act() {
        WordAct::Asks(line) => is_forwarding(line),
        _ => false,
    }
}

/// Whether a forwarding is named.
pub fn names_forwarding(steps: &[WordStep]) -> bool
    ensures { result ≡ list_any asks_forwarding steps.now }
{
    steps.iter().any(|step| asks_forwarding(step))
}

/// Whether a command is about the forwardings that are named.
pub fn is_about_forwardings(control: MasterCommand) -> bool
    ensures { result ≡ is_about_forwardings control }
{
    match control {
        MasterCommand::Forward | MasterCommand::Cancel => true,
        _ => false,
    }
}

// The host to which a step goes.
fn step_host_at(step: &WordStep) -> Option<&[u8]>
    ensures { option_copied result ≡ step_host_at step.now.act }
{
    match step.act() {
        WordAct::Goes(to) => match destination_in(to.as_bytes()) {
            None => None,
            Some(destination) => Some(destination.host),
        },
        _ => None,
    }
}

/// The host of the destination.
pub fn host_in(steps: &[WordStep]) -> Option<&[u8]>
    ensures { option_copied result ≡ host_in steps.now }
{
    for step in steps {
        if let Some(host) = step_host_at(step) {
            return Some(host);
        }
    }
    None
}

/// What sound steps request for a host.
pub fn asked_of(alloc: Global, host: &[u8], steps: &[WordStep]) -> Result<Asked, OutOfMemory>
    ensures { IfOk result (λ asked. asked ≡ asked_of host.now steps.now) }
{
    Ok(Asked {
        original: Text::copy(alloc, host)?,
        lines: lines_of(alloc, steps)?,
        from: from_in(alloc, steps)?,
    })
}
