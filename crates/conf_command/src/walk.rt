ghost use Rattle.std.specs.Prelude.{◌≡◌, ℕ, false, Some, None, Option};
ghost use Rattle.std.specs.Option.{option_map};
ghost use Rattle.conf_rules.specs.CommandLine.{other_mode, or_mode, walk_from, first_mode, first_of_master, not_for_others};
ghost use Rattle.conf_command.specs.Shown.{shown_mode_of};
ghost use Rattle.conf_command.specs.Walks.{fault_of, mode_behind, going_behind, mode_in, is_of_master, walk_of};

use crate::act::{CommandMode, WordAct};
use crate::destinations::destination_in;
use crate::step::WordStep;
use conf_rules::{Usage, UsageError};

/// The steps before the first bad one, and its refusal if there is one.
#[derive(Clone, Copy)]
pub struct Walk<'a> {
    pub sound: &'a [WordStep],
    pub fault: Option<UsageError>,
}

// Whether the first mode named is another one.
fn is_other(first: Option<CommandMode>, mode: CommandMode) -> bool
    ensures { result ≡ other_mode (option_map shown_mode_of first) (shown_mode_of mode) }
{
    match (first, mode) {
        (Some(CommandMode::Listing), CommandMode::Listing) => false,
        (Some(CommandMode::Master), CommandMode::Master) => false,
        (Some(CommandMode::Client), CommandMode::Client) => false,
        (Some(_), _) => true,
        (None, _) => false,
    }
}

// Why a step is bad after this first mode, and after a destination or none.
fn fault_of(mode: Option<CommandMode>, going: bool, step: &WordStep) -> Option<Usage>
    ensures { result ≡ fault_of (option_map shown_mode_of mode) going step.now.act }
{
    match step.act() {
        WordAct::Fails(cause) => Some(*cause),
        WordAct::Chooses(chosen) => {
            if is_other(mode, *chosen) {
                return Some(Usage::TwoModes);
            }
            None
        }
        WordAct::Goes(to) => {
            if going {
                return Some(Usage::TwoDestinations);
            }
            if destination_in(to.as_bytes()).is_none() {
                return Some(Usage::BadDestination);
            }
            None
        }
        _ => None,
    }
}

// The mode that a step names.
fn mode_in(step: &WordStep) -> Option<CommandMode>
    ensures { option_map shown_mode_of result ≡ mode_in step.now.act }
{
    match step.act() {
        WordAct::Chooses(mode) => Some(*mode),
        _ => None,
    }
}

// The first mode after a step.
fn mode_behind(mode: Option<CommandMode>, step: &WordStep) -> Option<CommandMode>
    ensures { option_map shown_mode_of result ≡ mode_behind (option_map shown_mode_of mode) step.now.act }
{
    match mode {
        Some(first) => Some(first),
        None => mode_in(step),
    }
}

// Whether there is a destination after a step.
fn going_behind(going: bool, step: &WordStep) -> bool
    ensures { result ≡ going_behind going step.now.act }
{
    match step.act() {
        WordAct::Goes(_) => true,
        _ => going,
    }
}

/// The walk over steps up to the first bad one.
pub fn walk_over(steps: &[WordStep]) -> Walk<'_>
    ensures { walk_of result ≡ walk_from None false steps.now }
{
    let mut mode = None;
    let mut going = false;
    for (i, step) in steps.iter().enumerate() {
        if let Some(cause) = fault_of(mode, going, step) {
            let word = step.word();
            return Walk {
                sound: &steps[..i],
                fault: Some(UsageError { word, cause }),
            };
        }
        mode = mode_behind(mode, step);
        going = going_behind(going, step);
    }
    Walk {
        sound: steps,
        fault: None,
    }
}

/// The mode named first.
pub fn first_mode(steps: &[WordStep]) -> Option<CommandMode>
    ensures { option_map shown_mode_of result ≡ first_mode steps.now }
{
    for step in steps {
        if let Some(mode) = mode_in(step) {
            return Some(mode);
        }
    }
    None
}

// Whether a step is an option of the master.
fn is_of_master(step: &WordStep) -> bool
    ensures { result ≡ is_of_master step.now.act }
{
    match step.act() {
        WordAct::Connects(_) | WordAct::Permits { .. } | WordAct::Sessions(_) => true,
        _ => false,
    }
}

// The word of the first option of the master.
fn first_of_master(steps: &[WordStep]) -> Option<u64>
    ensures { result ≡ first_of_master steps.now }
{
    for step in steps {
        if is_of_master(step) {
            return Some(step.word());
        }
    }
    None
}

/// The word of the first option of the master where another mode was named first.
pub fn not_for_others(steps: &[WordStep]) -> Option<u64>
    ensures { result ≡ not_for_others (first_mode steps.now) steps.now }
{
    match first_mode(steps) {
        Some(CommandMode::Listing) | Some(CommandMode::Client) => first_of_master(steps),
        _ => None,
    }
}
