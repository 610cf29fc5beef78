ghost use Rattle.std.specs.Prelude.{◌≡◌, ℕ, Bool, true, IfOk, Some, None, Ok, ◌≢◌, [], ◌∷◌};
ghost use Rattle.std.specs.Option.{option_copied};
ghost use Rattle.conf_rules.specs.Kinds as kinds;
ghost use Rattle.conf_rules.specs.Values.{value_of, values_of, value_for, choice_value, flag_of, flag_or};
ghost use Rattle.conf_rules.specs.Forwardings.{forwarding_of_one_end, forwarding_of_two_ends, listen_end, connect_end};
ghost use Rattle.conf_rules.specs.Fits.{fits};
ghost use Rattle.conf_rules.specs.Results.{GivesReading};
ghost use Rattle.conf_rules.specs.Wants.{value_wants_memory};
ghost use Rattle.conf_options.specs.Forms.{choices_of, form_kind, IsSmall};

use crate::forms::{Choices, Form, choice_of, form_of};
use crate::forwards::{connect_end, listen_end, listen_port};
use crate::patterns::copied;
use crate::times::time_of;
use crate::words::{flag, has_name_tokens};
use conf_lexer::{has_slash, number};
use conf_rules::{End, Forward, Key, Value, ValueError};
use ssh_fields::{Text, Texts};
use std::alloc::Global;

// A choice that is a value.
fn choice_value(alloc: Global, choices: Choices, word: &[u8]) -> Result<Value, ValueError>
    ensures { GivesReading value_wants_memory result (choice_value (choices_of choices) word.now) }
{
    match choice_of(choices, word) {
        None => Err(ValueError::BadChoice),
        Some(choice) => Ok(Value::Word(Text::copy(alloc, choice)?)),
    }
}

// A forwarding of one end.
fn one_end(listen: Option<End>) -> Result<Value, ValueError>
    ensures { GivesReading value_wants_memory result (forwarding_of_one_end listen) }
{
    match listen {
        None => Err(ValueError::BadForward),
        Some(listen) => Ok(Value::Forward(Forward {
            listen,
            connect: None,
        })),
    }
}

// A forwarding of two ends.
fn two_ends(listen: Option<End>, connect: Option<End>) -> Result<Value, ValueError>
    ensures { GivesReading value_wants_memory result (forwarding_of_two_ends listen connect) }
{
    match (listen, connect) {
        (Some(listen), Some(connect)) => Ok(Value::Forward(Forward {
            listen,
            connect: Some(connect),
        })),
        _ => Err(ValueError::BadForward),
    }
}

// What the words of a forwarding say.
fn forward(alloc: Global, low: u64, listen: &[u8], connect: &[u8]) -> Result<Value, ValueError>
    ensures { GivesReading value_wants_memory result
        (forwarding_of_two_ends (listen_end low listen.now) (connect_end connect.now)) }
{
    let listen = listen_end(alloc, low, listen)?;
    let connect = connect_end(alloc, connect)?;
    two_ends(listen, connect)
}

// What one word says.
#[tactic(auto, unfolding(conf_rules::specs::Values::value_of))]
fn one_value(alloc: Global, form: Form, word: &[u8]) -> Result<Value, ValueError>
    requires { IsSmall form }
    ensures { GivesReading value_wants_memory result (value_of (form_kind form) word.now) }
{
    match form {
        Form::Flag => match flag(word) {
            Some(flag) => Ok(Value::Flag(flag)),
            None => Err(ValueError::BadFlag),
        },
        Form::Number { low, high } => match number(word, low, high) {
            Some(number) => Ok(Value::Number(number)),
            None => Err(ValueError::BadNumber),
        },
        Form::Time => match time_of(word) {
            Some(time) => Ok(Value::Seconds(time)),
            None => Err(ValueError::BadTime),
        },
        Form::Choice(choices) => choice_value(alloc, choices, word),
        Form::HostWord => {
            if has_name_tokens(word) {
                Ok(Value::Word(Text::copy(alloc, word)?))
            } else {
                Err(ValueError::BadToken)
            }
        }
        Form::FlagOrWord => match flag(word) {
            Some(flag) => Ok(Value::Flag(flag)),
            None => Ok(Value::Word(Text::copy(alloc, word)?)),
        },
        Form::FlagOrChoice(choices) => match flag(word) {
            Some(flag) => Ok(Value::Flag(flag)),
            None => choice_value(alloc, choices, word),
        },
        Form::PortAlone => {
            if has_slash(word) {
                Err(ValueError::BadForward)
            } else {
                one_end(listen_port(alloc, 1, word)?)
            }
        }
        Form::OneOrTwoEnds => one_end(listen_end(alloc, 0, word)?),
        Form::TwoEnds => Err(ValueError::Missing),
        Form::OneWord | Form::Raw | Form::Names => Ok(Value::Word(Text::copy(alloc, word)?)),
    }
}

// What two words say.
#[tactic(auto, unfolding(conf_rules::specs::Values::values_of))]
fn two_values(alloc: Global, form: Form, first: &[u8], second: &[u8]) -> Result<Value, ValueError>
    requires { form_kind form ≢ kinds.Names }
    ensures { GivesReading value_wants_memory result
        (values_of (form_kind form) (first.now ∷ second.now ∷ [])) }
{
    match form {
        Form::TwoEnds => forward(alloc, 1, first, second),
        Form::OneOrTwoEnds => forward(alloc, 0, first, second),
        _ => Err(ValueError::TooMany),
    }
}

// What the words of a line say for a key of this form.
#[tactic(auto, unfolding(conf_rules::specs::Values::values_of))]
fn words_value(alloc: Global, form: Form, words: &[Text]) -> Result<Value, ValueError>
    requires { IsSmall form }
    ensures { GivesReading value_wants_memory result (values_of (form_kind form) words.now) }
{
    if let Form::Names = form {
        return Ok(Value::Names(copied(alloc, words)?));
    }
    match words {
        [] => Err(ValueError::Missing),
        [word] => one_value(alloc, form, word.as_bytes()),
        [first, second] => two_values(alloc, form, first.as_bytes(), second.as_bytes()),
        _ => Err(ValueError::TooMany),
    }
}

/// What a line says for its key: the rest as it stands, or its words. Too few or too many words are
/// refused before their form; the form's refusal is its kind's: flag, number, time, choice,
/// forwarding or tokens of a Hostname.
pub fn read_value(alloc: Global, key: Key, rest: &[u8], words: &Texts) -> Result<Value, ValueError>
    ensures read { GivesReading value_wants_memory result (value_for key rest.now words.now) }
    ensures fits { IfOk result (λ value. fits key value ≡ true) }
{
    let form = form_of(key);
    match form {
        Form::Raw => Ok(Value::Word(Text::copy(alloc, rest)?)),
        form => words_value(alloc, form, words.as_slice()),
    }
}
