ghost use Rattle.std.specs.Prelude.{◌≡◌, IfOk, IfSome};
ghost use Rattle.conf_rules.specs.Texts.{split_at_each};
ghost use Rattle.mux_drill.specs.Plan.{plan_in, plan_of, IsPlan};

use conf_command::drill_of;
use conf_rules::{Command, UsageError};
use ssh_fields::{OutOfMemory, Text};
use std::alloc::Global;
use std::mem;

/// What a drill plays: the seed of its generator, its clients and its messages.
#[derive(Clone, Copy)]
pub struct Plan {
    pub seed: u64,
    pub clients: u64,
    pub messages: u64,
}

impl Plan {
    /// The plan that a text spells, if it spells one.
    pub fn read(alloc: Global, text: &[u8]) -> Result<Option<Plan>, OutOfMemory>
        ensures exact { IfOk result (λ plan. plan ≡ plan_of text.now) }
        ensures sound { IfOk result (λ plan. IfSome plan IsPlan) }
    {
        let words = words_of(alloc, text)?;
        let command = drill_of(words.as_slice());
        let plan = plan_in(&command);
        drop(command);
        Ok(plan)
    }
}

// The plan of a command that is a drill.
fn plan_in(command: &Result<Command, UsageError>) -> Option<Plan>
    ensures { result ≡ plan_in command.now }
{
    match command {
        Ok(
            Command::Drill {
                seed,
                clients,
                messages,
            },
        ) => Some(Plan {
            seed: *seed,
            clients: *clients,
            messages: *messages,
        }),
        Ok(Command::List(_)) => None,
        Ok(Command::Master { .. }) => None,
        Ok(Command::Control { .. }) => None,
        Err(_) => None,
    }
}

// The words of a text, with single spaces between them.
fn words_of(alloc: Global, text: &[u8]) -> Result<Vec<Text>, OutOfMemory>
    ensures { IfOk result (λ words. words.items ≡ split_at_each 32 text.now) }
{
    let mut words = Vec::new(alloc);
    let mut word = Text::new(alloc);
    for byte in text {
        if *byte == b' ' {
            words.push(mem::replace(&mut word, Text::new(alloc)))?;
        } else {
            word.push(*byte)?;
        }
    }
    words.push(word)?;
    Ok(words)
}
