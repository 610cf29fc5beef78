ghost use Rattle.std.specs.Prelude.{◌≡◌, ℕ, Ok, Err, Result, ◌∷◌};
ghost use Rattle.conf_rules.specs.Reading.{seed_limit, drill_number, drill_of};

use conf_lexer::number;
use conf_rules::{Command, Usage, UsageError};
use ssh_fields::Text;

// A number of the drill in its range.
fn drill_number(word: u64, low: u64, high: u64, text: &[u8]) -> Result<u64, UsageError>
    ensures { result ≡ drill_number word low high text.now }
{
    match number(text, low, high) {
        None => Err(UsageError {
            word,
            cause: Usage::BadDrill,
        }),
        Some(n) => Ok(n),
    }
}

// The drill of three numbers, after which no word may stand.
#[tactic(auto, unfolding(conf_rules::specs::Reading::drill_of, conf_rules::specs::Reading::seed_limit))]
fn drill_with(
    seed: &[u8],
    clients: &[u8],
    messages: &[u8],
    more: &[Text],
) -> Result<Command, UsageError>
    ensures { result ≡ drill_of (seed.now ∷ clients.now ∷ messages.now ∷ more.now) }
{
    let seed = drill_number(2, 0, u64::MAX, seed)?;
    let clients = drill_number(3, 1, 64, clients)?;
    let messages = drill_number(4, 0, 100_000, messages)?;
    match more {
        [] => Ok(Command::Drill {
            seed,
            clients,
            messages,
        }),
        [_, ..] => Err(UsageError {
            word: 5,
            cause: Usage::BadDrill,
        }),
    }
}

/// The words after `--drill`: seed, clients and messages.
pub fn drill_of(words: &[Text]) -> Result<Command, UsageError>
    ensures { result ≡ drill_of words.now }
{
    let [seed, clients, messages, more @ ..] = words else {
        return Err(UsageError {
            word: 1,
            cause: Usage::NoValue,
        });
    };
    drill_with(
        seed.as_bytes(),
        clients.as_bytes(),
        messages.as_bytes(),
        more,
    )
}
