ghost use Rattle.std.specs.Prelude.{◌≡◌};
ghost use Rattle.std.specs.Option.{option_map};
ghost use Rattle.mux_outside.specs.Files.{pair_value_at};
ghost use Rattle.conf_rules.specs.Tokens.{fact_of, user_of};
ghost use Rattle.conf_rules.specs.Results.{Shows};
ghost use Rattle.conf_tokens.specs.Seen.{view_as_defined};

use crate::view::View;
use conf_rules::TokenError;
use mux_outside::Pairs;
use ssh_fields::Text;

/// A fact, or the refusal of the byte that asks for it.
pub fn fact(byte: u8, fact: &Option<Text>) -> Result<&[u8], TokenError>
    ensures { Shows (λ f. f.now) result (fact_of byte fact.now) }
{
    match fact {
        Some(text) => Ok(text.as_bytes()),
        None => Err(TokenError::FactMissing { byte }),
    }
}

/// The user, or else the local user, whose lack is reported under a byte.
pub fn user<'a>(byte: u8, view: &View<'a>) -> Result<&'a [u8], TokenError>
    ensures { Shows (λ u. u.now) result
        (user_of byte (view_as_defined view.now).user (view_as_defined view.now).facts.local_user) }
{
    match view.user {
        Some(user) => Ok(user),
        None => fact(byte, &view.facts.local_user),
    }
}

/// The value of a variable, of equal names the first.
pub fn variable<'a>(vars: &'a Pairs, name: &[u8]) -> Option<&'a [u8]>
    ensures { option_map (λ v. v.now) result ≡ pair_value_at vars.now name.now }
{
    for pair in vars.as_slice() {
        if pair.name.as_bytes() == name {
            return Some(pair.value.as_bytes());
        }
    }
    None
}
