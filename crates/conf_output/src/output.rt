ghost use Rattle.conf_output.specs.SettledListing.{ListsSettings, HasControlPath};

use crate::keys::{put_keys, refusal};
use crate::known::{host_name, view};
use crate::spelling::put_line;
use conf_options::{Key, Settings};
use conf_rules::{LISTING_ORDER, ListError};
use conf_tokens::{TokenSet, expand_path};
use mux_outside::Facts;
use ssh_fields::Text;
use std::alloc::Global;

/// The settings after all lines as `-G` lists them for the host `original` of the command line:
/// that host, then a line of each value of each key, or of its default. Hostname, ControlPath and
/// RemoteCommand are listed with their tokens expanded; a proxy that is `none` and forwardings that
/// are cleared aren't listed (ssh_config(5)). `Token` names the first key in the order of the
/// listing whose tokens can't be expanded, or `User` where no user is known.
pub fn listing(
    alloc: Global,
    settings: &Settings,
    original: &[u8],
    facts: &Facts,
) -> Result<Text, ListError>
    ensures exact { ListsSettings result settings.now original.now facts.now }
{
    let host = host_name(alloc, settings, original)?;
    let view = view(settings, original, host.as_bytes(), facts);
    let mut out = Text::new(alloc);
    put_line(&mut out, b"host", original)?;
    put_keys(alloc, &mut out, settings, &view, &LISTING_ORDER)?;
    Ok(out)
}

/// ControlPath after all lines, with its home, tokens and variables expanded (ssh_config(5),
/// ControlPath). None where it isn't set or is `none` in any case.
pub fn control_path(
    alloc: Global,
    settings: &Settings,
    original: &[u8],
    facts: &Facts,
) -> Result<Option<Text>, ListError>
    ensures exact { HasControlPath result settings.now original.now facts.now }
{
    let Some(text) = settings.named_word(Key::ControlPath) else {
        return Ok(None);
    };
    let host = host_name(alloc, settings, original)?;
    let view = view(settings, original, host.as_bytes(), facts);
    match expand_path(alloc, true, text, TokenSet::FullVars, &view) {
        Ok(path) => Ok(Some(path)),
        Err(error) => Err(refusal(Key::ControlPath, error)),
    }
}
