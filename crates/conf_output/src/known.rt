ghost use Rattle.std.specs.Prelude.{◌≡◌, IfOk};
ghost use Rattle.conf_tokens.specs.Known.{known};
ghost use Rattle.conf_tokens.specs.Seen.{view_as_defined};
ghost use Rattle.conf_output.specs.Shown.{listed_host_of, listing_view_of};

use conf_options::{Key, Settings};
use conf_tokens::{View, expand_name};
use mux_outside::Facts;
use ssh_fields::{OutOfMemory, Text};
use std::alloc::Global;

/// Hostname with its tokens expanded, or else the host of the command line.
pub fn host_name(alloc: Global, settings: &Settings, original: &[u8]) -> Result<Text, OutOfMemory>
    ensures { IfOk result (λ name. name ≡ listed_host_of settings.now original.now) }
{
    match settings.word(Key::Hostname) {
        Some(text) => expand_name(alloc, original, text),
        None => Text::copy(alloc, original),
    }
}

/// What tokens see after all lines.
pub fn view<'a>(
    settings: &'a Settings,
    original: &'a [u8],
    host: &'a [u8],
    facts: &'a Facts,
) -> View<'a>
    ensures { view_as_defined result ≡ listing_view_of settings.now original.now host.now (known facts.now) }
{
    View {
        original,
        host,
        jump: settings.named_word(Key::ProxyJump).unwrap_or(b""),
        tag: settings.word(Key::Tag).unwrap_or(b""),
        port: settings.port(),
        user: settings.word(Key::User),
        alias: settings.word(Key::HostKeyAlias),
        facts,
        last: false,
        name: host,
    }
}
