ghost use Rattle.std.specs.Prelude.{◌≡◌, [], ◌∷◌, ◌++◌, OnOk};
ghost use Rattle.conf_rules.specs.Kinds.{key_showing};
ghost use Rattle.conf_tokens.specs.Seen.{view_as_defined};
ghost use Rattle.conf_output.specs.Shown.{lines_of_key, value_texts, default_texts, plain_texts, forward_texts, proxy_texts, user_texts, path_texts, command_texts, texts_shown_of, showing_of, list_refusal_of};
ghost use Rattle.conf_output.specs.PutsListing.{PutsKeys, PutsTexts};

use crate::defaults::default_text;
use crate::spelling::{put_line, put_value};
use conf_options::{Key, Settings};
use conf_rules::{ListError, TokenError};
use conf_tokens::{TokenSet, View, expand, expand_path, fact};
use ssh_fields::{OutOfMemory, Text};
use std::alloc::Global;

/// How a key is listed.
#[derive(Clone, Copy, Drop)]
enum Manner {
    /// Or else the local user.
    User,
    /// The host name that its tokens give.
    Host,
    /// Expanded as a path.
    Path,
    /// Expanded as a command.
    Command,
    /// Unless forwardings are cleared.
    Forwards,
    /// Unless it is `none`.
    Proxy,
    /// As its values stand, or else its default.
    Plain,
}

// How a key is listed.
fn manner_of(key: Key) -> Manner
    ensures { showing_of result ≡ key_showing key }
{
    match key {
        Key::User => Manner::User,
        Key::Hostname => Manner::Host,
        Key::ControlPath => Manner::Path,
        Key::RemoteCommand => Manner::Command,
        Key::DynamicForward | Key::LocalForward | Key::RemoteForward => Manner::Forwards,
        Key::ProxyCommand | Key::ProxyJump => Manner::Proxy,
        _ => Manner::Plain,
    }
}

// The line of a text.
fn put_text(out: &mut Text, key: Key, text: &[u8]) -> Result<(), OutOfMemory>
    ensures { OnOk result (out.new ≡ out.old ++ lines_of_key key (text.now ∷ [])) }
{
    put_line(out, key.keyword(), text)
}

// A line for each value of a key.
fn put_values(
    alloc: Global,
    out: &mut Text,
    settings: &Settings,
    key: Key,
) -> Result<(), OutOfMemory>
    ensures { OnOk result (out.new ≡ out.old ++ lines_of_key key (value_texts settings.now key)) }
{
    let given = settings.among(key);
    for (other, value) in given {
        if key.place() == other.place() {
            put_value(alloc, out, key.keyword(), value)?;
        }
    }
    Ok(())
}

// The line of a key's default, if it has one.
fn put_default(out: &mut Text, key: Key) -> Result<(), OutOfMemory>
    ensures { OnOk result (out.new ≡ out.old ++ lines_of_key key (default_texts key)) }
{
    match default_text(key) {
        Some(text) => put_text(out, key, text),
        None => Ok(()),
    }
}

// The lines of a key's values, or else of its default.
fn put_plain(
    alloc: Global,
    out: &mut Text,
    settings: &Settings,
    key: Key,
) -> Result<(), OutOfMemory>
    ensures { OnOk result (out.new ≡ out.old ++ lines_of_key key (plain_texts settings.now key)) }
{
    match settings.first(key) {
        Some(_value) => put_values(alloc, out, settings, key),
        None => put_default(out, key),
    }
}

// The lines of forwardings, unless they are cleared.
fn put_forwards(
    alloc: Global,
    out: &mut Text,
    settings: &Settings,
    key: Key,
) -> Result<(), OutOfMemory>
    ensures { OnOk result (out.new ≡ out.old ++ lines_of_key key (forward_texts settings.now key)) }
{
    if settings.is_set(Key::ClearAllForwardings) {
        return Ok(());
    }
    put_values(alloc, out, settings, key)
}

// The line of a proxy, unless it is `none`.
fn put_proxy(out: &mut Text, settings: &Settings, key: Key) -> Result<(), OutOfMemory>
    ensures { OnOk result (out.new ≡ out.old ++ lines_of_key key (proxy_texts settings.now key)) }
{
    match settings.named_word(key) {
        Some(text) => put_text(out, key, text),
        None => Ok(()),
    }
}

// The line of the user, or else of the local user.
fn put_user(
    out: &mut Text,
    settings: &Settings,
    view: &View<'_>,
    key: Key,
) -> Result<(), TokenError>
    ensures { PutsTexts result out.old out.new key (user_texts settings.now (view_as_defined view.now) key) }
{
    let user = match settings.word(key) {
        Some(user) => user,
        None => fact(b'u', &view.facts.local_user)?,
    };
    Ok(put_text(out, key, user)?)
}

// The line of a path, expanded.
fn put_path(
    alloc: Global,
    out: &mut Text,
    settings: &Settings,
    view: &View<'_>,
    key: Key,
) -> Result<(), TokenError>
    ensures { PutsTexts result out.old out.new key (path_texts settings.now (view_as_defined view.now) key) }
{
    match settings.word(key) {
        Some(text) => {
            let path = expand_path(alloc, true, text, TokenSet::FullVars, view)?;
            Ok(put_text(out, key, path.as_bytes())?)
        }
        None => Ok(()),
    }
}

// The line of a command, expanded.
fn put_command(
    alloc: Global,
    out: &mut Text,
    settings: &Settings,
    view: &View<'_>,
    key: Key,
) -> Result<(), TokenError>
    ensures { PutsTexts result out.old out.new key
        (command_texts settings.now (view_as_defined view.now) key) }
{
    match settings.word(key) {
        Some(text) => {
            let command = expand(alloc, text, TokenSet::Full, view)?;
            Ok(put_text(out, key, command.as_bytes())?)
        }
        None => Ok(()),
    }
}

// The lines of a key, by how it is listed.
fn put_key(
    alloc: Global,
    out: &mut Text,
    settings: &Settings,
    view: &View<'_>,
    key: Key,
) -> Result<(), TokenError>
    ensures { PutsTexts result out.old out.new key (texts_shown_of settings.now (view_as_defined view.now) key) }
{
    match manner_of(key) {
        Manner::User => put_user(out, settings, view, key),
        Manner::Host => Ok(put_text(out, key, view.host)?),
        Manner::Path => put_path(alloc, out, settings, view, key),
        Manner::Command => put_command(alloc, out, settings, view, key),
        Manner::Forwards => Ok(put_forwards(alloc, out, settings, key)?),
        Manner::Proxy => Ok(put_proxy(out, settings, key)?),
        Manner::Plain => Ok(put_plain(alloc, out, settings, key)?),
    }
}

/// A token's refusal with its key.
pub fn refusal(key: Key, error: TokenError) -> ListError
    ensures { result ≡ list_refusal_of key error }
{
    match error {
        TokenError::OutOfMemory => ListError::OutOfMemory,
        error => ListError::Token { key, error },
    }
}

/// The lines of these keys, up to the first refusal.
pub fn put_keys(
    alloc: Global,
    out: &mut Text,
    settings: &Settings,
    view: &View<'_>,
    keys: &[Key],
) -> Result<(), ListError>
    ensures { PutsKeys result out.old out.new settings.now (view_as_defined view.now) keys.now }
{
    for key in keys {
        match put_key(alloc, out, settings, view, *key) {
            Ok(()) => {}
            Err(error) => return Err(refusal(*key, error)),
        }
    }
    Ok(())
}
