ghost use Rattle.std.specs.Prelude.{◌≡◌, ◌+◌, ◌<◌, ◌^◌, ◌++◌, ◌&&◌, ◌||◌, length, Ok, OnOk};
ghost use Rattle.conf_rules.specs.Texts.{is_empty_list};
ghost use Rattle.conf_rules.specs.Tokens.{expand_from, expand, expand_path, with_home, starts_with_slash, name_expanded};
ghost use Rattle.conf_rules.specs.Results.{GivesReading};
ghost use Rattle.conf_rules.specs.Wants.{token_wants_memory};
ghost use Rattle.conf_tokens.specs.Puts.{with_text_before, name_token};
ghost use Rattle.conf_tokens.specs.Seen.{view_as_defined};

use crate::facts::fact;
use crate::parts::put_part;
use crate::view::View;
use conf_lexer::first;
use conf_rules::{TokenError, TokenSet};
use ssh_fields::{OutOfMemory, Text};
use std::alloc::Global;

// A text, and after it another, from a place on, with its tokens expanded.
fn expand_onto(
    alloc: Global,
    front: Text,
    start: usize,
    text: &[u8],
    set: TokenSet,
    view: &View<'_>,
) -> Result<Text, TokenError>
    requires { start + length text.now < 2 ^ 64 }
    ensures { GivesReading token_wants_memory result
        (with_text_before front (expand_from set (view_as_defined view.now) 0 start text.now)) }
{
    let mut out = front;
    let mut at = start;
    let mut left = text;
    while let Some((byte, after)) = first(left) {
        let more = put_part(alloc, &mut out, set, view, at, byte, after)?;
        left = &after[more..];
        at += 1 + more;
    }
    Ok(out)
}

/// A text with those tokens, and variables, expanded that the set has; a percent or dollar sign
/// that represents itself stays. Refused are a token that the set doesn't have and a brace that
/// isn't closed, with their place in `text`. Refused are also a percent sign at the end, and a fact
/// or a variable that isn't known, by its token's byte or its name.
pub fn expand(
    alloc: Global,
    text: &[u8],
    set: TokenSet,
    view: &View<'_>,
) -> Result<Text, TokenError>
    ensures { GivesReading token_wants_memory result (expand text.now set (view_as_defined view.now)) }
{
    expand_onto(alloc, Text::new(alloc), 0, text, set, view)
}

// What stands after a tilde, with the home before it.
fn with_home(alloc: Global, rest: &[u8], set: TokenSet, view: &View<'_>) -> Result<Text, TokenError>
    requires { 1 + length rest.now < 2 ^ 64 }
    ensures { GivesReading token_wants_memory result (with_home set (view_as_defined view.now) rest.now) }
{
    let home = fact(b'd', &view.facts.home)?;
    expand_onto(alloc, Text::copy(alloc, home)?, 1, rest, set, view)
}

/// A path with its tokens expanded. A leading tilde before a slash becomes the home, as does a lone
/// one where `lone` says so; a home that isn't known is refused first, as `%d` is.
pub fn expand_path(
    alloc: Global,
    lone: bool,
    text: &[u8],
    set: TokenSet,
    view: &View<'_>,
) -> Result<Text, TokenError>
    ensures { GivesReading token_wants_memory result (expand_path lone set (view_as_defined view.now) text.now) }
{
    match text {
        [b'~', rest @ ..] if represents_home(lone, rest) => with_home(alloc, rest, set, view),
        _ => expand(alloc, text, set, view),
    }
}

// Whether a tilde before this text represents the home.
fn represents_home(lone: bool, rest: &[u8]) -> bool
    ensures { result ≡ (starts_with_slash rest.now || (lone && is_empty_list rest.now)) }
{
    match rest {
        [] => lone,
        [byte, ..] => *byte == b'/',
    }
}

/// A Hostname with its tokens expanded, which were checked as it was read: `%h` gives the host of
/// the command line.
pub fn expand_name(alloc: Global, original: &[u8], text: &[u8]) -> Result<Text, OutOfMemory>
    ensures { OnOk result (result ≡ Ok (name_expanded original.now text.now)) }
{
    let mut out = Text::new(alloc);
    let mut left = text;
    while let Some((byte, after)) = first(left) {
        match first(after) {
            Some((token, behind)) if byte == b'%' => {
                put_name_token(&mut out, original, token)?;
                left = behind;
            }
            _ => {
                out.push(byte)?;
                left = after;
            }
        }
    }
    Ok(out)
}

// Adds what a token of a Hostname gives.
fn put_name_token(out: &mut Text, original: &[u8], token: u8) -> Result<(), OutOfMemory>
    ensures { OnOk result (out.new ≡ out.old ++ name_token original.now token) }
{
    if token == b'h' {
        out.add(original)
    } else {
        out.push(token)
    }
}
