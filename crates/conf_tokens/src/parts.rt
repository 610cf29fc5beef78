ghost use Rattle.std.specs.Prelude.{◌≡◌, ◌≤◌, ◌+◌, length, IfOk};
ghost use Rattle.conf_rules.specs.Texts.{has, split_at_first};
ghost use Rattle.conf_rules.specs.Tokens.{token_letters, has_vars, token_of, variable_of, dollar_of, itself, part_at};
ghost use Rattle.conf_tokens.specs.Puts.{PutsPart};
ghost use Rattle.conf_tokens.specs.Seen.{view_as_defined};

use crate::facts::variable;
use crate::put::put_token;
use crate::view::View;
use conf_lexer::{first, split_at_first};
use conf_rules::{TokenError, TokenSet};
use ssh_fields::Text;
use std::alloc::Global;

// The bytes that a set allows after a percent sign.
fn letters(set: TokenSet) -> &'static [u8]
    ensures { result.now ≡ token_letters set }
{
    match set {
        TokenSet::Full | TokenSet::FullVars => b"%CdhijkLlnpru",
        TokenSet::Included => b"%diLlnu",
    }
}

// Whether a text has a byte.
fn has(byte: u8, text: &[u8]) -> bool
    ensures { result ≡ has byte text.now }
{
    text.iter().any(|c| *c == byte)
}

// Whether a set has variables.
fn has_vars(set: TokenSet) -> bool
    ensures { result ≡ has_vars set }
{
    match set {
        TokenSet::Full => false,
        TokenSet::FullVars | TokenSet::Included => true,
    }
}

// Adds what a percent sign at a place and the byte after it give. The result is how many bytes
// after it are used up.
fn put_percent(
    alloc: Global,
    out: &mut Text,
    set: TokenSet,
    view: &View<'_>,
    at: usize,
    after: &[u8],
) -> Result<usize, TokenError>
    ensures puts { PutsPart result out.old out.new (token_of set (view_as_defined view.now) at after.now) }
    ensures within { IfOk result (λ more. more ≤ length after.now) }
{
    let Some((byte, _)) = first(after) else {
        return Err(TokenError::LoneAtEnd);
    };
    if !has(byte, letters(set)) {
        return Err(TokenError::Unknown { byte, at });
    }
    put_token(alloc, out, byte, view)?;
    Ok(1)
}

// Adds what a variable gives whose name begins here, after its open brace.
fn put_variable(
    alloc: Global,
    out: &mut Text,
    view: &View<'_>,
    at: usize,
    inner: &[u8],
) -> Result<usize, TokenError>
    ensures puts { PutsPart result out.old out.new
        (variable_of (view_as_defined view.now).facts.variable at (split_at_first 125 inner.now)) }
    ensures within { IfOk result (λ more. more ≤ length inner.now + 1) }
{
    let Some((name, _)) = split_at_first(b'}', inner) else {
        return Err(TokenError::OpenBrace { at });
    };
    let Some(value) = variable(&view.facts.vars, name) else {
        return Err(TokenError::NoVariable {
            name: Text::copy(alloc, name)?,
        });
    };
    out.add(value)?;
    Ok(name.len() + 2)
}

// Adds what a dollar sign at a place gives.
fn put_dollar(
    alloc: Global,
    out: &mut Text,
    view: &View<'_>,
    at: usize,
    after: &[u8],
) -> Result<usize, TokenError>
    ensures puts { PutsPart result out.old out.new (dollar_of (view_as_defined view.now) at after.now) }
    ensures within { IfOk result (λ more. more ≤ length after.now) }
{
    match after {
        [b'{', inner @ ..] => put_variable(alloc, out, view, at, inner),
        _ => put_itself(out, b'$'),
    }
}

// Adds a byte that represents itself.
fn put_itself(out: &mut Text, byte: u8) -> Result<usize, TokenError>
    ensures puts { PutsPart result out.old out.new (itself byte) }
    ensures within { IfOk result (λ more. more ≡ 0) }
{
    out.push(byte)?;
    Ok(0)
}

/// Adds what the byte at a place and the bytes after it give.
pub fn put_part(
    alloc: Global,
    out: &mut Text,
    set: TokenSet,
    view: &View<'_>,
    at: usize,
    byte: u8,
    after: &[u8],
) -> Result<usize, TokenError>
    ensures puts { PutsPart result out.old out.new (part_at set (view_as_defined view.now) at byte after.now) }
    ensures within { IfOk result (λ more. more ≤ length after.now) }
{
    if byte == b'%' {
        return put_percent(alloc, out, set, view, at, after);
    }
    if byte == b'$' && has_vars(set) {
        return put_dollar(alloc, out, view, at, after);
    }
    put_itself(out, byte)
}
