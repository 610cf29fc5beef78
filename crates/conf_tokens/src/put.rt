ghost use Rattle.std.specs.Prelude.{◌≡◌, ◌==◌, ◌≤◌, ◌++◌, length, not, Ok, OnOk};
ghost use Rattle.std.specs.List.{prefix_len};
ghost use Rattle.hex.specs.Hex.{encode_lower};
ghost use Rattle.conf_rules.specs.Numbers.{digits_of};
ghost use Rattle.conf_rules.specs.Tokens.{fact_of, user_of, before_dot, connection_digest, meaning};
ghost use Rattle.conf_rules.specs.Results.{GivesReading};
ghost use Rattle.conf_rules.specs.Wants.{token_wants_memory};
ghost use Rattle.conf_tokens.specs.Puts.{Puts, short_name};
ghost use Rattle.conf_tokens.specs.Seen.{view_as_defined};

use crate::facts::{fact, user};
use crate::view::View;
use conf_rules::TokenError;
use sha1::Sha1;
use ssh_fields::{OutOfMemory, Text};
use std::alloc::Global;

// Adds a text.
fn put(out: &mut Text, text: &[u8]) -> Result<(), TokenError>
    ensures { Puts result out.old out.new (Ok text.now) }
{
    out.add(text)?;
    Ok(())
}

// Adds a fact.
fn put_fact(out: &mut Text, byte: u8, known: &Option<Text>) -> Result<(), TokenError>
    ensures { Puts result out.old out.new (fact_of byte known.now) }
{
    let text = fact(byte, known)?;
    put(out, text)
}

// Adds the user.
fn put_user(out: &mut Text, byte: u8, view: &View<'_>) -> Result<(), TokenError>
    ensures { Puts result out.old out.new
        (user_of byte (view_as_defined view.now).user (view_as_defined view.now).facts.local_user) }
{
    let text = user(byte, view)?;
    put(out, text)
}

/// Adds the digits of a number.
pub fn put_number(alloc: Global, out: &mut Text, number: u64) -> Result<(), OutOfMemory>
    ensures { OnOk result (out.new ≡ out.old ++ digits_of number) }
{
    let digits = number.to_string(alloc)?;
    out.add(digits.as_bytes())
}

// Adds a port.
fn put_port(alloc: Global, out: &mut Text, port: u16) -> Result<(), TokenError>
    ensures { Puts result out.old out.new (Ok (digits_of port)) }
{
    put_number(alloc, out, u64::from(port))?;
    Ok(())
}

// How many bytes stand before the first dot.
fn dot_place(name: &[u8]) -> usize
    ensures count { result ≡ prefix_len (λ c. not (c == 46)) name.now }
    ensures within { result ≤ length name.now }
{
    name.iter().take_while(|c| !(**c == b'.')).count()
}

// A name up to its first dot.
fn before_dot(name: &[u8]) -> &[u8]
    ensures { result.now ≡ before_dot name.now }
{
    &name[..dot_place(name)]
}

// Adds the name of this machine up to its first dot.
fn put_short_name(out: &mut Text, view: &View<'_>) -> Result<(), TokenError>
    ensures { Puts result out.old out.new (short_name (view_as_defined view.now).facts.host_name) }
{
    let name = fact(b'L', &view.facts.host_name)?;
    put(out, before_dot(name))
}

// The digest of a connection, in hexadecimal digits.
fn digest(alloc: Global, view: &View<'_>) -> Result<[u8; 40], TokenError>
    ensures { GivesReading token_wants_memory result (connection_digest (view_as_defined view.now)) }
{
    let name = fact(b'l', &view.facts.host_name)?;
    let user = user(b'r', view)?;
    let mut port = Text::new(alloc);
    put_number(alloc, &mut port, u64::from(view.port))?;
    let mut hasher = Sha1::new();
    hasher.update(name);
    hasher.update(view.host);
    hasher.update(port.as_bytes());
    hasher.update(user);
    hasher.update(view.jump);
    Ok(hex_of(&hasher.finalize()))
}

// Twenty bytes in hexadecimal digits.
fn hex_of(bytes: &[u8; 20]) -> [u8; 40]
    ensures { result ≡ encode_lower bytes.now }
{
    let mut text = [0u8; 40];
    let done = hex::encode_to_slice(bytes.as_slice(), &mut text);
    // For the proof alone: forty digits have room.
    prove!(done.is_ok());
    text
}

// Adds the digest of a connection.
fn put_digest(alloc: Global, out: &mut Text, view: &View<'_>) -> Result<(), TokenError>
    ensures { Puts result out.old out.new (connection_digest (view_as_defined view.now)) }
{
    let digest = digest(alloc, view)?;
    put(out, &digest)
}

/// Adds what a token gives, by the byte after its percent sign.
#[tactic(auto, unfolding(conf_rules::specs::Tokens::meaning))]
pub fn put_token(alloc: Global, out: &mut Text, byte: u8, view: &View<'_>) -> Result<(), TokenError>
    ensures { Puts result out.old out.new (meaning (view_as_defined view.now) byte) }
{
    match byte {
        b'%' => put(out, b"%"),
        b'C' => put_digest(alloc, out, view),
        b'd' => put_fact(out, b'd', &view.facts.home),
        b'h' => put(out, view.host),
        b'i' => put_fact(out, b'i', &view.facts.uid),
        b'j' => put(out, view.jump),
        b'k' => put(out, view.alias.unwrap_or(view.original)),
        b'L' => put_short_name(out, view),
        b'l' => put_fact(out, b'l', &view.facts.host_name),
        b'n' => put(out, view.original),
        b'p' => put_port(alloc, out, view.port),
        b'r' => put_user(out, b'r', view),
        _ => put_fact(out, b'u', &view.facts.local_user),
    }
}
