ghost use Rattle.std.specs.Prelude.{◌≡◌, ◌==◌, ◌&&◌, ◌||◌, not, ℕ, false, IfOk};
ghost use Rattle.std.specs.List.{list_any};
ghost use Rattle.conf_rules.specs.Options.{parts_from, is_bad_part, forward_words};
ghost use Rattle.conf_command.specs.Parts.{words_of_one_end, words_of_two_ends, ends_among};

use crate::bytes::joined;
use conf_lexer::has_slash;
use ssh_fields::{OutOfMemory, Text, Texts};
use std::alloc::Global;
use std::mem;

// Whether a byte parts two parts: a colon that doesn't stand inside brackets.
fn is_parting(byte: u8, inside: bool) -> bool
    ensures { result ≡ (byte == 58) && not inside }
{
    byte == b':' && !inside
}

// Whether the next byte stands inside brackets.
fn is_inside(byte: u8, inside: bool) -> bool
    ensures { result ≡ (byte == 91) || (inside && not (byte == 93)) }
{
    byte == b'[' || (inside && byte != b']')
}

// The parts between colons that don't stand inside brackets.
fn parts_of(alloc: Global, value: &[u8]) -> Result<Texts, OutOfMemory>
    ensures { IfOk result (λ parts. parts ≡ parts_from false value.now) }
{
    let mut parts = Texts::new(alloc);
    let mut part = Text::new(alloc);
    let mut inside = false;
    for byte in value {
        if is_parting(*byte, inside) {
            parts.push(mem::replace(&mut part, Text::new(alloc)))?;
        } else {
            part.push(*byte)?;
            inside = is_inside(*byte, inside);
        }
    }
    parts.push(part)?;
    Ok(parts)
}

// Whether a part has more than 255 bytes, or a slash.
fn is_bad_part(part: &[u8]) -> bool
    ensures { result ≡ is_bad_part part.now }
{
    part.len() > 255 || has_slash(part)
}

// Whether one of the parts is bad.
fn has_bad_part(parts: &[Text]) -> bool
    ensures { result ≡ list_any is_bad_part parts.now }
{
    parts.iter().any(|part| is_bad_part(part.as_bytes()))
}

// One end, if that may be.
fn one_end(alloc: Global, one: bool, word: Text) -> Result<Option<Texts>, OutOfMemory>
    ensures { IfOk result (λ words. words ≡ words_of_one_end one word) }
{
    if !one {
        return Ok(None);
    }
    let mut words = Texts::new(alloc);
    words.push(word)?;
    Ok(Some(words))
}

// Two ends, if that may be.
fn two_ends(
    alloc: Global,
    two: bool,
    listen: Text,
    connect: Text,
) -> Result<Option<Texts>, OutOfMemory>
    ensures { IfOk result (λ words. words ≡ words_of_two_ends two listen connect) }
{
    if !two {
        return Ok(None);
    }
    let mut words = Texts::new(alloc);
    words.push(listen)?;
    words.push(connect)?;
    Ok(Some(words))
}

// The words of parts: one end of one or two parts, or two ends of three or four.
fn ends_among(
    alloc: Global,
    one: bool,
    two: bool,
    parts: &[Text],
) -> Result<Option<Texts>, OutOfMemory>
    ensures { IfOk result (λ words. words ≡ ends_among one two parts.now) }
{
    match parts {
        [] => Ok(None),
        [port] => one_end(alloc, one, Text::copy(alloc, port.as_bytes())?),
        [bind, port] => one_end(alloc, one, joined(alloc, bind.as_bytes(), port.as_bytes())?),
        [port, host, to] => {
            let listen = Text::copy(alloc, port.as_bytes())?;
            let connect = joined(alloc, host.as_bytes(), to.as_bytes())?;
            two_ends(alloc, two, listen, connect)
        }
        [bind, port, host, to] => {
            let listen = joined(alloc, bind.as_bytes(), port.as_bytes())?;
            let connect = joined(alloc, host.as_bytes(), to.as_bytes())?;
            two_ends(alloc, two, listen, connect)
        }
        [_, _, _, _, _, ..] => Ok(None),
    }
}

/// The words of a forwarding, which may have one end or two.
pub fn forward_words(
    alloc: Global,
    one: bool,
    two: bool,
    value: &[u8],
) -> Result<Option<Texts>, OutOfMemory>
    ensures { IfOk result (λ words. words ≡ forward_words one two value.now) }
{
    let parts = parts_of(alloc, value)?;
    if has_bad_part(parts.as_slice()) {
        return Ok(None);
    }
    ends_among(alloc, one, two, parts.as_slice())
}
