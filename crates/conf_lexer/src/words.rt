ghost use Rattle.std.specs.Prelude.{◌≡◌, ℕ, ◌+◌, ◌-◌, ◌<◌, ◌≤◌, ◌^◌, length};
ghost use Rattle.std.specs.Option.{option_map};
ghost use Rattle.conf_rules.specs.declared.quoting.Quoting.TheVariants.{Between};
ghost use Rattle.conf_rules.specs.Words.{is_escapable, after_backslash, move_of, words_from, words_of};
ghost use Rattle.conf_lexer.specs.Reading.{escaped};
ghost use Rattle.conf_rules.specs.Results.{GivesReading};
ghost use Rattle.conf_rules.specs.Wants.{lex_wants_memory};

use crate::bytes::first;
use conf_rules::{LexError, Move, Quoting};
use ssh_fields::{Text, Texts};
use std::alloc::Global;
use std::mem;

// Whether a backslash before this byte represents the byte.
fn is_escapable(quoting: Quoting, byte: u8) -> bool
    ensures { result ≡ is_escapable quoting byte }
{
    match quoting {
        Quoting::Quoted { .. } => byte == b'"' || byte == b'\'' || byte == b'\\',
        _ => byte == b'"' || byte == b'\'' || byte == b'\\' || byte == b' ',
    }
}

// The state of the reading after a byte that a backslash gave.
fn inside(quoting: Quoting) -> Quoting
    ensures { result ≡ after_backslash quoting }
{
    match quoting {
        Quoting::Quoted { by, at } => Quoting::Quoted { by, at },
        _ => Quoting::Bare,
    }
}

// What a byte does, at its place in the rest.
#[tactic(auto, unfolding(conf_rules::specs::Words::move_of))]
fn move_of(quoting: Quoting, at: usize, byte: u8) -> Move
    ensures { result ≡ move_of quoting at byte }
{
    let blank = byte == b' ' || byte == b'\t';
    let quote = byte == b'"' || byte == b'\'';
    match quoting {
        Quoting::Between if blank => Move::Go(Quoting::Between),
        Quoting::Between if byte == b'#' => Move::Stop,
        Quoting::Bare if blank => Move::End,
        Quoting::Between | Quoting::Bare if quote => Move::Go(Quoting::Quoted { by: byte, at }),
        Quoting::Between | Quoting::Bare => Move::Put(Quoting::Bare),
        Quoting::Quoted { by, .. } if byte == by => Move::Go(Quoting::Bare),
        Quoting::Quoted { by, at } => Move::Put(Quoting::Quoted { by, at }),
    }
}

// The byte that a backslash represents, where this byte is one and is read so, and what follows.
#[tactic(auto, unfolding(crate::specs::Reading::escaped))]
fn escaped(quoting: Quoting, byte: u8, after: &[u8]) -> Option<(u8, &[u8])>
    ensures { option_map (λ x. (x.0, x.1.now)) result ≡ escaped quoting byte after.now }
{
    let (next, rest) = first(after)?;
    (byte == b'\\' && is_escapable(quoting, next)).then_some((next, rest))
}

// All words, or none.
fn all_words(alloc: Global, rest: &[u8]) -> Result<Texts, LexError>
    ensures { GivesReading lex_wants_memory result (words_from Between 0 rest.now) }
{
    let mut words = Texts::new(alloc);
    let mut word = Text::new(alloc);
    let mut quoting = Quoting::Between;
    let mut at = 0;
    let mut left = rest;
    while let Some((byte, after)) = first(left) {
        if let Some((other, behind)) = escaped(quoting, byte, after) {
            word.push(other)?;
            quoting = inside(quoting);
            at += 2;
            left = behind;
            continue;
        }
        match move_of(quoting, at, byte) {
            Move::Stop => return Ok(words),
            Move::Go(next) => quoting = next,
            Move::Put(next) => {
                word.push(byte)?;
                quoting = next;
            }
            Move::End => {
                words.push(mem::replace(&mut word, Text::new(alloc)))?;
                quoting = Quoting::Between;
            }
        }
        at += 1;
        left = after;
    }
    match quoting {
        Quoting::Between => Ok(words),
        Quoting::Bare => {
            words.push(word)?;
            Ok(words)
        }
        Quoting::Quoted { at, .. } => Err(LexError::OpenQuote { at }),
    }
}

/// The words of a rest (ssh_config(5)): blanks part them, quotes enclose blanks, a backslash
/// represents a quote, a backslash or a space, and a number sign at a word's start ends them. `at`
/// of a refusal is a byte's place in `rest`.
pub fn split_words(alloc: Global, rest: &[u8]) -> Result<Texts, LexError>
    ensures exact { GivesReading lex_wants_memory result (words_of rest.now) }
{
    let words = all_words(alloc, rest)?;
    if words.len() == 0 {
        return Err(LexError::NoArgument);
    }
    Ok(words)
}
