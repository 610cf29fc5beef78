//! What the lines of a row say of a scripted wire: steps, answers to writes, and bytes.
use crate::spelling::{add_hex, add_unescaped, spell_frames};
use crate::trouble::Trouble;
use mux_outside::{Pairs, Step, WriteEntry, Writes};
use ssh_fields::{OutOfMemory, Text};
use std::alloc::Global;

/// Adds answers to writes, one a word.
pub fn add_writes(writes: &mut Writes, words: &str) -> Result<(), Trouble> {
    for word in words.split_whitespace() {
        writes.push(write_entry(word)?)?;
    }
    Ok(())
}

// How a write is answered that a word spells.
fn write_entry(word: &str) -> Result<WriteEntry, Trouble> {
    match word {
        "all" => Ok(WriteEntry::All),
        "later" => Ok(WriteEntry::Later),
        "fail" => Ok(WriteEntry::Fail),
        number => match number.parse::<usize>() {
            Ok(count) => Ok(WriteEntry::Some(count)),
            Err(_) => Err(Trouble::Unread),
        },
    }
}

/// A number.
pub fn number_of(word: &str) -> Result<u64, Trouble> {
    word.parse::<u64>().map_err(|_| Trouble::Unread)
}

/// The step that a line spells.
pub fn step_of(alloc: Global, head: &str, rest: &str, names: &Pairs) -> Result<Step, Trouble> {
    if head == "accept" {
        return Ok(Step::Accept);
    }
    let (stream, bytes) = rest.split_once(' ').unwrap_or((rest, ""));
    stream_step(alloc, head, number_of(stream)?, bytes, names)
}

// The step of a stream.
fn stream_step(
    alloc: Global,
    head: &str,
    stream: u64,
    bytes: &str,
    names: &Pairs,
) -> Result<Step, Trouble> {
    match head {
        "bytes" => Ok(Step::Bytes(stream, bytes_of(alloc, bytes, names)?)),
        "end" => Ok(Step::End(stream)),
        "fail" => Ok(Step::Fail(stream)),
        "free" => Ok(Step::Writable(stream)),
        "join" => Ok(Step::Join(stream, number_of(bytes)?)),
        _ => Err(Trouble::Unread),
    }
}

/// Writes what a stream accepted.
pub fn record_taken(line: &mut Text, stream: &[u8], bytes: &[u8]) -> Result<(), OutOfMemory> {
    line.add(b"took ")?;
    line.add(stream)?;
    spell_frames(line, bytes)
}

/// The bytes that words spell: each a name, a text after `'`, or digits of base 16; a number and
/// `*` before it give how often.
pub fn bytes_of(alloc: Global, words: &str, names: &Pairs) -> Result<Text, Trouble> {
    let mut out = Text::new(alloc);
    add_words(&mut out, words, names)?;
    Ok(out)
}

// Adds the bytes of words.
fn add_words(out: &mut Text, words: &str, names: &Pairs) -> Result<(), Trouble> {
    for word in words.split_whitespace() {
        add_word(out, word, names)?;
    }
    Ok(())
}

// Adds the bytes of a word, as often as it gives.
fn add_word(out: &mut Text, word: &str, names: &Pairs) -> Result<(), Trouble> {
    let (count, one) = word.split_once('*').unwrap_or(("", ""));
    let Ok(count) = number_of(count) else {
        return add_once(out, word, names);
    };
    for _ in 0..count {
        add_once(out, one, names)?;
    }
    Ok(())
}

// Adds the bytes of a word once.
fn add_once(out: &mut Text, word: &str, names: &Pairs) -> Result<(), Trouble> {
    if let Some(text) = word.strip_prefix("'") {
        return add_unescaped(out, text.as_bytes());
    }
    match value_of(names, word.as_bytes()) {
        Some(bytes) => Ok(out.add(bytes)?),
        None => add_hex(out, word.as_bytes()),
    }
}

// The bytes of a name; a word that begins with a digit is none.
fn value_of<'a>(names: &'a Pairs, name: &[u8]) -> Option<&'a [u8]> {
    if let [b'0'..=b'9', ..] = name {
        return None;
    }
    for pair in names.as_slice() {
        if pair.name.as_bytes() == name {
            return Some(pair.value.as_bytes());
        }
    }
    None
}
