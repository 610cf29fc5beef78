ghost use Rattle.std.specs.Prelude.{◌≡◌, option_map};
ghost use Rattle.mux_history.specs.Policy as history;
ghost use Rattle.mux_history.specs.Rows.{any_of};
ghost use Rattle.forward_rules.specs.declared.reading.ListFault.TheVariants as faults;
ghost use Rattle.forward_rules.specs.Allows.{allow_of, lent_host_of, parts_of, sides_of, EntriesReadAs, ListReadsAs};

use crate::entry::{Allowed, Entry, Parts};
use memchr::memrchr;
use ssh_fields::{OutOfMemory, Text};
use std::alloc::Global;

/// The greatest port.
const LAST_PORT: u32 = 65_535;

/// Each host, or each port.
const EACH: &[u8] = b"*";

/// All is permitted.
const ANY: &[u8] = b"any";

/// Nothing is permitted.
const NONE: &[u8] = b"none";

/// Why a list isn't read.
#[derive(Clone, Copy, Drop, PartialEq, Eq)]
pub enum ListFault {
    /// The first text that is no entry.
    Bad { at: usize },
    OutOfMemory,
}

impl From<OutOfMemory> for ListFault {
    ghost from_gives = { λ _ f. f ≡ faults.OutOfMemory };

    fn from(_e: OutOfMemory) -> ListFault {
        ListFault::OutOfMemory
    }
}

// A decimal number up to 65,535; leading zeros are allowed.
fn read_number(text: &[u8]) -> Option<u32>
    ensures { result ≡ history.read_number text.now }
{
    if text.is_empty() {
        return None;
    }
    let mut number = 0;
    for b in text {
        if !b.is_ascii_digit() {
            return None;
        }
        number = number * 10 + (*b - b'0') as u32;
        if number > LAST_PORT {
            return None;
        }
    }
    Some(number)
}

// `*`, which is each port, or a number.
fn read_port(text: &[u8]) -> Option<Option<u32>>
    ensures { result ≡ history.read_port text.now }
{
    if text == EACH {
        return Some(None);
    }
    let number = read_number(text)?;
    Some(Some(number))
}

// `*`, which is each host, or a text that isn't empty and doesn't begin with a slash.
fn read_host(text: &[u8]) -> Option<Option<&[u8]>>
    ensures { option_map lent_host_of result ≡ history.read_host text.now }
{
    match text {
        [] => None,
        b"*" => Some(None),
        [b'/', ..] => None,
        _ => Some(Some(text)),
    }
}

// The text before the last byte of a kind, and the text after it.
fn around_last(text: &[u8], byte: u8) -> Option<(&[u8], &[u8])>
    ensures { option_map sides_of result ≡ history.before_last byte text.now }
{
    let at = memrchr(byte, text)?;
    Some((&text[..at], &text[at + 1..]))
}

// Whether there is a colon or a bracket.
fn has_mark(text: &[u8]) -> bool
    ensures { result ≡ any_of history.is_mark text.now }
{
    for b in text {
        if matches!(*b, b':' | b'[' | b']') {
            return true;
        }
    }
    false
}

// A colon and a port, after an address in brackets.
fn read_colon_port(text: &[u8]) -> Option<Option<u32>>
    ensures { result ≡ history.read_colon_port text.now }
{
    match text {
        [b':', port @ ..] => read_port(port),
        _ => None,
    }
}

// An address up to the last closing bracket, and its port.
fn read_bracketed(text: &[u8]) -> Option<Parts<'_>>
    ensures { option_map parts_of result ≡ history.read_bracketed text.now }
{
    let (host, port) = around_last(text, b']')?;
    let host = read_host(host)?;
    let port = read_colon_port(port)?;
    Some(Parts::Ports { host, port })
}

// A host without colon and bracket, and its port; or a port of each host.
fn read_bare(text: &[u8]) -> Option<Parts<'_>>
    ensures { option_map parts_of result ≡ history.read_bare text.now }
{
    let Some((host, port)) = around_last(text, b':') else {
        let port = read_port(text)?;
        return Some(Parts::Ports { host: None, port });
    };
    if has_mark(host) {
        return None;
    }
    let host = read_host(host)?;
    let port = read_port(port)?;
    Some(Parts::Ports { host, port })
}

// An entry, by its first byte.
fn read_entry(text: &[u8]) -> Option<Parts<'_>>
    ensures { option_map parts_of result ≡ history.read_entry text.now }
{
    match text {
        [] => None,
        [b'/', ..] => Some(Parts::Path(text)),
        [b'[', rest @ ..] => read_bracketed(rest),
        _ => read_bare(text),
    }
}

fn read_entries(alloc: Global, texts: &[Text]) -> Result<Vec<Entry>, ListFault>
    ensures { EntriesReadAs result (history.read_entries 0 texts.now) }
{
    let mut entries = Vec::new(alloc);
    for (at, text) in texts.iter().enumerate() {
        let Some(parts) = read_entry(text.as_bytes()) else {
            return Err(ListFault::Bad { at });
        };
        let entry = Entry::copy(alloc, parts)?;
        if entries.push(entry).is_err() {
            return Err(ListFault::OutOfMemory);
        }
    }
    Ok(entries)
}

// A word that stands alone.
fn read_word(alloc: Global, text: &[u8]) -> Option<Allowed>
    ensures { option_map allow_of result ≡ history.read_word text.now }
{
    if text == ANY {
        Some(Allowed::Anything)
    } else if text == NONE {
        Some(Allowed::Entries(Vec::new(alloc)))
    } else {
        None
    }
}

/// A list without texts permits all.
pub fn read_list(alloc: Global, texts: &[Text]) -> Result<Allowed, ListFault>
    ensures { ListReadsAs result (history.read_list texts.now) }
{
    let Some(first) = texts.first() else {
        return Ok(Allowed::Anything);
    };
    let Some(allowed) = read_word(alloc, first.as_bytes()) else {
        let entries = read_entries(alloc, texts)?;
        return Ok(Allowed::Entries(entries));
    };
    if texts.len() > 1 {
        return Err(ListFault::Bad { at: 1 });
    }
    Ok(allowed)
}
