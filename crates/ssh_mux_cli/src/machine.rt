//! The words of the command line and the facts of the machine, as bytes.

use mux_outside::{Facts, FileError, Files, Pair, Pairs};
use ssh_fields::{OutOfMemory, Text, Texts};
use std::alloc::Global;
use std::env::FillError;
use std::rt::Env;
use std::str;

/// Where Linux keeps the name of the machine.
const HOST_NAME: &[u8] = b"/proc/sys/kernel/hostname";

/// How many bytes of the machine's name are read; Linux allows 64.
const LONGEST_HOST_NAME: usize = 256;

/// How many bytes a word is tried with at first.
const FIRST_ROOM: usize = 256;

/// What the system is asked for.
#[derive(Clone, Copy)]
enum AskedWords {
    /// The word at a place of the command line; the program's name is at 0.
    Word(usize),
    /// The entry at a place of the environment.
    Entry(usize),
}

// The bytes at a place, `None` after the last one. The room is doubled until they fit.
fn bytes_at<E: Env>(rt: &E, alloc: Global, asked: AskedWords) -> Result<Option<Text>, OutOfMemory> {
    let mut room = FIRST_ROOM;
    for _ in 0..usize::BITS {
        let mut bytes = Vec::from_elem(alloc, 0u8, room)?;
        let filled = match asked {
            AskedWords::Word(place) => rt.arg(place, &mut bytes),
            AskedWords::Entry(place) => rt.var_at(place, &mut bytes),
        };
        match filled {
            Ok(count) => return Ok(Some(Text::copy(alloc, &bytes[..count])?)),
            Err(FillError::NotPresent) => return Ok(None),
            Err(FillError::TooLong) => room = room.saturating_add(room),
        }
    }
    Err(OutOfMemory)
}

/// The words after the program's name.
pub fn words_of<E: Env>(rt: &E, alloc: Global) -> Result<Texts, OutOfMemory> {
    let mut words = Texts::new(alloc);
    for place in 1..usize::MAX {
        match bytes_at(rt, alloc, AskedWords::Word(place))? {
            Some(word) => words.push(word)?,
            None => break,
        }
    }
    Ok(words)
}

// The name and the value of an entry.
fn pair_of(alloc: Global, entry: &[u8]) -> Result<Option<Pair>, OutOfMemory> {
    match entry.iter().position(|byte| *byte == b'=') {
        Some(at) => Ok(Some(Pair {
            name: Text::copy(alloc, &entry[..at])?,
            value: Text::copy(alloc, &entry[at + 1..])?,
        })),
        None => Ok(None),
    }
}

// The environment. What has no equals sign is no variable.
fn vars_of<E: Env>(rt: &E, alloc: Global) -> Result<Pairs, OutOfMemory> {
    let mut vars = Pairs::new(alloc);
    for place in 0..usize::MAX {
        let Some(entry) = bytes_at(rt, alloc, AskedWords::Entry(place))? else {
            break;
        };
        if let Some(pair) = pair_of(alloc, entry.as_bytes())? {
            vars.push(pair)?;
        }
    }
    Ok(vars)
}

// The value of a variable, of equal names the first.
fn value_of(alloc: Global, vars: &Pairs, name: &[u8]) -> Result<Option<Text>, OutOfMemory> {
    match vars
        .as_slice()
        .iter()
        .find(|pair| pair.name.as_bytes() == name)
    {
        Some(pair) => Ok(Some(Text::copy(alloc, pair.value.as_bytes())?)),
        None => Ok(None),
    }
}

// The number that decimal digits spell.
fn number_of(digits: &[u8]) -> Option<u32> {
    if !digits.iter().all(u8::is_ascii_digit) {
        return None;
    }
    str::from_utf8(digits).ok()?.parse().ok()
}

// The value of a variable, where it spells a number by decimal digits alone.
fn digits_of(alloc: Global, vars: &Pairs, name: &[u8]) -> Result<Option<Text>, OutOfMemory> {
    match value_of(alloc, vars, name)? {
        Some(digits) if number_of(digits.as_bytes()).is_some() => Ok(Some(digits)),
        _ => Ok(None),
    }
}

// The name of the machine without its line's end; `None` where it can't be read.
fn host_name_of<F: Files>(alloc: Global, files: &mut F) -> Result<Option<Text>, OutOfMemory> {
    match files.read(HOST_NAME, LONGEST_HOST_NAME) {
        Ok(Some(text)) => {
            let line = text.as_bytes();
            let name = line.strip_suffix(b"\n").unwrap_or(line);
            Ok(Some(Text::copy(alloc, name)?))
        }
        Ok(None) | Err(FileError::Failed) => Ok(None),
        Err(FileError::OutOfMemory) => Err(OutOfMemory),
    }
}

/// What the environment and the files contain about the machine and its user.
pub fn facts_of<E: Env, F: Files>(
    rt: &E,
    alloc: Global,
    files: &mut F,
) -> Result<Facts, OutOfMemory> {
    let vars = vars_of(rt, alloc)?;
    let pid = value_of(alloc, &vars, b"SSHMUX_PID")?;
    Ok(Facts {
        home: value_of(alloc, &vars, b"HOME")?,
        local_user: value_of(alloc, &vars, b"USER")?,
        uid: digits_of(alloc, &vars, b"SSHMUX_UID")?,
        host_name: host_name_of(alloc, files)?,
        pid: pid.and_then(|digits| number_of(digits.as_bytes())),
        vars,
    })
}
