ghost use Rattle.std.specs.Prelude.{◌≡◌, ◌≤◌, ◌↔◌, ◌⊎◌, ◌++◌, ◌∷◌, [], length, take, None, Err, IfOk, IfSome, IsTrue, IsUtf8, OnOk};
ghost use Rattle.mux_outside.specs.Counts.{HasCause};
ghost use Rattle.std.specs.IoError.{error_kind};

use mux_edge::{count_failed, file_error};
use mux_outside::{FileError, Files};
use ssh_fields::{OutOfMemory, Text, Texts};
use std::alloc::{AllocError, Global};
use std::fs::OpenFile;
use std::io::{ErrorKind, Read};
use std::rt::Files as System;
use std::{fs, io, str};

// How many names a directory may have.
const NAMES: usize = 1_000_000;

/// The files of the system. A path that isn't UTF-8 is a fault, and so is a directory with a name
/// that isn't, or with more than 1,000,000 names.
#[derive(Drop)]
pub struct RealFiles<R: System + AllocGlobal + Clone + Drop> {
    rt: R,
    alloc: Global,
    faults: u64,
}

impl<R: System + AllocGlobal + Clone + Drop> RealFiles<R> {
    /// The files, of which no call has failed.
    pub fn new(rt: R, alloc: Global) -> RealFiles<R>
        ensures { result.faults ≡ 0 }
    {
        RealFiles {
            rt,
            alloc,
            faults: 0,
        }
    }
}

impl<R: System + AllocGlobal + Clone + Drop> Files for RealFiles<R> {
    ghost recorded = { λ _. None };

    ghost faults = { λ f. f.faults };

    ghost failed = { λ _. None };

    ghost readings = { λ _. None };

    fn read(&mut self, path: &[u8], most: usize) -> Result<Option<Text>, FileError>
        ensures at_most { IfOk result (λ found. IfSome found (λ text. length text ≤ most)) }
        ensures not_text { ¬ (IsUtf8 path.now) → result ≡ Err FileError.Failed }
        ensures cause { HasCause result self.old.faults self.new.faults }
    {
        let answer = read_file(&self.rt, self.alloc, path, most);
        count_failed(&answer, &mut self.faults);
        answer
    }

    fn list(&mut self, dir: &[u8]) -> Result<Option<Texts>, FileError>
        ensures at_most { IfOk result (λ found. IfSome found (λ names. length names ≤ NAMES)) }
        ensures not_text { ¬ (IsUtf8 dir.now) → result ≡ Err FileError.Failed }
        ensures cause { HasCause result self.old.faults self.new.faults }
    {
        let answer = list_names(&self.rt, self.alloc, dir);
        count_failed(&answer, &mut self.faults);
        answer
    }
}

// Whether there is no such file or directory.
fn is_missing(e: &io::Error) -> bool
    ensures { IsTrue result ↔ ((error_kind e.now ≡ ErrorKind.NotFound)
        ⊎ (error_kind e.now ≡ ErrorKind.NotADirectory)) }
{
    e.kind() == ErrorKind::NotFound || e.kind() == ErrorKind::NotADirectory
}

// The first bytes of a file.
fn read_file<R: System>(
    rt: &R,
    alloc: Global,
    path: &[u8],
    most: usize,
) -> Result<Option<Text>, FileError>
    ensures at_most { IfOk result (λ found. IfSome found (λ text. length text ≤ most)) }
    ensures not_text { ¬ (IsUtf8 path.now) → result ≡ Err FileError.Failed }
{
    let Ok(path) = str::from_utf8(path) else {
        return Err(FileError::Failed);
    };
    read_at(rt, alloc, path, most).map_err(|e| file_error(&e))
}

// The same, at a path that is text.
fn read_at<R: System>(rt: &R, alloc: Global, path: &str, most: usize) -> io::Result<Option<Text>>
    ensures at_most { IfOk result (λ found. IfSome found (λ text. length text ≤ most)) }
{
    let file = match fs::open(rt, path) {
        Ok(file) => file,
        Err(e) if is_missing(&e) => return Ok(None),
        Err(e) => return Err(e),
    };
    if file.metadata()?.is_dir() {
        return Ok(None);
    }
    Ok(Some(read_first(file, alloc, most)?))
}

// The first bytes that a reader gives.
fn read_first<F: Read + Drop>(file: F, alloc: Global, most: usize) -> io::Result<Text>
    ensures at_most { IfOk result (λ text. length text ≤ most) }
    ensures first { IfOk result (λ text.
        IfSome (F.remaining file) (λ left. text ≡ take most left)) }
{
    let mut bytes = Vec::new(alloc);
    let mut front = file.take(most as u64);
    let _ = front.read_to_end(&mut bytes)?;
    let count = bytes.len().min(most);
    Ok(Text::copy(alloc, &bytes[..count]).map_err(|_| AllocError)?)
}

// The names in a directory.
fn list_names<R: System + AllocGlobal + Clone + Drop>(
    rt: &R,
    alloc: Global,
    dir: &[u8],
) -> Result<Option<Texts>, FileError>
    ensures at_most { IfOk result (λ found. IfSome found (λ names. length names ≤ NAMES)) }
    ensures not_text { ¬ (IsUtf8 dir.now) → result ≡ Err FileError.Failed }
{
    let Ok(dir) = str::from_utf8(dir) else {
        return Err(FileError::Failed);
    };
    list_at(rt, alloc, dir).map_err(|e| file_error(&e))
}

// The same, at a path that is text.
fn list_at<R: System + AllocGlobal + Clone + Drop>(
    rt: &R,
    alloc: Global,
    dir: &str,
) -> io::Result<Option<Texts>>
    ensures at_most { IfOk result (λ found. IfSome found (λ names. length names ≤ NAMES)) }
{
    let entries = match fs::read_dir(rt, dir) {
        Ok(entries) => entries,
        Err(e) if is_missing(&e) => return Ok(None),
        Err(e) => return Err(e),
    };
    let mut names = Texts::new(alloc);
    for entry in entries {
        let entry = entry?;
        if names.len() == NAMES {
            return Err(io::Error::from(ErrorKind::Other));
        }
        add_name(alloc, &mut names, entry.file_name().as_bytes()).map_err(|_| AllocError)?;
    }
    Ok(Some(names))
}

// Adds a name at the end.
fn add_name(alloc: Global, names: &mut Texts, name: &[u8]) -> Result<(), OutOfMemory>
    ensures { OnOk result (names.new ≡ names.old ++ name.now ∷ []) }
{
    names.push(Text::copy(alloc, name)?)
}
