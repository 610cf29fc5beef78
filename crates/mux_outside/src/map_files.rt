ghost use Rattle.std.specs.Prelude.{◌≡◌, ◌≤◌, ◌++◌, ◌∷◌, [], length, Some, IfOk, IfErr, IfSome, OnOk};
ghost use Rattle.mux_outside.specs.Calls.{CountsCall, FailsWhereNoted};
ghost use Rattle.mux_outside.specs.Counts.{HasCause, Rose};
ghost use Rattle.mux_outside.specs.Files.{Reads, Lists, ListsNames, NotesFailed, NotesReading, file_content_at};
ghost use Rattle.std.specs.Prelude.{take};
ghost use Rattle.std.specs.Option.{option_map};

use crate::calls::Calls;
use crate::counts::{counted, raised};
use crate::directories::{is_folder_at, names_in, pair_value_at};
use crate::file_error::FileError;
use crate::files::Files;
use crate::pairs::{Pair, Pairs};
use crate::reading::{Reading, Readings};
use ssh_fields::{OutOfMemory, Text, Texts};
use std::alloc::Global;

/// Files in memory: paths and contents, of equal paths the first. The directories are `/` and each
/// prefix of a path that isn't empty and is followed by a slash.
#[derive(Drop)]
pub struct MapFiles {
    alloc: Global,
    files: Pairs,
    fails: Calls,
    failed: Texts,
    readings: Readings,
    calls: u64,
    faults: u64,
}

impl MapFiles {
    /// These files. The calls that fail are counted over reads and listings, and their paths are
    /// kept, and so are all reads.
    pub fn new(alloc: Global, files: Pairs, fails: Calls) -> MapFiles
        ensures files { result.files ≡ files }
        ensures fails { result.fails ≡ fails }
        ensures failed { result.failed ≡ [] }
        ensures readings { result.readings ≡ [] }
        ensures calls { result.calls ≡ 0 }
        ensures faults { result.faults ≡ 0 }
    {
        MapFiles {
            alloc,
            files,
            fails,
            failed: Texts::new(alloc),
            readings: Readings::new(alloc),
            calls: 0,
            faults: 0,
        }
    }

    // Fails the call of this number, with its path.
    fn fail(&mut self, call: u64, path: &[u8]) -> Result<(), OutOfMemory>
        ensures failed { OnOk result (self.new.failed ≡ self.old.failed ++ path.now ∷ []) }
        ensures faults { OnOk result (Rose self.old.faults self.new.faults) }
        ensures calls { OnOk result (self.new.calls ≡ call) }
        ensures kept { (self.new.files ≡ self.old.files) × (self.new.fails ≡ self.old.fails) }
        ensures readings { self.new.readings ≡ self.old.readings }
        ensures unchanged { IfErr result (λ e. self.new ≡ self.old) }
    {
        self.failed.push(Text::copy(self.alloc, path)?)?;
        self.calls = call;
        self.faults = raised(self.faults);
        Ok(())
    }

    // Fails the read of this number, and keeps it.
    fn fail_read(&mut self, call: u64, path: &[u8], reading: Reading) -> Result<(), OutOfMemory>
        ensures failed { OnOk result (self.new.failed ≡ self.old.failed ++ path.now ∷ []) }
        ensures readings { OnOk result (self.new.readings ≡ self.old.readings ++ reading ∷ []) }
        ensures faults { OnOk result (Rose self.old.faults self.new.faults) }
        ensures calls { OnOk result (self.new.calls ≡ call) }
        ensures kept { (self.new.files ≡ self.old.files) × (self.new.fails ≡ self.old.fails) }
        ensures unchanged { IfErr result (λ e. self.new ≡ self.old) }
    {
        let count = self.readings.len();
        self.readings.push(reading)?;
        if let Err(e) = self.fail(call, path) {
            self.readings.truncate(count);
            return Err(e);
        }
        Ok(())
    }
}

// The first bytes of a file.
fn read_first(
    alloc: Global,
    files: &[Pair],
    path: &[u8],
    most: usize,
) -> Result<Option<Text>, OutOfMemory>
    ensures { IfOk result (λ found.
        found ≡ option_map (take most) (file_content_at files.now path.now)) }
{
    if is_folder_at(files, path) {
        return Ok(None);
    }
    let Some(content) = pair_value_at(files, path) else {
        return Ok(None);
    };
    let count = content.len().min(most);
    Ok(Some(Text::copy(alloc, &content[..count])?))
}

// The names in a directory.
fn list_names(alloc: Global, files: &[Pair], dir: &[u8]) -> Result<Option<Texts>, OutOfMemory>
    ensures { IfOk result (ListsNames files.now dir.now) }
{
    if !is_folder_at(files, dir) {
        return Ok(None);
    }
    Ok(Some(names_in(alloc, files, dir)?))
}

impl Files for MapFiles {
    ghost recorded = { λ f. Some f.files };

    ghost faults = { λ f. f.faults };

    ghost failed = { λ f. Some f.failed };

    ghost readings = { λ f. Some f.readings };

    fn read(&mut self, path: &[u8], most: usize) -> Result<Option<Text>, FileError>
        ensures reads { Reads (Some self.old.files) path.now most result }
        ensures at_most { IfOk result (λ found. IfSome found (λ text. length text ≤ most)) }
        ensures cause { HasCause result self.old.faults self.new.faults }
        ensures recorded { Some self.new.files ≡ Some self.old.files }
        ensures failed { NotesFailed result path.now (Some self.old.failed) (Some self.new.failed) }
        ensures noted { NotesReading result path.now most (Some self.old.readings)
            (Some self.new.readings) }
        ensures exact { FailsWhereNoted result self.old.calls self.old.fails }
        ensures counts { CountsCall result self.old.calls self.new.calls self.old.fails
            self.new.fails }
    {
        let reading = Reading {
            path: Text::copy(self.alloc, path)?,
            most,
        };
        let call = counted(self.calls);
        if self.fails.contains(call) {
            self.fail_read(call, path, reading)?;
            return Err(FileError::Failed);
        }
        let found = read_first(self.alloc, self.files.as_slice(), path, most)?;
        self.readings.push(reading)?;
        self.calls = call;
        Ok(found)
    }

    fn list(&mut self, dir: &[u8]) -> Result<Option<Texts>, FileError>
        ensures lists { Lists (Some self.old.files) dir.now result }
        ensures cause { HasCause result self.old.faults self.new.faults }
        ensures recorded { Some self.new.files ≡ Some self.old.files }
        ensures failed { NotesFailed result dir.now (Some self.old.failed) (Some self.new.failed) }
        ensures noted { Some self.new.readings ≡ Some self.old.readings }
        ensures exact { FailsWhereNoted result self.old.calls self.old.fails }
        ensures counts { CountsCall result self.old.calls self.new.calls self.old.fails
            self.new.fails }
    {
        let call = counted(self.calls);
        if self.fails.contains(call) {
            self.fail(call, dir)?;
            return Err(FileError::Failed);
        }
        let found = list_names(self.alloc, self.files.as_slice(), dir)?;
        self.calls = call;
        Ok(found)
    }
}
