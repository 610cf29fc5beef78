ghost use Rattle.std.specs.Prelude.{◌≡◌, ◌<◌, ◌≤◌, ◌+◌, ◌∷◌, ℕ, IfOk, IfSome, OnOk, IsSome, true, false, length, Some, None, [], slice_get};
ghost use Rattle.std.specs.Option.{option_copied};
ghost use Rattle.std.specs.Bool.{MatchBool};
ghost use Rattle.std.specs.List.{list_all};
ghost use Rattle.conf_rules.specs.Recorded.{Recorded};
ghost use Rattle.conf_reader.specs.Blocks.{Blocks};
ghost use Rattle.conf_reader.specs.Known.{RecordsFiles};
ghost use Rattle.conf_reader.specs.Left.{IsFound};
ghost use Rattle.conf_reader.specs.Looking.{FirstFails};
ghost use Rattle.conf_reader.specs.Results.{HasFilesCause};
ghost use Rattle.conf_reader.specs.ToRead.{NotesFirst};

use crate::errors::{LineError, refuse};
use crate::files::{FoundFile, read_file};
use crate::line::ConfLine;
use crate::open_file::OpenFile;
use crate::stack::OpenFiles;
use conf_rules::{Cause, ResolveError};
use mux_outside::{FileError, Files};
use ssh_fields::{OutOfMemory, Text};
use std::alloc::Global;

/// A file that no line includes.
#[derive(Drop)]
pub struct FirstFile {
    pub system: bool,
    /// Whether its lack is refused.
    pub required: bool,
    pub path: Text,
}

/// What one line is.
#[derive(Drop)]
pub enum ReadStep {
    /// There is none.
    End,
    Comment,
    Given(ConfLine),
}

/// The lines of all files that are still to come.
#[derive(Drop)]
pub struct Lines {
    pub alloc: Global,
    pub firsts: Vec<FirstFile>,
    /// How many of them were opened or skipped.
    pub next_first: usize,
    pub open_files: OpenFiles,
    /// How many lines were read.
    pub read: u64,
}

// What a file holds that no line includes, or the refusal of a failed read at its line 0: the
// memory for it is allocated before the read.
fn first_found<F: Files>(
    alloc: Global,
    path: &[u8],
    files: &mut F,
) -> Result<FoundFile, ResolveError>
    ensures found { (recorded : Recorded) → RecordsFiles (F.recorded files.old) recorded
        → IfOk result (λ found. IsFound found (recorded.content path.now)) }
    ensures cause { HasFilesCause result (F.faults files.old) (F.faults files.new) }
    ensures failed { FirstFails path.now result (F.failed files.old) (F.failed files.new) }
    ensures noted { NotesFirst path.now result (F.readings files.old) (F.readings files.new) }
    ensures recorded { F.recorded files.new ≡ F.recorded files.old }
{
    let given = Text::copy(alloc, path)?;
    match read_file(path, files) {
        Ok(found) => Ok(found),
        Err(FileError::Failed) => Err(LineError::Refused(Cause::ReadFault).at(given, 0)),
        Err(FileError::OutOfMemory) => Err(ResolveError::OutOfMemory),
    }
}

impl Lines {
    ghost use Rattle.conf_reader.specs.declared.errors.LineError.TheVariants as line_errors;
    ghost use Rattle.conf_reader.specs.Left.{lines_to_give, AreFilesReady, is_plain_first, BeginsWithText, IsLacking};
    ghost use Rattle.conf_reader.specs.FilesState.{files_state_of};
    ghost use Rattle.conf_reader.specs.Moving.{IsAtLine, Settles, ReadingGoesOn, MovesLines};
    ghost use Rattle.conf_reader.specs.Results.{RefusesLine};
    ghost use Rattle.conf_reader.specs.Looking.{KeepsLooks};
    ghost use Rattle.conf_reader.specs.ToRead.{all_to_read};
    ghost use Rattle.conf_reader.specs.Uses.{UsesFiles, of_all};

    /// The lines of first files, of which none is opened yet.
    pub fn new(alloc: Global, firsts: Vec<FirstFile>) -> Lines
        ensures firsts { result.firsts ≡ firsts }
        ensures none { (result.open_files.below.items ≡ []) × (result.open_files.top ≡ None)
            × (result.open_files.fresh ≡ false) }
        ensures counts { (result.next_first ≡ 0) × (result.read ≡ 0) }
    {
        Lines {
            alloc,
            firsts,
            next_first: 0,
            open_files: OpenFiles::new(alloc),
            read: 0,
        }
    }

    // The first file that is opened next.
    fn next_file(&self) -> Option<&FirstFile>
        ensures { option_copied result ≡ slice_get self.now.firsts.items self.now.next_first }
    {
        self.firsts.get(self.next_first)
    }

    // Begins the first file of this text.
    fn begin(&mut self, text: Text) -> Result<(), OutOfMemory>
        requires none { self.old.open_files.top ≡ None }
        requires next { self.old.next_first < length self.old.firsts.items }
        requires plain { list_all is_plain_first self.old.firsts.items ≡ true }
        requires ready { AreFilesReady self.old.open_files }
        ensures left { OnOk result ((recorded : Recorded) (place : ℕ) (blocks : Blocks)
            → BeginsWithText recorded self.old text → lines_to_give recorded place blocks self.old
            ≡ lines_to_give recorded place blocks self.new) }
        ensures goes_on { OnOk result (ReadingGoesOn self.old.open_files self.new.open_files) }
        ensures firsts { self.new.firsts ≡ self.old.firsts }
        ensures next { OnOk result (self.new.next_first ≡ self.old.next_first + 1) }
        ensures looks { OnOk result (KeepsLooks self.old.open_files self.new.open_files) }
        ensures reads { OnOk result ((recorded : Recorded)
            → IfSome (slice_get self.old.firsts.items self.old.next_first) (λ f.
            recorded.content f.path ≡ Some text
            → all_to_read recorded self.old ≡ f.path ∷ all_to_read recorded self.new)) }
        ensures count { self.new.read ≡ self.old.read }
    {
        let Some(first) = self.next_file() else {
            unreachable!()
        };
        let path = Text::copy(self.alloc, first.path.as_bytes())?;
        let system = first.system;
        self.open_files.system = system;
        self.open_files.top = Some(OpenFile::begin(self.alloc, path, text));
        self.open_files.fresh = true;
        self.next_first += 1;
        Ok(())
    }

    // Skips a first file that isn't there.
    fn skip(&mut self)
        requires none { self.old.open_files.top ≡ None }
        requires ready { AreFilesReady self.old.open_files }
        requires next { self.old.next_first < length self.old.firsts.items }
        ensures left { (recorded : Recorded) (place : ℕ) (blocks : Blocks) → IsLacking recorded self.old
            → lines_to_give recorded place blocks self.old ≡ lines_to_give recorded place blocks self.new }
        ensures reads { (recorded : Recorded)
            → IfSome (slice_get self.old.firsts.items self.old.next_first) (λ f.
            recorded.content f.path ≡ None
            → all_to_read recorded self.old ≡ f.path ∷ all_to_read recorded self.new) }
        ensures others { self.new ≡ record self.old { next_first = self.old.next_first + 1 } }
    {
        // Always so; the proof needs it for the sum.
        if self.next_first < self.firsts.len() {
            self.next_first += 1;
        }
    }

    // The refusal of the first file that is opened next.
    fn file_refusal(&self, cause: Cause) -> ResolveError
        requires { self.now.next_first < length self.now.firsts.items }
        ensures { IfSome (slice_get self.now.firsts.items self.now.next_first) (λ f.
            RefusesLine (line_errors.Refused cause) f.path 0 result) }
    {
        let Some(first) = self.next_file() else {
            unreachable!()
        };
        refuse(
            self.alloc,
            first.path.as_bytes(),
            0,
            LineError::Refused(cause),
        )
    }

    // Opens the next first file; `false` where there is none.
    fn first<F: Files>(&mut self, files: &mut F) -> Result<bool, ResolveError>
        requires none { self.old.open_files.top ≡ None }
        requires ready { AreFilesReady self.old.open_files }
        requires plain { list_all is_plain_first self.old.firsts.items ≡ true }
        ensures lines { MovesLines (F.recorded files.old) self.old self.new result }
        ensures next { IfOk result (λ more.
            MatchBool more ((self.new.next_first ≡ self.old.next_first + 1)
            × (self.old.next_first < length self.old.firsts.items)) ((self.new ≡ self.old)
            × (length self.old.firsts.items ≤ self.old.next_first))) }
        ensures files { UsesFiles (files_state_of F.Files files.old) (files_state_of F.Files files.new)
            (of_all self.old) (of_all self.new) result }
    {
        let Some(first) = self.next_file() else {
            return Ok(false);
        };
        let required = first.required;
        match first_found(self.alloc, first.path.as_bytes(), files)? {
            FoundFile::Nothing => {
                if required {
                    return Err(self.file_refusal(Cause::NoFile));
                }
                self.skip();
                Ok(true)
            }
            FoundFile::TooLarge => Err(self.file_refusal(Cause::TooLarge)),
            FoundFile::Holds(text) => {
                self.begin(text)?;
                Ok(true)
            }
        }
    }

    /// Goes to the next line of all files; `false` where there is none.
    pub fn reach<F: Files>(&mut self, files: &mut F) -> Result<bool, ResolveError>
        requires ready { AreFilesReady self.old.open_files }
        requires plain { list_all is_plain_first self.old.firsts.items ≡ true }
        ensures lines { MovesLines (F.recorded files.old) self.old self.new result }
        ensures line { IfOk result (λ found.
            MatchBool found (IsAtLine self.new.open_files.top × IsSome self.new.open_files.top)
            ((self.new.open_files.top ≡ None)
            × (length self.new.firsts.items ≤ self.new.next_first))) }
        ensures files { UsesFiles (files_state_of F.Files files.old) (files_state_of F.Files files.new)
            (of_all self.old) (of_all self.new) result }
    {
        loop {
            if self.settle(files)? {
                return Ok(true);
            }
            if !self.first(files)? {
                return Ok(false);
            }
        }
    }

    // Goes to the next line of the open files. It stands apart for its proof alone: what is so of
    // open files is so of all lines.
    fn settle<F: Files>(&mut self, files: &mut F) -> Result<bool, ResolveError>
        requires ready { AreFilesReady self.old.open_files }
        ensures lines { MovesLines (F.recorded files.old) self.old self.new result }
        ensures line { IfOk result (Settles self.new.open_files.top) }
        ensures others { self.new ≡ record self.old { open_files = self.new.open_files } }
        ensures files { UsesFiles (files_state_of F.Files files.old) (files_state_of F.Files files.new)
            (of_all self.old) (of_all self.new) result }
    {
        self.open_files.settle(files)
    }
}
