ghost use Rattle.std.specs.Prelude.{◌≡◌, ◌<◌, ◌≤◌, ◌∷◌, ℕ, IfOk, IfErr, IfSome, OnOk, IsSome, nat_lt, false, length, Some, None, []};
ghost use Rattle.conf_rules.specs.declared.causes.Cause.TheVariants as causes;
ghost use Rattle.conf_rules.specs.Sources.{depth_limit, size_limit};
ghost use Rattle.conf_rules.specs.Recorded.{Recorded};
ghost use Rattle.conf_reader.specs.Blocks.{Blocks};

use crate::errors::{LineError, refuse};
use crate::files::{FoundFile, read_file};
use crate::open_file::OpenFile;
use conf_rules::{Cause, MAX_DEPTH, ResolveError};
use mux_outside::{FileError, Files};
use ssh_fields::{OutOfMemory, Text};
use std::alloc::Global;

/// The files that are being read, each included by the one before.
#[derive(Drop)]
pub struct OpenFiles {
    pub alloc: Global,
    /// Whether they are system files.
    pub system: bool,
    pub below: Vec<OpenFile>,
    pub top: Option<OpenFile>,
    /// Whether no line of the last one was given yet.
    pub fresh: bool,
}

/// Where open files stand.
#[derive(Clone, Copy)]
pub enum Stand {
    /// A line can be read.
    Line,
    /// A file was opened, skipped or closed.
    Moved,
    /// No file is open.
    End,
}

impl OpenFiles {
    ghost use Rattle.conf_reader.specs.Left.{open_left, AreFilesReady, IsFileSettled, work, Moves, Names, RefusesTop, RefusesNextFile, GivesUp, StandOf, IsFound};
    ghost use Rattle.conf_reader.specs.Moving.{NamesPath, Settles, KeepsLeft, ReadingGoesOn, MovesOver};
    ghost use Rattle.conf_reader.specs.FilesState.{files_state_of};
    ghost use Rattle.conf_reader.specs.Results.{is_fault_at};
    ghost use Rattle.conf_reader.specs.Looking.{KeepsLooks};
    ghost use Rattle.conf_reader.specs.ToRead.{open_reads};
    ghost use Rattle.conf_reader.specs.Uses.{UsesFiles, of_open};

    /// No file.
    pub fn new(alloc: Global) -> OpenFiles
        ensures files { (result.below.items ≡ []) × (result.top ≡ None) }
        ensures fresh { result.fresh ≡ false }
    {
        OpenFiles {
            alloc,
            system: false,
            below: Vec::new(alloc),
            top: None,
            fresh: false,
        }
    }

    /// Closes the last file, which is at its end.
    pub fn close(&mut self)
        requires ready { AreFilesReady self.old }
        requires ended { IfSome self.old.top (λ f. IsFileSettled f × (length f.text ≤ f.at)) }
        requires some { IsSome self.old.top }
        ensures left { KeepsLeft self.old self.new }
        ensures goes_on { ReadingGoesOn self.old self.new }
        ensures less { work self.new < work self.old }
        ensures looks { KeepsLooks self.old self.new }
        ensures reads { (recorded : Recorded) → open_reads recorded self.old ≡ open_reads recorded self.new }
    {
        self.top = self.below.pop();
        self.fresh = false;
    }

    /// Skips the path that is opened next, where there is no file.
    pub fn skip(&mut self)
        requires ready { AreFilesReady self.old }
        requires named { NamesPath self.old.top }
        requires some { IsSome self.old.top }
        ensures left { (recorded : Recorded) (place : ℕ) (blocks : Blocks)
            → Names self.old.top (λ path. recorded.content path ≡ None)
            → open_left recorded place blocks self.old ≡ open_left recorded place blocks self.new }
        ensures goes_on { ReadingGoesOn self.old self.new }
        ensures less { work self.new < work self.old }
        ensures looks { KeepsLooks self.old self.new }
        ensures reads { (recorded : Recorded) → Names self.old.top (λ path. recorded.content path ≡ None
            → open_reads recorded self.old ≡ path ∷ open_reads recorded self.new) }
    {
        if let Some(top) = &mut self.top {
            top.skip();
        }
    }

    /// Opens the file of this text at the path that is opened next.
    pub fn enter(&mut self, text: Text) -> Result<(), OutOfMemory>
        requires ready { AreFilesReady self.old }
        requires named { NamesPath self.old.top }
        requires some { IsSome self.old.top }
        requires deep { length self.old.below.items < depth_limit }
        ensures left { OnOk result ((recorded : Recorded) (place : ℕ) (blocks : Blocks)
            → Names self.old.top (λ path. recorded.content path ≡ Some text)
            → nat_lt size_limit (length text) ≡ false → open_left recorded place blocks self.old
            ≡ open_left recorded place blocks self.new) }
        ensures goes_on { OnOk result (ReadingGoesOn self.old self.new) }
        ensures less { OnOk result (work self.new < work self.old) }
        ensures looks { OnOk result (KeepsLooks self.old self.new) }
        ensures reads { OnOk result ((recorded : Recorded)
            → Names self.old.top (λ path. recorded.content path ≡ Some text
            → open_reads recorded self.old ≡ path ∷ open_reads recorded self.new)) }
    {
        let Some(mut top) = self.top.take() else {
            unreachable!()
        };
        let Some(path) = top.next_path() else {
            unreachable!()
        };
        let path = Text::copy(self.alloc, path.as_bytes())?;
        top.skip();
        self.below.push(top)?;
        self.top = Some(OpenFile::begin(self.alloc, path, text));
        self.fresh = true;
        Ok(())
    }

    /// The refusal of the line that the last file read.
    pub fn refusal(&self, cause: Cause) -> ResolveError
        requires some { IsSome self.now.top }
        ensures { RefusesTop self.now.top cause result }
    {
        let Some(top) = &self.top else { unreachable!() };
        refuse(
            self.alloc,
            top.path.as_bytes(),
            top.number.saturating_sub(1),
            LineError::Refused(cause),
        )
    }

    /// The refusal of the line that the last file read, with which the reading ends: the file is
    /// given up for it, and it allocates no memory.
    pub fn give_up(&mut self, error: LineError) -> ResolveError
        requires some { IsSome self.old.top }
        ensures { GivesUp self.old.top error result }
    {
        let Some(top) = self.top.take() else {
            unreachable!()
        };
        error.at(top.path, top.number.saturating_sub(1))
    }

    /// The refusal of the file that is opened next.
    pub fn too_large(&self) -> ResolveError
        requires some { IsSome self.now.top }
        requires named { NamesPath self.now.top }
        ensures { RefusesNextFile self.now.top causes.TooLarge result }
    {
        let Some(top) = &self.top else { unreachable!() };
        let Some(path) = top.next_path() else {
            unreachable!()
        };
        refuse(
            self.alloc,
            path.as_bytes(),
            0,
            LineError::Refused(Cause::TooLarge),
        )
    }

    /// Opens what the path holds that is opened next.
    pub fn open(&mut self, found: FoundFile) -> Result<(), ResolveError>
        requires ready { AreFilesReady self.old }
        requires named { NamesPath self.old.top }
        requires some { IsSome self.old.top }
        ensures moves { (recorded : Recorded) (place : ℕ) (blocks : Blocks)
            → Names self.old.top (λ path. IsFound found (recorded.content path))
            → Moves (open_left recorded place blocks self.old)
            (open_left recorded place blocks self.new) result }
        ensures goes_on { OnOk result (ReadingGoesOn self.old self.new) }
        ensures less { OnOk result (work self.new < work self.old) }
        ensures looks { OnOk result (KeepsLooks self.old self.new) }
        ensures quiet { IfErr result (λ e. is_fault_at e ≡ false) }
        ensures reads { OnOk result ((recorded : Recorded)
            → Names self.old.top (λ path. IsFound found (recorded.content path)
            → open_reads recorded self.old ≡ path ∷ open_reads recorded self.new)) }
    {
        match found {
            FoundFile::Nothing => {
                self.skip();
                Ok(())
            }
            FoundFile::TooLarge => {
                if self.below.len() < MAX_DEPTH {
                    Err(self.too_large())
                } else {
                    Err(self.refusal(Cause::TooDeep))
                }
            }
            FoundFile::Holds(text) => {
                if self.below.len() < MAX_DEPTH {
                    self.enter(text)?;
                    Ok(())
                } else {
                    Err(self.refusal(Cause::TooDeep))
                }
            }
        }
    }

    /// Does one step towards the next line.
    pub fn advance<F: Files>(&mut self, files: &mut F) -> Result<Stand, ResolveError>
        requires ready { AreFilesReady self.old }
        ensures moves { MovesOver (F.recorded files.old) self.old self.new result }
        ensures goes_on { OnOk result (ReadingGoesOn self.old self.new) }
        ensures stand { IfOk result (StandOf self.old self.new) }
        ensures files { UsesFiles (files_state_of F.Files files.old) (files_state_of F.Files files.new)
            (of_open self.old) (of_open self.new) result }
    {
        let Some(top) = &self.top else {
            return Ok(Stand::End);
        };
        match top.next_path() {
            Some(path) => match read_file(path.as_bytes(), files) {
                Ok(found) => {
                    self.open(found)?;
                    Ok(Stand::Moved)
                }
                Err(FileError::Failed) => Err(self.give_up(LineError::Refused(Cause::ReadFault))),
                Err(FileError::OutOfMemory) => Err(ResolveError::OutOfMemory),
            },
            None => {
                if top.at < top.text.as_bytes().len() {
                    return Ok(Stand::Line);
                }
                self.close();
                Ok(Stand::Moved)
            }
        }
    }

    /// Goes to the next line; `false` where there is none.
    pub fn settle<F: Files>(&mut self, files: &mut F) -> Result<bool, ResolveError>
        requires ready { AreFilesReady self.old }
        ensures moves { MovesOver (F.recorded files.old) self.old self.new result }
        ensures goes_on { OnOk result (ReadingGoesOn self.old self.new) }
        ensures line { IfOk result (Settles self.new.top) }
        ensures files { UsesFiles (files_state_of F.Files files.old) (files_state_of F.Files files.new)
            (of_open self.old) (of_open self.new) result }
    {
        loop {
            match self.advance(files)? {
                Stand::Line => return Ok(true),
                Stand::End => return Ok(false),
                Stand::Moved => {}
            }
        }
    }
}
