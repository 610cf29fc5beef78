//! The next line of all files, line by line.

ghost use Rattle.std.specs.Prelude.{◌≡◌, ℕ, IfOk, IfSome, OnOk, true, Ok, []};
ghost use Rattle.std.specs.List.{list_all};
ghost use Rattle.conf_rules.specs.Recorded.{Recorded};
ghost use Rattle.conf_tokens.specs.Known.{known};
ghost use Rattle.conf_reader.specs.Blocks.{Blocks};

use crate::errors::LineError;
use crate::line::ConfLine;
use crate::lines::{Lines, ReadStep};
use crate::stack::OpenFiles;
use conf_rules::{Cause, MAX_LINES, ResolveError};
use mux_outside::{Facts, Files};

impl Lines {
    ghost use Rattle.conf_reader.specs.declared.lines.ReadStep.TheVariants as steps;
    ghost use Rattle.conf_reader.specs.ReaderReads.{CountsOne, GivenStep, IsGivenFrom};
    ghost use Rattle.conf_reader.specs.Left.{lines_to_give, AreFilesReady, IsGiven, is_plain_first, Bounded};
    ghost use Rattle.conf_reader.specs.FilesState.{files_state_of};
    ghost use Rattle.conf_reader.specs.Moving.{ReadingGoesOn, AllExpand, TakesOne, ReadsOver, ReadsFor};
    ghost use Rattle.conf_reader.specs.Between.{no_file_left};
    ghost use Rattle.conf_reader.specs.Looking.{Test, meets};
    ghost use Rattle.conf_reader.specs.ToRead.{all_to_read};
    ghost use Rattle.conf_reader.specs.Uses.{UsesFiles, UsesFilesFor, of_all, behind_step, behind_call};

    // Takes one line of all files.
    fn one<F: Files>(&mut self, files: &mut F) -> Result<ReadStep, ResolveError>
        requires ready { AreFilesReady self.old.open_files }
        requires plain { list_all is_plain_first self.old.firsts.items ≡ true }
        ensures one { TakesOne (F.recorded files.old) self.old self.new result }
        ensures comment { result ≡ Ok steps.Comment
            → ReadingGoesOn self.old.open_files self.new.open_files }
        ensures firsts { self.new.firsts ≡ self.old.firsts }
        ensures counts { IfOk result (λ step. CountsOne step self.old.read self.new.read) }
        ensures given { IfOk result (λ step. GivenStep step self.old self.new) }
        ensures files { UsesFiles (files_state_of F.Files files.old) (files_state_of F.Files files.new)
            (of_all self.old) (behind_step result self.new) result }
    {
        if !self.reach(files)? {
            return Ok(ReadStep::End);
        }
        if self.read >= MAX_LINES {
            return Err(
                self.open_files
                    .line_refusal(LineError::Refused(Cause::TooManyLines)),
            );
        }
        self.read += 1;
        match self.open_files.take_line()? {
            None => Ok(ReadStep::Comment),
            Some(line) => Ok(ReadStep::Given(line)),
        }
    }

    /// The next line with content.
    pub fn next_line<F: Files>(&mut self, files: &mut F) -> Result<Option<ConfLine>, ResolveError>
        requires ready { AreFilesReady self.old.open_files }
        requires plain { list_all is_plain_first self.old.firsts.items ≡ true }
        ensures reads { ReadsOver (F.recorded files.old) self.old self.new result }
        ensures given { IfOk result (λ given. IfSome given (IsGivenFrom self.old self.new)) }
        ensures firsts { self.new.firsts ≡ self.old.firsts }
        ensures files { UsesFiles (files_state_of F.Files files.old) (files_state_of F.Files files.new)
            (of_all self.old) (behind_call result self.new) result }
    {
        loop {
            match self.one(files)? {
                ReadStep::End => return Ok(None),
                ReadStep::Comment => {}
                ReadStep::Given(line) => return Ok(Some(line)),
            }
        }
    }

    // Finds the files that the last line includes. It stands apart for its proof alone.
    fn expand<F: Files>(
        &mut self,
        facts: &Facts,
        original: &[u8],
        files: &mut F,
    ) -> Result<(), ResolveError>
        requires given { IsGiven self.old.open_files }
        ensures moves { AllExpand (F.recorded files.old) (known facts.now) original.now self.old
            self.new result }
        ensures goes_on { OnOk result (ReadingGoesOn self.old.open_files self.new.open_files) }
        ensures others { self.new ≡ record self.old { open_files = self.new.open_files } }
        ensures files { UsesFilesFor (known facts.now) original.now (files_state_of F.Files files.old)
            (files_state_of F.Files files.new) (of_all self.old) (of_all self.new) result }
    {
        self.open_files.expand(facts, original, files)
    }

    /// The next line with content, with the files that the last one includes before it.
    pub fn next<F: Files>(
        &mut self,
        facts: &Facts,
        original: &[u8],
        files: &mut F,
    ) -> Result<Option<ConfLine>, ResolveError>
        requires given { IsGiven self.old.open_files }
        requires plain { list_all is_plain_first self.old.firsts.items ≡ true }
        ensures reads { ReadsFor (F.recorded files.old) (known facts.now) original.now self.old
            self.new result }
        ensures given { IfOk result (λ given. IfSome given (IsGivenFrom self.old self.new)) }
        ensures firsts { self.new.firsts ≡ self.old.firsts }
        ensures files { UsesFilesFor (known facts.now) original.now (files_state_of F.Files files.old)
            (files_state_of F.Files files.new) (of_all self.old) (behind_call result self.new) result }
    {
        self.expand(facts, original, files)?;
        self.next_line(files)
    }

    /// Gives no more line.
    pub fn end(&mut self)
        ensures left { (recorded : Recorded) (place : ℕ) (blocks : Blocks)
            → lines_to_give recorded place blocks self.new ≡ [] }
        ensures ended { no_file_left self.new ≡ true }
        ensures given { IsGiven self.new.open_files }
        ensures firsts { self.new.firsts ≡ self.old.firsts }
        ensures bounded { Bounded self.new.open_files 0 }
        ensures looks { (recorded : Recorded) (test : Test)
            → meets test recorded self.new.open_files ≡ true }
        ensures reads { (recorded : Recorded) → all_to_read recorded self.new ≡ [] }
    {
        self.open_files = OpenFiles::new(self.alloc);
        self.next_first = self.firsts.len();
    }
}
