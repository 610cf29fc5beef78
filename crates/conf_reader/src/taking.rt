//! The next line of the files that are being read.

ghost use Rattle.std.specs.Prelude.{◌≡◌, ◌<◌, ◌≤◌, ◌+◌, ℕ, IfOk, IfErr, IfSome, IsSome, OnOk, false, length, None, Ok};
ghost use Rattle.std.specs.Option.{option_map};
ghost use Rattle.conf_rules.specs.Sources.{depth_limit};
ghost use Rattle.conf_rules.specs.Recorded.{Recorded};
ghost use Rattle.conf_reader.specs.Blocks.{Blocks};

use crate::errors::{LineError, refuse};
use crate::line::ConfLine;
use crate::open_file::{NextFile, Said, include_of};
use crate::stack::OpenFiles;
use conf_rules::ResolveError;
use ssh_fields::{OutOfMemory, Text};

impl OpenFiles {
    ghost use Rattle.conf_reader.specs.Left.{AreFilesReady, stack, TakesLine, IsGiven, IsGivenBy, gone, HeadIs};
    ghost use Rattle.conf_reader.specs.Moving.{IsAtLine, ReadingGoesOn};
    ghost use Rattle.conf_reader.specs.Results.{RefusesLine, is_fault_at};
    ghost use Rattle.conf_reader.specs.Looking.{TakesLooks};
    ghost use Rattle.conf_reader.specs.ToRead.{open_reads};

    /// The line that the last file says, as it is given.
    pub fn given(&self, said: Said) -> Result<ConfLine, OutOfMemory>
        requires some { IsSome self.now.top }
        requires few { length self.now.below.items ≤ depth_limit }
        ensures { IfOk result (IsGivenBy self.now said) }
    {
        let Some(top) = &self.top else { unreachable!() };
        let Said { keyword, rest } = said;
        Ok(ConfLine {
            file: Text::copy(self.alloc, top.path.as_bytes())?,
            number: top.number,
            depth: self.below.len() as u32,
            opens: self.fresh,
            keyword,
            rest,
        })
    }

    /// Goes after the next line of the last file.
    pub fn go(&mut self, next: usize, include: Option<Text>)
        requires some { IsSome self.old.top }
        requires counted { IfSome self.old.top (λ f. (f.number ≤ f.at + 1) × (f.at < next)
            × (next ≤ length f.text)) }
        ensures { self.new ≡ record self.old { top = option_map (gone next include) self.old.top } }
    {
        if let Some(top) = &mut self.top {
            // For the proof alone, which learns from it that the number has a successor.
            let _end = top.text.as_bytes().len();
            top.at = next;
            top.number += 1;
            top.include = include;
        }
    }

    /// Reads the next line of the last file.
    pub fn head(&self) -> Result<NextFile, LineError>
        requires some { IsSome self.now.top }
        requires line { IsAtLine self.now.top }
        ensures { IfSome self.now.top (λ f. HeadIs f result) }
    {
        let Some(top) = &self.top else { unreachable!() };
        top.head(self.alloc)
    }

    /// The refusal of the next line of the last file.
    pub fn line_refusal(&self, error: LineError) -> ResolveError
        requires some { IsSome self.now.top }
        ensures { IfSome self.now.top (λ f. RefusesLine error f.path f.number result) }
    {
        let Some(top) = &self.top else { unreachable!() };
        refuse(self.alloc, top.path.as_bytes(), top.number, error)
    }

    /// Takes the next line of the last file; `None` is a comment.
    pub fn take_line(&mut self) -> Result<Option<ConfLine>, ResolveError>
        requires ready { AreFilesReady self.old }
        requires some { IsSome self.old.top }
        requires line { IsAtLine self.old.top }
        ensures takes { (recorded : Recorded) (place : ℕ) (blocks : Blocks)
            → length self.old.below.items ≤ length blocks
            → TakesLine recorded place blocks self.old self.new result }
        ensures comment { result ≡ Ok None → ReadingGoesOn self.old self.new }
        ensures given { IfOk result (λ line.
            IfSome line (λ l. IsGiven self.new × (l.depth ≡ length self.new.below.items))) }
        ensures opens { IfOk result (λ line.
            IfSome line (λ l. (l.opens ≡ self.old.fresh) × (l.depth ≡ length self.old.below.items)
            × (length (stack self.new) ≡ l.depth + 1))) }
        ensures looks { TakesLooks self.old self.new result }
        ensures reads { OnOk result ((recorded : Recorded)
            → open_reads recorded self.old ≡ open_reads recorded self.new) }
        ensures quiet { IfErr result (λ e. is_fault_at e ≡ false) }
    {
        let NextFile { next, said } = match self.head() {
            Ok(next) => next,
            Err(e) => return Err(self.line_refusal(e)),
        };
        match said {
            None => {
                self.go(next, None);
                Ok(None)
            }
            Some(said) => {
                let include = include_of(self.alloc, &said)?;
                let line = self.given(said)?;
                self.go(next, include);
                self.fresh = false;
                Ok(Some(line))
            }
        }
    }
}
