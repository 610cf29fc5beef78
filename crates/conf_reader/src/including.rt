//! The files that the last line includes.

ghost use Rattle.std.specs.Prelude.{◌≡◌, OnOk};
ghost use Rattle.std.specs.Option.{option_copied, option_and_then, option_map};
ghost use Rattle.conf_tokens.specs.Known.{known};

use crate::paths::named_paths;
use crate::stack::OpenFiles;
use conf_rules::ResolveError;
use mux_outside::{Facts, Files};
use ssh_fields::{Text, Texts};

impl OpenFiles {
    ghost use Rattle.conf_reader.specs.FilesState.{files_state_of};
    ghost use Rattle.conf_reader.specs.Left.{IsGiven, named_as};
    ghost use Rattle.conf_reader.specs.Moving.{ReadingGoesOn, ExpandsOver};
    ghost use Rattle.conf_reader.specs.Uses.{UsesFilesFor, of_open};

    /// Notes the paths that the last line names.
    pub fn name(&mut self, paths: Texts)
        ensures { self.new ≡ record self.old { top = option_map (named_as paths) self.old.top } }
    {
        if let Some(top) = &mut self.top {
            top.include = None;
            top.named = paths;
            top.next = 0;
        }
    }

    /// What the last line includes, if it does.
    pub fn include(&self) -> Option<&Text>
        ensures { option_copied result ≡ option_and_then (λ f. f.include) self.now.top }
    {
        match &self.top {
            None => None,
            Some(top) => top.include.as_ref(),
        }
    }

    /// Finds the files that the last line includes.
    pub fn expand<F: Files>(
        &mut self,
        facts: &Facts,
        original: &[u8],
        files: &mut F,
    ) -> Result<(), ResolveError>
        requires given { IsGiven self.old }
        ensures moves { ExpandsOver (F.recorded files.old) (known facts.now) original.now self.old
            self.new result }
        ensures goes_on { OnOk result (ReadingGoesOn self.old self.new) }
        ensures below { OnOk result (self.new.below ≡ self.old.below) }
        ensures files { UsesFilesFor (known facts.now) original.now (files_state_of F.Files files.old)
            (files_state_of F.Files files.new) (of_open self.old) (of_open self.new) result }
    {
        let found = match self.include() {
            None => return Ok(()),
            Some(rest) => named_paths(
                self.alloc,
                facts,
                original,
                self.system,
                rest.as_bytes(),
                files,
            ),
        };
        match found {
            Ok(paths) => {
                self.name(paths);
                Ok(())
            }
            Err(e) => Err(self.give_up(e)),
        }
    }
}
