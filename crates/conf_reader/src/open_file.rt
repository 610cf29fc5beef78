ghost use Rattle.std.specs.Prelude.{◌≡◌, ◌<◌, ◌+◌, ℕ, OnOk, Ok, None, [], length, slice_get};
ghost use Rattle.std.specs.Option.{option_copied};
ghost use Rattle.conf_reader.specs.Left.{include_of};

use crate::errors::LineError;
use conf_lexer::{Head, next_line, split_head};
use conf_rules::Cause;
use ssh_fields::{OutOfMemory, Text, Texts};
use std::alloc::Global;

/// A file that is being read.
#[derive(Drop)]
pub struct OpenFile {
    pub path: Text,
    pub text: Text,
    /// Where the next line begins.
    pub at: usize,
    /// The number of the next line.
    pub number: u64,
    /// What the Include line says that was given last, until its paths are known.
    pub include: Option<Text>,
    /// The paths that it names, and how many of them were opened.
    pub named: Texts,
    pub next: usize,
}

/// A keyword and the rest of its line.
#[derive(Drop)]
pub struct Said {
    pub keyword: Text,
    pub rest: Text,
}

/// The next line of a file, and where the one after it begins.
#[derive(Drop)]
pub struct NextFile {
    pub next: usize,
    /// None for a comment.
    pub said: Option<Said>,
}

impl OpenFile {
    ghost use Rattle.conf_reader.specs.Left.{HeadIs};

    /// Reads the next line.
    pub fn head(&self, alloc: Global) -> Result<NextFile, LineError>
        requires { self.now.at < length self.now.text }
        ensures { HeadIs self.now result }
    {
        let text = self.text.as_bytes();
        let Some((end, next)) = next_line(text, self.at) else {
            unreachable!()
        };
        match split_head(&text[self.at..end]) {
            Err(e) => Err(LineError::Refused(Cause::Lex(e))),
            Ok(Head::Blank) => Ok(NextFile { next, said: None }),
            Ok(Head::Line { keyword, rest }) => {
                let keyword = Text::copy(alloc, keyword)?;
                let rest = Text::copy(alloc, rest)?;
                let said = Some(Said { keyword, rest });
                Ok(NextFile { next, said })
            }
        }
    }

    /// The path that is opened next.
    pub fn next_path(&self) -> Option<&Text>
        ensures { option_copied result ≡ slice_get self.now.named self.now.next }
    {
        self.named.get(self.next)
    }

    /// Skips the path that is opened next.
    pub fn skip(&mut self)
        requires { self.old.next < length self.old.named }
        ensures { self.new ≡ record self.old { next = self.old.next + 1 } }
    {
        // Always so; the proof needs it for the sum.
        if self.next < self.named.len() {
            self.next += 1;
        }
    }

    /// A file at its beginning.
    pub fn begin(alloc: Global, path: Text, text: Text) -> OpenFile
        ensures { result ≡ record {
          path = path;
          text = text;
          at = 0;
          number = 1;
          include = None;
          named = [];
          next = 0;
        } }
    {
        OpenFile {
            path,
            text,
            at: 0,
            number: 1,
            include: None,
            named: Texts::new(alloc),
            next: 0,
        }
    }
}

/// What an Include line has after its keyword.
pub fn include_of(alloc: Global, said: &Said) -> Result<Option<Text>, OutOfMemory>
    ensures { OnOk result (result ≡ Ok (include_of said.now)) }
{
    if !said.keyword.as_bytes().eq_ignore_ascii_case(b"include") {
        return Ok(None);
    }
    let rest = Text::copy(alloc, said.rest.as_bytes())?;
    Ok(Some(rest))
}
