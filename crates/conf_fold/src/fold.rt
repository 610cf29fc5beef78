ghost use Rattle.std.specs.Prelude.{◌≡◌, ◌++◌, [], List, OnOk, OnErr, IfErr, IfOk, true, false, length, Ok};
ghost use Rattle.std.specs.Option.{option_copied};
ghost use Rattle.conf_rules.specs.Recorded.{Recorded};
ghost use Rattle.conf_rules.specs.Sources.{asked_line};
ghost use Rattle.conf_rules.specs.Fits.{fits};
ghost use Rattle.conf_rules.specs.Rows.{LineRow, word_in, entry_gives, First};
ghost use Rattle.conf_options.specs.Kept.{Given, KeepsSettings};
ghost use Rattle.conf_reader.specs.Blocks.{Blocks};
ghost use Rattle.conf_reader.specs.Results.{is_fault_at};
ghost use Rattle.conf_fold.specs.Begins.{IsEmpty, IsFoldBegun, TakesAsked, Behind, SecondBegins};
ghost use Rattle.conf_fold.specs.Entries.{content_fits};
ghost use Rattle.conf_fold.specs.FoldRepresents.{FoldRepresents, value_of_key, host_so_far, block_name};

mod blocks;
mod lines;

use crate::entries::asked_entry;
use conf_options::Settings;
use conf_reader::refuse;
use conf_rules::{Asked, AskedLine, Key, LineContent, ResolveError};
use conf_tokens::expand_name;
use ssh_fields::{ListOf, OutOfMemory, Text};
use std::alloc::Global;

/// The settings of the lines given so far.
#[derive(Drop)]
pub struct Fold {
    alloc: Global,
    original: Text,
    settings: Settings,
    // Whether the open block of each open file applies, the first file first.
    applies: ListOf<bool>,
    // Whether some Match line asked for a second pass.
    asks_again: bool,
    // In the second pass the host name after the first.
    name: Option<Text>,
    // Whether each line that gives a value to collect was active in the first pass.
    were_active: ListOf<bool>,
    // In the second pass, how many such lines were given.
    seen: usize,
}

// The number of the word at which a line of the command line stands.
fn number_of(line: &AskedLine) -> u64
    ensures { result ≡ (asked_line line.now).number }
{
    match line {
        AskedLine::Line { word, line: _ } => *word,
        AskedLine::Parts {
            word,
            keyword: _,
            words: _,
        } => *word,
    }
}

impl Fold {
    // A fold of no line.
    fn of_nothing(alloc: Global, original: &[u8]) -> Result<Fold, OutOfMemory>
        ensures { IfOk result (λ fold. IsEmpty original.now fold) }
    {
        Ok(Fold {
            alloc,
            original: Text::copy(alloc, original)?,
            settings: Settings::new(alloc),
            applies: ListOf::new(alloc),
            asks_again: false,
            name: None,
            were_active: ListOf::new(alloc),
            seen: 0,
        })
    }

    /// Takes the lines of the command line, in order. The first one that is refused decides.
    pub fn new(alloc: Global, asked: &Asked) -> Result<Fold, ResolveError>
        ensures begins { (recorded : Recorded) → recorded.asked ≡ asked.now → IsFoldBegun recorded result }
        ensures plain { IfErr result (λ e. is_fault_at e ≡ false) }
    {
        let mut fold = Fold::of_nothing(alloc, asked.original.as_bytes())?;
        for line in asked.lines.as_slice() {
            fold.asked_line(line)?;
        }
        Ok(fold)
    }

    // Takes a line of the command line.
    fn asked_line(&mut self, line: &AskedLine) -> Result<(), ResolveError>
        ensures takes { (recorded : Recorded) (rows : List LineRow) → FoldRepresents recorded First self.old rows []
            → TakesAsked recorded rows (asked_line line.now) result self.new }
        ensures plain { IfErr result (λ e. is_fault_at e ≡ false) }
    {
        let entry = match asked_entry(self.alloc, self.text(Key::IgnoreUnknown), line) {
            Ok(entry) => entry,
            Err(e) => return Err(refuse(self.alloc, b"command line", number_of(line), e)),
        };
        self.take_asked(entry)?;
        Ok(())
    }

    // Applies the content of a line of the command line, which is active.
    fn take_asked(&mut self, entry: LineContent) -> Result<(), OutOfMemory>
        requires fits { content_fits entry ≡ true }
        ensures keeps { OnOk result ((given : List Given) → KeepsSettings self.old.settings given
            → KeepsSettings self.new.settings (given ++ entry_gives false (Ok entry))) }
        ensures others { OnOk result (self.new ≡ record self.old { settings = self.new.settings }) }
    {
        if let LineContent::Gives(key, value) = entry {
            self.settings.offer(key, value)?;
        }
        Ok(())
    }

    /// Begins the second pass, where some Match line asked for it: `true`. The lines of the command
    /// line, which gave all that they give in the first pass, aren't given again; those of the
    /// files are.
    pub fn second(&mut self) -> Result<bool, OutOfMemory>
        ensures second { IfOk result (λ again. (recorded : Recorded) (rows : List LineRow) (blocks : Blocks)
            → FoldRepresents recorded First self.old rows blocks → Behind recorded rows
            → SecondBegins recorded rows self.new again) }
        ensures same { result ≡ Ok false → self.new ≡ self.old }
        ensures err { OnErr result (self.new ≡ self.old) }
    {
        if !self.asks_again {
            return Ok(false);
        }
        let name = self.host()?;
        self.name = Some(name);
        self.applies.truncate(0);
        self.seen = 0;
        Ok(true)
    }

    /// How many files are open: 1 more than the depth of the line that was applied last.
    pub fn open_files(&self) -> usize
        ensures count { result ≡ length self.now.applies }
    {
        self.applies.len()
    }

    /// The settings.
    pub fn settings(self) -> Settings
        ensures { result ≡ self.settings }
    {
        let Fold {
            alloc: _,
            original: _,
            settings,
            applies: _,
            asks_again: _,
            name: _,
            were_active: _,
            seen: _,
        } = self;
        settings
    }

    // The text of a key.
    fn text(&self, key: Key) -> Option<&[u8]>
        ensures { option_copied result ≡ word_in (value_of_key key self.now) }
    {
        self.settings.word(key)
    }

    // The host name so far.
    fn host(&self) -> Result<Text, OutOfMemory>
        ensures { OnOk result (result ≡ Ok (host_so_far self.now)) }
    {
        match self.text(Key::Hostname) {
            None => Text::copy(self.alloc, self.original.as_bytes()),
            Some(text) => expand_name(self.alloc, self.original.as_bytes(), text),
        }
    }

    // The name that a Host line sees.
    fn block_name(&self) -> &[u8]
        ensures { result.now ≡ block_name self.now }
    {
        match &self.name {
            None => self.original.as_bytes(),
            Some(name) => name.as_bytes(),
        }
    }
}
