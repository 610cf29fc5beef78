//! The blocks that are open, and what counts in them.

ghost use Rattle.std.specs.Prelude.{◌≡◌, ◌≤◌, ◌<◌, ◌^◌, ◌++◌, ◌∷◌, [], List, OnOk, OnErr, true, length, take, Ok, ◌||◌, ◌&&◌};
ghost use Rattle.std.specs.List.{list_any, list_all};
ghost use Rattle.conf_rules.specs.Resolution.{is_final};
ghost use Rattle.conf_rules.specs.Patterns.{answer_of, is_yes};
ghost use Rattle.conf_rules.specs.Fits.{fits};
ghost use Rattle.conf_options.specs.Kept.{Given, KeepsSettings};
ghost use Rattle.conf_fold.specs.FoldRepresents.{block_name, marks_in_file, own_mark, does_count, activity_noted, if_counts};

use super::Fold;
use crate::entries::has_final;
use conf_match::matches_words;
use conf_rules::{Criteria, Key, ListAnswer, Value};
use ssh_fields::{OutOfMemory, Texts};

// Whether an answer is yes; it names for the proof what the definition names.
fn is_yes(answer: ListAnswer) -> bool
    ensures { result ≡ is_yes answer }
{
    matches!(answer, ListAnswer::Yes)
}

impl Fold {
    // Whether the block of some patterns applies.
    pub(crate) fn names_it(&self, patterns: &Texts) -> bool
        ensures { result ≡ is_yes (answer_of patterns.now (block_name self.now)) }
    {
        is_yes(matches_words(patterns, self.block_name()))
    }

    // Opens a block in the file at a depth.
    pub(crate) fn open(&mut self, depth: usize, applies: bool) -> Result<(), OutOfMemory>
        ensures ok { OnOk result
            (self.new ≡ record self.old { applies = take depth self.old.applies ++ applies ∷ [] }) }
        ensures settings { self.new.settings ≡ self.old.settings }
    {
        self.applies.truncate(depth);
        self.applies.push(applies)
    }

    // Goes on in the file at a depth, or begins it.
    pub(crate) fn enter(&mut self, depth: usize, opens: bool) -> Result<(), OutOfMemory>
        requires { depth < 2 ^ 32 }
        ensures ok { OnOk result
            (self.new ≡ record self.old { applies = marks_in_file depth opens self.old.applies }) }
        ensures settings { self.new.settings ≡ self.old.settings }
    {
        if opens {
            self.open(depth, true)
        } else {
            self.applies.truncate(depth + 1);
            Ok(())
        }
    }

    // Whether the block applies that is open in the file at a depth.
    pub(crate) fn own_mark(&self, depth: usize, opens: bool) -> bool
        ensures { result ≡ own_mark depth opens self.now.applies }
    {
        opens || self.applies.get(depth).copied().unwrap_or(true)
    }

    // Notes whether a line of a key is active, and returns whether its value counts.
    pub(crate) fn note(&mut self, key: Key, active: bool) -> Result<bool, OutOfMemory>
        ensures ok { OnOk result ((result ≡ Ok (does_count key active self.old))
            × (self.new ≡ activity_noted key active self.old)) }
        ensures settings { self.new.settings ≡ self.old.settings }
    {
        if !key.is_collected() {
            return Ok(active);
        }
        if self.name.is_none() {
            self.were_active.push(active)?;
            return Ok(active);
        }
        match self.were_active.get(self.seen).copied() {
            None => Ok(active),
            Some(was) => {
                // Always so; the proof needs it for the sum.
                if self.seen < self.were_active.len() {
                    self.seen += 1;
                }
                Ok(active && !was)
            }
        }
    }

    // Takes the value of a line.
    pub(crate) fn give(&mut self, key: Key, value: Value, active: bool) -> Result<(), OutOfMemory>
        requires { fits key value ≡ true }
        ensures keeps { OnOk result ((given : List Given) → KeepsSettings self.old.settings given
            → KeepsSettings self.new.settings
            (given ++ if_counts (does_count key active self.old) key value)) }
        ensures others { OnOk result
            (self.new ≡ record (activity_noted key active self.old) { settings = self.new.settings }) }
        ensures settings { OnErr result (self.new.settings ≡ self.old.settings) }
    {
        if self.note(key, active)? {
            self.settings.offer(key, value)?;
        }
        Ok(())
    }

    // Notes whether criteria ask for a second pass.
    pub(crate) fn ask(&mut self, criteria: &Criteria)
        ensures { self.new ≡ record self.old {
          asks_again = self.old.asks_again
              || list_any is_final criteria.now;
        } }
    {
        self.asks_again = self.asks_again || has_final(criteria);
    }

    // Whether the open blocks apply of all files above a depth.
    pub(crate) fn all_apply(&self, depth: usize) -> bool
        requires { depth ≤ length self.now.applies }
        ensures { result ≡ list_all (λ mark. mark) (take depth self.now.applies) }
    {
        self.applies.as_slice()[..depth].iter().all(|mark| *mark)
    }

    // Whether a line that opens no block is active in the file at a depth.
    pub(crate) fn is_active(&self, depth: usize, opens: bool) -> bool
        requires { depth ≤ length self.now.applies }
        ensures { result ≡ (list_all (λ mark. mark) (take depth self.now.applies)
            && own_mark depth opens self.now.applies) }
    {
        self.all_apply(depth) && self.own_mark(depth, opens)
    }
}
