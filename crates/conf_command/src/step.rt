ghost use Rattle.std.specs.Prelude.{◌≡◌};
ghost use Rattle.conf_rules.specs.Options.{WordStep as TheStep, step};
ghost use Rattle.conf_command.specs.Shown.{act_of};

use crate::act::WordAct;
use ssh_fields::ListOf;
use std::marker::Model;

/// An act and its word, counted from 1.
#[derive(Drop)]
pub struct WordStep {
    word: u64,
    act: WordAct,
}

impl Model for WordStep {
    ghost Value = { TheStep };

    ghost view = { λ s. step s.word (act_of s.act) };
}

impl WordStep {
    /// An act at a word.
    pub fn new(word: u64, act: WordAct) -> WordStep
        ensures { result ≡ step word (act_of act) }
    {
        WordStep { word, act }
    }

    /// The word.
    pub fn word(&self) -> u64
        ensures { result ≡ self.now.word }
    {
        self.word
    }

    /// What the word does.
    pub fn act(&self) -> &WordAct
        ensures { act_of result.now ≡ self.now.act }
    {
        &self.act
    }
}

/// Steps in order.
pub type WordSteps = ListOf<WordStep>;
