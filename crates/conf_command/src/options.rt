ghost use Rattle.std.specs.Prelude.{◌≡◌, ℕ, List, [], ◌∷◌, ◌++◌, IfOk, OnOk};
ghost use Rattle.conf_rules.specs.declared.asked.AskedLine.TheVariants as asks;
ghost use Rattle.conf_rules.specs.Options.{step, forward_step, file_named, control_among, controls, control_step, sessions_named, sessions_steps, steps_of_option, with_value, by_letters, long_option, dashed, Free, Goes, ValueOf};
ghost use Rattle.conf_rules.specs.CommandLine.{free_word, steps_from};
ghost use Rattle.conf_command.specs.Shown.{act_of, takes_of, shown_next_word};
ghost use Rattle.conf_command.specs.Words.{word_steps, end_steps};

use crate::act::{CommandMode, WordAct};
use crate::bytes::is_same;
use crate::forwardings::forward_words;
use crate::letters::{Letter, Takes, meaning_of};
use crate::step::{WordStep, WordSteps};
use conf_lexer::first;
use conf_rules::{AskedLine, ConfigFrom, MasterCommand, PermitList, Usage};
use ssh_fields::{OutOfMemory, Text, Texts};
use std::alloc::Global;

/// How the next word is read.
#[derive(Clone, Copy, Drop)]
pub enum NextWord {
    /// As any word.
    Free,
    /// Never as an option.
    Ended,
    /// As the value of an option at a word.
    ValueOf { here: u64, takes: Takes },
}

// The value of an option at a word comes next.
fn value_of(here: u64, takes: Takes) -> NextWord
    ensures { shown_next_word result ≡ ValueOf here (takes_of takes) }
{
    NextWord::ValueOf { here, takes }
}

/// The line of a keyword with one word.
pub fn key_line(
    alloc: Global,
    word: u64,
    keyword: &[u8],
    value: &[u8],
) -> Result<AskedLine, OutOfMemory>
    ensures { IfOk result (λ line. line ≡ asks.Parts word keyword.now (value.now ∷ [])) }
{
    let mut words = Texts::new(alloc);
    words.push(Text::copy(alloc, value)?)?;
    Ok(AskedLine::Parts {
        word,
        keyword: Text::copy(alloc, keyword)?,
        words,
    })
}

// A forwarding at a word.
fn forward_step(
    alloc: Global,
    at: u64,
    keyword: &[u8],
    words: Option<Texts>,
) -> Result<WordStep, OutOfMemory>
    ensures { IfOk result (λ s. s ≡ forward_step at keyword.now words) }
{
    match words {
        None => Ok(WordStep::new(at, WordAct::Fails(Usage::BadForward))),
        Some(words) => {
            let keyword = Text::copy(alloc, keyword)?;
            Ok(WordStep::new(
                at,
                WordAct::Asks(AskedLine::Parts {
                    word: at,
                    keyword,
                    words,
                }),
            ))
        }
    }
}

// The file that a value names; `none` reads nothing.
fn file_named(alloc: Global, value: &[u8]) -> Result<ConfigFrom, OutOfMemory>
    ensures { IfOk result (λ from. from ≡ file_named value.now) }
{
    if is_same(value, b"none") {
        return Ok(ConfigFrom::Nothing);
    }
    Ok(ConfigFrom::File(Text::copy(alloc, value)?))
}

// The request to a running master that a value names, if it names one.
fn control_named(value: &[u8]) -> Option<MasterCommand>
    ensures { result ≡ control_among controls value.now }
{
    if is_same(value, b"check") {
        return Some(MasterCommand::Check);
    }
    if is_same(value, b"exit") {
        return Some(MasterCommand::Exit);
    }
    if is_same(value, b"stop") {
        return Some(MasterCommand::Stop);
    }
    if is_same(value, b"forward") {
        return Some(MasterCommand::Forward);
    }
    if is_same(value, b"cancel") {
        return Some(MasterCommand::Cancel);
    }
    None
}

// A value that names a request to a running master, or is bad at its word.
fn control_step(at: u64, value: &[u8]) -> WordStep
    ensures { result ≡ control_step at (control_among controls value.now) }
{
    match control_named(value) {
        Some(control) => WordStep::new(at, WordAct::Controls(control)),
        None => WordStep::new(at, WordAct::Fails(Usage::BadCommand)),
    }
}

// Whether sessions are permitted.
fn sessions_named(word: &[u8]) -> Option<bool>
    ensures { result ≡ sessions_named word.now }
{
    if is_same(word, b"any") {
        return Some(true);
    }
    if is_same(word, b"none") {
        return Some(false);
    }
    None
}

// Whether sessions are permitted; a value that is neither `any` nor `none` is bad at its word.
fn take_sessions(here: u64, at: u64, value: &[u8], steps: &mut WordSteps) -> Result<(), OutOfMemory>
    ensures { OnOk result (steps.new ≡ steps.old
        ++ sessions_steps here at (sessions_named value.now)) }
{
    match sessions_named(value) {
        Some(may) => steps.push(WordStep::new(here, WordAct::Sessions(may))),
        None => {
            steps.push(WordStep::new(here, WordAct::Sessions(false)))?;
            steps.push(WordStep::new(at, WordAct::Fails(Usage::BadEntry)))
        }
    }
}

// What an option at a word does with its value at another.
fn take(
    alloc: Global,
    takes: Takes,
    here: u64,
    at: u64,
    value: &[u8],
    steps: &mut WordSteps,
) -> Result<(), OutOfMemory>
    ensures { OnOk result (steps.new ≡ steps.old ++ steps_of_option (takes_of takes) here at value.now) }
{
    match takes {
        Takes::Key(keyword) => {
            let line = key_line(alloc, at, keyword, value)?;
            steps.push(WordStep::new(at, WordAct::Asks(line)))
        }
        Takes::Forward { keyword, one, two } => {
            let words = forward_words(alloc, one, two, value)?;
            steps.push(forward_step(alloc, at, keyword, words)?)
        }
        Takes::Line => {
            let line = Text::copy(alloc, value)?;
            steps.push(WordStep::new(at, WordAct::Asks(AskedLine::Line { word: at, line })))
        }
        Takes::File => {
            let from = file_named(alloc, value)?;
            steps.push(WordStep::new(at, WordAct::Reads(from)))
        }
        Takes::Transport => {
            let transport = Text::copy(alloc, value)?;
            steps.push(WordStep::new(here, WordAct::Connects(transport)))
        }
        Takes::Permit(list) => {
            let entry = Text::copy(alloc, value)?;
            steps.push(WordStep::new(
                here,
                WordAct::Permits {
                    list,
                    word: at,
                    entry,
                },
            ))
        }
        Takes::Sessions => take_sessions(here, at, value, steps),
        Takes::Control => {
            steps.push(WordStep::new(here, WordAct::Chooses(CommandMode::Client)))?;
            steps.push(control_step(at, value))
        }
    }
}

// A letter with a value: the rest of its word, or the next word.
fn with_value(
    alloc: Global,
    takes: Takes,
    at: u64,
    rest: &[u8],
    steps: &mut WordSteps,
) -> Result<NextWord, OutOfMemory>
    ensures steps { OnOk result (steps.new ≡ steps.old
        ++ (with_value (takes_of takes) at rest.now).steps) }
    ensures next { IfOk result (λ n. shown_next_word n ≡ (with_value (takes_of takes) at rest.now).next) }
{
    if rest.is_empty() {
        return Ok(NextWord::ValueOf { here: at, takes });
    }
    take(alloc, takes, at, at, rest, steps)?;
    Ok(NextWord::Free)
}

// The effect of the letters of a word, up to one whose value is the rest.
fn by_letters(
    alloc: Global,
    at: u64,
    word: &[u8],
    steps: &mut WordSteps,
) -> Result<NextWord, OutOfMemory>
    ensures steps { OnOk result (steps.new ≡ steps.old ++ (by_letters at word.now).steps) }
    ensures next { IfOk result (λ n. shown_next_word n ≡ (by_letters at word.now).next) }
{
    let mut left = word;
    while let Some((byte, rest)) = first(left) {
        match meaning_of(byte) {
            Letter::Names(mode) => steps.push(WordStep::new(at, WordAct::Chooses(mode)))?,
            Letter::Sets { keyword, value } => {
                let line = key_line(alloc, at, keyword, value)?;
                steps.push(WordStep::new(at, WordAct::Asks(line)))?;
            }
            Letter::With(takes) => return with_value(alloc, takes, at, rest, steps),
            Letter::NoLetter => {
                steps.push(WordStep::new(at, WordAct::Fails(Usage::UnknownOption)))?;
                return Ok(NextWord::Free);
            }
        }
        left = rest;
    }
    Ok(NextWord::Free)
}

// What follows two dashes: nothing ends the options.
fn long_option(at: u64, word: &[u8], steps: &mut WordSteps) -> Result<NextWord, OutOfMemory>
    ensures steps { OnOk result (steps.new ≡ steps.old ++ (long_option at word.now).steps) }
    ensures next { IfOk result (λ n. shown_next_word n ≡ (long_option at word.now).next) }
{
    if word.is_empty() {
        return Ok(NextWord::Ended);
    }
    if is_same(word, b"transport") {
        return Ok(value_of(at, Takes::Transport));
    }
    if is_same(word, b"permit-open") {
        return Ok(value_of(at, Takes::Permit(PermitList::Open)));
    }
    if is_same(word, b"permit-listen") {
        return Ok(value_of(at, Takes::Permit(PermitList::Listen)));
    }
    if is_same(word, b"permit-session") {
        return Ok(value_of(at, Takes::Sessions));
    }
    if is_same(word, b"permit-here") {
        return Ok(value_of(at, Takes::Permit(PermitList::Here)));
    }
    steps.push(WordStep::new(at, WordAct::Fails(Usage::UnknownOption)))?;
    Ok(NextWord::Free)
}

// What follows one dash: a lone dash is no option.
fn dashed(
    alloc: Global,
    at: u64,
    word: &[u8],
    steps: &mut WordSteps,
) -> Result<NextWord, OutOfMemory>
    ensures steps { OnOk result (steps.new ≡ steps.old ++ (dashed at word.now).steps) }
    ensures next { IfOk result (λ n. shown_next_word n ≡ (dashed at word.now).next) }
{
    match first(word) {
        None => {
            steps.push(WordStep::new(at, WordAct::Fails(Usage::UnknownOption)))?;
            Ok(NextWord::Free)
        }
        Some((byte, rest)) => {
            if byte == b'-' {
                return long_option(at, rest, steps);
            }
            by_letters(alloc, at, word, steps)
        }
    }
}

// A destination.
fn goes(alloc: Global, at: u64, word: &[u8], steps: &mut WordSteps) -> Result<(), OutOfMemory>
    ensures { OnOk result (steps.new ≡ steps.old ++ step at (Goes word.now) ∷ []) }
{
    let to = Text::copy(alloc, word)?;
    steps.push(WordStep::new(at, WordAct::Goes(to)))
}

// A destination, or what follows a dash.
fn free_word(
    alloc: Global,
    at: u64,
    word: &[u8],
    steps: &mut WordSteps,
) -> Result<NextWord, OutOfMemory>
    ensures steps { OnOk result (steps.new ≡ steps.old ++ (free_word at word.now).steps) }
    ensures next { IfOk result (λ n. shown_next_word n ≡ (free_word at word.now).next) }
{
    match word {
        [b'-', rest @ ..] => dashed(alloc, at, rest, steps),
        _ => {
            goes(alloc, at, word, steps)?;
            Ok(NextWord::Free)
        }
    }
}

// What a word does, and what the next word is.
fn word_steps(
    alloc: Global,
    next: NextWord,
    at: u64,
    word: &[u8],
    steps: &mut WordSteps,
) -> Result<NextWord, OutOfMemory>
    ensures steps { OnOk result (steps.new ≡ steps.old
        ++ (word_steps at (shown_next_word next) word.now).steps) }
    ensures next { IfOk result (λ n. shown_next_word n ≡ (word_steps at (shown_next_word next) word.now).next) }
{
    match next {
        NextWord::Free => free_word(alloc, at, word, steps),
        NextWord::Ended => {
            goes(alloc, at, word, steps)?;
            Ok(NextWord::Ended)
        }
        NextWord::ValueOf { here, takes } => {
            take(alloc, takes, here, at, word, steps)?;
            Ok(NextWord::Free)
        }
    }
}

// Adds what the end of the words does, where a value is missing.
fn end_words(next: NextWord, steps: &mut WordSteps) -> Result<(), OutOfMemory>
    ensures { OnOk result (steps.new ≡ steps.old ++ end_steps (shown_next_word next)) }
{
    match next {
        NextWord::ValueOf { here, .. } => steps.push(WordStep::new(
            here,
            WordAct::Fails(Usage::NoValue),
        )),
        NextWord::Free | NextWord::Ended => Ok(()),
    }
}

/// The steps of all words.
pub fn steps_of(alloc: Global, words: &[Text]) -> Result<WordSteps, OutOfMemory>
    ensures { IfOk result (λ steps. steps ≡ steps_from 1 Free words.now) }
{
    let mut steps = WordSteps::new(alloc);
    let mut next = NextWord::Free;
    for (i, word) in words.iter().enumerate() {
        next = word_steps(alloc, next, i as u64 + 1, word.as_bytes(), &mut steps)?;
    }
    end_words(next, &mut steps)?;
    Ok(steps)
}
