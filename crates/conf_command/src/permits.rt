ghost use Rattle.std.specs.Prelude.{◌≡◌, ◌++◌, IfOk, OnOk};
ghost use Rattle.conf_rules.specs.CommandLine.{is_same_list, permits_in, permit_words, texts_of, bad_permission};
ghost use Rattle.conf_rules.specs.Permissions.{PermitWord, first_not_entry, bad_entry, earlier_word};

use crate::act::WordAct;
use crate::entries::{is_alone, is_entry};
use crate::step::WordStep;
use conf_rules::PermitList;
use ssh_fields::{ListOf, OutOfMemory, Text, Texts};
use std::alloc::Global;
use std::marker::Model;

/// An entry of the master's permissions, and its word.
#[derive(Drop)]
pub struct Permit {
    word: u64,
    text: Text,
}

impl Model for Permit {
    ghost Value = { PermitWord };

    ghost view = { λ p. record { word = p.word; text = p.text } };
}

impl Permit {
    /// An entry at a word.
    pub fn new(word: u64, text: Text) -> Permit
        ensures { result ≡ record { word = word; text = text } }
    {
        Permit { word, text }
    }

    // The word.
    fn word(&self) -> u64
        ensures { result ≡ self.now.word }
    {
        self.word
    }

    // The entry.
    fn text(&self) -> &[u8]
        ensures { result.now ≡ self.now.text }
    {
        self.text.as_bytes()
    }
}

/// Permissions in order.
pub type Permits = ListOf<Permit>;

// Whether a permission is of a list.
fn is_of(wanted: PermitList, list: PermitList) -> bool
    ensures { result ≡ is_same_list wanted list }
{
    match (wanted, list) {
        (PermitList::Open, PermitList::Open) => true,
        (PermitList::Listen, PermitList::Listen) => true,
        (PermitList::Here, PermitList::Here) => true,
        _ => false,
    }
}

// Adds the permission of a step, if it is of this list.
fn add_permit(
    all: &mut Permits,
    alloc: Global,
    wanted: PermitList,
    step: &WordStep,
) -> Result<(), OutOfMemory>
    ensures { OnOk result (all.new ≡ all.old ++ permits_in wanted step.now) }
{
    match step.act() {
        WordAct::Permits { list, word, entry } => {
            if is_of(wanted, *list) {
                let text = Text::copy(alloc, entry.as_bytes())?;
                all.push(Permit::new(*word, text))?;
            }
            Ok(())
        }
        _ => Ok(()),
    }
}

// All permissions of a list.
fn permits_of(alloc: Global, list: PermitList, steps: &[WordStep]) -> Result<Permits, OutOfMemory>
    ensures { IfOk result (λ all. all ≡ permit_words list steps.now) }
{
    let mut all = Permits::new(alloc);
    for step in steps {
        add_permit(&mut all, alloc, list, step)?;
    }
    Ok(all)
}

// The texts of permissions.
fn texts_of(alloc: Global, permits: &Permits) -> Result<Texts, OutOfMemory>
    ensures { IfOk result (λ texts. texts ≡ texts_of permits.now) }
{
    let mut texts = Texts::new(alloc);
    for permit in permits.as_slice() {
        texts.push(Text::copy(alloc, permit.text())?)?;
    }
    Ok(texts)
}

/// The texts of a list.
pub fn texts_in(alloc: Global, list: PermitList, steps: &[WordStep]) -> Result<Texts, OutOfMemory>
    ensures { IfOk result (λ texts. texts ≡ texts_of (permit_words list steps.now)) }
{
    let permits = permits_of(alloc, list, steps)?;
    let texts = texts_of(alloc, &permits);
    drop(permits);
    texts
}

// The word of the first text that is no entry.
fn first_not_entry(permits: &[Permit]) -> Option<u64>
    ensures { result ≡ first_not_entry permits.now }
{
    for permit in permits {
        if !is_entry(permit.text()) {
            return Some(permit.word());
        }
    }
    None
}

// The word of the first bad text of a list: `any` and `none` stand alone.
fn bad_entry(permits: &Permits) -> Option<u64>
    ensures { result ≡ bad_entry permits.now }
{
    match permits.as_slice() {
        [] => None,
        [only] => {
            if is_alone(only.text()) {
                return None;
            }
            first_not_entry(permits.as_slice())
        }
        [first, second, ..] => {
            if is_alone(first.text()) {
                return Some(second.word());
            }
            first_not_entry(permits.as_slice())
        }
    }
}

// The word of the first bad text of a list.
fn bad_in(alloc: Global, list: PermitList, steps: &[WordStep]) -> Result<Option<u64>, OutOfMemory>
    ensures { IfOk result (λ word. word ≡ bad_entry (permit_words list steps.now)) }
{
    let permits = permits_of(alloc, list, steps)?;
    let word = bad_entry(&permits);
    drop(permits);
    Ok(word)
}

// The earlier of two words.
fn earlier(a: Option<u64>, b: Option<u64>) -> Option<u64>
    ensures { result ≡ earlier_word a b }
{
    match (a, b) {
        (None, b) => b,
        (Some(a), None) => Some(a),
        (Some(a), Some(b)) => { if a < b { Some(a) } else { Some(b) } }
    }
}

/// The earliest word of a bad permission, over all lists.
pub fn bad_permission(alloc: Global, steps: &[WordStep]) -> Result<Option<u64>, OutOfMemory>
    ensures { IfOk result (λ word. word ≡ bad_permission steps.now) }
{
    let open = bad_in(alloc, PermitList::Open, steps)?;
    let listen = bad_in(alloc, PermitList::Listen, steps)?;
    let here = bad_in(alloc, PermitList::Here, steps)?;
    Ok(earlier(open, earlier(listen, here)))
}
