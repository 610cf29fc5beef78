ghost use Rattle.std.specs.Prelude.{◌≡◌, ◌≢◌, ◌↔◌, ◌<◌, ℕ, List, [], ◌∷◌, ◌++◌, Bool, true, false, not, ◌&&◌, length, IsTrue, IfOk, IfNone, IfSome, OnOk, OnErr};
ghost use Rattle.std.specs.Option.{option_copied};
ghost use Rattle.std.specs.List.{list_all};
ghost use Rattle.conf_rules.specs.declared.key.Key.TheVariants as keys;
ghost use Rattle.conf_rules.specs.declared.value.Value.TheVariants as values;
ghost use Rattle.conf_rules.specs.Kinds.{TheFirst, Every, Patterns, Shared, keeping, keeps_every};
ghost use Rattle.conf_rules.specs.Rows.{values_among, word_in, but_none, patterns_in, number_in, with_patterns};
ghost use Rattle.conf_rules.specs.Listing.{is_set};
ghost use Rattle.conf_rules.specs.Fits.{fits, fits_its_key};
ghost use Rattle.conf_options.specs.Kept.{Given, KeepsSettings, StandsAt, first_value, behind_all, is_unset, fits_single, offered};

use crate::patterns::{take_patterns, with_patterns};
use conf_rules::{Key, Value};
use ssh_fields::{OutOfMemory, Text};
use std::alloc::Global;
use std::marker::Model;

/// Values of keys in the order in which they came, of which those are kept that count. Each value
/// is one of its key.
#[derive(Drop)]
pub struct Settings {
    alloc: Global,
    // Of keys of which one value counts, or one list of patterns: no more than there are keys.
    singles: Vec<(Key, Value)>,
    // Of keys of which all values count.
    collected: Vec<(Key, Value)>,
}

impl Model for Settings {
    ghost use Rattle.std.specs.Prelude.{◌≡◌, ◌++◌, List, true};
    ghost use Rattle.std.specs.List.{list_all};
    ghost use Rattle.conf_options.specs.Kept.{Given, fits_single, fits_every};

    ghost Value = { List Given };

    ghost view = { λ s. s.singles.items ++ s.collected.items };

    ghost invariant = { λ s. (list_all fits_single s.singles.items ≡ true)
        × (list_all fits_every s.collected.items ≡ true) };
}

// The first value of a key.
fn first_of(all: &[(Key, Value)], key: Key) -> Option<&Value>
    ensures { option_copied result ≡ first_value key all.now }
{
    for (other, value) in all {
        if key.place() == other.place() {
            return Some(value);
        }
    }
    None
}

// The port, or 22.
fn port_of(singles: &[(Key, Value)]) -> u16
    requires { list_all fits_single singles.now ≡ true }
    ensures { result ≡ number_in 22 (first_value keys.Port singles.now) }
{
    match first_of(singles, Key::Port) {
        Some(Value::Number(n)) => *n as u16,
        _ => 22,
    }
}

// Whether a key has no value.
fn is_unset(all: &[(Key, Value)], key: Key) -> bool
    ensures { result ≡ is_unset key all.now }
{
    first_of(all, key).is_none()
}

// The texts of a value of several.
fn names_in(value: &Value) -> &[Text]
    ensures { result.now ≡ patterns_in value.now }
{
    match value {
        Value::Names(names) => names.as_slice(),
        _ => &[],
    }
}

// Where the first value of a key stands.
fn place_of(all: &[(Key, Value)], key: Key) -> Option<usize>
    ensures none { IfNone result (values_among key all.now ≡ []) }
    ensures found { IfSome result (StandsAt key all.now) }
{
    for i in 0..all.len() {
        if key.place() == all[i].0.place() {
            return Some(i);
        }
    }
    None
}

// Adds a value after the others.
fn add(all: &mut Vec<(Key, Value)>, key: Key, value: Value) -> Result<bool, OutOfMemory>
    ensures becomes { OnOk result (all.new.items ≡ behind_all all.old.items key value) }
    ensures changed { IfOk result (λ changed. changed ≡ true) }
    ensures err { OnErr result (all.new.items ≡ all.old.items) }
{
    all.push((key, value))?;
    Ok(true)
}

// Adds patterns after those of a value.
fn more_patterns(alloc: Global, kept: &mut Value, patterns: &[Text]) -> Result<bool, OutOfMemory>
    requires names { values.Names (patterns_in kept.old) ≡ kept.old }
    ensures becomes { OnOk result
        (kept.new ≡ values.Names (with_patterns (patterns_in kept.old) patterns.now)) }
    ensures changed { IfOk result (λ changed. IsTrue changed ↔ (kept.new ≢ kept.old)) }
    ensures err { OnErr result (kept.new ≡ kept.old) }
{
    match kept {
        Value::Names(names) => take_patterns(alloc, names, patterns),
        _ => unreachable!(),
    }
}

// Takes patterns.
fn add_patterns(
    alloc: Global,
    singles: &mut Vec<(Key, Value)>,
    key: Key,
    value: &Value,
) -> Result<bool, OutOfMemory>
    requires patterns { keeping key ≡ Patterns }
    requires fit { list_all fits_single singles.old.items ≡ true }
    ensures becomes { OnOk result
        (singles.new.items ≡ offered Patterns singles.old.items key value.now) }
    ensures changed { IfOk result
        (λ changed. IsTrue changed ↔ (singles.new.items ≢ singles.old.items)) }
    ensures err { OnErr result (singles.new.items ≡ singles.old.items) }
{
    let names = names_in(value);
    match place_of(singles, key) {
        None => {
            let patterns = with_patterns(alloc, &[], names)?;
            add(singles, key, Value::Names(patterns))
        }
        Some(place) => {
            let given = &mut singles[place];
            more_patterns(alloc, &mut given.1, names)
        }
    }
}

// Takes a value of a key of which one value counts, where it does, or patterns.
fn take(
    alloc: Global,
    singles: &mut Vec<(Key, Value)>,
    key: Key,
    value: Value,
) -> Result<bool, OutOfMemory>
    requires single { keeps_every key ≡ false }
    requires fit { list_all fits_single singles.old.items ≡ true }
    ensures becomes { OnOk result
        (singles.new.items ≡ offered (keeping key) singles.old.items key value) }
    ensures changed { IfOk result
        (λ changed. IsTrue changed ↔ (singles.new.items ≢ singles.old.items)) }
    ensures err { OnErr result (singles.new.items ≡ singles.old.items) }
{
    match key {
        Key::SendEnv => add_patterns(alloc, singles, key, &value),
        Key::ProxyCommand | Key::ProxyJump => {
            if is_unset(singles, Key::ProxyCommand) && is_unset(singles, Key::ProxyJump) {
                add(singles, key, value)
            } else {
                Ok(false)
            }
        }
        _ => {
            if is_unset(singles, key) {
                add(singles, key, value)
            } else {
                Ok(false)
            }
        }
    }
}

impl Settings {
    /// No value.
    pub fn new(alloc: Global) -> Settings
        ensures { result ≡ [] }
    {
        Settings {
            alloc,
            singles: Vec::new(alloc),
            collected: Vec::new(alloc),
        }
    }

    /// The first value of a key.
    pub fn first(&self, key: Key) -> Option<&Value>
        ensures { option_copied result ≡ first_value key self.now }
    {
        first_of(self.among(key), key)
    }

    /// The first value of a key, where it is a text.
    pub fn word(&self, key: Key) -> Option<&[u8]>
        ensures { option_copied result ≡ word_in (first_value key self.now) }
    {
        match self.first(key) {
            Some(Value::Word(text)) => Some(text.as_bytes()),
            _ => None,
        }
    }

    /// The same, where it isn't `none` in any case.
    pub fn named_word(&self, key: Key) -> Option<&[u8]>
        ensures { option_copied result ≡ but_none (word_in (first_value key self.now)) }
    {
        match self.word(key) {
            Some(word) => {
                if word.eq_ignore_ascii_case(b"none") {
                    None
                } else {
                    Some(word)
                }
            }
            None => None,
        }
    }

    /// Whether a flag is set to yes.
    pub fn is_set(&self, key: Key) -> bool
        ensures { result ≡ is_set (first_value key self.now) }
    {
        match self.first(key) {
            Some(Value::Flag(flag)) => *flag,
            _ => false,
        }
    }

    /// Values that are kept, each after its key, in the order in which they came: all of a key, and
    /// maybe some of others.
    pub fn among(&self, key: Key) -> &[(Key, Value)]
        ensures { values_among key result.now ≡ values_among key self.now }
    {
        if key.keeps_every() {
            self.collected.as_slice()
        } else {
            self.singles.as_slice()
        }
    }

    /// The first Port, or 22.
    pub fn port(&self) -> u16
        ensures { result ≡ number_in 22 (first_value keys.Port self.now) }
    {
        port_of(self.singles.as_slice())
    }

    /// Keeps a value, if it counts: the first of its key, or of both proxy keys; each one of a key
    /// that collects; patterns of `SendEnv`, of which those after a dash remove earlier ones.
    /// `true` exactly where what is kept changed. An `Err` changes nothing.
    pub fn offer(&mut self, key: Key, value: Value) -> Result<bool, OutOfMemory>
        requires { fits key value ≡ true }
        ensures keeps { OnOk result ((given : List Given) → KeepsSettings self.old given
            → KeepsSettings self.new (given ++ (key, value) ∷ [])) }
        ensures changed { IfOk result (λ changed. IsTrue changed ↔ (self.new ≢ self.old)) }
        ensures err { OnErr result (self.new ≡ self.old) }
    {
        if key.keeps_every() {
            add(&mut self.collected, key, value)
        } else {
            take(self.alloc, &mut self.singles, key, value)
        }
    }
}
