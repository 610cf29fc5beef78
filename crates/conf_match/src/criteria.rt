ghost use Rattle.std.specs.Prelude.{◌≡◌, ◌+◌, ◌<◌, ◌≤◌, length, drop, None, false};
ghost use Rattle.conf_rules.specs.Criteria.{criteria_from, read_criteria, plain_criterion, with_criterion, opens_all};
ghost use Rattle.conf_rules.specs.Results.{GivesReading};
ghost use Rattle.conf_rules.specs.Wants.{match_wants_memory};
ghost use Rattle.conf_match.specs.CriterionPlace.{AddsCriterion, TakesCriterion, valued_criterion, every};

use crate::named::{opens_all, read_word};
use conf_rules::{Criteria, Criterion, Kind, MatchError, Named};
use ssh_fields::{Text, Texts};
use std::alloc::Global;

/// Where the reading stands: the next word, and whether `all` may stand there.
#[derive(Clone, Copy)]
pub struct CriterionPlace {
    pub word: usize,
    pub may: bool,
}

// Adds a criterion; after it the reading goes on at a word.
fn add(
    alloc: Global,
    criteria: &mut Criteria,
    negated: bool,
    kind: Kind,
    value: &[u8],
) -> Result<(), MatchError>
    ensures { AddsCriterion result criteria.old criteria.new negated kind value.now }
{
    criteria.push(Criterion {
        negated,
        kind,
        value: Text::copy(alloc, value)?,
    })?;
    Ok(())
}

// Takes `all`, which is the last criterion and stands where it may.
fn take_all(
    alloc: Global,
    criteria: &mut Criteria,
    words: &[Text],
    place: CriterionPlace,
    negated: bool,
) -> Result<CriterionPlace, MatchError>
    requires place { place.word < length words.now }
    ensures { TakesCriterion result criteria.old criteria.new words.now place.word
        (every place.word place.may negated (drop (place.word + 1) words.now)) }
{
    if negated {
        return Err(MatchError::Unknown { word: place.word });
    }
    if !place.may {
        return Err(MatchError::AllNotAlone);
    }
    if place.word + 1 < words.len() {
        return Err(MatchError::AllNotAlone);
    }
    add(alloc, criteria, negated, Kind::All, b"")?;
    Ok(CriterionPlace {
        word: place.word + 1,
        may: false,
    })
}

// Takes a criterion that takes no value, at a word of these.
fn take_plain(
    alloc: Global,
    criteria: &mut Criteria,
    words: &[Text],
    place: CriterionPlace,
    negated: bool,
    kind: Kind,
) -> Result<CriterionPlace, MatchError>
    requires place { place.word < length words.now }
    ensures { TakesCriterion result criteria.old criteria.new words.now place.word
        (plain_criterion place.word place.may negated kind (drop (place.word + 1) words.now)
        (criteria_from (place.word + 1) (opens_all kind) (drop (place.word + 1) words.now))) }
{
    if kind == Kind::All {
        return take_all(alloc, criteria, words, place, negated);
    }
    add(alloc, criteria, negated, kind, b"")?;
    Ok(CriterionPlace {
        word: place.word + 1,
        may: opens_all(kind),
    })
}

// Reads a criterion with its value, after which a word follows.
fn take_value(
    alloc: Global,
    criteria: &mut Criteria,
    words: &[Text],
    at: usize,
    negated: bool,
    kind: Kind,
    value: &[u8],
    next: usize,
) -> Result<CriterionPlace, MatchError>
    requires further { at < next }
    requires within { next ≤ length words.now }
    ensures { TakesCriterion result criteria.old criteria.new words.now at
        (with_criterion negated kind value.now (criteria_from next false (drop next words.now))) }
{
    add(alloc, criteria, negated, kind, value)?;
    Ok(CriterionPlace {
        word: next,
        may: false,
    })
}

// Takes a criterion whose value is the next word.
fn take_next(
    alloc: Global,
    criteria: &mut Criteria,
    words: &[Text],
    at: usize,
    negated: bool,
    kind: Kind,
) -> Result<CriterionPlace, MatchError>
    requires place { at < length words.now }
    ensures { TakesCriterion result criteria.old criteria.new words.now at
        (valued_criterion at negated kind None (drop (at + 1) words.now)) }
{
    if at + 1 < words.len() {
        let value = words[at + 1].as_bytes();
        return take_value(alloc, criteria, words, at, negated, kind, value, at + 2);
    }
    Err(MatchError::NoValue { word: at })
}

// Takes one criterion.
fn take(
    alloc: Global,
    criteria: &mut Criteria,
    words: &[Text],
    place: CriterionPlace,
) -> Result<CriterionPlace, MatchError>
    requires place { place.word < length words.now }
    ensures { TakesCriterion result criteria.old criteria.new words.now place.word
        (criteria_from place.word place.may (drop place.word words.now)) }
{
    let at = place.word;
    let own = read_word(words[at].as_bytes());
    let negated = own.negated;
    match own.name {
        Named::Plain(kind) => match own.value {
            None => take_plain(alloc, criteria, words, place, negated, kind),
            Some(_) => Err(MatchError::Unknown { word: at }),
        },
        Named::Valued(kind) => match own.value {
            None => take_next(alloc, criteria, words, at, negated, kind),
            Some(value) => take_value(alloc, criteria, words, at, negated, kind, value, at + 1),
        },
        Named::NotSupported => Err(MatchError::Unsupported { word: at }),
        Named::NoName => Err(MatchError::Unknown { word: at }),
    }
}

/// The criteria that the words of `Match` spell, or the first refusal from the left: a word that
/// names none, that isn't supported, whose value is missing, or an `all` that doesn't stand alone
/// or right after `canonical` or `final`.
pub fn read_criteria(alloc: Global, words: &Texts) -> Result<Criteria, MatchError>
    ensures { GivesReading match_wants_memory result (read_criteria words.now) }
{
    let all = words.as_slice();
    let mut criteria = Criteria::new(alloc);
    let mut place = CriterionPlace { word: 0, may: true };
    while place.word < all.len() {
        place = take(alloc, &mut criteria, all, place)?;
    }
    Ok(criteria)
}
