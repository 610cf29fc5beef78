ghost use Rattle.std.specs.Prelude.{◌≡◌};
ghost use Rattle.std.specs.List.{list_any};
ghost use Rattle.conf_rules.specs.Texts.{same_word};
ghost use Rattle.conf_rules.specs.Criteria.{named, split_value, spelled_criterion, not_supported, opens_all};
ghost use Rattle.conf_match.specs.Spelled.{spelled_shown};

use conf_lexer::split_at_first;
use conf_rules::{Kind, Named};

/// A criterion's own word.
#[derive(Clone, Copy)]
pub struct Spelled<'a> {
    pub negated: bool,
    pub name: Named,
    /// The text after its first equals sign.
    pub value: Option<&'a [u8]>,
}

// Whether a name is of a criterion that needs facts that aren't known.
fn is_unsupported(name: &[u8]) -> bool
    ensures { result ≡ list_any (same_word name.now) not_supported }
{
    name.eq_ignore_ascii_case(b"localnetwork")
        || name.eq_ignore_ascii_case(b"sessiontype")
        || name.eq_ignore_ascii_case(b"command")
        || name.eq_ignore_ascii_case(b"version")
}

// What a name is, in any case.
fn name_of(name: &[u8]) -> Named
    ensures { result ≡ named name.now }
{
    if name.eq_ignore_ascii_case(b"all") {
        return Named::Plain(Kind::All);
    }
    if name.eq_ignore_ascii_case(b"canonical") {
        return Named::Plain(Kind::Canonical);
    }
    if name.eq_ignore_ascii_case(b"final") {
        return Named::Plain(Kind::Final);
    }
    if name.eq_ignore_ascii_case(b"exec") {
        return Named::Valued(Kind::Exec);
    }
    if name.eq_ignore_ascii_case(b"host") {
        return Named::Valued(Kind::Host);
    }
    if name.eq_ignore_ascii_case(b"originalhost") {
        return Named::Valued(Kind::OriginalHost);
    }
    if name.eq_ignore_ascii_case(b"tagged") {
        return Named::Valued(Kind::Tagged);
    }
    if name.eq_ignore_ascii_case(b"user") {
        return Named::Valued(Kind::User);
    }
    if name.eq_ignore_ascii_case(b"localuser") {
        return Named::Valued(Kind::LocalUser);
    }
    if is_unsupported(name) {
        return Named::NotSupported;
    }
    Named::NoName
}

// A word after its exclamation mark, if it has one.
fn split_value(negated: bool, word: &[u8]) -> Spelled<'_>
    ensures { spelled_shown result ≡ split_value negated word.now }
{
    match split_at_first(b'=', word) {
        Some((name, value)) => Spelled {
            negated,
            name: name_of(name),
            value: Some(value),
        },
        None => Spelled {
            negated,
            name: name_of(word),
            value: None,
        },
    }
}

/// A criterion's own word.
pub fn read_word(word: &[u8]) -> Spelled<'_>
    ensures { spelled_shown result ≡ spelled_criterion word.now }
{
    match word {
        [b'!', rest @ ..] => split_value(true, rest),
        _ => split_value(false, word),
    }
}

/// Whether `all` may stand after a criterion.
pub fn opens_all(kind: Kind) -> bool
    ensures { result ≡ opens_all kind }
{
    match kind {
        Kind::Canonical | Kind::Final => true,
        _ => false,
    }
}
