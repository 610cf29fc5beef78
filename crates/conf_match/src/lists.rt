ghost use Rattle.std.specs.Prelude.{◌≡◌, [], ◌∷◌};
ghost use Rattle.conf_rules.specs.Texts.{split_at_each};
ghost use Rattle.conf_rules.specs.Patterns.{answer_of};
ghost use Rattle.conf_match.specs.Answers.{either_answer};

use crate::patterns::matches_pattern;
use conf_lexer::split_at_first;
use conf_rules::ListAnswer;
use ssh_fields::Texts;

// What one pattern says of a name.
#[tactic(auto, unfolding(conf_rules::specs::Patterns::answer_of))]
fn one(pattern: &[u8], text: &[u8]) -> ListAnswer
    ensures { result ≡ answer_of (pattern.now ∷ []) text.now }
{
    match pattern {
        [b'!', rest @ ..] => {
            if matches_pattern(rest, text) {
                ListAnswer::Denied
            } else {
                ListAnswer::No
            }
        }
        _ => {
            if matches_pattern(pattern, text) {
                ListAnswer::Yes
            } else {
                ListAnswer::No
            }
        }
    }
}

// What two lists say together.
fn either(first: ListAnswer, second: ListAnswer) -> ListAnswer
    ensures { result ≡ either_answer first second }
{
    match (first, second) {
        (ListAnswer::Denied, _) | (_, ListAnswer::Denied) => ListAnswer::Denied,
        (ListAnswer::Yes, _) => ListAnswer::Yes,
        (ListAnswer::No, other) => other,
    }
}

/// What a list of patterns, which commas part, says of a name: denied where a negated one matches,
/// else yes where a plain one does. It allocates no memory.
pub fn matches_list(list: &[u8], text: &[u8]) -> ListAnswer
    ensures { result ≡ answer_of (split_at_each 44 list.now) text.now }
{
    let mut answer = ListAnswer::No;
    let mut left = list;
    while let Some((pattern, rest)) = split_at_first(b',', left) {
        answer = either(answer, one(pattern, text));
        left = rest;
    }
    either(answer, one(left, text))
}

/// The same of patterns that are words. It allocates no memory.
pub fn matches_words(words: &Texts, text: &[u8]) -> ListAnswer
    ensures { result ≡ answer_of words.now text.now }
{
    let mut answer = ListAnswer::No;
    for word in words.as_slice() {
        answer = either(answer, one(word.as_bytes(), text));
    }
    answer
}
