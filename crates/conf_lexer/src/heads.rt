ghost use Rattle.std.specs.Prelude.{◌≡◌, ℕ, ◌+◌, ◌-◌, ◌<◌, ◌≤◌, ◌^◌, length, take_while, position};
ghost use Rattle.std.specs.List.{prefix_len, suffix_len};
ghost use Rattle.conf_rules.specs.Heads.{is_blank, is_ending, is_keyword, is_zero, second_equals, after_keyword, sent_at, uncommented, head_of};
ghost use Rattle.conf_rules.specs.Results.{Shows};
ghost use Rattle.conf_lexer.specs.Shown.{heading};

use conf_rules::LexError;

/// What a line is: nothing or a comment, or a keyword and what follows it.
#[derive(Clone, Copy)]
pub enum Head<'a> {
    Blank,
    Line { keyword: &'a [u8], rest: &'a [u8] },
}

// How many blanks stand at the front.
fn blanks(bytes: &[u8]) -> usize
    ensures count { result ≡ prefix_len is_blank bytes.now }
    ensures within { result ≤ length bytes.now }
{
    bytes
        .iter()
        .take_while(|b| **b == b' ' || **b == b'\t')
        .count()
}

// How many bytes stand at the front that a keyword may have.
fn keyword_len(bytes: &[u8]) -> usize
    ensures count { result ≡ prefix_len is_keyword bytes.now }
    ensures within { result ≤ length bytes.now }
{
    bytes
        .iter()
        .take_while(|b| !(**b == b' ' || **b == b'\t' || **b == b'='))
        .count()
}

// How many bytes at the end are no part of the line; 12 is a form feed.
fn endings(bytes: &[u8]) -> usize
    ensures count { result ≡ suffix_len is_ending bytes.now }
    ensures within { result ≤ length bytes.now }
{
    bytes
        .iter()
        .rev()
        .take_while(|b| **b == b' ' || **b == b'\t' || **b == b'\r' || **b == 12)
        .count()
}

// The place of the first zero byte.
fn zero_at(bytes: &[u8]) -> Option<usize>
    ensures { result ≡ position is_zero bytes.now }
{
    bytes.iter().position(|b| *b == 0)
}

// What stands after an equals sign and its blanks, at place `at` of the line.
fn second_equals(text: &[u8], at: usize) -> Result<&[u8], LexError>
    ensures { Shows (λ rest. rest.now) result (second_equals at text.now) }
{
    match text {
        [b'=', ..] => Err(LexError::TwoEquals { at }),
        _ => Ok(text),
    }
}

// What stands after the keyword and its blanks, at place `at` of the line.
#[tactic(auto, unfolding(conf_rules::specs::Heads::after_keyword))]
fn after_keyword(text: &[u8], at: usize) -> Result<&[u8], LexError>
    requires { at + length text.now < 2 ^ 64 }
    ensures { Shows (λ rest. rest.now) result (after_keyword at text.now) }
{
    match text {
        [b'=', rest @ ..] => {
            let gap = blanks(rest);
            second_equals(&rest[gap..], at + 1 + gap)
        }
        _ => Ok(text),
    }
}

// A line that begins, without blanks, at place `at`.
#[tactic(auto, unfolding(conf_rules::specs::Heads::sent_at))]
fn sent_at(text: &[u8], at: usize) -> Result<Head<'_>, LexError>
    requires { at + length text.now < 2 ^ 64 }
    ensures { Shows heading result (sent_at at text.now) }
{
    let (keyword, behind) = text.split_at(keyword_len(text));
    let gap = blanks(behind);
    let rest = after_keyword(&behind[gap..], at + keyword.len() + gap)?;
    if rest.is_empty() {
        return Err(LexError::NoArgument);
    }
    Ok(Head::Line { keyword, rest })
}

// The same, unless the line is empty or a comment.
#[tactic(auto, unfolding(conf_rules::specs::Heads::uncommented))]
fn uncommented(text: &[u8], at: usize) -> Result<Head<'_>, LexError>
    requires { at + length text.now < 2 ^ 64 }
    ensures { Shows heading result (uncommented at text.now) }
{
    match text {
        [] | [b'#', ..] => Ok(Head::Blank),
        _ => sent_at(text, at),
    }
}

/// A line's keyword and what follows it (ssh_config(5)): blanks around them and line endings are
/// dropped, and one equals sign may stand between them. `at` of a refusal is a byte's place in
/// `line`. It allocates no memory.
#[tactic(auto, unfolding(conf_rules::specs::Heads::head_of))]
pub fn split_head(line: &[u8]) -> Result<Head<'_>, LexError>
    ensures exact { Shows heading result (head_of line.now) }
{
    if let Some(at) = zero_at(line) {
        return Err(LexError::ZeroByte { at });
    }
    let text = &line[..line.len() - endings(line)];
    let start = blanks(text);
    uncommented(&text[start..], start)
}
