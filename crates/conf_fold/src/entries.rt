ghost use Rattle.std.specs.Prelude.{◌≡◌, List, Ok, [], IfOk, IfErr, OnOk, true, false, take};
ghost use Rattle.std.specs.List.{list_any};
ghost use Rattle.std.specs.Option.{option_copied};
ghost use Rattle.conf_rules.specs.Texts.{lower};
ghost use Rattle.conf_rules.specs.Heads.{Says};
ghost use Rattle.conf_rules.specs.Includes.{CommandLine, UserFile};
ghost use Rattle.conf_rules.specs.Resolution.{is_final};
ghost use Rattle.conf_rules.specs.Keywords.{meaning_of};
ghost use Rattle.conf_rules.specs.Sources.{asked_line};
ghost use Rattle.conf_rules.specs.Entries.{split, host_entry, match_entry, words_entry, key_entry, takes_keyword, unknown_entry, headed_entry, content_entry, keyword_entry};
ghost use Rattle.conf_reader.specs.Results.{is_line_fault};
ghost use Rattle.conf_fold.specs.Results.{GivesLineReading};
ghost use Rattle.conf_fold.specs.Entries.{content_fits, value_entry, spelled_entry};

use conf_lexer::{Head, split_head, split_words};
use conf_match::{matches_list, read_criteria};
use conf_options::{kind_of, read_value};
use conf_reader::LineError;
use conf_rules::{AskedLine, Cause, Criteria, Key, KeyKind, Kind, LineContent, ListAnswer};
use ssh_fields::{OutOfMemory, Text, Texts};
use std::alloc::Global;

/// Whether some criterion asks for a second pass.
pub fn has_final(criteria: &Criteria) -> bool
    ensures { result ≡ list_any is_final criteria.now }
{
    criteria
        .as_slice()
        .iter()
        .any(|criterion| matches!(criterion.kind, Kind::Final))
}

// A text in lower case.
fn lowered(alloc: Global, text: &[u8]) -> Result<Text, OutOfMemory>
    ensures { OnOk result (result ≡ Ok (lower text.now)) }
{
    let mut out = Text::new(alloc);
    for byte in text {
        out.push(byte.to_ascii_lowercase())?;
    }
    Ok(out)
}

// Whether the patterns of IgnoreUnknown take a keyword.
fn takes_keyword(alloc: Global, ignored: Option<&[u8]>, keyword: &[u8]) -> Result<bool, OutOfMemory>
    ensures { OnOk result (result ≡ Ok (takes_keyword (option_copied ignored.entry) keyword.now)) }
{
    match ignored {
        None => Ok(false),
        Some(patterns) => {
            let patterns = lowered(alloc, patterns)?;
            let keyword = lowered(alloc, keyword)?;
            let answer = matches_list(patterns.as_bytes(), keyword.as_bytes());
            Ok(matches!(answer, ListAnswer::Yes))
        }
    }
}

// The words of a rest.
fn split(alloc: Global, rest: &[u8]) -> Result<Texts, LineError>
    ensures read { GivesLineReading result (split rest.now) }
    ensures plain { IfErr result (λ e. is_line_fault e ≡ false) }
{
    Ok(split_words(alloc, rest)?)
}

// The content of a Host line.
fn host_entry(alloc: Global, rest: &[u8]) -> Result<LineContent, LineError>
    ensures read { GivesLineReading result (host_entry (split rest.now)) }
    ensures fits { IfOk result (λ entry. content_fits entry ≡ true) }
    ensures plain { IfErr result (λ e. is_line_fault e ≡ false) }
{
    Ok(LineContent::Host(split(alloc, rest)?))
}

// The content of a Match line.
fn match_entry(alloc: Global, rest: &[u8]) -> Result<LineContent, LineError>
    ensures read { GivesLineReading result (match_entry (split rest.now)) }
    ensures fits { IfOk result (λ entry. content_fits entry ≡ true) }
    ensures plain { IfErr result (λ e. is_line_fault e ≡ false) }
{
    let words = split(alloc, rest)?;
    Ok(LineContent::Match(read_criteria(alloc, &words)?))
}

// What a line says whose words alone are read.
fn words_entry(alloc: Global, rest: &[u8]) -> Result<LineContent, LineError>
    ensures read { GivesLineReading result (words_entry (split rest.now)) }
    ensures fits { IfOk result (λ entry. content_fits entry ≡ true) }
    ensures plain { IfErr result (λ e. is_line_fault e ≡ false) }
{
    let _words = split(alloc, rest)?;
    Ok(LineContent::Nothing)
}

// What words give to a key.
fn value_entry(
    alloc: Global,
    key: Key,
    rest: &[u8],
    words: &Texts,
) -> Result<LineContent, LineError>
    ensures read { GivesLineReading result (value_entry key rest.now words.now) }
    ensures fits { IfOk result (λ entry. content_fits entry ≡ true) }
    ensures plain { IfErr result (λ e. is_line_fault e ≡ false) }
{
    Ok(LineContent::Gives(key, read_value(alloc, key, rest, words)?))
}

// What a line gives to a key.
fn key_entry(alloc: Global, key: Key, rest: &[u8]) -> Result<LineContent, LineError>
    ensures read { GivesLineReading result (key_entry key rest.now (split rest.now)) }
    ensures fits { IfOk result (λ entry. content_fits entry ≡ true) }
    ensures plain { IfErr result (λ e. is_line_fault e ≡ false) }
{
    if key.is_raw() {
        return value_entry(alloc, key, rest, &Texts::new(alloc));
    }
    let words = split(alloc, rest)?;
    value_entry(alloc, key, rest, &words)
}

// What given words give to a key.
fn parts_key_entry(alloc: Global, key: Key, words: &Texts) -> Result<LineContent, LineError>
    ensures read { GivesLineReading result (key_entry key [] (Ok words.now)) }
    ensures fits { IfOk result (λ entry. content_fits entry ≡ true) }
    ensures plain { IfErr result (λ e. is_line_fault e ≡ false) }
{
    if key.is_raw() {
        return value_entry(alloc, key, b"", &Texts::new(alloc));
    }
    value_entry(alloc, key, b"", words)
}

// What a line of an unknown keyword says.
fn unknown_entry(
    alloc: Global,
    ignored: Option<&[u8]>,
    keyword: &[u8],
    rest: &[u8],
) -> Result<LineContent, LineError>
    ensures read { GivesLineReading result
        (unknown_entry (takes_keyword (option_copied ignored.entry) keyword.now) keyword.now
        (split rest.now)) }
    ensures fits { IfOk result (λ entry. content_fits entry ≡ true) }
    ensures plain { IfErr result (λ e. is_line_fault e ≡ false) }
{
    if takes_keyword(alloc, ignored, keyword)? {
        return words_entry(alloc, rest);
    }
    let keyword = lowered(alloc, keyword)?;
    Err(LineError::Refused(Cause::UnknownKeyword(keyword)))
}

// What given words of an unknown keyword say. The letters of the command line name keys alone, but
// `AskedLine` is public and its keyword any text.
fn parts_unknown_entry(
    alloc: Global,
    ignored: Option<&[u8]>,
    keyword: &[u8],
    words: &Texts,
) -> Result<LineContent, LineError>
    ensures read { GivesLineReading result
        (unknown_entry (takes_keyword (option_copied ignored.entry) keyword.now) keyword.now
        (Ok words.now)) }
    ensures fits { IfOk result (λ entry. content_fits entry ≡ true) }
    ensures plain { IfErr result (λ e. is_line_fault e ≡ false) }
{
    if takes_keyword(alloc, ignored, keyword)? {
        return Ok(LineContent::Nothing);
    }
    let keyword = lowered(alloc, keyword)?;
    Err(LineError::Refused(Cause::UnknownKeyword(keyword)))
}

/// What a line of a file says where these patterns are ignored.
pub fn file_entry(
    alloc: Global,
    ignored: Option<&[u8]>,
    keyword: &[u8],
    rest: &[u8],
) -> Result<LineContent, LineError>
    ensures read { GivesLineReading result
        (headed_entry (option_copied ignored.entry) UserFile (Says keyword.now rest.now)) }
    ensures fits { IfOk result (λ entry. content_fits entry ≡ true) }
    ensures plain { IfErr result (λ e. is_line_fault e ≡ false) }
{
    match kind_of(keyword) {
        KeyKind::Key(key) => key_entry(alloc, key, rest),
        KeyKind::Host => host_entry(alloc, rest),
        KeyKind::Match => match_entry(alloc, rest),
        KeyKind::Include => words_entry(alloc, rest),
        KeyKind::Unchecked => Ok(LineContent::Nothing),
        KeyKind::Unknown => unknown_entry(alloc, ignored, keyword, rest),
    }
}

// What a heading of the command line says.
fn asked_heading(
    alloc: Global,
    ignored: Option<&[u8]>,
    keyword: &[u8],
    rest: &[u8],
) -> Result<LineContent, LineError>
    ensures read { GivesLineReading result
        (headed_entry (option_copied ignored.entry) CommandLine (Says keyword.now rest.now)) }
    ensures fits { IfOk result (λ entry. content_fits entry ≡ true) }
    ensures plain { IfErr result (λ e. is_line_fault e ≡ false) }
{
    match kind_of(keyword) {
        KeyKind::Key(key) => key_entry(alloc, key, rest),
        KeyKind::Host | KeyKind::Match | KeyKind::Include => {
            Err(LineError::Refused(Cause::NotOnCommandLine))
        }
        KeyKind::Unchecked => Ok(LineContent::Nothing),
        KeyKind::Unknown => unknown_entry(alloc, ignored, keyword, rest),
    }
}

// What a line of the command line says that is read as one of a file.
fn asked_text(alloc: Global, ignored: Option<&[u8]>, line: &[u8]) -> Result<LineContent, LineError>
    ensures read { GivesLineReading result
        (spelled_entry (option_copied ignored.entry) CommandLine line.now) }
    ensures fits { IfOk result (λ entry. content_fits entry ≡ true) }
    ensures plain { IfErr result (λ e. is_line_fault e ≡ false) }
{
    match split_head(line)? {
        Head::Blank => Ok(LineContent::Nothing),
        Head::Line { keyword, rest } => asked_heading(alloc, ignored, keyword, rest),
    }
}

// What a keyword of the command line gives with words that are kept as they are.
fn asked_parts(
    alloc: Global,
    ignored: Option<&[u8]>,
    keyword: &[u8],
    words: &Texts,
) -> Result<LineContent, LineError>
    ensures read { GivesLineReading result
        (keyword_entry (option_copied ignored.entry) CommandLine keyword.now [] (Ok words.now)
        (meaning_of keyword.now)) }
    ensures fits { IfOk result (λ entry. content_fits entry ≡ true) }
    ensures plain { IfErr result (λ e. is_line_fault e ≡ false) }
{
    match kind_of(keyword) {
        KeyKind::Key(key) => parts_key_entry(alloc, key, words),
        KeyKind::Host | KeyKind::Match | KeyKind::Include => {
            Err(LineError::Refused(Cause::NotOnCommandLine))
        }
        KeyKind::Unchecked => Ok(LineContent::Nothing),
        KeyKind::Unknown => parts_unknown_entry(alloc, ignored, keyword, words),
    }
}

/// What a line of the command line says where these patterns are ignored.
pub fn asked_entry(
    alloc: Global,
    ignored: Option<&[u8]>,
    line: &AskedLine,
) -> Result<LineContent, LineError>
    ensures read { GivesLineReading result
        (content_entry (option_copied ignored.entry) CommandLine (asked_line line.now).content) }
    ensures fits { IfOk result (λ entry. content_fits entry ≡ true) }
    ensures plain { IfErr result (λ e. is_line_fault e ≡ false) }
{
    match line {
        AskedLine::Line { word: _, line } => asked_text(alloc, ignored, line.as_bytes()),
        AskedLine::Parts {
            word: _,
            keyword,
            words,
        } => asked_parts(alloc, ignored, keyword.as_bytes(), words),
    }
}
