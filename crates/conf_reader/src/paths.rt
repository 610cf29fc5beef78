ghost use Rattle.std.specs.Prelude.{◌≡◌, ◌≤◌, ◌∷◌, ◌++◌, [], ℕ, codes, false, Ok, IfErr, IfOk, OnOk, map, filter, flat_map, length, if◌then◌else◌};
ghost use Rattle.conf_rules.specs.Results.{GivesReading, Fails};
ghost use Rattle.conf_rules.specs.Wants.{token_wants_memory};
ghost use Rattle.conf_rules.specs.Recorded.{Recorded};
ghost use Rattle.conf_rules.specs.Texts.{split_last};
ghost use Rattle.conf_rules.specs.Words.{words_of};
ghost use Rattle.conf_rules.specs.Tokens.{starts_with_slash};
ghost use Rattle.conf_rules.specs.Globs.{is_glob, component_takes};
ghost use Rattle.conf_rules.specs.Order.{sorted};
ghost use Rattle.conf_rules.specs.Includes.{absolute, facts_seen, path_from, paths_from, or_root, below, along, components_of, ends_with_slash, globbed};
ghost use Rattle.conf_rules.specs.Looks.{folders_along, folders_of, looks_in};
ghost use Rattle.mux_outside.specs.Counts.{HasCause};
ghost use Rattle.conf_tokens.specs.Known.{known};
ghost use Rattle.conf_tokens.specs.Seen.{view_as_defined};
ghost use Rattle.conf_reader.specs.Known.{RecordsFiles};
ghost use Rattle.conf_reader.specs.Left.{FoundPaths, named_by, source_of};
ghost use Rattle.conf_reader.specs.Paths.{SameTexts, with_component, all_globbed};
ghost use Rattle.conf_reader.specs.Looking.{FileFails, LineFails};
ghost use Rattle.conf_reader.specs.Results.{HasReadCause};

use crate::errors::LineError;
use conf_lexer::{split_at_first, split_words};
use conf_match::glob_component;
use conf_rules::{LexError, TokenError, TokenSet};
use conf_tokens::{View, expand_path, fact};
use mux_outside::{Facts, FileError, Files};
use ssh_fields::{OutOfMemory, Text, Texts};
use std::alloc::Global;

// What the tokens of a path see: facts alone.
fn view<'a>(facts: &'a Facts, original: &'a [u8]) -> View<'a>
    ensures { view_as_defined result ≡ facts_seen (known facts.now) original.now }
{
    View {
        original,
        host: b"",
        jump: b"",
        tag: b"",
        port: 22,
        user: None,
        alias: None,
        facts,
        last: false,
        name: original,
    }
}

// Whether a path is absolute.
fn starts_with_slash(path: &[u8]) -> bool
    ensures { result ≡ starts_with_slash path.now }
{
    match path {
        [] => false,
        [byte, ..] => *byte == b'/',
    }
}

// A path in the folder of a user's own files.
fn in_home(alloc: Global, home: &[u8], path: &[u8]) -> Result<Text, OutOfMemory>
    ensures { IfOk result (λ whole. whole ≡ home.now ++ (codes "/.ssh/" ++ path.now)) }
{
    let mut whole = Text::copy(alloc, home)?;
    whole.add(b"/.ssh/")?;
    whole.add(path)?;
    Ok(whole)
}

// A path in the folder of the system's files.
fn in_system(alloc: Global, path: &[u8]) -> Result<Text, OutOfMemory>
    ensures { IfOk result (λ whole. whole ≡ codes "/etc/ssh/" ++ path.now) }
{
    let mut whole = Text::copy(alloc, b"/etc/ssh/")?;
    whole.add(path)?;
    Ok(whole)
}

// A path in the folder of its source.
fn in_folder(alloc: Global, facts: &Facts, system: bool, path: &[u8]) -> Result<Text, TokenError>
    ensures { starts_with_slash path.now ≡ false → GivesReading token_wants_memory result
        (absolute (source_of system) (known facts.now) path.now) }
{
    if system {
        return Ok(in_system(alloc, path)?);
    }
    let home = fact(b'd', &facts.home)?;
    Ok(in_home(alloc, home, path)?)
}

// A path that isn't absolute is resolved from the folder of its source.
fn absolute(alloc: Global, facts: &Facts, system: bool, path: Text) -> Result<Text, TokenError>
    ensures { GivesReading token_wants_memory result (absolute (source_of system) (known facts.now) path) }
{
    if starts_with_slash(path.as_bytes()) {
        return Ok(path);
    }
    let whole = in_folder(alloc, facts, system, path.as_bytes());
    drop(path);
    whole
}

// The path of a word.
fn path_of(
    alloc: Global,
    facts: &Facts,
    original: &[u8],
    system: bool,
    word: &[u8],
) -> Result<Text, TokenError>
    ensures { GivesReading token_wants_memory result
        (path_from (source_of system) (known facts.now) original.now word.now) }
{
    let view = view(facts, original);
    let path = expand_path(alloc, false, word, TokenSet::Included, &view)?;
    absolute(alloc, facts, system, path)
}

// Puts the paths of words into an empty list, up to the first refusal.
fn put_paths(
    alloc: Global,
    facts: &Facts,
    original: &[u8],
    system: bool,
    words: &Texts,
    paths: &mut Texts,
) -> Result<(), TokenError>
    requires empty { paths.old ≡ [] }
    ensures ok { OnOk result
        (paths_from (source_of system) (known facts.now) original.now words.now ≡ Ok paths.new) }
    ensures err { IfErr result (λ e. Fails token_wants_memory e
        (paths_from (source_of system) (known facts.now) original.now words.now)) }
{
    for word in words.as_slice() {
        paths.push(path_of(alloc, facts, original, system, word.as_bytes())?)?;
    }
    Ok(())
}

// The paths of words, or the first refusal.
fn paths_of(
    alloc: Global,
    facts: &Facts,
    original: &[u8],
    system: bool,
    words: &Texts,
) -> Result<Texts, TokenError>
    ensures { GivesReading token_wants_memory result
        (paths_from (source_of system) (known facts.now) original.now words.now) }
{
    let mut paths = Texts::new(alloc);
    match put_paths(alloc, facts, original, system, words, &mut paths) {
        Ok(()) => Ok(paths),
        Err(e) => {
            drop(paths);
            Err(e)
        }
    }
}

// Whether a path has a star, a question mark or an open bracket.
fn is_glob(path: &[u8]) -> bool
    ensures { result ≡ is_glob path.now }
{
    path.iter().any(|b| *b == b'*' || *b == b'?' || *b == b'[')
}

// Whether a path ends with a slash.
fn ends_with_slash(path: &[u8]) -> bool
    ensures { result ≡ ends_with_slash path.now }
{
    match path {
        [.., last] => *last == b'/',
        [] => false,
    }
}

// A directory's path; that of the root is a slash.
fn or_root(base: &[u8]) -> &[u8]
    ensures { result.now ≡ or_root base.now }
{
    if base.is_empty() { b"/" } else { base }
}

// A path with one more component.
fn joined(alloc: Global, base: &[u8], name: &[u8]) -> Result<Text, OutOfMemory>
    ensures { IfOk result (λ path. path ≡ base.now ++ 47 ∷ name.now) }
{
    let mut path = Text::copy(alloc, base)?;
    path.push(b'/')?;
    path.add(name)?;
    Ok(path)
}

// Adds a path. It stands apart for its contract alone, which sees the items.
fn put(paths: &mut Vec<Text>, path: Text) -> Result<(), OutOfMemory>
    ensures { OnOk result (paths.new.items ≡ paths.old.items ++ path ∷ []) }
{
    paths.push(path)?;
    Ok(())
}

// Adds a path for each name that a component takes.
fn put_taken(
    alloc: Global,
    paths: &mut Vec<Text>,
    base: &[u8],
    component: &[u8],
    names: &Texts,
) -> Result<(), OutOfMemory>
    ensures { OnOk result (paths.new.items ≡ paths.old.items
        ++ map (λ name. base.now ++ 47 ∷ name) (filter (component_takes component.now) names.now)) }
{
    for name in names.as_slice() {
        if glob_component(component, name.as_bytes()) {
            put(paths, joined(alloc, base, name.as_bytes())?)?;
        }
    }
    Ok(())
}

// Adds the paths that a directory has for a component.
fn put_below<F: Files>(
    alloc: Global,
    paths: &mut Vec<Text>,
    base: &[u8],
    component: &[u8],
    files: &mut F,
) -> Result<(), FileError>
    ensures found { (recorded : Recorded) → RecordsFiles (F.recorded files.old) recorded
        → OnOk result (SameTexts (paths.old.items ++ below recorded component.now base.now)
        paths.new.items) }
    ensures cause { HasCause result (F.faults files.old) (F.faults files.new) }
    ensures failed { FileFails (if is_glob component.now then or_root base.now ∷ [] else []) result
        (F.failed files.old) (F.failed files.new) }
    ensures noted { F.readings files.new ≡ F.readings files.old }
    ensures recorded { F.recorded files.new ≡ F.recorded files.old }
{
    if !is_glob(component) {
        put(paths, joined(alloc, base, component)?)?;
        return Ok(());
    }
    let Some(names) = files.list(or_root(base))? else {
        return Ok(());
    };
    put_taken(alloc, paths, base, component, &names)?;
    Ok(())
}

// The paths with one more component; an empty one is dropped.
fn with_component<F: Files>(
    alloc: Global,
    bases: Vec<Text>,
    component: &[u8],
    files: &mut F,
) -> Result<Vec<Text>, FileError>
    ensures found { (recorded : Recorded) → RecordsFiles (F.recorded files.old) recorded
        → IfOk result (λ paths.
        SameTexts (with_component recorded component.now bases.items) paths.items) }
    ensures cause { HasCause result (F.faults files.old) (F.faults files.new) }
    ensures failed { FileFails (if is_glob component.now then map or_root bases.items else [])
        result (F.failed files.old) (F.failed files.new) }
    ensures noted { F.readings files.new ≡ F.readings files.old }
    ensures recorded { F.recorded files.new ≡ F.recorded files.old }
{
    if component.is_empty() {
        return Ok(bases);
    }
    let mut paths = Vec::new(alloc);
    for base in bases.as_slice() {
        put_below(alloc, &mut paths, base.as_bytes(), component, files)?;
    }
    Ok(paths)
}

// The paths that a path with globs expands to, in whatever order.
fn along<F: Files>(alloc: Global, path: &[u8], files: &mut F) -> Result<Vec<Text>, FileError>
    ensures found { (recorded : Recorded) → RecordsFiles (F.recorded files.old) recorded
        → IfOk result (λ paths.
        SameTexts (along recorded (components_of path.now) ([] ∷ [])) paths.items) }
    ensures cause { HasCause result (F.faults files.old) (F.faults files.new) }
    ensures failed { (recorded : Recorded) → RecordsFiles (F.recorded files.old) recorded
        → FileFails (folders_along recorded (components_of path.now) ([] ∷ [])) result
        (F.failed files.old) (F.failed files.new) }
    ensures noted { F.readings files.new ≡ F.readings files.old }
    ensures recorded { F.recorded files.new ≡ F.recorded files.old }
{
    let mut paths = Vec::new(alloc);
    put(&mut paths, Text::new(alloc))?;
    let mut left = path;
    while let Some((component, rest)) = split_at_first(b'/', left) {
        paths = with_component(alloc, paths, component, files)?;
        left = rest;
    }
    with_component(alloc, paths, left, files)
}

// Puts texts in the order of their bytes.
fn sort(texts: &mut Vec<Text>) -> Result<(), OutOfMemory>
    ensures { OnOk result (texts.new.items ≡ sorted texts.old.items) }
{
    texts.sort_by(|a, b| a.as_bytes().cmp(b.as_bytes()))?;
    Ok(())
}

// Adds texts.
fn add_all(texts: &mut Texts, more: Vec<Text>) -> Result<(), OutOfMemory>
    ensures { OnOk result (texts.new ≡ texts.old ++ more.items) }
{
    for text in more {
        texts.push(text)?;
    }
    Ok(())
}

// The path that one without globs expands to, alone.
fn alone(alloc: Global, path: &[u8]) -> Result<Vec<Text>, OutOfMemory>
    ensures { IfOk result (λ paths. paths.items ≡ path.now ∷ []) }
{
    let path = Text::copy(alloc, path)?;
    let mut paths = Vec::new(alloc);
    match put(&mut paths, path) {
        Ok(()) => Ok(paths),
        Err(e) => {
            drop(paths);
            Err(e)
        }
    }
}

// Texts in the order of their bytes.
fn in_order(texts: Vec<Text>) -> Result<Vec<Text>, OutOfMemory>
    ensures { IfOk result (λ ordered. ordered.items ≡ sorted texts.items) }
{
    let mut ordered = texts;
    match sort(&mut ordered) {
        Ok(()) => Ok(ordered),
        Err(e) => {
            drop(ordered);
            Err(e)
        }
    }
}

// The paths that an absolute path expands to, in the order of their bytes.
#[tactic(auto, unfolding(conf_rules::specs::Includes::globbed))]
fn globbed<F: Files>(alloc: Global, path: &[u8], files: &mut F) -> Result<Vec<Text>, FileError>
    ensures found { (recorded : Recorded) → RecordsFiles (F.recorded files.old) recorded
        → IfOk result (λ paths. paths.items ≡ globbed recorded path.now) }
    ensures cause { HasCause result (F.faults files.old) (F.faults files.new) }
    ensures failed { (recorded : Recorded) → RecordsFiles (F.recorded files.old) recorded
        → FileFails (folders_of recorded path.now) result (F.failed files.old) (F.failed files.new) }
    ensures noted { F.readings files.new ≡ F.readings files.old }
    ensures recorded { F.recorded files.new ≡ F.recorded files.old }
{
    if !is_glob(path) {
        return Ok(alone(alloc, path)?);
    }
    if ends_with_slash(path) {
        return Ok(Vec::new(alloc));
    }
    let paths = along(alloc, path, files)?;
    Ok(in_order(paths)?)
}

// Adds the paths that an absolute path expands to.
fn add_globbed<F: Files>(
    alloc: Global,
    all: &mut Texts,
    path: &[u8],
    files: &mut F,
) -> Result<(), FileError>
    ensures found { (recorded : Recorded) → RecordsFiles (F.recorded files.old) recorded
        → OnOk result (all.new ≡ all.old ++ globbed recorded path.now) }
    ensures cause { HasCause result (F.faults files.old) (F.faults files.new) }
    ensures failed { (recorded : Recorded) → RecordsFiles (F.recorded files.old) recorded
        → FileFails (folders_of recorded path.now) result (F.failed files.old) (F.failed files.new) }
    ensures noted { F.readings files.new ≡ F.readings files.old }
    ensures recorded { F.recorded files.new ≡ F.recorded files.old }
{
    let found = globbed(alloc, path, files)?;
    Ok(add_all(all, found)?)
}

// The paths that absolute paths expand to.
fn all_globbed<F: Files>(alloc: Global, paths: &Texts, files: &mut F) -> Result<Texts, FileError>
    ensures found { (recorded : Recorded) → RecordsFiles (F.recorded files.old) recorded
        → IfOk result (λ found. found ≡ all_globbed recorded paths.now) }
    ensures cause { HasCause result (F.faults files.old) (F.faults files.new) }
    ensures failed { (recorded : Recorded) → RecordsFiles (F.recorded files.old) recorded
        → FileFails (flat_map (folders_of recorded) paths.now) result (F.failed files.old)
        (F.failed files.new) }
    ensures noted { F.readings files.new ≡ F.readings files.old }
    ensures recorded { F.recorded files.new ≡ F.recorded files.old }
{
    let mut all = Texts::new(alloc);
    for path in paths.as_slice() {
        add_globbed(alloc, &mut all, path.as_bytes(), files)?;
    }
    Ok(all)
}

/// The paths that the rest of an Include line names, in reading order. All tokens are expanded
/// before a directory is listed. A rest whose words have no reading names none, since its line is
/// refused.
pub fn named_paths<F: Files>(
    alloc: Global,
    facts: &Facts,
    original: &[u8],
    system: bool,
    rest: &[u8],
    files: &mut F,
) -> Result<Texts, LineError>
    ensures found { (recorded : Recorded) → RecordsFiles (F.recorded files.old) recorded
        → recorded.facts ≡ known facts.now → recorded.asked.original ≡ original.now
        → FoundPaths result (named_by (source_of system) recorded (words_of rest.now)) }
    ensures cause { HasReadCause result (F.faults files.old) (F.faults files.new) }
    ensures failed { (recorded : Recorded) → RecordsFiles (F.recorded files.old) recorded
        → recorded.facts ≡ known facts.now → recorded.asked.original ≡ original.now
        → LineFails (looks_in (source_of system) recorded (words_of rest.now)) result
        (F.failed files.old) (F.failed files.new) }
    ensures noted { F.readings files.new ≡ F.readings files.old }
    ensures recorded { F.recorded files.new ≡ F.recorded files.old }
{
    let words = match split_words(alloc, rest) {
        Ok(words) => words,
        Err(LexError::OutOfMemory) => return Err(LineError::OutOfMemory),
        Err(_) => return Ok(Texts::new(alloc)),
    };
    let named = paths_of(alloc, facts, original, system, &words);
    drop(words);
    let paths = named?;
    let found = all_globbed(alloc, &paths, files);
    drop(paths);
    Ok(found?)
}
