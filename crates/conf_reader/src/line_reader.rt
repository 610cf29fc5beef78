ghost use Rattle.std.specs.Prelude.{◌≡◌, ◌≤◌, ◌+◌, ◌++◌, ◌∷◌, [], ℕ, IfOk, IfSome, OnOk, Ok, None, codes};
ghost use Rattle.conf_tokens.specs.Known.{known};
ghost use Rattle.std.specs.Prelude.{true, false};
ghost use Rattle.std.specs.List.{list_all};
ghost use Rattle.conf_reader.specs.Firsts.{firsts_of};
ghost use Rattle.conf_reader.specs.Left.{is_plain_first};
ghost use Rattle.conf_reader.specs.Between.{is_between, ends_where};

use crate::line::ConfLine;
use crate::lines::{FirstFile, Lines};
use conf_rules::{Asked, ConfigFrom, ResolveError};
use mux_outside::{Facts, Files, Pair, Pairs};
use ssh_fields::{OutOfMemory, Text};
use std::alloc::Global;

// A copy of a text, if there is one.
fn copied(alloc: Global, text: &Option<Text>) -> Result<Option<Text>, OutOfMemory>
    ensures { IfOk result (λ copy. copy ≡ text.now) }
{
    match text {
        None => Ok(None),
        Some(text) => Ok(Some(Text::copy(alloc, text.as_bytes())?)),
    }
}

// Adds a copy of a pair.
fn put_copy(alloc: Global, pair: &Pair, pairs: &mut Pairs) -> Result<(), OutOfMemory>
    ensures { OnOk result (pairs.new ≡ pairs.old ++ pair.now ∷ []) }
{
    let name = Text::copy(alloc, pair.name.as_bytes())?;
    match Text::copy(alloc, pair.value.as_bytes()) {
        Ok(value) => pairs.push(Pair { name, value }),
        Err(e) => {
            drop(name);
            Err(e)
        }
    }
}

// A copy of pairs.
fn copied_pairs(alloc: Global, pairs: &Pairs) -> Result<Pairs, OutOfMemory>
    ensures { IfOk result (λ copy. copy ≡ pairs.now) }
{
    let mut copy = Pairs::new(alloc);
    for pair in pairs.as_slice() {
        put_copy(alloc, pair, &mut copy)?;
    }
    Ok(copy)
}

// Facts of which nothing is known.
fn no_facts(alloc: Global) -> Facts {
    Facts {
        home: None,
        local_user: None,
        uid: None,
        host_name: None,
        vars: Pairs::new(alloc),
        pid: None,
    }
}

// Copies facts over others.
fn copy_facts(alloc: Global, facts: &Facts, copy: &mut Facts) -> Result<(), OutOfMemory>
    ensures { OnOk result (known copy.new ≡ known facts.now) }
{
    copy.home = copied(alloc, &facts.home)?;
    copy.local_user = copied(alloc, &facts.local_user)?;
    copy.uid = copied(alloc, &facts.uid)?;
    copy.host_name = copied(alloc, &facts.host_name)?;
    copy.vars = copied_pairs(alloc, &facts.vars)?;
    copy.pid = facts.pid;
    Ok(())
}

// Adds a first file. It stands apart for its contract alone, which sees the items.
fn put(
    firsts: &mut Vec<FirstFile>,
    system: bool,
    required: bool,
    path: Text,
) -> Result<(), OutOfMemory>
    ensures { OnOk result (firsts.new.items ≡ firsts.old.items
        ++ record { system = system; required = required; path = path } ∷ []) }
{
    firsts.push(FirstFile {
        system,
        required,
        path,
    })?;
    Ok(())
}

// The path of the user's file.
fn user_path(alloc: Global, home: &[u8]) -> Result<Text, OutOfMemory>
    ensures { IfOk result (λ path. path ≡ home.now ++ codes "/.ssh/config") }
{
    let mut path = Text::copy(alloc, home)?;
    path.add(b"/.ssh/config")?;
    Ok(path)
}

// The files that no line includes, in the order in which they are read.
fn first_files(
    alloc: Global,
    from: &ConfigFrom,
    home: &Option<Text>,
) -> Result<Vec<FirstFile>, OutOfMemory>
    ensures { IfOk result (λ firsts. firsts.items ≡ firsts_of home.now from.now) }
{
    let mut firsts = Vec::new(alloc);
    match from {
        ConfigFrom::Nothing => {}
        ConfigFrom::File(path) => {
            let path = Text::copy(alloc, path.as_bytes())?;
            put(&mut firsts, false, true, path)?;
        }
        ConfigFrom::Standard => {
            if let Some(home) = home {
                let path = user_path(alloc, home.as_bytes())?;
                put(&mut firsts, false, false, path)?;
            }
            let path = Text::copy(alloc, b"/etc/ssh/ssh_config")?;
            put(&mut firsts, true, false, path)?;
        }
    }
    Ok(firsts)
}

/// Gives the lines of all files that are asked for one by one, without comments and empty lines.
/// The files that an Include line names are opened by the call after the one that gives it. After a
/// refusal, a fault and running out of memory, and at the end, it gives no line.
#[derive(Drop)]
pub struct LineReader {
    lines: Lines,
    facts: Facts,
    original: Text,
    // Whether no line comes any more.
    over: bool,
    ghost between: { is_between lines.open_files ≡ true },
    ghost plain: { list_all is_plain_first lines.firsts.items ≡ true },
    ghost ended: { ends_where over lines ≡ true },
}

impl LineReader {
    ghost use Rattle.conf_rules.specs.Recorded.{Recorded};
    ghost use Rattle.conf_rules.specs.Sources.{lines_from};
    ghost use Rattle.conf_reader.specs.FilesState.{files_state_of};
    ghost use Rattle.conf_reader.specs.Left.{lines_to_give, Bounded};
    ghost use Rattle.conf_reader.specs.Moving.{ReadsFor};
    ghost use Rattle.conf_reader.specs.ReaderReads.{IsAtEnd, IsGivenFrom, IsReadingOver, KeepsAsked, open_count, is_spent};
    ghost use Rattle.conf_reader.specs.Looking.{Test, meets};
    ghost use Rattle.conf_reader.specs.ToRead.{all_to_read};
    ghost use Rattle.conf_reader.specs.Uses.{UsesFilesFor, behind_call, of_all};
    ghost use Rattle.conf_rules.specs.ReadOrder.{read_once};

    /// A reader of the files that are asked for.
    pub fn new(alloc: Global, asked: &Asked, facts: &Facts) -> Result<LineReader, OutOfMemory>
        ensures left { IfOk result (λ reader. (recorded : Recorded) (place : ℕ)
            → recorded.facts ≡ known facts.now → lines_to_give recorded place [] reader.lines
            ≡ lines_from recorded place asked.now.from) }
        ensures facts { IfOk result (λ reader. (known reader.facts ≡ known facts.now)
            × (reader.original ≡ asked.now.original)) }
        ensures none { IfOk result (λ reader. (open_count reader.lines ≡ 0)
            × Bounded reader.lines.open_files 0) }
        ensures firsts { IfOk result (λ reader. reader.lines.firsts.items
            ≡ firsts_of facts.now.home asked.now.from) }
        ensures looks { IfOk result (λ reader. (test : Test) (recorded : Recorded)
            → meets test recorded reader.lines.open_files ≡ true) }
        ensures reads { IfOk result (λ reader. (recorded : Recorded) → recorded.facts ≡ known facts.now
            → all_to_read recorded reader.lines ≡ read_once recorded asked.now.from) }
        ensures read { IfOk result (λ reader. reader.lines.read ≡ 0) }
        ensures fresh { IfOk result (λ reader. is_spent reader ≡ false) }
    {
        let firsts = first_files(alloc, &asked.from, &facts.home)?;
        let mut reader = LineReader {
            lines: Lines::new(alloc, firsts),
            facts: no_facts(alloc),
            original: Text::new(alloc),
            over: false,
        };
        match reader.note(alloc, asked, facts) {
            Ok(()) => Ok(reader),
            Err(e) => {
                drop(reader);
                Err(e)
            }
        }
    }

    // Notes what is asked for and what is known.
    fn note(&mut self, alloc: Global, asked: &Asked, facts: &Facts) -> Result<(), OutOfMemory>
        ensures noted { OnOk result ((known self.new.facts ≡ known facts.now)
            × (self.new.original ≡ asked.now.original)) }
        ensures lines { self.new.lines ≡ self.old.lines }
        ensures over { self.new.over ≡ self.old.over }
    {
        copy_facts(alloc, facts, &mut self.facts)?;
        self.original = Text::copy(alloc, asked.original.as_bytes())?;
        Ok(())
    }

    /// The next line of the files that has content; `None` at the end, and after every `Err`.
    /// Refused are files, line counts, zero bytes, forms of lines, and what an Include line names,
    /// each at its line. A fault is one of reading, and comes only where that of `files` rose. It
    /// is reported at the Include line that names what is read, or, for a file that no line
    /// includes, at its line 0.
    pub fn next<F: Files>(&mut self, files: &mut F) -> Result<Option<ConfLine>, ResolveError>
        ensures reads { ReadsFor (F.recorded files.old) (known self.old.facts) self.old.original
            self.old.lines self.new.lines result }
        ensures given { IfOk result (λ given.
            IfSome given (IsGivenFrom self.old.lines self.new.lines)) }
        ensures over { IsReadingOver result → IsAtEnd self.new }
        ensures spent { is_spent self.old ≡ true → result ≡ Ok None }
        ensures asked { KeepsAsked self.old self.new }
        ensures files { UsesFilesFor (known self.old.facts) self.old.original
            (files_state_of F.Files files.old) (files_state_of F.Files files.new) (of_all self.old.lines)
            (behind_call result self.new.lines) result }
    {
        if self.over {
            return Ok(None);
        }
        let given = self
            .lines
            .next(&self.facts, self.original.as_bytes(), files);
        if !matches!(given, Ok(Some(_))) {
            self.lines.end();
            self.over = true;
        }
        given
    }

    /// How many files are open.
    pub fn open_files(&self) -> usize
        ensures few { result ≤ 17 }
        ensures count { result ≡ open_count self.now.lines }
    {
        let top = if self.lines.open_files.top.is_some() {
            1
        } else {
            0
        };
        self.lines.open_files.below.len() + top
    }
}
