//! One test case: what a run goes over, and what its outcome must be.
use crate::facts::{ann, fact, forget_fact};
use crate::scripted::{add_writes, bytes_of, number_of, record_taken, step_of};
use crate::spelling::unescape;
use crate::trouble::Trouble;
use mux_outside::{
    Calls, CommandStatus, Facts, ListSink, MapFiles, MapRunner, Pair, Pairs, Statuses, Steps,
    Writes,
};
use ssh_fields::{OutOfMemory, Text, Texts};
use std::alloc::Global;
use std::mem;

/// What a scripted wire does: its steps, how its writes are answered, and which calls of `open`,
/// `join`, `listen` and `connect` fail.
#[derive(Drop)]
pub struct Script {
    pub steps: Steps,
    pub writes: Writes,
    pub fails: Calls,
}

/// The calls that fail, of each other object, by their numbers.
#[derive(Drop)]
pub struct Fails {
    pub file: Calls,
    pub command: Calls,
    pub out: Calls,
    pub err: Calls,
}

/// A row.
#[derive(Drop)]
pub struct Row {
    alloc: Global,
    pub name: Text,
    pub words: Texts,
    pub files: Pairs,
    pub commands: Statuses,
    pub facts: Facts,
    /// None where the wire is that of a drill.
    pub script: Option<Script>,
    pub fails: Fails,
    pub turns: u64,
    pub marks: bool,
    /// Whether the master has forwardings of its own.
    pub house: bool,
    pub expected: Texts,
}

impl Row {
    /// A row of this name, which says nothing yet.
    pub fn new(alloc: Global, name: Text) -> Result<Row, Trouble> {
        Ok(Row {
            alloc,
            name,
            words: Texts::new(alloc),
            files: Pairs::new(alloc),
            commands: Statuses::new(alloc),
            facts: ann(alloc)?,
            script: Some(Script {
                steps: Steps::new(alloc),
                writes: Writes::new(alloc),
                fails: Calls::new(alloc),
            }),
            fails: Fails {
                file: Calls::new(alloc),
                command: Calls::new(alloc),
                out: Calls::new(alloc),
                err: Calls::new(alloc),
            },
            turns: u64::MAX,
            marks: false,
            house: false,
            expected: Texts::new(alloc),
        })
    }

    /// Its files, which it has no longer.
    pub fn files(&mut self) -> MapFiles {
        let files = mem::replace(&mut self.files, Pairs::new(self.alloc));
        MapFiles::new(self.alloc, files, taken(self.alloc, &mut self.fails.file))
    }

    /// Its commands, which it has no longer.
    pub fn runner(&mut self) -> MapRunner {
        let commands = mem::replace(&mut self.commands, Statuses::new(self.alloc));
        MapRunner::new(
            self.alloc,
            commands,
            taken(self.alloc, &mut self.fails.command),
        )
    }

    /// What stands in for its output.
    pub fn out(&mut self) -> ListSink {
        ListSink::new(self.alloc, taken(self.alloc, &mut self.fails.out))
    }

    /// What stands in for its standard error.
    pub fn err(&mut self) -> ListSink {
        ListSink::new(self.alloc, taken(self.alloc, &mut self.fails.err))
    }

    /// Takes a line of the row. `names` are names of bytes.
    pub fn take(&mut self, line: &str, names: &Pairs) -> Result<(), Trouble> {
        let (head, rest) = line.split_once(' ').unwrap_or((line, ""));
        match head {
            ">" => self.take_expected(rest, names),
            "turns" | "marks" | "house" => self.take_whole(head, rest),
            "fails" => self.take_fails(rest),
            "fact" | "no" | "var" => self.take_known(head, rest),
            "drill" | "writes" => self.take_script(head, rest),
            "words" | "file" | "fill" | "command" => self.take_given(head, rest),
            _ => self.take_step(head, rest, names),
        }
    }

    // What is given for the run as a whole: how many turns there are, that the marks are written,
    // that the master has forwardings of its own.
    fn take_whole(&mut self, head: &str, rest: &str) -> Result<(), Trouble> {
        match head {
            "turns" => self.turns = number_of(rest)?,
            "marks" if rest.is_empty() => self.marks = true,
            "house" if rest.is_empty() => self.house = true,
            _ => return Err(Trouble::Unread),
        }
        Ok(())
    }

    // What the run is given: its words, files and commands.
    fn take_given(&mut self, head: &str, rest: &str) -> Result<(), Trouble> {
        match head {
            "words" => self.take_words(rest),
            "file" => self.take_file(rest),
            "fill" => self.take_fill(rest),
            _ => self.take_command(rest),
        }
    }

    // What is known of the machine.
    fn take_known(&mut self, head: &str, rest: &str) -> Result<(), Trouble> {
        match head {
            "fact" => self.take_fact(rest),
            "no" => forget_fact(&mut self.facts, rest),
            _ => self.take_variable(rest),
        }
    }

    // What is given for the wire as a whole.
    fn take_script(&mut self, head: &str, rest: &str) -> Result<(), Trouble> {
        if head == "writes" {
            return add_writes(&mut self.script()?.writes, rest);
        }
        if !rest.is_empty() {
            return Err(Trouble::Unread);
        }
        self.script = None;
        Ok(())
    }

    // What the wire does.
    fn script(&mut self) -> Result<&mut Script, Trouble> {
        self.script.as_mut().ok_or(Trouble::Unread)
    }

    // The words of the run.
    fn take_words(&mut self, rest: &str) -> Result<(), Trouble> {
        for word in rest.split_whitespace() {
            self.words.push(unescape(self.alloc, word)?)?;
        }
        Ok(())
    }

    // Two texts with a space between them.
    fn pair_in(&self, rest: &str) -> Result<Pair, Trouble> {
        let (name, value) = rest.split_once(' ').unwrap_or((rest, ""));
        Ok(Pair {
            name: unescape(self.alloc, name)?,
            value: unescape(self.alloc, value)?,
        })
    }

    // A file by its path and its text.
    fn take_file(&mut self, rest: &str) -> Result<(), Trouble> {
        let file = self.pair_in(rest)?;
        self.files.push(file)?;
        Ok(())
    }

    // A file by its path, how often its text stands there, and that text.
    fn take_fill(&mut self, rest: &str) -> Result<(), Trouble> {
        let (name, rest) = rest.split_once(' ').unwrap_or((rest, ""));
        let (count, text) = rest.split_once(' ').unwrap_or((rest, ""));
        let text = unescape(self.alloc, text)?;
        let value = repeated(self.alloc, number_of(count)?, text.as_bytes())?;
        let name = unescape(self.alloc, name)?;
        self.files.push(Pair { name, value })?;
        Ok(())
    }

    // A command by its status and its text.
    fn take_command(&mut self, rest: &str) -> Result<(), Trouble> {
        let (status, command) = rest.split_once(' ').unwrap_or((rest, ""));
        let status = status_of(status)?;
        let command = unescape(self.alloc, command)?;
        self.commands.push(CommandStatus { command, status })?;
        Ok(())
    }

    // A fact by its name and its value.
    fn take_fact(&mut self, rest: &str) -> Result<(), Trouble> {
        let (name, value) = rest.split_once(' ').unwrap_or((rest, ""));
        *fact(&mut self.facts, name)? = Some(unescape(self.alloc, value)?);
        Ok(())
    }

    // A variable of the environment.
    fn take_variable(&mut self, rest: &str) -> Result<(), Trouble> {
        let variable = self.pair_in(rest)?;
        self.facts.vars.push(variable)?;
        Ok(())
    }

    // The calls of an object that fail.
    fn take_fails(&mut self, rest: &str) -> Result<(), Trouble> {
        let (object, numbers) = rest.split_once(' ').unwrap_or((rest, ""));
        let calls = self.calls(object)?;
        for number in numbers.split_whitespace() {
            calls.push(number_of(number)?)?;
        }
        Ok(())
    }

    // The failing calls of an object.
    fn calls(&mut self, object: &str) -> Result<&mut Calls, Trouble> {
        match object {
            "open" => Ok(&mut self.script()?.fails),
            "file" => Ok(&mut self.fails.file),
            "command" => Ok(&mut self.fails.command),
            "out" => Ok(&mut self.fails.out),
            "err" => Ok(&mut self.fails.err),
            _ => Err(Trouble::Unread),
        }
    }

    // A step of the wire.
    fn take_step(&mut self, head: &str, rest: &str, names: &Pairs) -> Result<(), Trouble> {
        let step = step_of(self.alloc, head, rest, names)?;
        self.script()?.steps.push(step)?;
        Ok(())
    }

    // A line that must come; that of bytes is spelled as they are shown.
    fn take_expected(&mut self, rest: &str, names: &Pairs) -> Result<(), Trouble> {
        let mut line = Text::new(self.alloc);
        match rest.strip_prefix("took ") {
            None => line.add(rest.as_bytes())?,
            Some(took) => expect_taken(&mut line, self.alloc, took, names)?,
        }
        self.expected.push(line)?;
        Ok(())
    }
}

// The line of what a stream must take.
fn expect_taken(line: &mut Text, alloc: Global, took: &str, names: &Pairs) -> Result<(), Trouble> {
    let (stream, bytes) = took.split_once(' ').unwrap_or((took, ""));
    let bytes = bytes_of(alloc, bytes, names)?;
    record_taken(line, stream.as_bytes(), bytes.as_bytes())?;
    Ok(())
}

// Calls, which are moved out of where they stood.
fn taken(alloc: Global, calls: &mut Calls) -> Calls {
    mem::replace(calls, Calls::new(alloc))
}

// Bytes so often.
fn repeated(alloc: Global, count: u64, bytes: &[u8]) -> Result<Text, OutOfMemory> {
    let mut repeated = Text::new(alloc);
    for _ in 0..count {
        repeated.add(bytes)?;
    }
    Ok(repeated)
}

// The status of a command.
fn status_of(word: &str) -> Result<u8, Trouble> {
    word.parse::<u8>().map_err(|_| Trouble::Unread)
}
