//! A table of rows, line by line.
use crate::play::play;
use crate::row::Row;
use crate::scripted::bytes_of;
use crate::trouble::Trouble;
use mux_outside::{Pair, Pairs};
use ssh_fields::{Text, Texts};
use std::alloc::Global;
use std::str;

/// A table that is being read.
#[derive(Drop)]
pub struct RunTable {
    alloc: Global,
    names: Pairs,
    row: Option<Row>,
    rows: u64,
    as_written: u64,
}

impl RunTable {
    /// A table without a row.
    pub fn new(alloc: Global) -> RunTable {
        RunTable {
            alloc,
            names: Pairs::new(alloc),
            row: None,
            rows: 0,
            as_written: 0,
        }
    }

    /// How many rows were played.
    pub fn rows(&self) -> u64 {
        self.rows
    }

    /// Of how many came what was written.
    pub fn rows_as_written(&self) -> u64 {
        self.as_written
    }

    /// Reads a line. `row NAME` ends the row before, which is run: its outcome, if it isn't what
    /// was written. `let NAME BYTES` names bytes.
    pub fn take(&mut self, line: &str) -> Result<Option<String>, Trouble> {
        match line.strip_prefix("row ") {
            Some(name) => self.next_row(name),
            None => {
                self.read(line)?;
                Ok(None)
            }
        }
    }

    // Ends the row before, and begins one of this name.
    fn next_row(&mut self, name: &str) -> Result<Option<String>, Trouble> {
        let recorded = self.finish();
        self.begin(name)?;
        recorded
    }

    // Begins a row of this name.
    fn begin(&mut self, name: &str) -> Result<(), Trouble> {
        let row = row_of(self.alloc, name)?;
        drop(self.row.replace(row));
        Ok(())
    }

    // Takes a line that begins no row.
    fn read(&mut self, line: &str) -> Result<(), Trouble> {
        if line.is_empty() || line.starts_with('#') {
            return Ok(());
        }
        if let Some(rest) = line.strip_prefix("let ") {
            return self.name_bytes(rest);
        }
        match &mut self.row {
            Some(row) => row.take(line, &self.names),
            None => Err(Trouble::Unread),
        }
    }

    // Names bytes.
    fn name_bytes(&mut self, rest: &str) -> Result<(), Trouble> {
        let (name, words) = rest.split_once(' ').ok_or(Trouble::Unread)?;
        let value = bytes_of(self.alloc, words, &self.names)?;
        let named = pair_of(self.alloc, name, value)?;
        self.names.push(named)?;
        Ok(())
    }

    /// Runs the last test case: its outcome, if it isn't what was written.
    pub fn finish(&mut self) -> Result<Option<String>, Trouble> {
        let Some(mut row) = self.row.take() else {
            return Ok(None);
        };
        let recorded = self.compare(&mut row);
        drop(row);
        recorded
    }

    // Runs a test case: its outcome, if it isn't what was expected.
    fn compare(&mut self, row: &mut Row) -> Result<Option<String>, Trouble> {
        let lines = play(self.alloc, row)?;
        self.rows = self.rows.saturating_add(1);
        let recorded = if are_same(&lines, &row.expected) {
            self.as_written = self.as_written.saturating_add(1);
            Ok(None)
        } else {
            recorded_of(self.alloc, &row.name, &lines).map(Some)
        };
        drop(lines);
        recorded
    }
}

// A row of this name.
fn row_of(alloc: Global, name: &str) -> Result<Row, Trouble> {
    Row::new(alloc, Text::copy(alloc, name.as_bytes())?)
}

// Bytes with a name.
fn pair_of(alloc: Global, name: &str, value: Text) -> Result<Pair, Trouble> {
    let name = Text::copy(alloc, name.as_bytes())?;
    Ok(Pair { name, value })
}

// Whether two lists of lines are the same.
fn are_same(a: &Texts, b: &Texts) -> bool {
    if a.len() != b.len() {
        return false;
    }
    for (x, y) in a.as_slice().iter().zip(b.as_slice()) {
        if x.as_bytes() != y.as_bytes() {
            return false;
        }
    }
    true
}

// A row's name and its lines.
fn recorded_of(alloc: Global, name: &Text, lines: &Texts) -> Result<String, Trouble> {
    let mut recorded = format!(in alloc;
        "row {}\n",
        str::from_utf8(name.as_bytes()).unwrap_or("?")
    )?;
    for line in lines.as_slice() {
        recorded.push_str("> ")?;
        recorded.push_str(str::from_utf8(line.as_bytes()).unwrap_or("?"))?;
        recorded.push('\n')?;
    }
    Ok(recorded)
}
