//! The outcome of a test case, as lines.
use crate::marks::{add_marks, heard, record_streams};
use crate::play::Played;
use crate::spelling::{add_number, escape, spell_frames};
use mux_outside::{OpenCall, WireLog};
use ssh_fields::{OutOfMemory, Text, Texts};
use std::alloc::Global;

/// The number of the first listener or stream of the master's own.
const FIRST_OWN: u64 = 0x8000_0000_0000_0000;

/// The lines of the outcome of a test case: those of its summary; what each stream accepted, frame
/// by frame; the streams that are open at the end; and the marks of the wire, if the test case
/// requests them.
pub fn lines_of(alloc: Global, played: &Played, log: &WireLog) -> Result<Texts, OutOfMemory> {
    let mut lines = summary_of(alloc, played, log)?;
    add_taken(&mut lines, alloc, log)?;
    if played.marks {
        add_marks(&mut lines, alloc, log.marks())?;
    }
    Ok(lines)
}

/// The status, what both outputs accepted, which commands were run, and how the wire was opened or
/// joined.
pub fn summary_of(alloc: Global, played: &Played, log: &WireLog) -> Result<Texts, OutOfMemory> {
    let mut lines = Texts::new(alloc);
    add_answer(&mut lines, alloc, played)?;
    add_openings(&mut lines, alloc, log)?;
    Ok(lines)
}

// Adds the status, what both outputs accepted, and which commands were run.
fn add_answer(lines: &mut Texts, alloc: Global, played: &Played) -> Result<(), OutOfMemory> {
    lines.push(status_line(alloc, played)?)?;
    add_text(lines, alloc, b"out ", played.out.taken())?;
    add_text(lines, alloc, b"err ", played.err.taken())?;
    for command in played.runner.ran().as_slice() {
        add_text(lines, alloc, b"ran ", command.as_bytes())?;
    }
    Ok(())
}

// The line of the status.
fn status_line(alloc: Global, played: &Played) -> Result<Text, OutOfMemory> {
    let mut line = Text::copy(alloc, b"status")?;
    add_number(&mut line, alloc, u64::from(played.status.code()))?;
    Ok(line)
}

// Adds how the wire was opened or joined.
fn add_openings(lines: &mut Texts, alloc: Global, log: &WireLog) -> Result<(), OutOfMemory> {
    for opening in log.openings() {
        lines.push(opening_line(alloc, opening)?)?;
    }
    for joining in log.joinings() {
        add_text(lines, alloc, b"joined ", joining.as_bytes())?;
    }
    Ok(())
}

// Adds a line of a text that isn't empty.
fn add_text(lines: &mut Texts, alloc: Global, head: &[u8], text: &[u8]) -> Result<(), OutOfMemory> {
    if text.is_empty() {
        return Ok(());
    }
    lines.push(text_line(alloc, head, text)?)
}

// The line of a text.
fn text_line(alloc: Global, head: &[u8], text: &[u8]) -> Result<Text, OutOfMemory> {
    let mut line = Text::new(alloc);
    record_text(&mut line, head, text)?;
    Ok(line)
}

// Writes a text after its heading.
fn record_text(line: &mut Text, head: &[u8], text: &[u8]) -> Result<(), OutOfMemory> {
    line.add(head)?;
    escape(line, text)
}

// The line of how the wire was opened.
fn opening_line(alloc: Global, opening: &OpenCall) -> Result<Text, OutOfMemory> {
    let mut line = text_line(alloc, b"opened ", opening.control.as_bytes())?;
    record_text(&mut line, b" over ", opening.transport.as_bytes())?;
    Ok(line)
}

// Adds what each stream of these accepted.
fn add_takings(
    lines: &mut Texts,
    alloc: Global,
    log: &WireLog,
    first: u64,
    last: u64,
) -> Result<(), OutOfMemory> {
    for stream in first..=last {
        add_taking(lines, alloc, stream, &log.taken(stream)?)?;
    }
    Ok(())
}

// Adds what a stream accepted, where that is anything.
fn add_taking(
    lines: &mut Texts,
    alloc: Global,
    stream: u64,
    bytes: &Text,
) -> Result<(), OutOfMemory> {
    if bytes.as_bytes().is_empty() {
        return Ok(());
    }
    lines.push(taken_line(alloc, stream, bytes.as_bytes())?)
}

// The line of what a stream accepted.
fn taken_line(alloc: Global, stream: u64, bytes: &[u8]) -> Result<Text, OutOfMemory> {
    let mut line = Text::copy(alloc, b"took")?;
    add_number(&mut line, alloc, stream)?;
    spell_frames(&mut line, bytes)?;
    Ok(line)
}

// Adds what each stream accepted, the master's own after the others, and the streams that are open.
fn add_taken(lines: &mut Texts, alloc: Global, log: &WireLog) -> Result<(), OutOfMemory> {
    if log.openings().is_empty() && log.joinings().is_empty() {
        return Ok(());
    }
    add_takings(lines, alloc, log, 0, log.last())?;
    add_takings(lines, alloc, log, FIRST_OWN, log.state().last_own())?;
    lines.push(left_line(alloc, log)?)
}

// The line of the streams that are open.
fn left_line(alloc: Global, log: &WireLog) -> Result<Text, OutOfMemory> {
    let mut line = Text::new(alloc);
    record_streams(&mut line, alloc, b"left", log.streams().as_slice())?;
    line.add(heard(log.is_listening()))?;
    Ok(line)
}
