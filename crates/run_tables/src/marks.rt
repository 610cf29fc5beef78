//! The marks of a wire as lines.
use crate::spelling::{add_number, escape};
use mux_outside::{HouseMark, KeptStreams, Mark, Order, Want};
use ssh_fields::{OutOfMemory, Text, Texts};
use std::alloc::Global;

/// Adds a line for each mark.
pub fn add_marks(lines: &mut Texts, alloc: Global, marks: &[Mark]) -> Result<(), OutOfMemory> {
    for mark in marks {
        lines.push(mark_line(alloc, mark)?)?;
    }
    Ok(())
}

// The line of a mark.
fn mark_line(alloc: Global, mark: &Mark) -> Result<Text, OutOfMemory> {
    let mut line = Text::new(alloc);
    record_mark(&mut line, alloc, mark)?;
    Ok(line)
}

// Writes a mark.
fn record_mark(line: &mut Text, alloc: Global, mark: &Mark) -> Result<(), OutOfMemory> {
    match mark {
        Mark::Waits(waiting, want, open, shown) => {
            record_wait(line, alloc, waiting, *want, open, shown.as_shown().listens)
        }
        Mark::Accepts(stream) => record_stream(line, alloc, b"accepts", *stream),
        Mark::Gets(stream, bytes) => record_bytes(line, alloc, b"gets", *stream, bytes),
        Mark::Ends(stream) => record_stream(line, alloc, b"ends", *stream),
        Mark::Frees(stream) => record_stream(line, alloc, b"frees", *stream),
        Mark::Fails(stream) => record_stream(line, alloc, b"fails", *stream),
        Mark::Takes(stream, bytes, _) => record_bytes(line, alloc, b"takes", *stream, bytes),
        Mark::Holds(stream) => record_stream(line, alloc, b"holds", *stream),
        Mark::WriteFails(stream) => record_stream(line, alloc, b"loses", *stream),
        Mark::Joins(listener, stream) => record_join(line, alloc, *listener, *stream),
        Mark::House(mark) => record_house(line, alloc, mark.as_mark()),
    }
}

// Writes a wait: the streams that are open; after `for` those that are waited for, `only` where
// nothing else is wanted; `deaf` where no client is accepted.
fn record_wait(
    line: &mut Text,
    alloc: Global,
    waiting: &KeptStreams,
    want: Want,
    open: &KeptStreams,
    listens: bool,
) -> Result<(), OutOfMemory> {
    record_streams(line, alloc, b"waits", open.as_slice())?;
    if !waiting.as_slice().is_empty() {
        record_streams(line, alloc, b" for", waiting.as_slice())?;
    }
    line.add(wanted(want))?;
    line.add(heard(listens))
}

// What is written where nothing else is wanted.
fn wanted(want: Want) -> &'static [u8] {
    if want == Want::WriteOnly {
        b" only"
    } else {
        b""
    }
}

/// What is written where no client is accepted.
pub fn heard(listens: bool) -> &'static [u8] {
    if listens { b"" } else { b" deaf" }
}

/// Writes the numbers of streams after their heading.
pub fn record_streams(
    line: &mut Text,
    alloc: Global,
    head: &[u8],
    streams: &[u64],
) -> Result<(), OutOfMemory> {
    line.add(head)?;
    for stream in streams {
        add_number(line, alloc, *stream)?;
    }
    Ok(())
}

// Writes an accepted socket: its listener and its stream.
fn record_join(
    line: &mut Text,
    alloc: Global,
    listener: u64,
    stream: u64,
) -> Result<(), OutOfMemory> {
    record_stream(line, alloc, b"joins", listener)?;
    add_number(line, alloc, stream)
}

// Writes a forwarder's mark.
fn record_house(line: &mut Text, alloc: Global, mark: &HouseMark) -> Result<(), OutOfMemory> {
    match mark {
        HouseMark::HouseIn => line.add(b"house in"),
        HouseMark::HouseSaid(_) => line.add(b"house said"),
        HouseMark::HouseTook(_) => line.add(b"house took"),
        HouseMark::HouseAsked { .. } => line.add(b"house asked"),
        HouseMark::HouseAnswer { .. } => line.add(b"house answer"),
        HouseMark::HouseOrder { order, number } => {
            record_order(line, alloc, order)?;
            record_made(line, alloc, *number)
        }
    }
}

// Writes the number of what an order made.
fn record_made(line: &mut Text, alloc: Global, number: Option<u64>) -> Result<(), OutOfMemory> {
    match number {
        Some(made) => record_stream(line, alloc, b" as", made),
        None => Ok(()),
    }
}

// Writes the order of a forwarder.
fn record_order(line: &mut Text, alloc: Global, order: &Order) -> Result<(), OutOfMemory> {
    match order {
        Order::Listen { host, port } => record_place(line, alloc, b"house listens ", host, *port),
        Order::Connect { host, port } => record_place(line, alloc, b"house connects ", host, *port),
        Order::Unlisten(listener) => record_stream(line, alloc, b"house unlistens", *listener),
        Order::Pause(stream) => record_stream(line, alloc, b"house pauses", *stream),
        Order::Resume(stream) => record_stream(line, alloc, b"house resumes", *stream),
        Order::Finish(stream) => record_stream(line, alloc, b"house finishes", *stream),
        Order::Close(stream) => record_stream(line, alloc, b"house closes", *stream),
    }
}

// Writes a host and a port after their heading.
fn record_place(
    line: &mut Text,
    alloc: Global,
    head: &[u8],
    host: &Text,
    port: u32,
) -> Result<(), OutOfMemory> {
    line.add(head)?;
    escape(line, host.as_bytes())?;
    add_number(line, alloc, u64::from(port))
}

// Writes what happened to a stream.
fn record_stream(
    line: &mut Text,
    alloc: Global,
    head: &[u8],
    stream: u64,
) -> Result<(), OutOfMemory> {
    line.add(head)?;
    add_number(line, alloc, stream)
}

// The same with a count of bytes.
fn record_bytes(
    line: &mut Text,
    alloc: Global,
    head: &[u8],
    stream: u64,
    bytes: &Text,
) -> Result<(), OutOfMemory> {
    record_stream(line, alloc, head, stream)?;
    add_number(line, alloc, bytes.as_bytes().len() as u64)
}
