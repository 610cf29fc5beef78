//! Runs a test case.
use crate::answer::{lines_of, summary_of};
use crate::row::Row;
use house_forward::Forwarder;
use mux_drill::DrillWire;
use mux_outside::{House, KeptNotes, ListSink, MapFiles, MapRunner, NoHouse, ScriptWire, Wire};
use ssh_fields::{OutOfMemory, Texts};
use ssh_mux::{Status, run};
use std::alloc::Global;

/// What a run answered, and what it left beside its wire.
#[derive(Drop)]
pub struct Played {
    pub status: Status,
    pub runner: MapRunner,
    pub out: ListSink,
    pub err: ListSink,
    /// Whether the marks of the wire are asked for.
    pub marks: bool,
}

/// Runs a test case: the lines of its outcome. Of a drill what its streams accepted isn't shown.
pub fn play(alloc: Global, row: &mut Row) -> Result<Texts, OutOfMemory> {
    match row.script.take() {
        Some(script) => {
            let mut wire = ScriptWire::new(alloc, script.steps, script.writes, script.fails);
            let lines = scripted_lines(alloc, row, &mut wire);
            drop(wire);
            lines
        }
        None => drill_lines(alloc, row),
    }
}

// Runs a test case over a wire in memory: the lines of its outcome.
fn drill_lines(alloc: Global, row: &mut Row) -> Result<Texts, OutOfMemory> {
    let mut wire = DrillWire::new(alloc);
    let played = play_over(alloc, row, &mut wire, &mut NoHouse);
    let lines = summary_of(alloc, &played, wire.log());
    drop(played);
    drop(wire);
    lines
}

// Runs a test case over this wire: the lines of its outcome.
fn scripted_lines(
    alloc: Global,
    row: &mut Row,
    wire: &mut ScriptWire,
) -> Result<Texts, OutOfMemory> {
    let played = play_scripted(alloc, row, wire)?;
    let lines = lines_of(alloc, &played, wire.log());
    drop(played);
    lines
}

// Runs a test case over this wire, with forwardings of the master's own if it requests them.
fn play_scripted(
    alloc: Global,
    row: &mut Row,
    wire: &mut ScriptWire,
) -> Result<Played, OutOfMemory> {
    if !row.house {
        return Ok(play_over(alloc, row, wire, &mut NoHouse));
    }
    let mut house = Forwarder::new(alloc, KeptNotes::new(alloc))?;
    let played = play_over(alloc, row, wire, &mut house);
    drop(house);
    Ok(played)
}

// Runs a test case over this wire and this forwarder.
fn play_over<W: Wire, H: House>(alloc: Global, row: &mut Row, wire: &mut W, house: &mut H) -> Played
    requires { H.fresh house.old }
{
    let mut runner = row.runner();
    let mut out = row.out();
    let mut err = row.err();
    let status = play_with(alloc, row, wire, &mut runner, &mut out, &mut err, house);
    Played {
        status,
        runner,
        out,
        err,
        marks: row.marks,
    }
}

// The status of a row that is played over this wire, its files and this forwarder.
fn play_with<W: Wire, H: House>(
    alloc: Global,
    row: &mut Row,
    wire: &mut W,
    runner: &mut MapRunner,
    out: &mut ListSink,
    err: &mut ListSink,
    house: &mut H,
) -> Status
    requires { H.fresh house.old }
{
    let mut files = row.files();
    let status = status_over(alloc, row, wire, &mut files, runner, out, err, house);
    drop(files);
    status
}

// The status of a run, by itself: nothing else is proved beside the clauses of `run`.
fn status_over<W: Wire, H: House>(
    alloc: Global,
    row: &Row,
    wire: &mut W,
    files: &mut MapFiles,
    runner: &mut MapRunner,
    out: &mut ListSink,
    err: &mut ListSink,
    house: &mut H,
) -> Status
    requires { H.fresh house.old }
{
    run(
        alloc, &row.words, &row.facts, wire, files, runner, out, err, house, row.turns,
    )
}
