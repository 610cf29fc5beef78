//! ssh-mux: the settings of `ssh_config(5)` for a host, the master of connection sharing
//! (PROTOCOL.mux version 4), and the client that asks a running master. The program is `run` of
//! ssh_mux; `main` hands it its outside.
#![tactic(auto)]

mod machine;
mod standard;

use house_forward::Forwarder;
use machine::{facts_of, words_of};
use mux_drill::DrillWire;
use mux_outside::{House, NoHouse, NoNotes, Wire};
use mux_sockets::{RealFiles, RealRunner, RealSink, RealWire};
use ssh_fields::{OutOfMemory, Texts};
use ssh_mux::{Ending, Status, report, run};
use standard::Standard;
use std::fs;
use std::process::ExitCode;

fn main(rt: HostRuntime) -> ExitCode {
    let alloc = rt.alloc();
    let mut err = RealSink::new(Standard::Error(rt.stderr()));
    let status = match start(&rt, &mut err) {
        Ok(status) => status,
        Err(OutOfMemory) => report(alloc, &mut err, &Ending::NoMemory),
    };
    ExitCode::from(status.code())
}

// What stands in for a standard stream that isn't open.
const NOTHING: &str = "/dev/null";

// Runs over the system: a master with forwardings of its own, and a drill without.
fn start(rt: &HostRuntime, err: &mut RealSink<Standard>) -> Result<Status, OutOfMemory> {
    let alloc = rt.alloc();
    // A socket would else get the number of a standard stream that isn't open, and its output.
    let _held = [
        fs::open(rt, NOTHING),
        fs::open(rt, NOTHING),
        fs::open(rt, NOTHING),
    ];
    let words = words_of(rt, alloc)?;
    let ended = if is_drill(&words) {
        drill(rt, &words, err)
    } else {
        serve(rt, &words, err)
    };
    drop(words);
    ended
}

// Runs over a wire in memory, with no forwarder.
fn drill(
    rt: &HostRuntime,
    words: &Texts,
    err: &mut RealSink<Standard>,
) -> Result<Status, OutOfMemory> {
    let mut wire = DrillWire::new(rt.alloc());
    let ended = run_over(rt, words, &mut wire, &mut NoHouse, err);
    drop(wire);
    ended
}

// Runs over the system's sockets, with forwardings of the master's own.
fn serve(
    rt: &HostRuntime,
    words: &Texts,
    err: &mut RealSink<Standard>,
) -> Result<Status, OutOfMemory> {
    let mut house = Forwarder::new(rt.alloc(), NoNotes)?;
    let ended = serve_with(rt, words, &mut house, err);
    drop(house);
    ended
}

// The same, with this forwarder.
fn serve_with<H: House>(
    rt: &HostRuntime,
    words: &Texts,
    house: &mut H,
    err: &mut RealSink<Standard>,
) -> Result<Status, OutOfMemory>
    requires { H.fresh house.old }
{
    let mut wire = RealWire::new(rt.clone()?, rt.alloc());
    let ended = run_over(rt, words, &mut wire, house, err);
    drop(wire);
    ended
}

// Whether the words ask for a drill, whose wire is in memory.
fn is_drill(words: &Texts) -> bool {
    words
        .get(0)
        .is_some_and(|word| word.as_bytes() == b"--drill".as_slice())
}

// Runs over this wire and this forwarder, and over the files, commands and outputs of the system,
// with as many turns as there are.
fn run_over<W: Wire, H: House>(
    rt: &HostRuntime,
    words: &Texts,
    wire: &mut W,
    house: &mut H,
    err: &mut RealSink<Standard>,
) -> Result<Status, OutOfMemory>
    requires { H.fresh house.old }
{
    let alloc = rt.alloc();
    let mut runner = RealRunner::new(rt.clone()?, alloc);
    let mut files = RealFiles::new(rt.clone()?, alloc);
    let facts = facts_of(rt, alloc, &mut files)?;
    let mut out = RealSink::new(Standard::Output(rt.stdout()));
    let ended = run(
        alloc,
        words,
        &facts,
        wire,
        &mut files,
        &mut runner,
        &mut out,
        err,
        house,
        u64::MAX,
    );
    drop(facts);
    Ok(ended)
}
