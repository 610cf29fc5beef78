ghost use Rattle.std.specs.Prelude.{◌≡◌};
ghost use Rattle.conf_rules.specs.Diagnostics.{line_of, NoMemory};
ghost use Rattle.ssh_mux.specs.Ending.{ending_shown};
ghost use Rattle.mux_outside.specs.Counts.{counted};
ghost use Rattle.ssh_mux.specs.Err.{Reports, PutsLine};

use crate::ending::{Ending, NO_MEMORY};
use crate::status::Status;
use mux_outside::{FileError, Sink};
use std::alloc::Global;

/// Reports how the run ended, in one line, and returns its status. Where there is no memory for
/// that very line, the status is out of memory.
pub fn report<S: Sink>(alloc: Global, err: &mut S, ending: &Ending) -> Status
    ensures recorded { Reports result (ending_shown ending.now)
        (S.recorded err.old) (S.recorded err.new) (S.faults err.old) (S.faults err.new) }
    ensures once { S.puts err.new ≡ counted (S.puts err.old) }
{
    if let Some(line) = ending.fixed_line() {
        return put_line(err, line, ending.status());
    }
    match ending.built_line(alloc) {
        Ok(line) => put_line(err, line.as_bytes(), ending.status()),
        Err(_) => put_line(err, NO_MEMORY, Status::Memory),
    }
}

// Hands a line over, whole.
fn put_line<S: Sink>(err: &mut S, line: &[u8], status: Status) -> Status
    ensures recorded { PutsLine result status line.now
        (S.recorded err.old) (S.recorded err.new) (S.faults err.old) (S.faults err.new) }
    ensures once { S.puts err.new ≡ counted (S.puts err.old) }
{
    match err.put(line) {
        Ok(()) | Err(FileError::Failed) => status,
        Err(FileError::OutOfMemory) => Status::Memory,
    }
}
