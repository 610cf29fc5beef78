//! Errors of the system as a caller of the outside sees them.
ghost use Rattle.std.specs.Prelude.{◌≡◌, ◌↔◌};
ghost use Rattle.std.specs.IoError.{error_kind};
ghost use Rattle.mux_outside.specs.Counts.{HasCause};
ghost use Rattle.mux_outside.specs.Wire.{MakeFaults};

use mux_outside::{FaultCounts, FileError, Whose, raised};
use std::io;
use std::io::ErrorKind;

/// What an error is: out of memory, or a fault.
pub fn file_error(e: &io::Error) -> FileError
    ensures { (result ≡ FileError.OutOfMemory) ↔ (error_kind e.now ≡ ErrorKind.OutOfMemory) }
{
    match e.kind() {
        ErrorKind::OutOfMemory => FileError::OutOfMemory,
        _ => FileError::Failed,
    }
}

/// Counts a fault, where the answer is one.
pub fn count_failed<T>(answer: &Result<T, FileError>, faults: &mut u64)
    ensures { HasCause answer.now faults.old faults.new }
{
    if let Err(FileError::Failed) = answer {
        *faults = raised(*faults);
    }
}

/// Counts what was to be made and failed: it is a fault of the master's own.
pub fn count_made(answer: &Result<u64, FileError>, faults: &mut FaultCounts)
    ensures { MakeFaults answer.now faults.old faults.new }
{
    if let Err(FileError::Failed) = answer {
        faults.of(Whose::Own);
    }
}
