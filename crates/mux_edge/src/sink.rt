ghost use Rattle.std.specs.Prelude.{◌≡◌, ◌≢◌, None, Err};
ghost use Rattle.mux_outside.specs.Counts.{HasCause, counted as count_after};
ghost use Rattle.mux_edge.specs.Whole.{WritesWhole};

use crate::faults::count_failed;
use mux_outside::{FileError, Sink, counted};
use std::io::{ErrorKind, Write};

/// A writer of the system, as standard output or standard error. It allocates no memory.
#[derive(Drop)]
pub struct RealSink<W: Write + Drop> {
    out: W,
    faults: u64,
    puts: u64,
}

impl<W: Write + Drop> RealSink<W> {
    /// The writer, of which no call has failed.
    pub fn new(out: W) -> RealSink<W>
        ensures out { result.out ≡ out }
        ensures faults { result.faults ≡ 0 }
        ensures puts { result.puts ≡ 0 }
    {
        RealSink {
            out,
            faults: 0,
            puts: 0,
        }
    }
}

impl<W: Write + Drop> Sink for RealSink<W> {
    ghost recorded = { λ _. None };

    ghost faults = { λ s. s.faults };

    ghost puts = { λ s. s.puts };

    fn put(&mut self, bytes: &[u8]) -> Result<(), FileError>
        ensures written { WritesWhole result (W.contents self.old.out) (W.contents self.new.out)
            bytes.now }
        ensures no_memory { result ≢ Err FileError.OutOfMemory }
        ensures cause { HasCause result self.old.faults self.new.faults }
        ensures puts { self.new.puts ≡ count_after self.old.puts }
    {
        self.puts = counted(self.puts);
        let answer = write_whole(&mut self.out, bytes);
        count_failed(&answer, &mut self.faults);
        answer
    }
}

// Writes until all is accepted. A write that accepts nothing is a fault.
fn write_whole<W: Write>(out: &mut W, bytes: &[u8]) -> Result<(), FileError>
    ensures written { WritesWhole result (W.contents out.old) (W.contents out.new) bytes.now }
    ensures no_memory { result ≢ Err FileError.OutOfMemory }
{
    let mut rest = bytes;
    for _ in 0..u64::MAX {
        if rest.is_empty() {
            return out.flush().map_err(|_| FileError::Failed);
        }
        match out.write(rest) {
            Ok(0) => return Err(FileError::Failed),
            Ok(count) => rest = &rest[count..],
            Err(e) if e.kind() == ErrorKind::Interrupted => {}
            Err(_) => return Err(FileError::Failed),
        }
    }
    Err(FileError::Failed)
}
