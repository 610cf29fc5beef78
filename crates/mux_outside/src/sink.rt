ghost use Rattle.std.specs.Prelude.{◌≡◌, ℕ, List, Option};
ghost use Rattle.mux_outside.specs.Counts.{HasCause, counted};
ghost use Rattle.mux_outside.specs.Sink.{TakesRecorded};

use crate::file_error::FileError;

/// What accepts the bytes that are written.
pub trait Sink {
    /// The bytes accepted, in order, if they are recorded.
    ghost recorded: { Self → Option (List ℕ) };

    /// How many calls failed.
    ghost faults: { Self → ℕ };

    /// How many calls of `put` there were, those for which there was no memory among them. It stays
    /// at the end of its type.
    ghost puts: { Self → ℕ };

    /// Hands bytes over. `Ok`: all were accepted; `Failed`: a prefix was accepted; `OutOfMemory`:
    /// nothing was accepted.
    fn put(&mut self, bytes: &[u8]) -> Result<(), FileError>
        ensures taken { TakesRecorded result (recorded self.old) (recorded self.new) bytes.now }
        ensures cause { HasCause result (faults self.old) (faults self.new) }
        ensures puts { puts self.new ≡ counted (puts self.old) };
}
