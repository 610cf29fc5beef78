ghost use Rattle.std.specs.Prelude.{◌≡◌, ◌≤◌, ℕ, List, length, Option, IfOk, IfSome};
ghost use Rattle.mux_outside.specs.declared.pairs.Pair.{Pair as ThePair};
ghost use Rattle.mux_outside.specs.declared.reading.Reading.{Reading as TheReading};
ghost use Rattle.mux_outside.specs.Counts.{HasCause};
ghost use Rattle.mux_outside.specs.Files.{Reads, Lists, NotesFailed, NotesReading};

use crate::file_error::FileError;
use ssh_fields::{Text, Texts};

/// Files and directories. No call changes what is recorded of them.
pub trait Files {
    /// The paths and contents of all files, if they are recorded.
    ghost recorded: { Self → Option (List ThePair) };

    /// How many calls failed.
    ghost faults: { Self → ℕ };

    /// The paths that the calls which failed were given, in their order, if they are recorded.
    ghost failed: { Self → Option (List (List ℕ)) };

    /// The calls of `read`, in their order, if they are recorded: each but those for which there
    /// was no memory.
    ghost readings: { Self → Option (List TheReading) };

    /// The first `most` bytes of a file, fewer where it is shorter. `None`: there is no such file,
    /// or the path names a directory.
    fn read(&mut self, path: &[u8], most: usize) -> Result<Option<Text>, FileError>
        ensures reads { Reads (recorded self.old) path.now most result }
        ensures at_most { IfOk result (λ found. IfSome found (λ text. length text ≤ most)) }
        ensures cause { HasCause result (faults self.old) (faults self.new) }
        ensures failed { NotesFailed result path.now (failed self.old) (failed self.new) }
        ensures noted { NotesReading result path.now most (readings self.old) (readings self.new) }
        ensures recorded { recorded self.new ≡ recorded self.old };

    /// The names in a directory, in any order. `None`: there is no such directory.
    fn list(&mut self, dir: &[u8]) -> Result<Option<Texts>, FileError>
        ensures lists { Lists (recorded self.old) dir.now result }
        ensures cause { HasCause result (faults self.old) (faults self.new) }
        ensures failed { NotesFailed result dir.now (failed self.old) (failed self.new) }
        ensures noted { readings self.new ≡ readings self.old }
        ensures recorded { recorded self.new ≡ recorded self.old };
}
