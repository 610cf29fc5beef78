ghost use Rattle.std.specs.Prelude.{◌≡◌};
ghost use Rattle.mux_outside.specs.declared.file_error.FileError.TheVariants.{OutOfMemory as WantOfMemory};

use ssh_fields::OutOfMemory;
use thiserror::Error;

/// Why a call of the outside has no answer.
#[derive(Clone, Copy, Debug, PartialEq, Eq, Error)]
pub enum FileError {
    /// The outside failed: the object's count of faults rose in this call.
    #[error("failed")]
    Failed,
    /// There was no memory for the answer.
    #[error("out of memory")]
    OutOfMemory,
}

impl From<OutOfMemory> for FileError {
    ghost from_gives = { λ _ e. e ≡ WantOfMemory };

    fn from(_e: OutOfMemory) -> FileError {
        FileError::OutOfMemory
    }
}
