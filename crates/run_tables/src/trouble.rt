use ssh_fields::OutOfMemory;
use std::alloc::AllocError;
use thiserror::Error;

/// Why a line of a table can't be taken.
#[derive(Clone, Copy, Debug, Error)]
pub enum Trouble {
    #[error("a line isn't read")]
    Unread,
    #[error("out of memory")]
    OutOfMemory,
}

impl From<OutOfMemory> for Trouble {
    fn from(_e: OutOfMemory) -> Trouble {
        Trouble::OutOfMemory
    }
}

impl From<AllocError> for Trouble {
    fn from(_e: AllocError) -> Trouble {
        Trouble::OutOfMemory
    }
}
