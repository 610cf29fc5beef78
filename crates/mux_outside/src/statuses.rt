use ssh_fields::{ListOf, Text};

/// A command and the status with which it ends.
#[derive(Drop)]
pub struct CommandStatus {
    pub command: Text,
    pub status: u8,
}

/// Commands and their statuses, of equal commands the first counts.
pub type Statuses = ListOf<CommandStatus>;
