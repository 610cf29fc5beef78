use crate::key::Key;

/// What a keyword of ssh_config(5) is.
#[derive(Clone, Copy, Drop, PartialEq, Eq)]
pub enum KeyKind {
    /// It sets a key.
    Key(Key),
    /// It opens a block for the names that patterns match.
    Host,
    /// It opens a block that applies if criteria hold.
    Match,
    /// It includes files.
    Include,
    /// It is known, and its rest is neither checked nor listed.
    Unchecked,
    /// It isn't known.
    Unknown,
}
