//! The words of the command line: the command that they spell, or the first bad word. `read_words`
//! reads each word into the steps that it represents, walks over them up to the first bad one, and
//! makes the command of the sound ones. Its memory grows with the words alone.
#![tactic(auto)]

mod act;
mod bytes;
mod destinations;
mod drill;
mod entries;
mod forwardings;
mod letters;
mod options;
mod permits;
mod reader;
mod sound;
mod step;
mod walk;

pub use conf_rules::{Asked, AskedLine, AskedLines, Command, ConfigFrom, Usage, UsageError};
pub use drill::drill_of;
pub use reader::{WordsError, read_words};
