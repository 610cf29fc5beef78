//! The lines of all files that are asked for, one by one in reading order, as ssh_config(5) has
//! them. `LineReader` opens the files that an Include line names after that line. At most 17 files
//! are open.
#![tactic(auto)]

mod errors;
mod files;
mod including;
mod line;
mod line_reader;
mod lines;
mod open_file;
mod paths;
mod stack;
mod steps;
mod taking;

pub use errors::{LineError, refuse};
pub use line::ConfLine;
pub use line_reader::LineReader;
