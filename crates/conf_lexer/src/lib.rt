//! Lines and words of a configuration, read as ssh_config(5) defines. `next_line` gives the lines
//! of a text one by one, `split_head` a line's keyword and what follows it, `split_words` the words
//! of that. Both of these name the byte at which a line is refused. What a word's host and its
//! number are stands here too, for the values of a file and for the words of the command line.
#![tactic(auto)]

mod bytes;
mod heads;
mod hosts;
mod lines;
mod numbers;
mod words;

pub use bytes::{first, has_slash, split_at_first, split_at_last};
pub use conf_rules::LexError;
pub use heads::{Head, split_head};
pub use hosts::host_of;
pub use lines::next_line;
pub use numbers::number;
pub use words::split_words;
