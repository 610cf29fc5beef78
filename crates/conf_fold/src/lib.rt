//! The outcome of the lines of a configuration, one by one in reading order, as ssh_config(5) has
//! them. `Fold` keeps the settings so far and, of each open file, whether its open block applies.
//! It evaluates the criteria of an active `Match` line, and so runs exactly the commands that are
//! reached. Where a line asks for it, the same lines are given once more.
#![tactic(auto)]

mod entries;
mod fold;

pub use fold::Fold;
