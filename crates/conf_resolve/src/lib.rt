//! The settings of the command line and of all files that are asked for, as ssh_config(5) has them.
//! `resolve` gives the lines of `LineReader` to a `Fold`, once, or twice where some `Match` line
//! has the criterion `final`.
#![tactic(auto)]

mod resolution;

pub use resolution::resolve;
