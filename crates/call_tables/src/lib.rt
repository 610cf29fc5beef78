//! Tables of single calls of the crates below: what each answers, byte for byte. It holds tests
//! alone, and stands apart from the crates that it calls, since a crate with tests is proved once
//! more for them.
#![tactic(auto)]

#[cfg(test)]
mod accounts;
#[cfg(test)]
mod answers;
#[cfg(test)]
mod control_messages;
#[cfg(test)]
mod dialogs;
#[cfg(test)]
mod fields;
#[cfg(test)]
mod frames;
#[cfg(test)]
mod lines;
#[cfg(test)]
mod messages;
#[cfg(test)]
mod relays;
#[cfg(test)]
mod transcripts;
