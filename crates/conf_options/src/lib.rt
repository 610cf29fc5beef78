//! The keywords of ssh_config(5): what each is, the values that it accepts, and the settings that
//! keep them. `kind_of` looks a keyword up by its length and a few comparisons. `read_value`
//! returns what a line gives, or why it is refused. `Settings` keep of each key what counts: the
//! first value, all, or the patterns that no later one removes.
#![tactic(auto)]

mod forms;
mod forwards;
mod kinds;
mod patterns;
mod settings;
mod times;
mod values;
mod words;

pub use conf_rules::{End, Forward, Key, KeyKind, Value, ValueError};
pub use kinds::kind_of;
pub use settings::Settings;
pub use times::time_of;
pub use values::read_value;
