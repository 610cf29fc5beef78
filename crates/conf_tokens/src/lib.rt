//! Tokens and variables of a text, expanded as ssh_config(5) says (TOKENS, ENVIRONMENT VARIABLES).
//! `expand` takes one scan from the left: what is put in isn't scanned again, and the first place
//! that is refused decides. `View` is what tokens, and the criteria of `Match`, see at a line.
#![tactic(auto)]

mod expansion;
mod facts;
mod parts;
mod put;
mod view;

pub use conf_rules::{TokenError, TokenSet};
pub use expansion::{expand, expand_name, expand_path};
pub use facts::{fact, user};
pub use put::put_number;
pub use view::View;
