//! The settings of ssh_config(5) as `ssh-mux -G` lists them, and the path of the control socket.
//! Both are made from `Settings`, once all lines are read. Keys come in one order: user, host name
//! and port, then the others by their keywords. A key that isn't set is listed with its default, if
//! it has one.
#![tactic(auto)]

mod defaults;
mod keys;
mod known;
mod output;
mod spelling;

pub use conf_rules::ListError;
pub use output::{control_path, listing};
