//! Permissions and remote forwardings: what the permission lists let a client open and listen on,
//! and which client a forwarded connection goes to.
#![tactic(auto)]

mod entry;
mod forwards;
mod listed;
mod policy;
mod reading;
mod steps;

pub use entry::{Allowed, Entry};
pub use forwards::{ForwardRefused, Forwards};
pub use policy::{Policy, PolicyError};
pub use reading::{ListFault, read_list};
