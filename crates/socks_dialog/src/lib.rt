//! The dialog by which a SOCKS client requests to which host and port it wants to be connected:
//! SOCKS 4 and 4a, and SOCKS 5 without authentication (RFC 1928). No memory is allocated: a dialog
//! keeps its bytes, of which there are 520 at most, and reads them from the first one each time.
#![tactic(auto)]

mod dialog;
mod hosts;
pub mod laws;
mod numbers;
mod outcome;
mod read;
mod replies;
mod socks4;
mod socks5;
mod step;
mod text;

pub use dialog::{Dialog, LONGEST_DIALOG};
pub use replies::{granted_in, refused_in};
pub use step::DialogStep;
