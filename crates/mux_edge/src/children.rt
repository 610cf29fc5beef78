//! The children that look up names.
ghost use Rattle.std.specs.Prelude.{◌≡◌, true};
ghost use Rattle.mux_edge.specs.Names.{is_name};

use std::io;
use std::os::unix::net;

/// The children that look up names, each under the number of its look-up.
pub trait Children {
    /// Whether one of them is to be looked after soon.
    fn is_busy(&self) -> bool;

    /// Drops those that have ended.
    fn reap(&mut self);

    /// Has one look up a name, and write its addresses there. `Err`: none was started, since there
    /// are too many, or the system starts none.
    fn start(&mut self, number: u64, name: &[u8], output: net::UnixStream) -> io::Result<()>
        requires { is_name name.now ≡ true };

    /// Ends one, where the number is that of one.
    fn end(&mut self, number: u64);
}
