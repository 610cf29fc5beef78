//! What bytes are read from and written to.
ghost use Rattle.std.specs.Prelude.{◌≡◌, ◌<◌, ◌≤◌, ℕ, List, Option, None, length, IfOk, OnErr, OnOk};
ghost use Rattle.std.specs.Io.{WritesAtMost};
ghost use Rattle.std.specs.Io.KnownBytes.{Consumes, IsAtEnd, Keeps, WriteAppends};

use mux_outside::{LONGEST_PIECE, Piece};
use std::io;

/// What bytes are read from and written to. A read leaves what was written, and a write what is to
/// be read.
pub trait ByteChannel {
    // the bytes that reads will give from here on, where they are recorded
    ghost remaining: { Self → Option (List ℕ) } = { λ _. None };

    // the bytes that were written, where they are recorded
    ghost contents: { Self → Option (List ℕ) } = { λ _. None };

    /// Reads once, so many bytes at most, and puts them in place of those of the piece.
    fn read_once(&mut self, into: &mut Piece, most: usize) -> io::Result<usize>
        requires { 0 < most }
        ensures count { IfOk result (λ n. n ≡ length into.new) }
        ensures at_most { OnOk result (length into.new ≤ LONGEST_PIECE) }
        ensures most { OnOk result (length into.new ≤ most) }
        ensures bytes { OnOk result
            (Consumes (remaining self.old) (remaining self.new) into.new) }
        ensures end { IfOk result (λ n. n ≡ 0 → IsAtEnd (remaining self.new)) }
        ensures kept { OnErr result (Keeps (remaining self.old) (remaining self.new)) }
        ensures apart { contents self.new ≡ contents self.old };

    /// Writes once.
    fn write_once(&mut self, bytes: &[u8]) -> io::Result<usize>
        ensures bound { WritesAtMost result bytes.now }
        ensures bytes { WriteAppends (contents self.old) (contents self.new) result bytes.now }
        ensures apart { remaining self.new ≡ remaining self.old };
}
