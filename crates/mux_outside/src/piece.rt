ghost use Rattle.std.specs.Prelude.{◌≡◌, ◌<◌, ◌≤◌, ◌+◌, ◌++◌, [], length, IfOk, IfSome, OnErr, OnOk, take, unwrap_or};
ghost use Rattle.std.specs.Option.{option_map};
ghost use Rattle.std.specs.Io.KnownBytes.{Consumes, IsAtEnd, Keeps};

use ssh_fields::OutOfMemory;
use std::alloc::Global;
use std::io;
use std::io::Read;
use std::marker::Model;

/// The most bytes that a turn gives.
pub const LONGEST_PIECE: usize = 65_536;

/// A buffer for the bytes of one turn, with room for 65,536 and never more in it.
#[derive(Drop)]
pub struct Piece {
    room: Vec<u8>,
    // how many of its bytes count
    len: usize,
}

impl Model for Piece {
    ghost use Rattle.std.specs.Prelude.{List, ℕ, take};
    ghost use Rattle.mux_outside.specs.Piece.{IsPiece};

    ghost Value = { List ℕ };

    ghost view = { λ p. take p.len p.room.items };

    ghost invariant = { λ p. IsPiece p.room p.len };
}

impl Piece {
    /// A buffer without a byte.
    pub fn new(alloc: Global) -> Result<Piece, OutOfMemory>
        ensures { IfOk result (λ piece. piece ≡ []) }
    {
        let room = Vec::from_elem(alloc, 0, LONGEST_PIECE)?;
        Ok(Piece { room, len: 0 })
    }

    /// Puts these bytes in place of those before.
    pub fn set(&mut self, bytes: &[u8])
        requires { length bytes.now ≤ LONGEST_PIECE }
        ensures { self.new ≡ bytes.now }
    {
        put_front(self.room.as_mut_slice(), bytes);
        self.len = bytes.len();
    }

    /// Puts these bytes after those before.
    pub fn add(&mut self, bytes: &[u8])
        requires { length self.old + length bytes.now ≤ LONGEST_PIECE }
        ensures { self.new ≡ self.old ++ bytes.now }
    {
        put_behind(self.room.as_mut_slice(), self.len, bytes);
        self.len += bytes.len();
    }

    /// Reads once, so many bytes at most, and puts what comes in place of the bytes before. A read
    /// that fails leaves none.
    pub fn read_from<S: Read>(&mut self, from: &mut S, most: usize) -> io::Result<usize>
        requires { 0 < most }
        ensures count { IfOk result (λ n. n ≡ length self.new) }
        ensures at_most { length self.new ≤ LONGEST_PIECE }
        ensures most { length self.new ≤ most }
        ensures failed { OnErr result (self.new ≡ []) }

        // What a reader that records its bytes has lost is what the piece holds.
        ensures bytes { OnOk result
            (Consumes (S.remaining from.old) (S.remaining from.new) self.new) }
        ensures end { IfOk result (λ n. n ≡ 0 → IsAtEnd (S.remaining from.new)) }
        ensures kept { OnErr result (Keeps (S.remaining from.old) (S.remaining from.new)) }
    {
        self.len = 0;
        let count = read_front(from, self.room.as_mut_slice(), most.min(LONGEST_PIECE))?;
        self.len = count;
        Ok(count)
    }

    // What it holds once these bytes are put in, where there are some.
    pub(crate) fn filled<'a>(&'a self, bytes: Option<&'a [u8]>) -> &'a [u8]
        ensures { result.now ≡ unwrap_or (option_map (λ b. b.now) bytes.entry) self.now }
    {
        match bytes {
            Some(bytes) => bytes,
            None => self.as_bytes(),
        }
    }

    // Puts these bytes in place of those before, where there are some.
    pub(crate) fn fill(&mut self, bytes: Option<&[u8]>)
        requires { IfSome (option_map (λ b. b.now) bytes) (λ b. length b ≤ LONGEST_PIECE) }
        ensures { self.new ≡ unwrap_or (option_map (λ b. b.now) bytes.entry) self.old }
    {
        if let Some(bytes) = bytes {
            self.set(bytes);
        }
    }

    pub fn as_bytes(&self) -> &[u8]
        ensures bytes { result.now ≡ self.now }
        ensures room { length result.now ≤ LONGEST_PIECE }
    {
        &self.room[..self.len]
    }
}

// Reads once into the first bytes, so many at most.
fn read_front<S: Read>(from: &mut S, room: &mut [u8], most: usize) -> io::Result<usize>
    requires { most ≤ length room.old }
    ensures len { length room.new ≡ length room.old }
    ensures bound { IfOk result (λ n. n ≤ most) }
    ensures bytes { IfOk result (λ n.
        Consumes (S.remaining from.old) (S.remaining from.new) (take n room.new)) }
    ensures end { IfOk result (λ n. n ≡ 0 → 0 < most → IsAtEnd (S.remaining from.new)) }
    ensures kept { OnErr result (Keeps (S.remaining from.old) (S.remaining from.new)) }
{
    from.read(&mut room[..most])
}

// Writes over the first bytes.
fn put_front(room: &mut [u8], bytes: &[u8])
    requires { length bytes.now ≤ length room.old }
    ensures len { length room.new ≡ length room.old }
    ensures front { take (length bytes.now) room.new ≡ bytes.now }
{
    room[..bytes.len()].copy_from_slice(bytes);
}

// Writes over the bytes after so many.
fn put_behind(room: &mut [u8], at: usize, bytes: &[u8])
    requires { at + length bytes.now ≤ length room.old }
    ensures len { length room.new ≡ length room.old }
    ensures front { take (at + length bytes.now) room.new ≡ take at room.old ++ bytes.now }
{
    room[at..at + bytes.len()].copy_from_slice(bytes);
}
