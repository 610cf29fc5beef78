//! The outcome of one read of a stream and of one write to it.
ghost use Rattle.std.specs.Prelude.{◌≡◌, ◌≢◌, ◌<◌, length, IfErr, IfOk};
ghost use Rattle.std.specs.IoError.{error_kind};
ghost use Rattle.mux_exchange.specs.Exchange.{IsLastWord, ReadsPiece, Sends, received_again, received_last, received_len, received_turn, most_read, sent_wrote};

use crate::channel::ByteChannel;
use mux_outside::{LONGEST_PIECE, Piece, Turn, Wrote, is_own};
use std::io::ErrorKind;
use std::{io, mem};

/// The most bytes that a read of one of the master's own streams returns: as many as one message
/// of the connection carries.
pub const LONGEST_OWN_READ: usize = 32_768;

/// What a read gave.
#[derive(Clone, Copy, PartialEq, Eq)]
pub enum ReadResult {
    /// So many bytes.
    Bytes(usize),
    /// The end: nothing more comes.
    End,
    /// Nothing for now.
    Nothing,
    /// Nothing, since a signal came first.
    Interrupted,
    Failed,
}

/// What a write gave.
#[derive(Clone, Copy, PartialEq, Eq)]
pub enum Sent {
    /// So many bytes were written.
    Took(usize),
    /// None can be written for now.
    Waits,
    /// None was written, since a signal came first.
    Interrupted,
    Failed,
}

impl ReadResult {
    /// The turn of a stream of which this was read.
    pub fn turn(self, number: u64) -> Option<Turn>
        ensures { result ≡ received_turn self number }
    {
        match self {
            ReadResult::Bytes(_) => Some(Turn::Got(number)),
            ReadResult::End => Some(Turn::End(number)),
            ReadResult::Failed => Some(Turn::Failed(number)),
            ReadResult::Nothing | ReadResult::Interrupted => None,
        }
    }

    /// How many bytes were read.
    pub fn len(self) -> usize
        ensures { result ≡ received_len self }
    {
        match self {
            ReadResult::Bytes(count) => count,
            ReadResult::End | ReadResult::Nothing | ReadResult::Interrupted | ReadResult::Failed =>
                0,
        }
    }

    /// Whether nothing more can be read.
    pub fn is_last(self) -> bool
        ensures { result ≡ received_last self }
    {
        matches!(self, ReadResult::End | ReadResult::Failed)
    }

    /// Whether more may wait, which the system doesn't report again: after a read of the most bytes
    /// that it may return, after a signal, and where reads stop short of what is there.
    pub fn leaves_more(self, stops_short: bool, most: usize) -> bool
        ensures { result ≡ received_again self stops_short most }
    {
        match self {
            ReadResult::Bytes(count) => stops_short || count >= most,
            ReadResult::Interrupted => true,
            ReadResult::End | ReadResult::Nothing | ReadResult::Failed => false,
        }
    }
}

impl Sent {
    /// What a write that gave this returns to the caller.
    pub fn wrote(self) -> Wrote
        ensures { result ≡ sent_wrote self }
    {
        match self {
            Sent::Took(count) => Wrote::Took(count),
            Sent::Waits | Sent::Interrupted => Wrote::Later,
            Sent::Failed => Wrote::Failed,
        }
    }
}

/// How many bytes a read of this stream returns at most.
pub fn most_read(number: u64) -> usize
    ensures most { result ≡ most_read number }
    ensures some { 0 < result }
{
    if is_own(number) {
        LONGEST_OWN_READ
    } else {
        LONGEST_PIECE
    }
}

/// Reads once, so many bytes at most. Bytes that come are put in place of those of the piece, and
/// else it stays. The spare piece is what is read into.
pub fn receive<S: ByteChannel>(
    from: &mut S,
    most: usize,
    spare: &mut Piece,
    into: &mut Piece,
) -> ReadResult
    requires { 0 < most }
    ensures bytes { ReadsPiece result most (S.remaining from.old) (S.remaining from.new) into.old into.new }
    ensures apart { S.contents from.new ≡ S.contents from.old }
{
    let got = from.read_once(spare, most);
    let heard = received_of(&got);
    if let ReadResult::Bytes(_) = heard {
        mem::swap(spare, into);
    }
    heard
}

/// Reads a stream once of which a write failed: what it still gives, and where nothing is left its
/// failure.
pub fn receive_last_words<S: ByteChannel>(
    from: &mut S,
    most: usize,
    spare: &mut Piece,
    into: &mut Piece,
) -> ReadResult
    requires { 0 < most }
    ensures bytes { ReadsPiece result most (S.remaining from.old) (S.remaining from.new) into.old into.new }
    ensures apart { S.contents from.new ≡ S.contents from.old }
    ensures last { IsLastWord result }
{
    match receive(from, most, spare, into) {
        ReadResult::Bytes(count) => ReadResult::Bytes(count),
        ReadResult::Interrupted => ReadResult::Interrupted,
        ReadResult::End | ReadResult::Nothing | ReadResult::Failed => ReadResult::Failed,
    }
}

// What a read's result means.
fn received_of(got: &io::Result<usize>) -> ReadResult
    ensures bytes { IfOk got.now (λ n. 0 < n → result ≡ ReadResult.Bytes n) }
    ensures end { IfOk got.now (λ n. n ≡ 0 → result ≡ ReadResult.End) }
    ensures nothing { IfErr got.now
        (λ e. error_kind e ≡ ErrorKind.WouldBlock → result ≡ ReadResult.Nothing) }
    ensures interrupted { IfErr got.now
        (λ e. error_kind e ≡ ErrorKind.Interrupted → result ≡ ReadResult.Interrupted) }
    ensures failed { IfErr got.now (λ e. error_kind e ≢ ErrorKind.WouldBlock →
        error_kind e ≢ ErrorKind.Interrupted → result ≡ ReadResult.Failed) }
{
    match got {
        Ok(0) => ReadResult::End,
        Ok(count) => ReadResult::Bytes(*count),
        Err(e) => match e.kind() {
            ErrorKind::WouldBlock => ReadResult::Nothing,
            ErrorKind::Interrupted => ReadResult::Interrupted,
            _ => ReadResult::Failed,
        },
    }
}

/// Writes once.
pub fn send<W: ByteChannel>(to: &mut W, bytes: &[u8]) -> Sent
    requires { 0 < length bytes.now }
    ensures bytes { Sends result (W.contents to.old) (W.contents to.new) bytes.now }
    ensures apart { W.remaining to.new ≡ W.remaining to.old }
{
    let taken = to.write_once(bytes);
    sent_of(&taken)
}

// What a write's result means.
fn sent_of(taken: &io::Result<usize>) -> Sent
    ensures took { IfOk taken.now (λ n. 0 < n → result ≡ Sent.Took n) }
    ensures nothing { IfOk taken.now (λ n. n ≡ 0 → result ≡ Sent.Failed) }
    ensures waits { IfErr taken.now
        (λ e. error_kind e ≡ ErrorKind.WouldBlock → result ≡ Sent.Waits) }
    ensures interrupted { IfErr taken.now
        (λ e. error_kind e ≡ ErrorKind.Interrupted → result ≡ Sent.Interrupted) }
    ensures failed { IfErr taken.now (λ e. error_kind e ≢ ErrorKind.WouldBlock →
        error_kind e ≢ ErrorKind.Interrupted → result ≡ Sent.Failed) }
{
    match taken {
        Ok(0) => Sent::Failed,
        Ok(count) => Sent::Took(*count),
        Err(e) => match e.kind() {
            ErrorKind::WouldBlock => Sent::Waits,
            ErrorKind::Interrupted => Sent::Interrupted,
            _ => Sent::Failed,
        },
    }
}
