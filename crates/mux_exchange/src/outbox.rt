//! Bytes that were accepted for a stream, and are written to it later, many writes at once.
ghost use Rattle.std.specs.Prelude.{◌≡◌, ◌<◌, ◌≤◌, ◌++◌, ◌==◌, [], false, true, length, take, IfOk};
ghost use Rattle.std.specs.Io.KnownBytes.{Appends, Keeps, append_known};
ghost use Rattle.mux_exchange.specs.Exchange.{Sends};
ghost use Rattle.mux_exchange.specs.Outbox.{GivesAtEnd, IsKept};

use crate::channel::ByteChannel;
use crate::exchange::{Sent, send};
use std::alloc::{AllocError, Global};
use std::marker::Model;

/// From so many bytes on a write goes to the stream itself, after what is in the outbox.
pub const SENT_AT_ONCE: usize = 16_384;

/// The most bytes that an outbox holds.
pub const LONGEST_OUTBOX: usize = 65_536;

/// Bytes that were accepted for a stream, in order, and aren't written to it yet.
#[derive(Drop)]
pub struct Outbox {
    bytes: Vec<u8>,
}

/// How far the bytes of an outbox were written.
#[derive(Clone, Copy, PartialEq, Eq)]
pub enum OutboxProgress {
    /// All of them.
    All,
    /// The stream accepts none of the rest for now.
    Waits,
    /// The stream failed.
    Failed,
}

impl Model for Outbox {
    ghost use Rattle.std.specs.Prelude.{List, ℕ};
    ghost use Rattle.mux_exchange.specs.Outbox.{IsOutbox};

    ghost Value = { List ℕ };

    ghost view = { λ o. o.bytes.items };

    ghost invariant = { λ o. IsOutbox o.bytes };
}

impl Outbox {
    /// An outbox without a byte, with room for all that it may hold.
    pub fn new(alloc: Global) -> Result<Outbox, AllocError>
        ensures { IfOk result (λ outbox. outbox ≡ []) }
    {
        let bytes = Vec::with_capacity(alloc, LONGEST_OUTBOX)?;
        Ok(Outbox { bytes })
    }

    /// Whether all was written to the stream.
    pub fn is_empty(&self) -> bool
        ensures { result ≡ (length self.now == 0) }
    {
        self.bytes.is_empty()
    }

    /// Accepts bytes for a stream, after those before: few ones are kept where there is room, and
    /// otherwise all before are written to the stream, and then these.
    pub fn send<W: ByteChannel>(&mut self, to: &mut W, bytes: &[u8]) -> Sent
        requires { 0 < length bytes.now }
        ensures sends { Sends result (append_known (W.contents to.old) self.old)
            (append_known (W.contents to.new) self.new) bytes.now }
        ensures apart { W.remaining to.new ≡ W.remaining to.old }
        ensures few { IsKept self.old bytes.now → result ≡ Sent.Took (length bytes.now) }
        ensures kept { IsKept self.old bytes.now → self.new ≡ self.old ++ bytes.now }
        ensures bound { length self.new ≤ LONGEST_OUTBOX }
    {
        if self.keep(bytes) {
            return Sent::Took(bytes.len());
        }
        match self.give(to) {
            OutboxProgress::All => send(to, bytes),
            OutboxProgress::Waits => Sent::Waits,
            OutboxProgress::Failed => Sent::Failed,
        }
    }

    // Keeps these bytes after those before, where they are few and there is room: whether it did.
    fn keep(&mut self, bytes: &[u8]) -> bool
        ensures few { IsKept self.old bytes.now → result ≡ true }
        ensures kept { result ≡ true → self.new ≡ self.old ++ bytes.now }
        ensures not_kept { result ≡ false → self.new ≡ self.old }
        ensures bound { length self.new ≤ LONGEST_OUTBOX }
    {
        if bytes.len() >= SENT_AT_ONCE || bytes.len() > LONGEST_OUTBOX - self.bytes.len() {
            return false;
        }
        self.bytes.extend_from_slice(bytes).is_ok()
    }

    /// Writes to the stream what it accepts.
    pub fn give<W: ByteChannel>(&mut self, to: &mut W) -> OutboxProgress
        ensures bytes { Keeps (append_known (W.contents to.old) self.old)
            (append_known (W.contents to.new) self.new) }
        ensures apart { W.remaining to.new ≡ W.remaining to.old }
        ensures all { result ≡ OutboxProgress.All → self.new ≡ [] }
        ensures bound { length self.new ≤ LONGEST_OUTBOX }
    {
        let (count, given) = give_front(&self.bytes, to);
        let _ = self.bytes.drain(..count);
        given
    }

    /// Writes to a stream that is dropped next what it accepts, and drops the rest.
    pub fn end<W: ByteChannel>(&mut self, to: &mut W) -> OutboxProgress
        ensures gives { GivesAtEnd result (W.contents to.old) (W.contents to.new) self.old }
        ensures apart { W.remaining to.new ≡ W.remaining to.old }
        ensures none { self.new ≡ [] }
    {
        let (_, given) = give_front(&self.bytes, to);
        self.bytes.clear();
        given
    }
}

// Writes these bytes to a stream until it accepts none: how many it accepted.
fn give_front<W: ByteChannel>(bytes: &[u8], to: &mut W) -> (usize, OutboxProgress)
    ensures bound { result.0 ≤ length bytes.now }
    ensures all { result.1 ≡ OutboxProgress.All → result.0 ≡ length bytes.now }
    ensures bytes { Appends (W.contents to.old) (W.contents to.new) (take result.0 bytes.now) }
    ensures apart { W.remaining to.new ≡ W.remaining to.old }
{
    let mut count = 0;
    for _ in 0..u64::MAX {
        if count >= bytes.len() {
            return (count, OutboxProgress::All);
        }
        match send(to, &bytes[count..]) {
            Sent::Took(more) => count += more,
            Sent::Interrupted => {}
            Sent::Waits => return (count, OutboxProgress::Waits),
            Sent::Failed => return (count, OutboxProgress::Failed),
        }
    }
    (count, OutboxProgress::Waits)
}
