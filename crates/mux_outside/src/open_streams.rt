ghost use Rattle.std.specs.Prelude.{◌≡◌, [], ◌∷◌, ◌++◌, ◌-◌, IfOk, OnOk, OnErr, length, take};
ghost use Rattle.mux_outside.specs.Streams.{without};

use crate::kept_streams::KeptStreams;
use crate::streams::Streams;
use ssh_fields::OutOfMemory;
use std::alloc::Global;
use std::marker::Model;

/// The open streams, and what marks share of them until they change.
#[derive(Drop)]
pub struct OpenStreams {
    streams: Streams,
    kept: Option<KeptStreams>,
}

impl Model for OpenStreams {
    ghost use Rattle.std.specs.Prelude.{List, ℕ, ◌≡◌, IfSome};

    ghost Value = { List ℕ };

    ghost view = { λ o. o.streams };

    ghost invariant = { λ o. IfSome o.kept (λ kept. kept ≡ o.streams) };
}

impl OpenStreams {
    /// These streams are open.
    pub fn new(streams: Streams) -> OpenStreams
        ensures { result ≡ streams }
    {
        OpenStreams {
            streams,
            kept: None,
        }
    }

    /// All of them.
    pub fn streams(&self) -> &Streams
        ensures { result.now ≡ self.now }
    {
        &self.streams
    }

    /// All of them for a mark, which shares them with the marks before where none was opened or
    /// closed since.
    pub fn keep(&mut self, alloc: Global) -> Result<KeptStreams, OutOfMemory>
        ensures kept { IfOk result (λ kept. kept ≡ self.old) }
        ensures same { self.new ≡ self.old }
    {
        if let Some(kept) = &self.kept {
            return kept.share();
        }
        let kept = KeptStreams::copy(alloc, self.streams.as_slice())?;
        self.kept = Some(kept.share()?);
        Ok(kept)
    }

    /// Opens a stream. An `Err` changes nothing.
    pub fn push(&mut self, stream: u64) -> Result<(), OutOfMemory>
        ensures ok { OnOk result (self.new ≡ self.old ++ stream ∷ []) }
        ensures err { OnErr result (self.new ≡ self.old) }
    {
        self.streams.push(stream)?;
        self.kept = None;
        Ok(())
    }

    /// Closes the stream that was opened last. It allocates no memory.
    pub fn pop(&mut self)
        ensures { self.new ≡ take (length self.old - 1) self.old }
    {
        let _ = self.streams.pop();
        self.kept = None;
    }

    /// Closes a stream. It allocates no memory.
    pub fn remove(&mut self, stream: u64)
        ensures { self.new ≡ without stream self.old }
    {
        self.streams.remove(stream);
        self.kept = None;
    }
}
