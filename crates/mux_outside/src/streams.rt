ghost use Rattle.std.specs.Prelude.{◌≡◌, [], ◌∷◌, ◌++◌, length, IfOk, OnOk, OnErr, slice_get, take, ◌-◌};
ghost use Rattle.mux_outside.specs.Streams.{among, without};

use ssh_fields::OutOfMemory;
use std::alloc::Global;
use std::marker::Model;

/// Numbers of streams, in order. Stream 0 is the server's, the others are those of the clients.
#[derive(Drop)]
pub struct Streams {
    numbers: Vec<u64>,
}

impl Model for Streams {
    ghost use Rattle.std.specs.Prelude.{List, ℕ};

    ghost Value = { List ℕ };

    ghost view = { λ s. s.numbers.items };
}

impl Streams {
    /// No stream.
    pub fn new(alloc: Global) -> Streams
        ensures { result ≡ [] }
    {
        Streams {
            numbers: Vec::new(alloc),
        }
    }

    /// This stream alone.
    pub fn one(alloc: Global, stream: u64) -> Result<Streams, OutOfMemory>
        ensures { IfOk result (λ streams. streams ≡ stream ∷ []) }
    {
        let mut streams = Streams::new(alloc);
        streams.push(stream)?;
        Ok(streams)
    }

    /// These streams.
    pub fn copy(alloc: Global, numbers: &[u64]) -> Result<Streams, OutOfMemory>
        ensures { IfOk result (λ streams. streams ≡ numbers.now) }
    {
        let numbers = Vec::from_slice(alloc, numbers)?;
        Ok(Streams { numbers })
    }

    /// Adds a stream at the end. An `Err` changes nothing.
    pub fn push(&mut self, stream: u64) -> Result<(), OutOfMemory>
        ensures ok { OnOk result (self.new ≡ self.old ++ stream ∷ []) }
        ensures err { OnErr result (self.new ≡ self.old) }
    {
        self.numbers.push(stream)?;
        Ok(())
    }

    /// Takes the last stream away. It allocates no memory, so a `push` can come before what may
    /// fail and be taken back.
    pub fn pop(&mut self) -> Option<u64>
        ensures last { result ≡ slice_get self.old (length self.old - 1) }
        ensures rest { self.new ≡ take (length self.old - 1) self.old }
    {
        self.numbers.pop()
    }

    /// Takes all streams away, and keeps the room for as many.
    pub fn clear(&mut self)
        ensures { self.new ≡ [] }
    {
        self.numbers.clear();
    }

    /// Puts these streams in place of those before. It allocates no memory where there is room for
    /// them. After an `Err` there is none.
    pub fn refill(&mut self, numbers: &[u64]) -> Result<(), OutOfMemory>
        ensures ok { OnOk result (self.new ≡ numbers.now) }
        ensures err { OnErr result (self.new ≡ []) }
    {
        self.numbers.clear();
        self.numbers.extend_from_slice(numbers)?;
        Ok(())
    }

    /// Takes a stream away. It allocates no memory.
    pub fn remove(&mut self, stream: u64)
        ensures { self.new ≡ without stream self.old }
    {
        self.numbers.retain(|s| *s != stream);
    }

    pub fn len(&self) -> usize
        ensures { result ≡ length self.now }
    {
        self.numbers.len()
    }

    /// The stream at a place.
    pub fn get(&self, i: usize) -> Option<u64>
        ensures { result ≡ slice_get self.now i }
    {
        self.numbers.get(i).copied()
    }

    /// Whether the stream is one of them.
    pub fn contains(&self, stream: u64) -> bool
        ensures { result ≡ among stream self.now }
    {
        self.numbers.iter().any(|s| *s == stream)
    }

    /// All of them.
    pub fn as_slice(&self) -> &[u64]
        ensures { result.now ≡ self.now }
    {
        self.numbers.as_slice()
    }
}
