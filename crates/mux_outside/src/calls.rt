ghost use Rattle.std.specs.Prelude.{◌≡◌, [], ◌∷◌, ◌++◌, length, OnOk, OnErr, slice_get};
ghost use Rattle.mux_outside.specs.Streams.{among};

use ssh_fields::OutOfMemory;
use std::alloc::Global;
use std::marker::Model;

/// The numbers of the calls that fail, counted from 1.
#[derive(Drop)]
pub struct Calls {
    numbers: Vec<u64>,
}

impl Model for Calls {
    ghost use Rattle.std.specs.Prelude.{List, ℕ};

    ghost Value = { List ℕ };

    ghost view = { λ c. c.numbers.items };
}

impl Calls {
    /// No call fails.
    pub fn new(alloc: Global) -> Calls
        ensures { result ≡ [] }
    {
        Calls {
            numbers: Vec::new(alloc),
        }
    }

    /// Adds a number at the end. An `Err` changes nothing.
    pub fn push(&mut self, number: u64) -> Result<(), OutOfMemory>
        ensures ok { OnOk result (self.new ≡ self.old ++ number ∷ []) }
        ensures err { OnErr result (self.new ≡ self.old) }
    {
        self.numbers.push(number)?;
        Ok(())
    }

    pub fn len(&self) -> usize
        ensures { result ≡ length self.now }
    {
        self.numbers.len()
    }

    /// The number at a place.
    pub fn get(&self, i: usize) -> Option<u64>
        ensures { result ≡ slice_get self.now i }
    {
        self.numbers.get(i).copied()
    }

    /// All of them.
    pub fn as_slice(&self) -> &[u64]
        ensures { result.now ≡ self.now }
    {
        self.numbers.as_slice()
    }

    /// Whether the call with this number fails.
    pub fn contains(&self, number: u64) -> bool
        ensures { result ≡ among number self.now }
    {
        self.numbers.iter().any(|n| *n == number)
    }
}
