ghost use Rattle.std.specs.Prelude.{◌≡◌, ◌<◌, ◌==◌, [], ◌∷◌, ◌++◌, length, not, filter, true, OnOk, slice_get};

use mux_history::limits::MAX_CHANNELS;
use ssh_fields::OutOfMemory;
use std::alloc::Global;
use std::marker::Model;

/// The numbers of a client's channels, in the order in which they began. Room is made for each
/// before it is added.
#[derive(Drop)]
pub struct Numbers {
    numbers: Vec<u32>,
}

impl Model for Numbers {
    ghost use Rattle.std.specs.Prelude.{◌≤◌, length, nat_lt, vec_capacity};
    ghost use Rattle.channel_table.specs.Indices.{ChannelNumbers};
    ghost use Rattle.mux_history.specs.declared.limits.TheConstants.{MAX_CHANNELS};

    ghost Value = { ChannelNumbers };

    ghost view = { λ a. record {
      items = a.numbers.items;
      has_room = nat_lt (length a.numbers.items) (vec_capacity a.numbers);
    } };

    ghost invariant = { λ a. length a.numbers.items ≤ MAX_CHANNELS };
}

impl Numbers {
    /// None, without room.
    pub fn new(alloc: Global) -> Numbers
        ensures { result.items ≡ [] }
    {
        Numbers {
            numbers: Vec::new(alloc),
        }
    }

    /// Makes room for one more.
    pub fn make_room(&mut self) -> Result<(), OutOfMemory>
        ensures room { OnOk result (self.new.has_room ≡ true) }
        ensures items { self.new.items ≡ self.old.items }
    {
        self.numbers.reserve(1)?;
        Ok(())
    }

    /// How many there are.
    pub fn len(&self) -> u32
        ensures { result ≡ length self.now.items }
    {
        self.numbers.len() as u32
    }

    /// Whether there is none.
    pub fn is_empty(&self) -> bool
        ensures { result ≡ (length self.now.items == 0) }
    {
        self.numbers.is_empty()
    }

    /// The one at a place.
    pub fn get(&self, i: u32) -> Option<u32>
        ensures { result ≡ slice_get self.now.items i }
    {
        self.numbers.get(i as usize).copied()
    }

    /// Adds one after the others, in room that is there.
    pub fn push(&mut self, number: u32)
        requires few { length self.old.items < MAX_CHANNELS }
        requires room { self.old.has_room ≡ true }
        ensures { self.new.items ≡ self.old.items ++ number ∷ [] }
    {
        self.numbers.push_reserved(number);
    }

    /// Takes one out.
    pub fn remove(&mut self, number: u32)
        ensures { self.new.items ≡ filter (λ x. not (x == number)) self.old.items }
    {
        self.numbers.retain(|x| *x != number);
    }
}
