//! Where the streams of the relays are in their list.
ghost use Rattle.std.specs.Prelude.{ℕ, ◌≡◌, nat_eq};
ghost use Rattle.std.specs.HashMap.{get, IsEmpty};
ghost use Rattle.house_forward.specs.Places.{AreNotedAt};

use crate::link::Link;
use ssh_fields::OutOfMemory;
use std::alloc::Global;
use std::collections::HashMap;

/// Where each stream was in the list when that was noted last. Nothing rests on it: who asks for a
/// stream sees at the place whether it is there, and looks through the list where it isn't.
#[derive(Drop)]
pub struct Places {
    noted: HashMap<u64, usize>,
}

impl Places {
    /// None is noted.
    pub fn new(alloc: Global) -> Places
        ensures { IsEmpty result.noted }
    {
        Places {
            noted: HashMap::new(alloc),
        }
    }

    /// Room for so many streams.
    pub fn room(&mut self, streams: usize) -> Result<(), OutOfMemory>
        ensures { (stream : ℕ) → get nat_eq self.new.noted stream
            ≡ get nat_eq self.old.noted stream }
    {
        self.noted
            .reserve(streams.saturating_sub(self.noted.len()))?;
        Ok(())
    }

    /// Notes where they are now, as far as there is room.
    pub fn note(&mut self, links: &[Link])
        ensures { AreNotedAt self.new links.now }
    {
        self.noted.clear();
        for i in 0..links.len() {
            if let Some(stream) = links[i].number() {
                if self.noted.insert(stream, i).is_err() {
                    return;
                }
            }
        }
    }

    /// The place that is noted for a stream.
    pub fn of(&self, stream: u64) -> Option<usize>
        ensures { result ≡ get nat_eq self.now.noted stream }
    {
        self.noted.get(&stream).copied()
    }
}
