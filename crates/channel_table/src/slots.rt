ghost use Rattle.std.specs.Prelude.{◌≡◌, [], ◌∷◌, ◌++◌, IsSome, Some, OnOk, option_map};

use crate::channel::Channel;
use mux_history::limits::NUMBERS_END;
use ssh_fields::OutOfMemory;
use std::alloc::Global;
use std::marker::Model;
use window_ledger::Ledger;

/// A channel that stands in a slot.
#[derive(Clone, Copy)]
pub struct Opened {
    /// How many were opened before it.
    pub rank: u64,
    pub channel: Channel,
    pub ledger: Ledger,
}

/// A place for a channel.
#[derive(Clone, Copy)]
pub enum Slot {
    /// A free one, and the free one after it.
    Free(Option<u32>),
    Held(Opened),
}

/// Places for channels, of which the free ones are linked. A channel's number is its place.
#[derive(Drop)]
pub struct Slots {
    slots: Vec<Slot>,
    /// The front one of the free slots.
    front: Option<u32>,
    /// How many channels were opened so far.
    opened: u64,
}

impl Model for Slots {
    ghost use Rattle.channel_table.specs.Slots.{SlotsState, entries_of, AreSlots};

    ghost Value = { SlotsState };

    ghost view = { λ a. record {
      entries = entries_of a.slots.items;
      front = a.front;
      opened = a.opened;
    } };

    ghost invariant = { λ a. AreSlots a.slots.items a.front a.opened };
}

impl Slots {
    ghost use Rattle.channel_table.specs.Entries.{IsNumberFree, changed_at, entry_at, freed};
    ghost use Rattle.channel_table.specs.Slots.{HasReadySlot, ranked};

    /// No slots, which take no memory.
    pub fn new(alloc: Global) -> Slots
        ensures { result.entries ≡ [] }
    {
        Slots {
            slots: Vec::new(alloc),
            front: None,
            opened: 0,
        }
    }

    /// Makes sure that a slot is free. What the slots hold stays. Where 16,384 slots are held there
    /// is no room.
    pub fn make_room(&mut self) -> Result<(), OutOfMemory>
        ensures ready { OnOk result (HasReadySlot self.new) }
        ensures entries { self.new.entries ≡ self.old.entries }
    {
        // Where no rank is left, which no run lives to see, there is no room either.
        if self.opened == u64::MAX {
            return Err(OutOfMemory);
        }
        if self.front.is_none() {
            if self.slots.len() >= NUMBERS_END as usize {
                return Err(OutOfMemory);
            }
            let number = self.slots.len() as u32;
            self.slots.push(Slot::Free(None))?;
            self.front = Some(number);
        }
        Ok(())
    }

    /// The number of the front one of the free slots.
    pub fn front(&self) -> u32
        requires { IsSome self.now.front }
        ensures front { self.now.front ≡ Some result }
        ensures fresh { IsNumberFree self.now.entries result }
    {
        self.front.unwrap_or(0)
    }

    /// Opens a channel in the front one of the free slots.
    pub fn open(&mut self, number: u32, channel: Channel, ledger: Ledger)
        requires front { self.old.front ≡ Some number }
        requires ready { HasReadySlot self.old }
        ensures { self.new.entries ≡ self.old.entries
            ++ (record { number = number; channel = channel; ledger = ledger }) ∷ [] }
    {
        let i = number as usize;
        let slot = self.slots[i];
        let Slot::Free(next) = slot else {
            unreachable!()
        };
        self.slots[i] = Slot::Held(Opened {
            rank: self.opened,
            channel,
            ledger,
        });
        self.front = next;
        self.opened += 1;
    }

    /// The channel under a number.
    #[inline]
    pub fn get(&self, number: u32) -> Option<Opened>
        ensures { option_map (λ opened. (ranked number opened).entry) result
            ≡ entry_at self.now.entries number }
    {
        let i = number as usize;
        if i >= self.slots.len() {
            return None;
        }
        let slot = self.slots[i];
        match slot {
            Slot::Held(opened) => Some(opened),
            Slot::Free(_) => None,
        }
    }

    /// Changes the channel under a number.
    pub fn set(&mut self, number: u32, channel: Channel, ledger: Ledger)
        requires { IsSome (entry_at self.old.entries number) }
        ensures { self.new.entries ≡ changed_at number
            (λ _. record { number = number; channel = channel; ledger = ledger }) self.old.entries }
    {
        let i = number as usize;
        let slot = self.slots[i];
        let Slot::Held(opened) = slot else {
            unreachable!()
        };
        self.slots[i] = Slot::Held(Opened {
            rank: opened.rank,
            channel,
            ledger,
        });
    }

    /// Frees the slot of a channel, and puts it before the other free ones.
    pub fn free(&mut self, number: u32)
        requires { IsSome (entry_at self.old.entries number) }
        ensures { self.new.entries ≡ freed number self.old.entries }
    {
        self.slots[number as usize] = Slot::Free(self.front);
        self.front = Some(number);
    }
}
