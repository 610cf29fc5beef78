ghost use Rattle.std.specs.Prelude.{◌≡◌, ◌-◌, ◌^◌, [], Some, None, vec_len, vec_capacity};

use crate::house_mark::HouseMark;
use crate::notes::Notes;
use ssh_fields::OutOfMemory;
use std::alloc::Global;

/// Notes that keep every mark.
#[derive(Drop)]
pub struct KeptNotes {
    marks: Vec<HouseMark>,
}

impl KeptNotes {
    /// No mark.
    pub fn new(alloc: Global) -> KeptNotes
        ensures { result.marks.items ≡ [] }
    {
        KeptNotes {
            marks: Vec::new(alloc),
        }
    }

    /// The marks so far.
    pub fn marks(&self) -> &[HouseMark]
        ensures { result.now ≡ self.now.marks.items }
    {
        self.marks.as_slice()
    }
}

impl Notes for KeptNotes {
    ghost recorded = { λ n. Some n.marks.items };

    ghost spare = { λ n. vec_capacity n.marks - vec_len n.marks };

    fn keeps(&self) -> bool {
        true
    }

    fn room(&mut self, n: usize) -> Result<(), OutOfMemory> {
        self.marks.reserve(n)?;
        Ok(())
    }

    fn note(&mut self, m: HouseMark) {
        self.marks.push_reserved(m);
    }
}

/// Notes that keep nothing.
#[derive(Clone, Copy)]
pub struct NoNotes;

impl Notes for NoNotes {
    ghost recorded = { λ _. None };

    ghost spare = { λ _. 2 ^ 64 };

    fn keeps(&self) -> bool {
        false
    }

    fn room(&mut self, _n: usize) -> Result<(), OutOfMemory> {
        Ok(())
    }

    fn note(&mut self, _m: HouseMark) {}
}
