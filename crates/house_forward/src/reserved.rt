//! Notes, and the room that is reserved in them.
ghost use Rattle.std.specs.Prelude.{◌≡◌, ◌≤◌, ◌+◌, ◌++◌, ◌∷◌, [], OnOk, OnErr};
ghost use Rattle.mux_outside.specs.declared.house_mark.HouseMark.TheVariants.{HouseSaid};
ghost use Rattle.std.specs.Option.{option_map};

use mux_outside::{HouseMark, Notes};
use ssh_fields::{OutOfMemory, Text};
use std::alloc::Global;

/// Notes, and for how many marks there is room in them at least.
#[derive(Drop)]
pub struct Reserved<N: Notes + Drop> {
    pub notes: N,
    marks: usize,
    ghost reserved: { marks ≤ N.spare notes },
}

impl<N: Notes + Drop> Reserved<N> {
    pub fn new(notes: N) -> Reserved<N>
        ensures { result.notes ≡ notes }
    {
        Reserved { notes, marks: 0 }
    }

    /// Makes room for so many marks at least.
    pub fn room(&mut self, marks: usize) -> Result<(), OutOfMemory>
        ensures ok { OnOk result (marks ≤ self.new.marks) }
        ensures more { self.old.marks ≤ self.new.marks }
        ensures recorded { N.recorded self.new.notes ≡ N.recorded self.old.notes }
    {
        if self.marks < marks {
            self.notes.room(marks)?;
            self.marks = marks;
        }
        Ok(())
    }

    /// Takes a mark.
    pub fn note(&mut self, mark: HouseMark)
        requires { 1 ≤ self.old.marks }
        ensures recorded { N.recorded self.new.notes
            ≡ option_map (λ marks. marks ++ mark ∷ []) (N.recorded self.old.notes) }
        ensures marks { self.new.marks + 1 ≡ self.old.marks }
    {
        self.notes.note(mark);
        self.marks -= 1;
    }

    /// Notes the mark of what the forwarder sent, which is made only where marks are kept.
    pub fn note_sent(&mut self, alloc: Global, said: &[u8]) -> Result<(), OutOfMemory>
        requires { 1 ≤ self.old.marks }
        ensures recorded { OnOk result (N.recorded self.new.notes
            ≡ option_map (λ marks. marks ++ HouseSaid said.now ∷ []) (N.recorded self.old.notes)) }
        ensures marks { OnOk result (self.old.marks ≤ self.new.marks + 1) }
        ensures unchanged { OnErr result (self.new ≡ self.old) }
    {
        if self.notes.keeps() {
            let said = Text::copy(alloc, said)?;
            self.note(HouseMark::HouseSaid(said));
        }
        Ok(())
    }
}
