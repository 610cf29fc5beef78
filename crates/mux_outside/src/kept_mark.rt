ghost use Rattle.std.specs.Prelude.{◌≡◌, IfOk};

use crate::house_mark::HouseMark;
use ssh_fields::OutOfMemory;
use std::alloc::Global;
use std::marker::Model;

/// A mark of a forwarder, in a place of its own, so that the other marks take no more room for it.
#[derive(Drop)]
pub struct KeptMark {
    place: Box<HouseMark>,
}

impl Model for KeptMark {
    ghost use Rattle.mux_outside.specs.declared.house_mark.HouseMark.{HouseMark as TheMark};

    ghost Value = { TheMark };

    ghost view = { λ k. k.place.value };
}

impl KeptMark {
    /// A copy of this mark.
    pub fn copy(alloc: Global, mark: &HouseMark) -> Result<KeptMark, OutOfMemory>
        ensures { IfOk result (λ kept. kept ≡ mark.now) }
    {
        let place = Box::new(alloc, mark.copy(alloc)?)?;
        Ok(KeptMark { place })
    }

    /// This mark, in a place of its own.
    pub fn keep(alloc: Global, mark: HouseMark) -> Result<KeptMark, OutOfMemory>
        ensures { IfOk result (λ kept. kept ≡ mark) }
    {
        let place = Box::new(alloc, mark)?;
        Ok(KeptMark { place })
    }

    /// The mark.
    pub fn as_mark(&self) -> &HouseMark
        ensures { result.now ≡ self.now }
    {
        &self.place
    }
}
