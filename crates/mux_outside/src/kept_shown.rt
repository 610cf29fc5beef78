ghost use Rattle.std.specs.Prelude.{◌≡◌, IfOk};

use crate::shown::Shown;
use ssh_fields::OutOfMemory;
use std::alloc::Global;
use std::marker::Model;
use std::rc::Rc;

/// What a wire showed at one time. Several marks may share it.
#[derive(Drop)]
pub struct KeptShown {
    shared: Rc<Shown>,
}

impl Model for KeptShown {
    ghost use Rattle.mux_outside.specs.declared.shown.Shown.{Shown as TheShown};

    ghost Value = { TheShown };

    ghost view = { λ k. k.shared.value };
}

impl KeptShown {
    /// This, for marks to share.
    pub fn keep(alloc: Global, shown: Shown) -> Result<KeptShown, OutOfMemory>
        ensures { IfOk result (λ kept. kept ≡ shown) }
    {
        let shared = Rc::new(alloc, shown)?;
        Ok(KeptShown { shared })
    }

    /// The same, without memory of its own.
    pub fn share(&self) -> Result<KeptShown, OutOfMemory>
        ensures { IfOk result (λ kept. kept ≡ self.now) }
    {
        let shared = self.shared.clone()?;
        Ok(KeptShown { shared })
    }

    /// What was shown.
    pub fn as_shown(&self) -> &Shown
        ensures { result.now ≡ self.now }
    {
        self.shared.as_ref()
    }
}
