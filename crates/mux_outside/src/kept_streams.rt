ghost use Rattle.std.specs.Prelude.{◌≡◌, IfOk};

use crate::streams::Streams;
use ssh_fields::OutOfMemory;
use std::alloc::Global;
use std::marker::Model;
use std::rc::Rc;

/// Numbers of streams as they were at one time. Several marks may share them.
#[derive(Drop)]
pub struct KeptStreams {
    shared: Rc<Streams>,
}

impl Model for KeptStreams {
    ghost use Rattle.std.specs.Prelude.{List, ℕ};

    ghost Value = { List ℕ };

    ghost view = { λ k. k.shared.value };
}

impl KeptStreams {
    /// These streams.
    pub fn copy(alloc: Global, numbers: &[u64]) -> Result<KeptStreams, OutOfMemory>
        ensures { IfOk result (λ kept. kept ≡ numbers.now) }
    {
        let streams = Streams::copy(alloc, numbers)?;
        let shared = Rc::new(alloc, streams)?;
        Ok(KeptStreams { shared })
    }

    /// The same streams, without memory of their own.
    pub fn share(&self) -> Result<KeptStreams, OutOfMemory>
        ensures { IfOk result (λ kept. kept ≡ self.now) }
    {
        let shared = self.shared.clone()?;
        Ok(KeptStreams { shared })
    }

    /// All of them.
    pub fn as_slice(&self) -> &[u64]
        ensures { result.now ≡ self.now }
    {
        self.shared.as_ref().as_slice()
    }
}
