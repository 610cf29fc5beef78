//! A text and the same once more.
ghost use Rattle.std.specs.Prelude.{◌≡◌, IfOk};

use ssh_fields::{OutOfMemory, Text};
use std::alloc::Global;

/// A text and the same once more: one for an order, and one for its mark.
#[derive(Drop)]
pub struct TwoTexts {
    pub one: Text,
    pub other: Text,
    ghost same: { one ≡ other },
}

impl TwoTexts {
    pub fn copy(alloc: Global, bytes: &[u8]) -> Result<TwoTexts, OutOfMemory>
        ensures { IfOk result (λ texts. texts.one ≡ bytes.now) }
    {
        let one = Text::copy(alloc, bytes)?;
        let other = Text::copy(alloc, bytes)?;
        Ok(TwoTexts { one, other })
    }
}
