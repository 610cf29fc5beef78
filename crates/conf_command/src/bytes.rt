ghost use Rattle.std.specs.Prelude.{◌≡◌, ◌+◌, ◌-◌, ◌∷◌, ◌++◌, IfOk, bytes_eq};

use ssh_fields::{OutOfMemory, Text, Texts};
use std::alloc::Global;

/// Whether two texts are equal.
pub fn is_same(a: &[u8], b: &[u8]) -> bool
    ensures { result ≡ bytes_eq a.now b.now }
{
    a == b
}

/// A copy of texts.
pub fn copied(alloc: Global, texts: &[Text]) -> Result<Texts, OutOfMemory>
    ensures { IfOk result (λ copy. copy ≡ texts.now) }
{
    let mut copy = Texts::new(alloc);
    for text in texts {
        copy.push(Text::copy(alloc, text.as_bytes())?)?;
    }
    Ok(copy)
}

/// Two parts with a colon between them.
pub fn joined(alloc: Global, before: &[u8], behind: &[u8]) -> Result<Text, OutOfMemory>
    ensures { IfOk result (λ text. text ≡ before.now ++ 58 ∷ behind.now) }
{
    let mut text = Text::copy(alloc, before)?;
    text.push(b':')?;
    text.add(behind)?;
    Ok(text)
}
