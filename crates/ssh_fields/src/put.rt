ghost use Rattle.std.specs.Prelude.{◌≡◌, ◌+◌, ◌^◌, ◌<◌, ◌≤◌, ◌++◌, length, OnOk, OnErr};
ghost use Rattle.ssh_fields.specs.Fields.{u32, str, with_u32};

use crate::out_of_memory::OutOfMemory;

/// Writes a number of four bytes, the most significant first. An `Err` writes nothing.
pub fn put_u32(out: &mut Vec<u8>, n: u32) -> Result<(), OutOfMemory>
    ensures ok { OnOk result (out.new.items ≡ out.old.items ++ u32 n) }
    ensures err { OnErr result (out.new.items ≡ out.old.items) }
{
    out.extend_from_slice(&n.to_be_bytes())?;
    Ok(())
}

/// Writes a string: its length as a number of four bytes, and then its bytes. An `Err` writes
/// nothing.
pub fn put_string(out: &mut Vec<u8>, s: &[u8]) -> Result<(), OutOfMemory>
    requires { length s.now < 2 ^ 32 }
    ensures ok { OnOk result (out.new.items ≡ out.old.items ++ str s.now) }
    ensures err { OnErr result (out.new.items ≡ out.old.items) }
{
    // Room for all of it first, so that no length stands there without its bytes.
    out.reserve(4 + s.len())?;
    out.extend_from_slice(&(s.len() as u32).to_be_bytes())?;
    out.extend_from_slice(s)?;
    Ok(())
}

/// Replaces the number of four bytes that stands at a place.
pub fn patch_u32(bytes: &mut [u8], at: usize, n: u32)
    requires { at + 4 ≤ length bytes.old }
    ensures { bytes.new ≡ with_u32 bytes.old at n }
{
    bytes[at..at + 4].copy_from_slice(&n.to_be_bytes());
}
