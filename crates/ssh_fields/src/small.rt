ghost use Rattle.std.specs.Prelude.{◌≡◌, ◌+◌, ◌≤◌, [], ◌++◌, length, ⊤};
ghost use Rattle.ssh_fields.specs.Fields.{u32, str};

use std::alloc::AllocError;
use std::marker::Model;

/// At most 512 bytes, kept in the value itself.
#[derive(Drop)]
pub struct Small {
    bytes: [u8; 512],
    len: usize,
}

impl Model for Small {
    ghost use Rattle.std.specs.Prelude.{ℕ, ◌≤◌, List, take};

    ghost Value = { List ℕ };

    ghost view = { λ s. take s.len s.bytes };

    ghost invariant = { λ s. s.len ≤ 512 };
}

impl Clone for Small {
    ghost is_clone = { λ x y. y ≡ x };

    ghost is_infallible = { λ _. ⊤ };

    fn clone(&self) -> Result<Small, AllocError> {
        Ok(Small {
            bytes: self.bytes,
            len: self.len,
        })
    }
}

impl Small {
    /// The most bytes that it holds.
    pub const CAPACITY: usize = 512;

    /// These bytes.
    pub fn copy(bytes: &[u8]) -> Small
        requires { length bytes.now ≤ Self.CAPACITY }
        ensures { result ≡ bytes.now }
    {
        let mut small = Small {
            bytes: [0; 512],
            len: 0,
        };
        small.push(bytes);
        small
    }

    /// Adds bytes at the end.
    pub fn push(&mut self, bytes: &[u8])
        requires { length self.old + length bytes.now ≤ Self.CAPACITY }
        ensures { self.new ≡ self.old ++ bytes.now }
    {
        let end = self.len + bytes.len();
        self.bytes[self.len..end].copy_from_slice(bytes);
        self.len = end;
    }

    /// Adds a number of four bytes, the most significant first.
    pub fn push_u32(&mut self, n: u32)
        requires { length self.old + 4 ≤ Self.CAPACITY }
        ensures { self.new ≡ self.old ++ u32 n }
    {
        self.push(&n.to_be_bytes());
    }

    /// Adds a string: its length as a number of four bytes, and then its bytes.
    pub fn push_string(&mut self, s: &[u8])
        requires { length self.old + 4 + length s.now ≤ Self.CAPACITY }
        ensures { self.new ≡ self.old ++ str s.now }
    {
        self.push_u32(s.len() as u32);
        self.push(s);
    }

    pub fn as_bytes(&self) -> &[u8]
        ensures value { result.now ≡ self.now }
        ensures fits { length self.now ≤ Self.CAPACITY }
    {
        &self.bytes[..self.len]
    }
}
