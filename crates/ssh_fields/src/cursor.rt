ghost use Rattle.std.specs.Prelude.{◌≡◌, ℕ, List, length, IsTrue, ◌↔◌, [], Some, None, IfSome, IfNone};
ghost use Rattle.ssh_fields.specs.Fields.{take_u8, take_bool, take_u32, take_str};

use std::marker::Model;

/// A place in bytes that are read field by field. Contracts see the bytes that are left.
///
/// A field that doesn't fit into them is not taken.
#[derive(Drop)]
pub struct Cursor<'a> {
    rest: &'a [u8],
}

impl<'a> Model for Cursor<'a> {
    ghost use Rattle.std.specs.Prelude.{ℕ, List};

    ghost Value = { List ℕ };

    ghost view = { λ c. c.rest.now };
}

impl<'a> Cursor<'a> {
    /// At the first of these bytes.
    pub fn new(bytes: &'a [u8]) -> Cursor<'a>
        ensures { result ≡ bytes.now }
    {
        Cursor { rest: bytes }
    }

    /// The bytes that are left.
    pub fn rest(&self) -> &'a [u8]
        ensures { result.now ≡ self.now }
    {
        self.rest
    }

    /// How many bytes are left.
    pub fn len(&self) -> usize
        ensures { result ≡ length self.now }
    {
        self.rest.len()
    }

    pub fn is_empty(&self) -> bool
        ensures { IsTrue result ↔ (self.now ≡ []) }
    {
        self.rest.is_empty()
    }

    /// A byte.
    pub fn take_u8(&mut self) -> Option<u8>
        ensures ok { IfSome result (λ b. take_u8 self.old ≡ Some (b, self.new)) }
        ensures short { IfNone result (take_u8 self.old ≡ None) }
        ensures unchanged { IfNone result (self.new ≡ self.old) }
    {
        let (first, rest) = self.rest.split_first()?;
        self.rest = rest;
        Some(*first)
    }

    /// A boolean. Every byte but 0 is true.
    pub fn take_bool(&mut self) -> Option<bool>
        ensures ok { IfSome result (λ b. take_bool self.old ≡ Some (b, self.new)) }
        ensures short { IfNone result (take_bool self.old ≡ None) }
        ensures unchanged { IfNone result (self.new ≡ self.old) }
    {
        Some(self.take_u8()? != 0)
    }

    /// A number of four bytes, the most significant first.
    pub fn take_u32(&mut self) -> Option<u32>
        ensures ok { IfSome result (λ n. take_u32 self.old ≡ Some (n, self.new)) }
        ensures short { IfNone result (take_u32 self.old ≡ None) }
        ensures unchanged { IfNone result (self.new ≡ self.old) }
    {
        match self.rest {
            [a, b, c, d, rest @ ..] => {
                self.rest = rest;
                Some(u32::from_be_bytes([*a, *b, *c, *d]))
            }
            _ => None,
        }
    }

    /// A string: its length as a number of four bytes, and then its bytes.
    pub fn take_string(&mut self) -> Option<&'a [u8]>
        ensures ok { IfSome result (λ s. take_str self.old ≡ Some (s.now, self.new)) }
        ensures short { IfNone result (take_str self.old ≡ None) }
        ensures unchanged { IfNone result (self.new ≡ self.old) }
    {
        let mut after = Cursor::new(self.rest);
        let len = after.take_u32()? as usize;
        if after.len() < len {
            return None;
        }
        let (string, rest) = after.rest.split_at(len);
        self.rest = rest;
        Some(string)
    }
}
