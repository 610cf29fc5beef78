ghost use Rattle.std.specs.Prelude.{◌≡◌, ℕ, ◌+◌, ◌<◌, ◌^◌, List, [], length, Some, None, Ok, Err, IfOk, IfErr, OnOk, OnErr, ◌≢◌};
ghost use Rattle.ssh_fields.specs.Fields.{take_bool, take_u32, take_str};
ghost use Rattle.ssh_fields.specs.declared.field_reader.FieldFault.TheVariants.{Short, Extra};

use crate::cursor::Cursor;
use thiserror::Error;

/// Why fields don't fill the bytes of a message. A place counts the message's bytes from 0.
#[derive(Clone, Copy, Debug, PartialEq, Eq, Error)]
pub enum FieldFault {
    /// The field that begins there doesn't fit.
    #[error("the field at {at} is cut short")]
    Short { at: usize },
    /// Bytes from there on are left over.
    #[error("bytes from {at} on are left over")]
    Extra { at: usize },
}

/// The fields of a message from some place on, read in order. A field that doesn't fit is named by
/// its place, and isn't taken.
#[derive(Drop)]
pub struct FieldReader<'a> {
    /// The bytes that are left.
    pub cursor: Cursor<'a>,
    /// Their place in the message.
    pub at: usize,
    ghost within: { at + length cursor < 2 ^ 63 },
}

impl<'a> FieldReader<'a> {
    ghost use Rattle.ssh_fields.specs.FieldReader.{IsUnchanged};

    /// The fields of these bytes, which stand at a place of the message.
    pub fn new(bytes: &'a [u8], at: usize) -> FieldReader<'a>
        requires { at + length bytes.now < 2 ^ 63 }
        ensures bytes { result.cursor ≡ bytes.now }
        ensures place { result.at ≡ at }
    {
        FieldReader {
            cursor: Cursor::new(bytes),
            at,
        }
    }

    /// All that is left.
    pub fn rest(&self) -> &'a [u8]
        ensures { result.now ≡ self.now.cursor }
    {
        self.cursor.rest()
    }

    pub fn take_bool(&mut self) -> Result<bool, FieldFault>
        ensures ok { IfOk result (λ b. take_bool self.old.cursor ≡ Some (b, self.new.cursor)) }
        ensures place { OnOk result (self.new.at ≡ self.old.at + 1) }
        ensures err { IfErr result (λ e. e ≡ Short self.old.at) }
        ensures short { OnErr result (take_bool self.old.cursor ≡ None) }
        ensures unchanged { OnErr result (IsUnchanged self.old self.new) }
    {
        let b = self
            .cursor
            .take_bool()
            .ok_or(FieldFault::Short { at: self.at })?;
        self.at += 1;
        Ok(b)
    }

    pub fn take_u32(&mut self) -> Result<u32, FieldFault>
        ensures ok { IfOk result (λ n. take_u32 self.old.cursor ≡ Some (n, self.new.cursor)) }
        ensures place { OnOk result (self.new.at ≡ self.old.at + 4) }
        ensures err { IfErr result (λ e. e ≡ Short self.old.at) }
        ensures short { OnErr result (take_u32 self.old.cursor ≡ None) }
        ensures unchanged { OnErr result (IsUnchanged self.old self.new) }
    {
        let n = self
            .cursor
            .take_u32()
            .ok_or(FieldFault::Short { at: self.at })?;
        self.at += 4;
        Ok(n)
    }

    pub fn take_string(&mut self) -> Result<&'a [u8], FieldFault>
        ensures ok { IfOk result (λ s. take_str self.old.cursor ≡ Some (s.now, self.new.cursor)) }
        ensures place { IfOk result (λ s. self.new.at ≡ self.old.at + 4 + length s.now) }
        ensures err { IfErr result (λ e. e ≡ Short self.old.at) }
        ensures short { OnErr result (take_str self.old.cursor ≡ None) }
        ensures unchanged { OnErr result (IsUnchanged self.old self.new) }
    {
        let s = self
            .cursor
            .take_string()
            .ok_or(FieldFault::Short { at: self.at })?;
        self.at += 4 + s.len();
        Ok(s)
    }

    /// Checks that nothing is left over.
    pub fn end(&self) -> Result<(), FieldFault>
        ensures ok { OnOk result (self.now.cursor ≡ []) }
        ensures err { IfErr result (λ e. e ≡ Extra self.now.at) }
        ensures extra { OnErr result (self.now.cursor ≢ []) }
    {
        if !self.cursor.is_empty() {
            return Err(FieldFault::Extra { at: self.at });
        }
        Ok(())
    }
}
