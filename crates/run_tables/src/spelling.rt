//! Bytes as the lines of a table spell them.
ghost use Rattle.std.specs.Prelude.{◌<◌, IfOk};

use crate::trouble::Trouble;
use ssh_fields::{OutOfMemory, Text};
use std::alloc::Global;

const HEX_DIGITS: &[u8; 16] = b"0123456789abcdef";

// The value of a digit of base 16.
fn nibble(digit: u8) -> Result<u8, Trouble>
    ensures { IfOk result (λ n. n < 16) }
{
    match digit {
        b'0'..=b'9' => Ok(digit - b'0'),
        b'a'..=b'f' => Ok(digit - b'a' + 10),
        _ => Err(Trouble::Unread),
    }
}

// The byte of two digits.
fn byte_of(digits: &[u8]) -> Result<u8, Trouble> {
    let [high, low] = digits else {
        return Err(Trouble::Unread);
    };
    Ok(nibble(*high)? * 16 + nibble(*low)?)
}

/// Adds the bytes that an even number of digits spells.
pub fn add_hex(out: &mut Text, digits: &[u8]) -> Result<(), Trouble> {
    for pair in digits.chunks(2) {
        out.push(byte_of(pair)?)?;
    }
    Ok(())
}

// Adds two digits.
fn push_hex(out: &mut Text, byte: u8) -> Result<(), OutOfMemory> {
    out.push(HEX_DIGITS[(byte / 16) as usize])?;
    out.push(HEX_DIGITS[(byte % 16) as usize])
}

// Adds a space and the digits of bytes.
fn spell_hex(out: &mut Text, bytes: &[u8]) -> Result<(), OutOfMemory> {
    out.push(b' ')?;
    for byte in bytes {
        push_hex(out, *byte)?;
    }
    Ok(())
}

/// Adds the frames of a stream, each as its length and its body, and after them what is no whole
/// frame.
pub fn spell_frames(out: &mut Text, bytes: &[u8]) -> Result<(), OutOfMemory> {
    let mut left = bytes;
    for _ in 0..bytes.len() {
        let Some(Frame { len, body, behind }) = first_frame(left) else {
            break;
        };
        spell_hex(out, len)?;
        spell_hex(out, body)?;
        left = behind;
    }
    if left.is_empty() {
        return Ok(());
    }
    spell_hex(out, left)
}

// A frame: its length and its body, and what is after it.
struct Frame<'a> {
    len: &'a [u8],
    body: &'a [u8],
    behind: &'a [u8],
}

// The first frame, where it is whole.
fn first_frame(bytes: &[u8]) -> Option<Frame<'_>> {
    let [a, b, c, d, rest @ ..] = bytes else {
        return None;
    };
    let len = u32::from_be_bytes([*a, *b, *c, *d]) as usize;
    if len > rest.len() {
        return None;
    }
    let (body, behind) = rest.split_at(len);
    Some(Frame {
        len: &bytes[..4],
        body,
        behind,
    })
}

/// The text of one with escapes: `\n`, `\t`, `\s` for a space, `\e` for nothing, `\\` and `\xNN`.
pub fn unescape(alloc: Global, text: &str) -> Result<Text, Trouble> {
    let mut out = Text::new(alloc);
    add_unescaped(&mut out, text.as_bytes())?;
    Ok(out)
}

/// Adds the text of one with escapes.
pub fn add_unescaped(out: &mut Text, text: &[u8]) -> Result<(), Trouble> {
    let mut left = text;
    for _ in 0..text.len() {
        let (byte, behind) = match left {
            [] => break,
            [b'\\', escape @ ..] => escaped(escape)?,
            [byte, behind @ ..] => (Some(*byte), behind),
        };
        if let Some(byte) = byte {
            out.push(byte)?;
        }
        left = behind;
    }
    Ok(())
}

// The byte of an escape, if it has one, and what is after it.
fn escaped(escape: &[u8]) -> Result<(Option<u8>, &[u8]), Trouble> {
    match escape {
        [b'n', behind @ ..] => Ok((Some(b'\n'), behind)),
        [b't', behind @ ..] => Ok((Some(b'\t'), behind)),
        [b's', behind @ ..] => Ok((Some(b' '), behind)),
        [b'e', behind @ ..] => Ok((None, behind)),
        [b'\\', behind @ ..] => Ok((Some(b'\\'), behind)),
        [b'x', _, _, behind @ ..] => Ok((Some(byte_of(&escape[1..3])?), behind)),
        _ => Err(Trouble::Unread),
    }
}

/// Adds a text with escapes for what isn't printable, and for `\`.
pub fn escape(out: &mut Text, bytes: &[u8]) -> Result<(), OutOfMemory> {
    for byte in bytes {
        escape_byte(out, *byte)?;
    }
    Ok(())
}

// Adds a byte, or its escape.
fn escape_byte(out: &mut Text, byte: u8) -> Result<(), OutOfMemory> {
    match byte {
        b'\n' => out.add(b"\\n"),
        b'\t' => out.add(b"\\t"),
        b'\\' => out.add(b"\\\\"),
        b' '..=b'~' => out.push(byte),
        other => {
            out.add(b"\\x")?;
            push_hex(out, other)
        }
    }
}

/// Adds a space and a number.
pub fn add_number(out: &mut Text, alloc: Global, number: u64) -> Result<(), OutOfMemory> {
    let number = format!(in alloc; " {number}")?;
    out.add(number.as_bytes())
}
