use ssh_fields::{Cursor, OutOfMemory, Text, Texts, put_string, put_u32};
use std::alloc::Global;
use std::test::Fail;

/// The spellings that RFC 4251, section 5, shows: 699921578 and "testing".
const NUMBER: [u8; 4] = [0x29, 0xb7, 0xf4, 0xaa];

const TESTING: [u8; 11] = *b"\x00\x00\x00\x07testing";

fn put_both(out: &mut Vec<u8>) -> Result<(), OutOfMemory> {
    put_u32(out, 699_921_578)?;
    put_string(out, b"testing")
}

// Whether these are the two spellings, one after the other.
fn is_spelled(bytes: &[u8]) -> bool {
    matches!(bytes.split_at_checked(4), Some((number, text)) if number == NUMBER.as_slice() && text == TESTING.as_slice())
}

// Whether the number and the text are read from these bytes, and nothing else.
fn is_read_back(bytes: &[u8]) -> bool {
    let mut cursor = Cursor::new(bytes);
    cursor.take_u32() == Some(699_921_578)
        && cursor.take_string() == Some(b"testing")
        && cursor.is_empty()
}

#[test]
fn fields_are_spelled_as_rfc_4251_shows(rt: HostRuntime) -> Result<(), Fail> {
    let mut out = Vec::new(rt.alloc());
    let put = put_both(&mut out);
    let (spelled, read) = (is_spelled(&out), is_read_back(&out));
    drop(out);
    put?;
    assert!(rt; spelled);
    assert!(rt; read);
    Ok(())
}

// The text of a line, that is made in three parts.
fn line(alloc: Global) -> Result<Text, OutOfMemory> {
    let mut text = Text::copy(alloc, b"Host")?;
    text.push(b' ')?;
    text.add(b"*.example.org")?;
    Ok(text)
}

// Adds the line, and an empty text.
fn push_both(alloc: Global, texts: &mut Texts) -> Result<(), OutOfMemory> {
    texts.push(line(alloc)?)?;
    texts.push(Text::new(alloc))
}

// Whether these are the line and one more text.
fn are_both(texts: &Texts) -> bool {
    texts.len() == 2
        && texts.get(0).is_some_and(|first| first.as_bytes() == b"Host *.example.org".as_slice())
        && texts.get(2).is_none()
}

#[test]
fn texts_are_kept_in_order(rt: HostRuntime) -> Result<(), Fail> {
    let mut texts = Texts::new(rt.alloc());
    let pushed = push_both(rt.alloc(), &mut texts);
    let kept = are_both(&texts);
    drop(texts);
    pushed?;
    assert!(rt; kept);
    let shown = format!(in rt.alloc(); "{OutOfMemory}")?;
    assert_eq!(rt; shown.as_str(), "out of memory");
    Ok(())
}
