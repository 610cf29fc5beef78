use mux_messages::{BadControl, alive, failure, hello, ok, proxy, read_control, remote_port};

/// A body with one byte too many after it; the fault where its last byte is missing, and the fault
/// with the byte too many. Where what follows the id isn't read, that byte is none.
type ControlRow = (&'static [u8], Option<BadControl>, Option<BadControl>);

const ROWS: [ControlRow; 12] = [
    (
        b"\x00\x00\x00\x01\x00\x00\x00\x04\xff",
        Some(BadControl::Short { at: 4 }),
        Some(BadControl::Short { at: 8 }),
    ),
    (
        b"\x00\x00\x00\x01\x00\x00\x00\x04\x00\x00\x00\x01n\x00\x00\x00\x02vw\xff",
        Some(BadControl::Short { at: 13 }),
        Some(BadControl::Short { at: 19 }),
    ),
    (
        b"\x10\x00\x00\x02\x00\x00\x00\x05\xff",
        Some(BadControl::Short { at: 4 }),
        None,
    ),
    (
        b"\x10\x00\x00\x04\x00\x00\x00\x07\xff",
        Some(BadControl::Short { at: 4 }),
        Some(BadControl::Extra { at: 8 }),
    ),
    (
        b"\x10\x00\x00\x05\x00\x00\x00\x03\xff",
        Some(BadControl::Short { at: 4 }),
        Some(BadControl::Extra { at: 8 }),
    ),
    (
        b"\x10\x00\x00\x06\x00\x00\x00\x01\x00\x00\x00\x02\x00\x00\x00\x01l\x00\x00\x1f\x90\x00\x00\x00\x01c\x00\x00\x00\x50\xff",
        Some(BadControl::Short { at: 26 }),
        Some(BadControl::Extra { at: 30 }),
    ),
    (
        b"\x10\x00\x00\x07\x00\x00\x00\x01\x00\x00\x00\x02\x00\x00\x00\x01l\x00\x00\x1f\x90\x00\x00\x00\x01c\x00\x00\x00\x50\xff",
        Some(BadControl::Short { at: 26 }),
        Some(BadControl::Extra { at: 30 }),
    ),
    (
        b"\x10\x00\x00\x08\x00\x00\x00\x05\xff",
        Some(BadControl::Short { at: 4 }),
        None,
    ),
    (
        b"\x10\x00\x00\x09\x00\x00\x00\x05\xff",
        Some(BadControl::Short { at: 4 }),
        Some(BadControl::Extra { at: 8 }),
    ),
    (
        b"\x10\x00\x00\x0f\x00\x00\x00\x00\xff",
        Some(BadControl::Short { at: 4 }),
        Some(BadControl::Extra { at: 8 }),
    ),
    // Types that are in neither half of the protocol's table, or in the master's.
    (
        b"\x10\x00\x00\x03\x00\x00\x05\xff",
        Some(BadControl::Unknown {
            kind: 0x1000_0003,
            id: None,
        }),
        Some(BadControl::Unknown {
            kind: 0x1000_0003,
            id: Some(0x05ff),
        }),
    ),
    (
        b"\x80\x00\x00\x01\xff",
        Some(BadControl::Short { at: 0 }),
        Some(BadControl::Unknown {
            kind: 0x8000_0001,
            id: None,
        }),
    ),
];

// All bytes but the last.
fn cut(bytes: &[u8]) -> &[u8] {
    bytes.split_last().map_or(bytes, |parts| parts.1)
}

fn fault(body: &[u8]) -> Option<BadControl> {
    read_control(body).err()
}

// Whether a row's body is read as the row says: short by a byte, whole, and long by one.
fn is_read_so(row: &ControlRow) -> bool {
    let (long, short_by_one, long_by_one) = *row;
    let body = cut(long);
    fault(cut(body)) == short_by_one
        && matches!(fault(body), None | Some(BadControl::Unknown { .. }))
        && fault(long) == long_by_one
}

#[test]
fn each_control_message_is_read_to_its_last_byte(rt: HostRuntime) {
    assert_eq!(rt; ROWS.iter().position(|row| !is_read_so(row)), None);
}

#[test]
fn answers_are_written_to_the_byte(rt: HostRuntime) {
    for (answer, bytes) in &[
        (
            hello(),
            b"\x00\x00\x00\x08\x00\x00\x00\x01\x00\x00\x00\x04".as_slice(),
        ),
        (
            ok(3),
            b"\x00\x00\x00\x08\x80\x00\x00\x01\x00\x00\x00\x03".as_slice(),
        ),
        (
            proxy(0),
            b"\x00\x00\x00\x08\x80\x00\x00\x0f\x00\x00\x00\x00".as_slice(),
        ),
        (
            alive(7, 42),
            b"\x00\x00\x00\x0c\x80\x00\x00\x05\x00\x00\x00\x07\x00\x00\x00\x2a".as_slice(),
        ),
        (
            remote_port(1, 40001),
            b"\x00\x00\x00\x0c\x80\x00\x00\x07\x00\x00\x00\x01\x00\x00\x9c\x41".as_slice(),
        ),
        (
            failure(5, b"descriptors are not supported"),
            b"\x00\x00\x00\x29\x80\x00\x00\x03\x00\x00\x00\x05\x00\x00\x00\x1ddescriptors are not supported".as_slice(),
        ),
    ] {
        assert_eq!(rt; answer.as_bytes(), *bytes);
    }
}
