use conn_messages::{
    Bad, cancel_forward, cancel_path, close, open_failure, read_message, request_failure,
};

/// A payload with one byte too many after it; the fault where its last byte is missing, and the
/// fault with the byte too many. Where its last field is data, neither is a fault.
type MessageRow = (&'static [u8], Option<Bad>, Option<Bad>);

const ROWS: [MessageRow; 27] = [
    (b"\x01\x00\x00\x00\x0b\xff", None, None),
    (b"\x02\xff", Some(Bad::Empty), None),
    (b"\x03\x00\x00\x00\x05\xff", None, None),
    (b"\x04\x01\xff", None, None),
    (
        b"\x50\x00\x00\x00\x15keepalive@openssh.com\x01\xff",
        Some(Bad::Short { at: 26 }),
        None,
    ),
    (
        b"\x50\x00\x00\x00\x1fstreamlocal-forward@openssh.com\x01\x00\x00\x00\x02/s\xff",
        Some(Bad::Short { at: 37 }),
        Some(Bad::Extra { at: 43 }),
    ),
    (
        b"\x50\x00\x00\x00\x26cancel-streamlocal-forward@openssh.com\x00\x00\x00\x00\x02/s\xff",
        Some(Bad::Short { at: 44 }),
        Some(Bad::Extra { at: 50 }),
    ),
    (
        b"\x50\x00\x00\x00\x0dtcpip-forward\x01\x00\x00\x00\x09127.0.0.1\x00\x00\x1f\x90\xff",
        Some(Bad::Short { at: 32 }),
        Some(Bad::Extra { at: 36 }),
    ),
    (
        b"\x50\x00\x00\x00\x14cancel-tcpip-forward\x00\x00\x00\x00\x00\x00\x00\x1f\x90\xff",
        Some(Bad::Short { at: 30 }),
        Some(Bad::Extra { at: 34 }),
    ),
    (
        b"\x50\x00\x00\x00\x01x\x07\xff",
        Some(Bad::Short { at: 6 }),
        None,
    ),
    (b"\x51\x00\x00\x1f\x90\xff", None, None),
    (b"\x52\xff", Some(Bad::Empty), Some(Bad::Extra { at: 1 })),
    (
        b"\x5a\x00\x00\x00\x07session\x00\x00\x00\x05\x00\x20\x00\x00\x00\x00\x80\x00\xff",
        Some(Bad::Short { at: 20 }),
        None,
    ),
    (
        b"\x5a\x00\x00\x00\x0cdirect-tcpip\x00\x00\x00\x05\x00\x20\x00\x00\x00\x00\x80\x00\x00\x00\x00\x01h\x00\x00\x00\x50\x00\x00\x00\x01o\x00\x00\x00\x01\xff",
        Some(Bad::Short { at: 43 }),
        Some(Bad::Extra { at: 47 }),
    ),
    (
        b"\x5a\x00\x00\x00\x0fforwarded-tcpip\x00\x00\x00\x05\x00\x20\x00\x00\x00\x00\x80\x00\x00\x00\x00\x01a\x00\x00\x00\x50\x00\x00\x00\x01o\x00\x00\x00\x01\xff",
        Some(Bad::Short { at: 46 }),
        Some(Bad::Extra { at: 50 }),
    ),
    (
        b"\x5a\x00\x00\x00\x1edirect-streamlocal@openssh.com\x00\x00\x00\x04\x00\x20\x00\x00\x00\x00\x80\x00\x00\x00\x00\x02/s\x00\x00\x00\x00\x00\x00\x00\x00\xff",
        Some(Bad::Short { at: 57 }),
        Some(Bad::Extra { at: 61 }),
    ),
    (
        b"\x5a\x00\x00\x00\x21forwarded-streamlocal@openssh.com\x00\x00\x00\x09\x00\x20\x00\x00\x00\x00\x80\x00\x00\x00\x00\x02/s\x00\x00\x00\x00\xff",
        Some(Bad::Short { at: 56 }),
        Some(Bad::Extra { at: 60 }),
    ),
    (
        b"\x5b\x00\x00\x00\x05\x00\x00\x00\x06\x00\x20\x00\x00\x00\x00\x80\x00\xff",
        Some(Bad::Short { at: 13 }),
        None,
    ),
    (
        b"\x5c\x00\x00\x00\x05\x00\x00\x00\x01\x00\x00\x00\x02no\x00\x00\x00\x00\xff",
        Some(Bad::Short { at: 15 }),
        Some(Bad::Extra { at: 19 }),
    ),
    (
        b"\x5d\x00\x00\x00\x05\x00\x00\x80\x00\xff",
        Some(Bad::Short { at: 5 }),
        Some(Bad::Extra { at: 9 }),
    ),
    (
        b"\x5e\x00\x00\x00\x05\x00\x00\x00\x02hi\xff",
        Some(Bad::Short { at: 5 }),
        Some(Bad::Extra { at: 11 }),
    ),
    (
        b"\x5f\x00\x00\x00\x05\x00\x00\x00\x01\x00\x00\x00\x02hi\xff",
        Some(Bad::Short { at: 9 }),
        Some(Bad::Extra { at: 15 }),
    ),
    (
        b"\x60\x00\x00\x00\x05\xff",
        Some(Bad::Short { at: 1 }),
        Some(Bad::Extra { at: 5 }),
    ),
    (
        b"\x61\x00\x00\x00\x05\xff",
        Some(Bad::Short { at: 1 }),
        Some(Bad::Extra { at: 5 }),
    ),
    (
        b"\x62\x00\x00\x00\x05\x00\x00\x00\x05shell\x01\xff",
        Some(Bad::Short { at: 14 }),
        None,
    ),
    (
        b"\x63\x00\x00\x00\x05\xff",
        Some(Bad::Short { at: 1 }),
        Some(Bad::Extra { at: 5 }),
    ),
    (
        b"\x64\x00\x00\x00\x05\xff",
        Some(Bad::Short { at: 1 }),
        Some(Bad::Extra { at: 5 }),
    ),
];

// All bytes but the last.
fn cut(bytes: &[u8]) -> &[u8] {
    bytes.split_last().map_or(bytes, |parts| parts.1)
}

fn fault(payload: &[u8]) -> Option<Bad> {
    read_message(payload).err()
}

// Whether a row's payload is read as the row says: short by a byte, whole, and long by one.
fn is_read_so(row: &MessageRow) -> bool {
    let (long, short_by_one, long_by_one) = *row;
    let payload = cut(long);
    fault(cut(payload)) == short_by_one && fault(payload).is_none() && fault(long) == long_by_one
}

#[test]
fn each_message_is_read_to_its_last_byte(rt: HostRuntime) {
    assert_eq!(rt; ROWS.iter().position(|row| !is_read_so(row)), None);
    assert_eq!(rt; fault(b"\x53"), Some(Bad::Kind(83)));
}

#[test]
fn own_messages_are_written_to_the_byte(rt: HostRuntime) {
    for (message, bytes) in &[
        (
            open_failure(5, 1, b"not permitted"),
            b"\x5c\x00\x00\x00\x05\x00\x00\x00\x01\x00\x00\x00\x0dnot permitted\x00\x00\x00\x00".as_slice(),
        ),
        (close(5), b"\x61\x00\x00\x00\x05".as_slice()),
        (request_failure(), b"\x52".as_slice()),
        (
            cancel_forward(b"", 8080),
            b"\x50\x00\x00\x00\x14cancel-tcpip-forward\x00\x00\x00\x00\x00\x00\x00\x1f\x90".as_slice(),
        ),
        (
            cancel_path(b"/s"),
            b"\x50\x00\x00\x00\x26cancel-streamlocal-forward@openssh.com\x00\x00\x00\x00\x02/s".as_slice(),
        ),
    ] {
        assert_eq!(rt; message.as_bytes(), *bytes);
    }
}
