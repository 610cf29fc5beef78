use DialogEnd::{Bad, Connect, More};
use socks_dialog::{Dialog, DialogStep};
use std::test::Fail;

/// How a dialog ends.
#[derive(Clone, Copy)]
enum DialogEnd {
    More,
    Connect(&'static [u8], u16),
    Bad(&'static [u8]),
}

/// All bytes of a client, the reply before the end, the end, and how many bytes are data after it.
type DialogRow = (&'static [u8], &'static [u8], DialogEnd, usize);

/// The reply of SOCKS 4 that refuses.
const REFUSED_4: &[u8] = b"\x00\x5b\x00\x00\x00\x00\x00\x00";

/// Requests, whole and unfinished.
const REQUESTS: [DialogRow; 12] = [
    (b"", b"", More, 0),
    (b"\x04", b"", More, 0),
    (
        b"\x04\x01\x00\x50\x0a\x00\x00\x05\x00",
        b"",
        Connect(b"10.0.0.5", 80),
        0,
    ),
    (
        b"\x04\x01\x00\x50\x0a\x00\x00\x05ann\x00GET",
        b"",
        Connect(b"10.0.0.5", 80),
        3,
    ),
    (
        b"\x04\x01\x00\x50\x00\x00\x00\x00\x00",
        b"",
        Connect(b"0.0.0.0", 80),
        0,
    ),
    (b"\x04\x01\x15\x38\x00\x00\x00\xffann\x00db", b"", More, 0),
    (
        b"\x04\x01\x15\x38\x00\x00\x00\xffann\x00db\x00hello",
        b"",
        Connect(b"db", 5432),
        5,
    ),
    (b"\x05\x02\x00", b"", More, 0),
    (b"\x05\x02\x02\x00", b"\x05\x00", More, 0),
    (
        b"\x05\x01\x00\x05\x01\x00\x03\x02db\x15\x38hello",
        b"\x05\x00",
        Connect(b"db", 5432),
        5,
    ),
    (
        b"\x05\x01\x00\x05\x01\x00\x01\xc0\x00\x02\x63\x00\x16",
        b"\x05\x00",
        Connect(b"192.0.2.99", 22),
        0,
    ),
    (
        b"\x05\x01\x00\x05\x01\x00\x04\x20\x01\x0d\xb8\x00\x00\x00\x00\x00\x00\x00\x00\x00\x00\xab\xcd\x01\xbb",
        b"\x05\x00",
        Connect(b"2001:db8:0:0:0:0:0:abcd", 443),
        0,
    ),
];

/// A request for each cause of a refusal, and what is written then. Its bytes up to the first fault
/// are the dialog, so what stands after is counted as data.
const REFUSALS: [DialogRow; 13] = [
    (b"\x04\x02\x00\x50", b"", Bad(REFUSED_4), 2),
    (
        b"\x04\x01\x15\x38\x00\x00\x00\x01\x00\x00",
        b"",
        Bad(REFUSED_4),
        0,
    ),
    (b"\x05\x01\x02", b"", Bad(b"\x05\xff"), 0),
    (b"\x05\x00", b"", Bad(b"\x05\xff"), 0),
    (
        b"\x05\x01\x00\x05\x02\x00\x01",
        b"\x05\x00",
        Bad(b"\x05\x07\x00\x01\x00\x00\x00\x00\x00\x00"),
        2,
    ),
    (
        b"\x05\x01\x00\x05\x03",
        b"\x05\x00",
        Bad(b"\x05\x07\x00\x01\x00\x00\x00\x00\x00\x00"),
        0,
    ),
    (
        b"\x05\x01\x00\x05\x01\x00\x02",
        b"\x05\x00",
        Bad(b"\x05\x08\x00\x01\x00\x00\x00\x00\x00\x00"),
        0,
    ),
    (
        b"\x05\x01\x00\x05\x01\x00\x03\x00\x00\x50",
        b"\x05\x00",
        Bad(b"\x05\x01\x00\x01\x00\x00\x00\x00\x00\x00"),
        2,
    ),
    (
        b"\x05\x01\x00\x04",
        b"\x05\x00",
        Bad(b"\x05\x01\x00\x01\x00\x00\x00\x00\x00\x00"),
        0,
    ),
    (
        b"\x05\x01\x00\x05\x01\x01",
        b"\x05\x00",
        Bad(b"\x05\x01\x00\x01\x00\x00\x00\x00\x00\x00"),
        0,
    ),
    (b"\x06", b"", Bad(b""), 0),
    (b"\x00", b"", Bad(b""), 0),
    (b"GET / HTTP/1.1", b"", Bad(b""), 13),
];

fn is(step: &DialogStep, end: DialogEnd) -> bool {
    match (step, end) {
        (DialogStep::More, DialogEnd::More) => true,
        (DialogStep::Connect { host, port }, DialogEnd::Connect(wanted, at)) => {
            host.as_bytes() == wanted && *port == at
        }
        (DialogStep::Bad(reply), DialogEnd::Bad(wanted)) => reply.as_bytes() == wanted,
        _ => false,
    }
}

/// A dialog, and what it has sent so far.
#[derive(Drop)]
struct Talk {
    dialog: Dialog,
    replied: bool,
    data: usize,
}

impl Talk {
    fn new() -> Talk {
        Talk {
            dialog: Dialog::new(),
            replied: false,
            data: 0,
        }
    }

    // Whether the dialog, given a piece, answers nothing but this reply, and that once.
    fn receives(&mut self, piece: &[u8], reply: &[u8]) -> bool {
        self.data = self
            .data
            .saturating_add(piece.len() - self.dialog.push(piece));
        if let DialogStep::Reply(given) = self.dialog.step() {
            if self.replied || given.as_bytes() != reply {
                return false;
            }
            self.replied = true;
        }
        true
    }

    // Whether it ends as its row says.
    fn ends(&mut self, row: &DialogRow) -> bool {
        let (_, reply, end, data) = *row;
        self.replied != reply.is_empty() && self.data == data && is(&self.dialog.step(), end)
    }
}

// Whether a dialog goes as its row says where its bytes come in pieces of this size.
fn goes_in_pieces(row: &DialogRow, size: usize) -> bool {
    let mut talk = Talk::new();
    for piece in row.0.chunks(size.max(1)) {
        if !talk.receives(piece, row.1) {
            return false;
        }
    }
    talk.ends(row)
}

// Whether it does where its bytes are cut at these two places.
fn goes_in_three(row: &DialogRow, first: usize, second: usize) -> bool {
    let mut talk = Talk::new();
    let (front, back) = row.0.split_at(second.min(row.0.len()));
    let (front, middle) = front.split_at(first.min(front.len()));
    talk.receives(front, row.1)
        && talk.receives(middle, row.1)
        && talk.receives(back, row.1)
        && talk.ends(row)
}

// Whether it does a byte at a time, all at once, in pieces of each size between, and in three pieces
// of any size.
fn goes(row: &DialogRow) -> bool {
    for size in 0..row.0.len() {
        if !goes_in_pieces(row, size + 1) {
            return false;
        }
        for first in 0..size {
            if !goes_in_three(row, first, size) {
                return false;
            }
        }
    }
    goes_in_three(row, 0, 0)
}

#[test]
fn requests_go_so_however_their_bytes_are_cut(rt: HostRuntime) -> Result<(), Fail> {
    for row in &REQUESTS {
        assert!(rt; goes(row));
    }
    Ok(())
}

#[test]
fn each_refusal_has_its_reply_however_its_bytes_are_cut(rt: HostRuntime) -> Result<(), Fail> {
    for row in &REFUSALS {
        assert!(rt; goes(row));
    }
    Ok(())
}

// The replies of a dialog in one piece that asks for an end: that it is reached, and that it isn't
// for the reasons 1 and 2.
fn answers_are(bytes: &[u8], granted: &[u8], first: &[u8], second: &[u8]) -> bool {
    let mut dialog = Dialog::new();
    let _ = dialog.push(bytes);
    for _ in 0..2 {
        if let DialogStep::Connect { .. } = dialog.step() {
            return dialog.granted().as_bytes() == granted
                && dialog.refused(1).as_bytes() == first
                && dialog.refused(2).as_bytes() == second;
        }
    }
    false
}

#[test]
fn an_end_that_is_asked_for_is_answered_by_its_version(rt: HostRuntime) -> Result<(), Fail> {
    assert!(rt;
        answers_are(
            b"\x04\x01\x00\x50\x0a\x00\x00\x05\x00",
            b"\x00\x5a\x00\x00\x00\x00\x00\x00",
            REFUSED_4,
            REFUSED_4,
        )
    );
    assert!(rt;
        answers_are(
            b"\x05\x01\x00\x05\x01\x00\x03\x02db\x15\x38",
            b"\x05\x00\x00\x01\x00\x00\x00\x00\x00\x00",
            b"\x05\x02\x00\x01\x00\x00\x00\x00\x00\x00",
            b"\x05\x01\x00\x01\x00\x00\x00\x00\x00\x00",
        )
    );
    Ok(())
}

// How a request of SOCKS 4 ends whose address is this and whose texts are this user and, where one
// is wanted, this host.
fn request_of_4(address: &[u8], user: &[u8], host: &[u8]) -> DialogStep {
    let mut dialog = Dialog::new();
    for piece in [b"\x04\x01\x00\x50", address, user, b"\x00", host, b"\x00"] {
        let _ = dialog.push(piece);
    }
    dialog.step()
}

#[test]
fn users_and_hosts_have_at_most_255_bytes(rt: HostRuntime) -> Result<(), Fail> {
    let text = [b'u'; 255];
    let longer = [b'u'; 256];
    let named = b"\x00\x00\x00\x01";
    assert!(rt;
        is(
            &request_of_4(b"\x0a\x00\x00\x05", &text, b""),
            Connect(b"10.0.0.5", 80)
        )
    );
    assert!(rt;
        is(
            &request_of_4(b"\x0a\x00\x00\x05", &longer, b""),
            Bad(REFUSED_4)
        )
    );
    assert!(rt; is(&request_of_4(named, &longer, b"db"), Bad(REFUSED_4)));
    assert!(rt; is(&request_of_4(named, &text, &longer), Bad(REFUSED_4)));
    let step = request_of_4(named, &text, &text);
    let whole =
        matches!(&step, DialogStep::Connect { host, port: 80 } if host.as_bytes() == text.as_slice());
    assert!(rt; whole);
    Ok(())
}
