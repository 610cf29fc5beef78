use RelayEvent::{
    Closed, Confirmed, Data, End, Eof, Failed, Got, Made, Refused, Request, Room, Took, Writable,
};
use house_relay::{Outgoing, Relay};
use mux_outside::{Order, OwnStream};
use ssh_fields::{OutOfMemory, Text};
use std::alloc::Global;
use std::process::Abort;
use std::test::Fail;

/// What happens to a relay: to its socket, and in its channel.
#[derive(Clone, Copy)]
enum RelayEvent {
    Got(&'static [u8]),
    End,
    Writable,
    Failed,
    /// So many bytes of those that wait for the socket are accepted.
    Took(usize),
    /// The socket is made, or couldn't be.
    Made(bool),
    /// The OPEN is confirmed with this window.
    Confirmed(u32),
    Refused(u32),
    Room(u32),
    Data(&'static [u8]),
    Eof,
    Closed,
    Request(bool),
}

/// What happens, and what is sent, ordered and accepted by that: a `|` before what each event leads
/// to.
type RelayRow = (&'static [RelayEvent], &'static [u8]);

const STREAM: u64 = 0x8000_0000_0000_0001;

/// A socket that was accepted for a channel to `db`, port 5432.
const JOINED: [RelayRow; 8] = [
    // The server accepts three bytes, and then two.
    (
        &[Confirmed(3), Got(b"hello"), Room(2), Data(b"ok"), Took(2)],
        b"open db 5432;||data hel;pause;|data lo;resume;||took ok;adjust 2;",
    ),
    // The socket ends first.
    (
        &[
            Confirmed(100),
            Got(b"hello"),
            End,
            Data(b"ok"),
            Took(2),
            Eof,
            Closed,
        ],
        b"open db 5432;||data hello;|eof;||took ok;adjust 2;|close;finish;|shut;",
    ),
    // The server ends first, while bytes wait.
    (
        &[
            Confirmed(100),
            Data(b"ok"),
            Eof,
            Took(1),
            Took(1),
            Got(b"bye"),
            End,
            Closed,
        ],
        b"open db 5432;||||took o;adjust 1;|took k;adjust 1;finish;|data bye;|eof;close;|shut;",
    ),
    // The end waits for what is held.
    (
        &[Got(b"hello"), End, Confirmed(4), Room(4)],
        b"open db 5432;|pause;||data hell;|data o;eof;resume;",
    ),
    // The OPEN is refused.
    (&[Refused(2)], b"open db 5432;|shut;"),
    // The socket fails before the OPEN is answered, and after it.
    (
        &[Failed, Confirmed(100), Closed],
        b"open db 5432;|shut;|close;|",
    ),
    (
        &[Confirmed(100), Data(b"ok"), Failed, Closed],
        b"open db 5432;|||close;shut;|",
    ),
    // A request that wants a reply gets none but a failure; the server closes while bytes wait.
    (
        &[
            Confirmed(100),
            Request(true),
            Request(false),
            Data(b"ok"),
            Closed,
            Took(2),
        ],
        b"open db 5432;||failure;|||close;|took ok;shut;",
    ),
];

/// An OPEN of the server.
const OFFERED: [RelayRow; 3] = [
    (
        &[Made(true), Writable, Got(b"hi"), Data(b"ok"), Took(2)],
        b"||confirmation;|data hi;||took ok;adjust 2;",
    ),
    (&[Made(true), Failed], b"||open failure;shut;"),
    (&[Made(false)], b"|open failure;"),
];

/// A socket that was accepted for a dynamic forwarding: it begins with a dialog.
const DIALED: [RelayRow; 10] = [
    // SOCKS 5 in pieces, with bytes after the request in its piece.
    (
        &[
            Got(b"\x05"),
            Got(b"\x01\x00"),
            Took(2),
            Got(b"\x05\x01\x00\x03\x02db\x15"),
            Got(b"\x38hello"),
            Confirmed(100),
            Took(9),
            Data(b"ok"),
            Took(3),
        ],
        b"|||took \x05\x00;||open db 5432;pause;|data hello;resume;|took \x05\x00\x00\x01\x00\x00\x00\x00\x00;||took \x00ok;adjust 2;",
    ),
    // SOCKS 5 all at once, refused: the rest isn't sent, and the socket is closed after the reply.
    (
        &[
            Got(b"\x05\x01\x00\x05\x01\x00\x03\x02db\x15\x38hello"),
            Refused(1),
            Took(12),
        ],
        b"|open db 5432;pause;||took \x05\x00\x05\x02\x00\x01\x00\x00\x00\x00\x00\x00;shut;",
    ),
    (
        &[
            Got(b"\x05\x01\x00\x05\x01\x00\x01\x0a\x00\x00\x05\x00\x50"),
            Refused(2),
            Took(12),
        ],
        b"|open 10.0.0.5 80;||took \x05\x00\x05\x01\x00\x01\x00\x00\x00\x00\x00\x00;shut;",
    ),
    // SOCKS 4, with bytes after it.
    (
        &[
            Got(b"\x04\x01\x00\x50\x0a\x00\x00\x05\x00GET"),
            Confirmed(100),
            Took(8),
        ],
        b"|open 10.0.0.5 80;pause;|data GET;resume;|took \x00\x5a\x00\x00\x00\x00\x00\x00;",
    ),
    // SOCKS 4a, refused.
    (
        &[
            Got(b"\x04\x01\x15\x38\x00\x00\x00\xffann\x00db\x00"),
            Refused(1),
            Took(8),
        ],
        b"|open db 5432;||took \x00\x5b\x00\x00\x00\x00\x00\x00;shut;",
    ),
    // A dialog that breaks: its reply first, and then the end; or the end at once.
    (&[Got(b"\x05\x01\x02"), Took(2)], b"||took \x05\xff;shut;"),
    (&[Got(b"GET / HTTP/1.1")], b"|shut;"),
    // An end within a dialog.
    (
        &[Got(b"\x05\x01\x00"), End, Took(2)],
        b"|||took \x05\x00;shut;",
    ),
    // An end after the request.
    (
        &[
            Got(b"\x04\x01\x00\x50\x0a\x00\x00\x05\x00GET"),
            End,
            Confirmed(100),
        ],
        b"|open 10.0.0.5 80;pause;||data GET;eof;resume;",
    ),
    // A socket that fails within a dialog.
    (&[Got(b"\x05\x01\x00"), Failed], b"||shut;"),
];

/// A dialog that asks for a channel where none is free.
const DIALOGS_FULL: [RelayRow; 1] = [(
    &[Got(b"\x04\x01\x00\x50\x0a\x00\x00\x05\x00GET")],
    b"|shut;",
)];

/// A relay, its stream, and what it sent, ordered and accepted.
#[derive(Drop)]
struct RelayBench {
    alloc: Global,
    relay: Relay,
    stream: OwnStream,
    seen: Text,
}

impl RelayBench {
    fn new(alloc: Global, relay: Relay) -> RelayBench {
        RelayBench {
            alloc,
            relay,
            stream: OwnStream::new(STREAM),
            seen: Text::new(alloc),
        }
    }

    fn word(&mut self, word: &[u8], value: &[u8]) -> Result<(), OutOfMemory> {
        self.seen.add(word)?;
        if !value.is_empty() {
            self.seen.add(b" ")?;
            self.seen.add(value)?;
        }
        self.seen.add(b";")
    }

    fn number(&mut self, word: &[u8], n: u32) -> Result<(), OutOfMemory> {
        let digits = format!(in self.alloc; "{n}")?;
        self.word(word, digits.as_bytes())
    }

    // Notes what it sends.
    fn note_sending(&mut self, outgoing: Outgoing) -> Result<(), OutOfMemory> {
        match outgoing {
            Outgoing::Open => self.note_open(),
            Outgoing::Confirmation => self.word(b"confirmation", b""),
            Outgoing::OpenFailure => self.word(b"open failure", b""),
            Outgoing::Close => self.word(b"close", b""),
            Outgoing::Failure => self.word(b"failure", b""),
            Outgoing::Eof => self.word(b"eof", b""),
            Outgoing::Adjust(n) => self.number(b"adjust", n),
            Outgoing::Data(n) => {
                let held = Text::copy(self.alloc, self.relay.held.front())?;
                let n = held.as_bytes().len().min(n as usize);
                self.word(b"data", &held.as_bytes()[..n])
            }
        }
    }

    fn note_open(&mut self) -> Result<(), OutOfMemory> {
        let mut end = Text::new(self.alloc);
        if let house_relay::ChannelState::Asked { host, port, .. } = &self.relay.line {
            end.add(host.as_bytes())?;
            let digits = format!(in self.alloc; " {port}")?;
            end.add(digits.as_bytes())?;
        }
        self.word(b"open", end.as_bytes())
    }

    // Sends what it has to send next: whether there was something.
    fn says(&mut self) -> Result<bool, OutOfMemory> {
        match self.relay.says() {
            Some(outgoing) => {
                self.note_sending(outgoing)?;
                if self.relay.says() == Some(outgoing) {
                    self.relay.said(outgoing);
                }
                Ok(true)
            }
            None => Ok(false),
        }
    }

    // Does what it orders next: whether there was something.
    fn orders(&mut self) -> Result<bool, OutOfMemory> {
        if self.relay.stream() != Some(self.stream.number) {
            return Ok(false);
        }
        let Some(order) = self.relay.orders(&self.stream) else {
            return Ok(false);
        };
        let word = match order {
            Order::Pause(_) => {
                self.stream.paused = true;
                b"pause".as_slice()
            }
            Order::Resume(_) => {
                self.stream.paused = false;
                b"resume".as_slice()
            }
            Order::Finish(_) => {
                self.stream.finished = true;
                b"finish".as_slice()
            }
            Order::Close(_) => {
                self.relay.closed();
                b"shut".as_slice()
            }
            Order::Listen { .. } | Order::Connect { .. } | Order::Unlisten(_) => {
                b"no order of a relay".as_slice()
            }
        };
        self.word(word, b"")?;
        Ok(true)
    }

    // All that it sends and orders, until it is at rest.
    fn settle(&mut self) -> Result<(), OutOfMemory> {
        for _ in 0..100 {
            if !self.says()? && !self.orders()? {
                return Ok(());
            }
        }
        self.word(b"no rest", b"")
    }

    fn takes(&mut self, n: usize) -> Result<(), OutOfMemory> {
        let waiting = Text::copy(self.alloc, self.relay.queue.front())?;
        let n = n.min(waiting.as_bytes().len());
        self.word(b"took", &waiting.as_bytes()[..n])?;
        if n <= self.relay.queue.len() {
            self.relay.took(n);
        }
        Ok(())
    }

    fn happens(&mut self, event: RelayEvent, free: bool) -> Result<(), OutOfMemory> {
        match event {
            Got(bytes) => self.relay.got(self.alloc, bytes, free)?,
            End => self.relay.ends(),
            Writable => self.relay.writable(),
            Failed => self.relay.failed(),
            Took(n) => self.takes(n)?,
            Made(is) => self.relay.made(if is { Some(STREAM) } else { None }),
            Confirmed(window) => self.relay.confirmed(5, window, 32_768)?,
            Refused(reason) => self.relay.refused(reason)?,
            Room(n) => self.relay.receives_room(n),
            Data(bytes) => {
                self.relay.receives_data(bytes)?;
            }
            Eof => self.relay.receives_eof(),
            Closed => self.relay.receives_close(),
            Request(want) => self.relay.receives_request(want),
        }
        Ok(())
    }

    fn plays(&mut self, events: &[RelayEvent], free: bool) -> Result<(), OutOfMemory> {
        self.settle()?;
        for event in events {
            self.seen.add(b"|")?;
            self.happens(*event, free)?;
            self.settle()?;
        }
        Ok(())
    }
}

// Runs a test case over a relay.
fn play(
    rt: &impl Abort,
    alloc: Global,
    relay: Relay,
    free: bool,
    row: &RelayRow,
) -> Result<(), OutOfMemory> {
    let mut bench = RelayBench::new(alloc, relay);
    let played = bench.plays(row.0, free);
    if played.is_ok() {
        assert_eq!(rt; bench.seen.as_bytes(), row.1);
    }
    drop(bench);
    played
}

#[test]
fn sockets_that_were_joined(rt: HostRuntime) -> Result<(), Fail> {
    for row in JOINED.iter() {
        let host = Text::copy(rt.alloc(), b"db")?;
        let relay = Relay::joined(rt.alloc(), 0, STREAM, host, 5432);
        play(&rt, rt.alloc(), relay, true, row)?;
    }
    Ok(())
}

#[test]
fn opens_of_the_server(rt: HostRuntime) -> Result<(), Fail> {
    for row in OFFERED.iter() {
        let relay = Relay::offered(rt.alloc(), 0, 9, 100, 32_768);
        play(&rt, rt.alloc(), relay, true, row)?;
    }
    Ok(())
}

#[test]
fn dialogs_in_front_of_a_relay(rt: HostRuntime) -> Result<(), Fail> {
    for row in DIALED.iter() {
        play(
            &rt,
            rt.alloc(),
            Relay::dynamic(rt.alloc(), 0, STREAM),
            true,
            row,
        )?;
    }
    for row in DIALOGS_FULL.iter() {
        play(
            &rt,
            rt.alloc(),
            Relay::dynamic(rt.alloc(), 0, STREAM),
            false,
            row,
        )?;
    }
    Ok(())
}
