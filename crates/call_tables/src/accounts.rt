use Act::{Close, Data, Eof, Grant, Reply, Request};
use Breach::{AfterClose, AfterEof, Overflow, PastPacket, PastWindow, TooManyAsks, Unasked};
use Side::{Down, Up};
use window_ledger::{Act, Breach, Ledger, Side};

/// The most that a window holds.
const FULL: u32 = 4_294_967_295;

/// A message and its direction, the breach that it is, and both rooms after it, up and down.
type AccountRow = (Side, Act, Option<Breach>, u32, u32);

/// After an open by the client of window 2,097,152 and maximum 32,768 that is confirmed with 5 and
/// 32,768.
const EDGES: [AccountRow; 29] = [
    (Up, Data(5), None, 0, 2_097_152),
    (Up, Data(0), None, 0, 2_097_152),
    (
        Up,
        Data(1),
        Some(PastWindow { have: 0, want: 1 }),
        0,
        2_097_152,
    ),
    (Up, Grant(4_292_870_143), None, 0, FULL),
    (Up, Grant(0), None, 0, FULL),
    (Up, Grant(1), Some(Overflow { have: FULL, add: 1 }), 0, FULL),
    (
        Down,
        Data(32_769),
        Some(PastPacket {
            max: 32_768,
            want: 32_769,
        }),
        0,
        FULL,
    ),
    (Down, Data(32_768), None, 0, 4_294_934_527),
    (
        Up,
        Grant(32_769),
        Some(Overflow {
            have: 4_294_934_527,
            add: 32_769,
        }),
        0,
        4_294_934_527,
    ),
    (Up, Grant(32_768), None, 0, FULL),
    (Down, Grant(FULL), None, FULL, FULL),
    (Down, Reply, Some(Unasked), FULL, FULL),
    (Up, Request(false), None, FULL, FULL),
    (Down, Reply, Some(Unasked), FULL, FULL),
    (Up, Request(true), None, FULL, FULL),
    (Up, Reply, Some(Unasked), FULL, FULL),
    (Up, Eof, None, FULL, FULL),
    (Up, Eof, Some(AfterEof), FULL, FULL),
    (Up, Data(0), Some(AfterEof), FULL, FULL),
    (Up, Close, None, FULL, FULL),
    (Up, Close, Some(AfterClose), FULL, FULL),
    (Up, Eof, Some(AfterClose), FULL, FULL),
    (Up, Data(0), Some(AfterClose), FULL, FULL),
    (Up, Grant(0), Some(AfterClose), FULL, FULL),
    (Down, Data(1), None, FULL, 4_294_967_294),
    (Down, Reply, None, FULL, 4_294_967_294),
    (Down, Reply, Some(Unasked), FULL, 4_294_967_294),
    (Down, Close, None, FULL, 4_294_967_294),
    (Down, Request(true), Some(AfterClose), FULL, 4_294_967_294),
];

/// After an open by the server of window 0 and maximum 0 that is confirmed with 1 and 0.
const NOTHING: [AccountRow; 6] = [
    (Up, Data(0), None, 0, 1),
    (Up, Data(1), Some(PastPacket { max: 0, want: 1 }), 0, 1),
    (Down, Data(0), None, 0, 1),
    (Down, Data(1), Some(PastPacket { max: 0, want: 1 }), 0, 1),
    (Down, Grant(1), None, 1, 1),
    (Up, Grant(FULL), Some(Overflow { have: 1, add: FULL }), 1, 1),
];

/// After an open by the server of window and maximum 2^32 - 1 that is confirmed with 1 and 2.
const EVERYTHING: [AccountRow; 5] = [
    (Up, Data(FULL), None, 0, 1),
    (Down, Grant(FULL), None, FULL, 1),
    (Down, Data(3), Some(PastPacket { max: 2, want: 3 }), FULL, 1),
    (
        Down,
        Data(2),
        Some(PastWindow { have: 1, want: 2 }),
        FULL,
        1,
    ),
    (Down, Data(1), None, FULL, 0),
];

/// After an open by the client and a confirmation, all of nothing, and 1024 requests of the client.
const ASKED: [AccountRow; 5] = [
    (Up, Request(true), Some(TooManyAsks { have: 1024 }), 0, 0),
    (Up, Request(false), None, 0, 0),
    (Down, Request(true), None, 0, 0),
    (Down, Reply, None, 0, 0),
    (Up, Request(true), None, 0, 0),
];

// The ledger after all rows, and the place of the first that went otherwise.
fn follow(start: Ledger, rows: &[AccountRow]) -> (Ledger, Option<usize>) {
    let mut ledger = start;
    for (i, (way, act, breach, up, down)) in rows.iter().enumerate() {
        let before = ledger;
        let broken = ledger.take(*way, *act).err();
        let kept = broken.is_none() || ledger == before;
        if broken != *breach || !kept || ledger.room(Up) != *up || ledger.room(Down) != *down {
            return (ledger, Some(i));
        }
    }
    (ledger, None)
}

// A ledger after an open by the server and its confirmation, each with a window and a maximum.
fn confirmed(own: (u32, u32), other: (u32, u32)) -> Ledger {
    let mut ledger = Ledger::opened(Down, own.0, own.1);
    ledger.confirm(other.0, other.1);
    ledger
}

#[test]
fn an_account_is_kept_at_its_edges(rt: HostRuntime) {
    let mut ledger = Ledger::opened(Up, 2_097_152, 32_768);
    assert_eq!(rt; ledger.take(Up, Data(0)), Err(Breach::NotOpen));
    assert_eq!(rt; (ledger.room(Up), ledger.room(Down)), (0, 2_097_152));
    ledger.confirm(5, 32_768);
    for (ledger, rows, closed) in [
        (ledger, EDGES.as_slice(), true),
        (confirmed((0, 0), (1, 0)), NOTHING.as_slice(), false),
        (
            confirmed((FULL, FULL), (1, 2)),
            EVERYTHING.as_slice(),
            false,
        ),
    ] {
        let (ledger, wrong) = follow(ledger, rows);
        assert_eq!(rt; wrong, None);
        assert!(rt; ledger.confirmed() && ledger.closed() == closed);
    }
}

#[test]
fn at_most_1024_requests_of_a_direction_are_unanswered(rt: HostRuntime) {
    let mut ledger = Ledger::opened(Up, 0, 0);
    ledger.confirm(0, 0);
    for _ in 0..1024 {
        assert_eq!(rt; ledger.take(Up, Request(true)), Ok(()));
    }
    assert_eq!(rt; follow(ledger, &ASKED).1, None);
}

#[test]
fn a_client_that_is_lost_leaves_its_close(rt: HostRuntime) {
    let mut ledger = Ledger::opened(Up, 1, 2);
    assert!(rt; ledger.left() == ledger && !ledger.sent_close());
    ledger.confirm(3, 4);
    let mut closed = ledger;
    assert_eq!(rt; closed.take(Up, Close), Ok(()));
    assert_eq!(rt; (ledger.sent_close(), closed.sent_close()), (false, true));
    assert!(rt; ledger.left() == closed && closed.left() == closed);
}
