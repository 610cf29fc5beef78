//! Each cause for which a core drops a client, and each break of the server that a core reports,
//! with its values.

use super::{plays, plays_each};
use std::test::Fail;

// The numbers of client 1's channel are 7 for itself, 0 for the master and 5 for the server. It
// gives the server a window of 10 bytes with packets of 8, and is given one of 5 with packets of 4.
// Client 2 waits for a confirmation.
const OPENED: &str = r#"
    admit 1 -> let in;
    admit 2 -> let in;
    1 says 5a 00000007 "session" 00000007 0000000a 00000008
      -> sent, up 00000019 00 5a 00000007 "session" 00000000 0000000a 00000008;
    server says 5b 00000000 00000005 00000005 00000004
      -> 1 is told 5b 00000007 00000005 00000005 00000004;
    2 says 5a 00000007 "session" 00000008 0000000a 00000008
      -> sent, up 00000019 00 5a 00000007 "session" 00000001 0000000a 00000008;
"#;

#[test]
fn a_client_is_dropped_for_what_doesnt_read(rt: HostRuntime) -> Result<(), Fail> {
    plays(
        rt.alloc(),
        r#"
        admit 1 -> let in;
        1 says 01 -> dropped Disconnected;
        1 says -> dropped BadMessage(Empty);
        1 says 00 -> dropped BadMessage(Kind(0));
        1 says 65 -> dropped BadMessage(Kind(101));
        1 says 5e 00000005 00000002 "x" -> dropped BadMessage(Short { at: 5 });
        1 says 60 00000005 "x" -> dropped BadMessage(Extra { at: 5 });
        1 says 50 00000015 "keepalive@openssh.com" -> dropped BadMessage(Short { at: 26 });
        1 says 50 0000000d "tcpip-forward" 01 00000000 -> dropped BadMessage(Short { at: 23 });
        1 says 50 0000000d "tcpip-forward" 01 00000000 00000000 00
          -> dropped BadMessage(Extra { at: 27 });
        1 says 5a 0000000c "direct-tcpip" 00000004 00200000 00008000
          -> dropped BadMessage(Short { at: 29 });
        1 is gone -> done;
        "#,
    )
}

#[test]
fn a_client_is_dropped_for_what_isnt_its_own(rt: HostRuntime) -> Result<(), Fail> {
    plays_each(
        rt.alloc(),
        OPENED,
        r#"
        1 says 51 -> dropped Unasked { number: 81 };
        1 says 52 -> dropped Unasked { number: 82 };
        1 says 5a 00000007 "session" 00000007 0000000a 00000008 -> dropped OwnInUse { number: 7 };
        1 says 5b 00000005 00000009 00000000 00000000 -> dropped NotYours { number: 5 };
        1 says 5c 00000005 00000001 00000000 00000000 -> dropped NotYours { number: 5 };
        1 says 5d 00000006 00000001 -> dropped NotYours { number: 6 };
        1 says 5e 00000007 00000001 "x" -> dropped NotYours { number: 7 };
        1 says 5e 00000000 00000001 "x" -> dropped NotYours { number: 0 };
        2 says 5e 00000005 00000001 "x" -> dropped NotYours { number: 5 };
        2 says 5e 00000008 00000001 "x" -> dropped NotYours { number: 8 };
        2 says 5f 00000005 00000001 00000001 "x" -> dropped NotYours { number: 5 };
        2 says 60 00000005 -> dropped NotYours { number: 5 };
        2 says 61 00000005 -> dropped NotYours { number: 5 };
        2 says 62 00000005 00000005 "shell" 01 -> dropped NotYours { number: 5 };
        2 says 63 00000005 -> dropped NotYours { number: 5 };
        "#,
    )
}

#[test]
fn a_client_is_dropped_for_what_breaks_its_account(rt: HostRuntime) -> Result<(), Fail> {
    plays_each(
        rt.alloc(),
        OPENED,
        r#"
        1 says 5e 00000005 00000005 "abcde"
          -> dropped Channel { number: 5, why: PastPacket { max: 4, want: 5 } };
        1 says 5f 00000005 00000001 00000005 "abcde"
          -> dropped Channel { number: 5, why: PastPacket { max: 4, want: 5 } };
        1 says 5d 00000005 fffffff6
          -> dropped Channel { number: 5, why: Overflow { have: 10, add: 4294967286 } };
        1 says 63 00000005 -> dropped Channel { number: 5, why: Unasked };
        "#,
    )
}

#[test]
fn a_client_sends_nothing_past_its_window_its_requests_its_eof_or_its_close(
    rt: HostRuntime,
) -> Result<(), Fail> {
    plays(
        rt.alloc(),
        r#"
        admit 1 -> let in;
        1 says 5a 00000007 "session" 00000007 0000000a 00000008
          -> sent, up 00000019 00 5a 00000007 "session" 00000000 0000000a 00000008;
        server says 5b 00000000 00000005 00000005 00000004
          -> 1 is told 5b 00000007 00000005 00000005 00000004;
        1 says 5e 00000005 00000003 "abc" -> sent, up 0000000d 00 5e 00000005 00000003 "abc";
        1 says 5e 00000005 00000003 "def"
          -> dropped Channel { number: 5, why: PastWindow { have: 2, want: 3 } };
        1 says 5f 00000005 00000001 00000002 "de"
          -> sent, up 00000010 00 5f 00000005 00000001 00000002 "de" ;
        1 says 5f 00000005 00000001 00000001 "f"
          -> dropped Channel { number: 5, why: PastWindow { have: 0, want: 1 } };
        1024 times 1 says 62 00000005 00000001 "r" 01
          -> sent, up 0000000c 00 62 00000005 00000001 "r" 01;
        1 says 62 00000005 00000001 "r" 01
          -> dropped Channel { number: 5, why: TooManyAsks { have: 1024 } };
        1 says 60 00000005 -> sent, up 00000006 00 60 00000005;
        1 says 5e 00000005 00000005 "abcde" -> dropped Channel { number: 5, why: AfterEof };
        1 says 60 00000005 -> dropped Channel { number: 5, why: AfterEof };
        1 says 61 00000005 -> sent, up 00000006 00 61 00000005;
        1 says 61 00000005 -> dropped Channel { number: 5, why: AfterClose };
        1 says 5d 00000005 00000001 -> dropped Channel { number: 5, why: AfterClose };
        1 is gone -> done;
        server says 61 00000000 -> 1 is lost;
        open matters -> 0;
        "#,
    )
}

#[test]
fn a_client_is_dropped_for_one_request_too_many(rt: HostRuntime) -> Result<(), Fail> {
    plays(
        rt.alloc(),
        r#"
        admit 1 -> let in;
        1024 times 1 says 50 00000015 "keepalive@openssh.com" 01
          -> sent, up 0000001c 00 50 00000015 "keepalive@openssh.com" 01;
        1 says 50 00000001 "x" 01 -> dropped TooManyAsks { have: 1024 };
        "#,
    )
}

#[test]
fn the_server_breaks_the_protocol_by_what_doesnt_read_or_by_a_wrong_number(
    rt: HostRuntime,
) -> Result<(), Fail> {
    plays_each(
        rt.alloc(),
        OPENED,
        r#"
        server says -> broken Message(Empty);
        server says 14 -> broken Message(Kind(20));
        server says 52 00 -> broken Message(Extra { at: 1 });
        server says 5e 00000000 00000002 "x" -> broken Message(Short { at: 5 });
        server says 51 -> broken NoAsker;
        server says 52 -> broken NoAsker;
        server says 5a 00000001 "x" 00000005 00000000 00000000 -> broken NumberInUse { number: 5 };
        server says 5b 00000001 00000005 00000000 00000000 -> broken NumberInUse { number: 5 };
        server says 5b 00000000 00000006 00000000 00000000 -> broken NotPending { number: 0 };
        server says 5b 00000009 00000005 00000000 00000000 -> broken NotPending { number: 9 };
        server says 5c 00000000 00000001 00000000 00000000 -> broken NotPending { number: 0 };
        server says 5d 00000009 00000001 -> broken NoChannel { number: 9 };
        server says 5e 00000005 00000001 "x" -> broken NoChannel { number: 5 };
        server says 5f 00004000 00000001 00000001 "x" -> broken NoChannel { number: 16384 };
        server says 61 ffffffff -> broken NoChannel { number: 4294967295 };
        server says 63 00000002 -> broken NoChannel { number: 2 };
        "#,
    )
}

#[test]
fn the_server_breaks_a_channels_account(rt: HostRuntime) -> Result<(), Fail> {
    plays_each(
        rt.alloc(),
        OPENED,
        r#"
        server says 5e 00000001 00000001 "x" -> broken Channel { number: 1, why: NotOpen };
        server says 61 00000001 -> broken Channel { number: 1, why: NotOpen };
        server says 5e 00000000 00000009 "abcdefghi"
          -> broken Channel { number: 0, why: PastPacket { max: 8, want: 9 } };
        server says 5f 00000000 00000001 0000000b "abcdefghijk"
          -> broken Channel { number: 0, why: PastPacket { max: 8, want: 11 } };
        server says 5d 00000000 fffffffb
          -> broken Channel { number: 0, why: Overflow { have: 5, add: 4294967291 } };
        server says 63 00000000 -> broken Channel { number: 0, why: Unasked };
        "#,
    )
}

// The server has sent 8 bytes.
const FILLED: &str = r#"
    admit 1 -> let in;
    1 says 5a 00000007 "session" 00000007 0000000a 00000008
      -> sent, up 00000019 00 5a 00000007 "session" 00000000 0000000a 00000008;
    server says 5b 00000000 00000005 00000005 00000004
      -> 1 is told 5b 00000007 00000005 00000005 00000004;
    server says 5f 00000000 00000001 00000008 "abcdefgh"
      -> 1 is told 5f 00000007 00000001 00000008 "abcdefgh";
"#;

#[test]
fn the_server_sends_no_data_past_its_window(rt: HostRuntime) -> Result<(), Fail> {
    plays_each(
        rt.alloc(),
        FILLED,
        r#"
        server says 5e 00000000 00000003 "ijk"
          -> broken Channel { number: 0, why: PastWindow { have: 2, want: 3 } };
        server says 5f 00000000 00000001 00000008 "ijklmnop"
          -> broken Channel { number: 0, why: PastWindow { have: 2, want: 8 } };
        server says 5e 00000000 00000002 "ij" -> 1 is told 5e 00000007 00000002 "ij";
        "#,
    )
}

#[test]
fn the_server_asks_no_more_than_1024_times(rt: HostRuntime) -> Result<(), Fail> {
    plays(
        rt.alloc(),
        r#"
        admit 1 -> let in;
        1 says 5a 00000007 "session" 00000007 0000000a 00000008
          -> sent, up 00000019 00 5a 00000007 "session" 00000000 0000000a 00000008;
        server says 5b 00000000 00000005 00000005 00000004
          -> 1 is told 5b 00000007 00000005 00000005 00000004;
        1024 times server says 62 00000000 00000001 "r" 01 -> 1 is told 62 00000007 00000001 "r" 01;
        server says 62 00000000 00000001 "r" 01
          -> broken Channel { number: 0, why: TooManyAsks { have: 1024 } };
        "#,
    )
}

// The server has sent EOF.
const ENDED: &str = r#"
    admit 1 -> let in;
    1 says 5a 00000007 "session" 00000007 0000000a 00000008
      -> sent, up 00000019 00 5a 00000007 "session" 00000000 0000000a 00000008;
    server says 5b 00000000 00000005 00000005 00000004
      -> 1 is told 5b 00000007 00000005 00000005 00000004;
    server says 60 00000000 -> 1 is told 60 00000007;
"#;

#[test]
fn the_server_sends_no_data_after_its_eof(rt: HostRuntime) -> Result<(), Fail> {
    plays_each(
        rt.alloc(),
        ENDED,
        r#"
        server says 5e 00000000 00000000 -> broken Channel { number: 0, why: AfterEof };
        server says 5f 00000000 00000001 00000009 "abcdefghi"
          -> broken Channel { number: 0, why: AfterEof };
        server says 60 00000000 -> broken Channel { number: 0, why: AfterEof };
        "#,
    )
}

// The server has closed the channel, and the client hasn't.
const CLOSED: &str = r#"
    admit 1 -> let in;
    1 says 5a 00000007 "session" 00000007 0000000a 00000008
      -> sent, up 00000019 00 5a 00000007 "session" 00000000 0000000a 00000008;
    server says 5b 00000000 00000005 00000005 00000004
      -> 1 is told 5b 00000007 00000005 00000005 00000004;
    server says 61 00000000 -> 1 is told 61 00000007;
"#;

#[test]
fn the_server_sends_nothing_after_its_close(rt: HostRuntime) -> Result<(), Fail> {
    plays_each(
        rt.alloc(),
        CLOSED,
        r#"
        server says 5d 00000000 00000001 -> broken Channel { number: 0, why: AfterClose };
        server says 5e 00000000 00000000 -> broken Channel { number: 0, why: AfterClose };
        server says 61 00000000 -> broken Channel { number: 0, why: AfterClose };
        server says 62 00000000 00000003 "ask" 01 -> broken Channel { number: 0, why: AfterClose };
        server says 5a 00000001 "x" 00000005 00000000 00000000 -> broken NumberInUse { number: 5 };
        "#,
    )
}

#[test]
fn a_success_for_any_port_names_it(rt: HostRuntime) -> Result<(), Fail> {
    plays_each(
        rt.alloc(),
        r#"
        admit 1 -> let in;
        1 says 50 0000000d "tcpip-forward" 01 00000000 00000000
          -> sent, up 0000001c 00 50 0000000d "tcpip-forward" 01 00000000 00000000;
        "#,
        r#"
        server says 51 -> broken BadReply { length: 0 };
        server says 51 009c41 -> broken BadReply { length: 3 };
        server says 51 00009c41 00 -> broken BadReply { length: 5 };
        "#,
    )
}
