ghost use Rattle.std.specs.Prelude.{◌≡◌, ◌≤◌, ◌+◌, ◌++◌, IfSome, length};
ghost use Rattle.channel_table.specs.Entries.{AreSound};
ghost use Rattle.forward_rules.specs.Step.{forwards_without_client};
ghost use Rattle.client_teardown.specs.Leaving.{SendsFarewell, channel_farewells, farewell_for, forward_farewells, is_open_in, left_entries};
ghost use Rattle.client_teardown.specs.Steps.{farewell_at, left_at, payload_list, stays_at};

use crate::cancelling::cancel;
use channel_table::{Channel, Ledger, Side, Table};
use conn_messages::{close, open_failure};
use forward_rules::Forwards;
use proxy_frames::Queue;
use ssh_fields::Small;
use ssh_grammar::numbers::CONNECT_FAILED;

/// The room that a farewell needs at most: 256 frames of 36 bytes for channels, and 64 of 308 for
/// forwardings.
pub const FAREWELL_ROOM: usize = 28_928;

// The part of it for channels, and for one of them.
const CHANNELS_ROOM: usize = 9_216;

const CHANNEL_ROOM: usize = 36;

// The part of it for forwardings.
const FORWARDS_ROOM: usize = 19_712;

// What is sent in a channel of a client that is lost, where anything is.
fn farewell_for(channel: &Channel, ledger: &Ledger) -> Option<Small>
    ensures exact { payload_list result ≡ farewell_for channel.now ledger.now }
    ensures least { IfSome result (λ p. 1 ≤ length p) }
    ensures most { IfSome result (λ p. length p ≤ 31) }
{
    let remote = channel.remote?;
    if ledger.confirmed() {
        if ledger.sent_close() {
            return None;
        }
        return Some(close(remote));
    }
    if channel.by == Side::Up {
        return None;
    }
    Some(open_failure(remote, CONNECT_FAILED, b"client is gone"))
}

// Whether a channel of a client that is lost is still held, once that is sent.
fn is_open(channel: &Channel, left: &Ledger) -> bool
    ensures { result ≡ is_open_in channel.now left.now }
{
    if left.confirmed() {
        !left.closed()
    } else {
        channel.by == Side::Up
    }
}

// Says farewell in one channel and notes it. Whether the channel is still held.
fn leave_channel(table: &mut Table, number: u32, up: &mut Queue) -> bool
    requires { CHANNEL_ROOM ≤ up.old.spare }
    ensures sent { SendsFarewell (farewell_at table.old number) up.old up.new }
    ensures entries { table.new ≡ left_at number table.old }
    ensures held { result ≡ stays_at table.old number }
    ensures spare { up.old.spare ≤ up.new.spare + CHANNEL_ROOM }
    ensures sound { AreSound table.old }
{
    let Some(channel) = table.admitted(number) else {
        return true;
    };
    let Some(ledger) = table.ledger_of(number) else {
        return true;
    };
    if let Some(payload) = farewell_for(&channel, &ledger) {
        up.push_reserved(payload.as_bytes());
    }
    let left = ledger.left();
    let held = is_open(&channel, &left);
    if held {
        table.set_ledger(number, left);
    } else {
        table.free(number);
    }
    held
}

// Says farewell in all channels of a client, in the order in which they began.
fn leave_channels(table: &mut Table, client: u64, up: &mut Queue)
    requires { CHANNELS_ROOM ≤ up.old.spare }
    ensures sent { SendsFarewell (channel_farewells client table.old) up.old up.new }
    ensures entries { table.new ≡ left_entries client table.old }
    ensures spare { up.old.spare ≤ up.new.spare + CHANNELS_ROOM }
    ensures sound { AreSound table.old }
{
    // The channels before this place are done with, and still held.
    let mut i = 0;
    for _ in 0..table.count(client) {
        let Some(number) = table.nth_of(client, i) else {
            break;
        };
        if leave_channel(table, number, up) {
            i += 1;
        }
    }
}

// Cancels all live forwardings of a client of which no cancel is unanswered, in order of asking,
// and takes all out.
fn leave_forwards(forwards: &mut Forwards, client: u64, up: &mut Queue)
    requires { FORWARDS_ROOM ≤ up.old.spare }
    ensures sent { SendsFarewell (forward_farewells client forwards.old) up.old up.new }
    ensures forwardings { forwards.new ≡ forwards_without_client client forwards.old }
    ensures spare { up.old.spare ≤ up.new.spare + FORWARDS_ROOM }
{
    for _ in 0..forwards.count(client) {
        let Some((key, is_leaving)) = forwards.take_of(client) else {
            break;
        };
        if !is_leaving {
            up.push_reserved(cancel(key.as_key()).as_bytes());
        }
    }
}

/// Says farewell for a client that is lost. In the order in which its channels began: CLOSE on each
/// that is confirmed and on which the client hadn't sent it, and OPEN_FAILURE for each open of the
/// server that it hadn't answered. Then, in order of asking, a cancel without reply for each live
/// forwarding of which no cancel is unanswered. A channel that is over then is freed, and all
/// forwardings of the client are out.
pub fn tear_down(table: &mut Table, forwards: &mut Forwards, client: u64, up: &mut Queue)
    requires { FAREWELL_ROOM ≤ up.old.spare }
    ensures sent { SendsFarewell (channel_farewells client table.old
        ++ forward_farewells client forwards.old) up.old up.new }
    ensures channels { table.new ≡ left_entries client table.old }
    ensures forwardings { forwards.new ≡ forwards_without_client client forwards.old }
    ensures spare { up.old.spare ≤ up.new.spare + FAREWELL_ROOM }
    ensures sound { AreSound table.old }
{
    leave_channels(table, client, up);
    leave_forwards(forwards, client, up);
}
