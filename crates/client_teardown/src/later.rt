ghost use Rattle.std.specs.Prelude.{◌≡◌, ◌≤◌, ◌+◌, [], ◌∷◌};
ghost use Rattle.channel_table.specs.Entries.{changed_at};
ghost use Rattle.client_teardown.specs.Leaving.{IsShortLate, SendsFarewell, entry_after_close, late_entries, late_payload};

use crate::cancelling::cancel;
use crate::message::Late;
use channel_table::Table;
use conn_messages::close;
use proxy_frames::Queue;

/// The room that the longest of these messages needs: the frame of a cancel whose path has 255
/// bytes.
pub const LATE_ROOM: usize = 308;

/// Answers what the server sends for a client that is lost already: a confirmation by CLOSE, which
/// is noted in the channel's account, and the others by a cancel without reply. The product calls
/// it nowhere: it is for callers that need no memory, and the core queues the same payloads itself.
pub fn late(table: &mut Table, message: Late<'_>, up: &mut Queue)
    requires room { LATE_ROOM ≤ up.old.spare }
    requires short { IsShortLate message }
    ensures sent { SendsFarewell (late_payload message.entry ∷ []) up.old up.new }
    ensures channels { table.new ≡ late_entries message.entry table.old }
    ensures spare { up.old.spare ≤ up.new.spare + LATE_ROOM }
{
    match message {
        Late::Confirmed { number, remote } => {
            up.push_reserved(close(remote).as_bytes());
            note_close(table, number);
        }
        Late::Forwarded { key } | Late::CancelFailed { key } => {
            up.push_reserved(cancel(key).as_bytes());
        }
    }
}

// The client's CLOSE is noted in a channel's account.
fn note_close(table: &mut Table, number: u32)
    ensures { table.new ≡ changed_at number entry_after_close table.old }
{
    if let Some(ledger) = table.ledger_of(number) {
        table.set_ledger(number, ledger.left());
    }
}
