//! What an engine keeps of its streams: who is refused, and for which something waits.

ghost use Rattle.std.specs.Prelude.{if◌then◌else◌, ◌≡◌, ◌≤◌, length, OnOk};
ghost use Rattle.proxy_frames.specs.Queued.{without_first_bytes};
ghost use Rattle.mux_outside.specs.Whose.{is_server};
ghost use Rattle.mux_history.specs.Promises.{is_empty};
ghost use Rattle.mux_peers.specs.Losing.{NotesMore};
ghost use Rattle.mux_state.specs.Ready.{AreListed};
ghost use Rattle.mux_state.specs.State.{at_client, client_took};
ghost use Rattle.mux_state.specs.Steps.{ReceivesFrom, bytes_waiting_for, streams_waiting_of};

use mux_core::Core;
use mux_outside::Streams;
use mux_peers::Clients;
use proxy_frames::Queue;
use ssh_fields::OutOfMemory;

// A client comes: it is admitted, or it is refused and to be closed.
pub fn take_in(
    clients: &mut Clients,
    refused: &mut Streams,
    number: u64,
    core: &mut Core,
) -> Result<(), OutOfMemory>
    ensures takes_in { OnOk result
        (ReceivesFrom number core.old core.new clients.old clients.new refused.old refused.new) }
    ensures listed { AreListed refused.old clients.old.leaving
        → AreListed refused.new clients.new.leaving }
    ensures policy { core.new.policy ≡ core.old.policy }
{
    if clients.admit(number, core)? {
        return Ok(());
    }
    refused.push(number)
}

// So many bytes that wait for a stream were accepted: whether none waits now.
pub fn take(up: &mut Queue, clients: &mut Clients, stream: u64, n: usize) -> bool
    requires { n ≤ length (bytes_waiting_for up.old clients.old.all stream) }
    ensures up { up.new ≡ (if is_server stream then without_first_bytes n up.old else up.old) }
    ensures clients { clients.new.all ≡ (if is_server stream then clients.old.all
        else at_client stream (client_took n) clients.old.all) }
    ensures leaving { clients.new.leaving ≡ clients.old.leaving }
    ensures left { result ≡ is_empty (bytes_waiting_for up.new clients.new.all stream) }
{
    if stream == 0 {
        up.took(n);
        return up.is_empty();
    }
    clients.took(stream, n);
    clients.queue_of(stream).is_empty()
}

// The streams with something that waits are listed anew.
pub fn list_waiting(list: &mut Streams, up: &Queue, clients: &Clients) -> Result<(), OutOfMemory>
    ensures { OnOk result (list.new ≡ streams_waiting_of up.now.waiting clients.now.all) }
{
    list.clear();
    if !up.is_empty() {
        list.push(0)?;
    }
    clients.list_waiting(list)
}
