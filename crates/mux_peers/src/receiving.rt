ghost use Rattle.std.specs.Prelude.{◌≡◌, ℕ, IfOk, OnOk};
ghost use Rattle.mux_peers.specs.Receivings.{ReceivesPayload};
ghost use Rattle.mux_peers.specs.Among.{is_present};
ghost use Rattle.mux_peers.specs.Losing.{NotesMore};
ghost use Rattle.mux_peers.specs.Room.{HasRoom};
ghost use Rattle.mux_peers.specs.State.{clients_and_queue};
ghost use Rattle.ssh_grammar.specs.IsFrame.{IsContent};
ghost use Rattle.ssh_grammar.specs.declared.framing.Framing.TheVariants.{Proxy};

use crate::clients::Clients;
use mux_core::{Core, Delivery};
use mux_history::Ended;
use proxy_frames::Queue;
use ssh_fields::OutOfMemory;

/// A payload of the server, its `index`th, is delivered: how the run ends by it, if it does.
pub fn deliver(
    clients: &mut Clients,
    index: u64,
    payload: &mut [u8],
    core: &mut Core,
    up: &mut Queue,
) -> Result<Option<Ended>, OutOfMemory>
    requires payload { IsContent Proxy payload.old }
    requires room { HasRoom clients.old.all up.old }
    ensures receives { IfOk result (λ ended. ReceivesPayload payload.old index
        (clients_and_queue clients.old core.old up.old) (clients_and_queue clients.new core.new up.new) ended) }
    ensures present { OnOk result
        ((j : ℕ) → is_present clients.new.all j ≡ is_present clients.old.all j) }
    ensures room { OnOk result (HasRoom clients.old.all up.old → HasRoom clients.new.all up.new) }
    ensures more { NotesMore clients.old.leaving clients.new.leaving }
    ensures policy { OnOk result (core.new.policy ≡ core.old.policy) }
{
    match core.heard(payload, up)? {
        Delivery::Master | Delivery::Lost { .. } => Ok(None),
        Delivery::Client { client, refusals } => {
            clients.deliver(client, payload, refusals, core, up)?;
            Ok(None)
        }
        Delivery::Disconnect => Ok(Some(Ended::Disconnected)),
        Delivery::Broke(why) => Ok(Some(Ended::Broke { index, why })),
    }
}
