//! Where the master's own forwardings may listen on this machine, by the texts of `--permit-here`.
ghost use Rattle.std.specs.Prelude.{◌≡◌, ◌++◌, flat_map, map, IfOk, IsOk, OnOk};
ghost use Rattle.forward_rules.specs.Allows.{allow_of, owned_entry_of};
ghost use Rattle.mux_history.specs.Policy.{read_list};
ghost use Rattle.ssh_mux.specs.Here.{ends_permitted, here_of, listens_permitted};
ghost use Rattle.ssh_mux.specs.Master.{OnlyStarves};

use crate::ending::Ending;
use forward_rules::{Allowed, Entry, ListFault, read_list};
use mux_outside::{ListenEntries, ListenEntry, ListenPermit};
use ssh_fields::{OutOfMemory, Text, Texts};
use std::alloc::Global;

// Takes the listening end that an entry permits after the others; a path permits none.
fn add_end(alloc: Global, ends: &mut ListenEntries, entry: &Entry) -> Result<(), OutOfMemory>
    ensures { OnOk result (ends.new ≡ ends.old ++ ends_permitted (owned_entry_of entry.now)) }
{
    match entry {
        Entry::Ports { host, port } => {
            let host = match host {
                None => None,
                Some(host) => Some(Text::copy(alloc, host.as_bytes())?),
            };
            ends.push(ListenEntry { host, port: *port })
        }
        Entry::Path(_) => Ok(()),
    }
}

// The listening ends that entries permit.
fn ends_of(alloc: Global, entries: &[Entry]) -> Result<ListenEntries, OutOfMemory>
    ensures { IfOk result (λ ends. ends ≡ flat_map ends_permitted (map owned_entry_of entries.now)) }
{
    let mut ends = ListenEntries::new(alloc);
    for entry in entries {
        add_end(alloc, &mut ends, entry)?;
    }
    Ok(ends)
}

// Where a list permits listening.
fn permit_of(alloc: Global, allowed: &Allowed) -> Result<ListenPermit, OutOfMemory>
    ensures { IfOk result (λ permit. permit ≡ listens_permitted (allow_of allowed.now)) }
{
    match allowed {
        Allowed::Anything => Ok(ListenPermit::Any),
        Allowed::Entries(entries) => Ok(ListenPermit::Only(ends_of(alloc, entries)?)),
    }
}

/// Where texts permit listening, of which each is an entry.
pub fn here_of(alloc: Global, texts: &Texts) -> Result<ListenPermit, Ending>
    requires permitted { IsOk (read_list texts.now) }
    ensures exact { IfOk result (λ here. here ≡ here_of texts.now) }
    ensures err { OnlyStarves result }
{
    match read_list(alloc, texts.as_slice()) {
        Ok(allowed) => Ok(permit_of(alloc, &allowed)?),
        Err(ListFault::OutOfMemory) => Err(Ending::NoMemory),
        Err(ListFault::Bad { .. }) => unreachable!(),
    }
}
