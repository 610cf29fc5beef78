ghost use Rattle.std.specs.Prelude.{◌≡◌, IfOk};

use crate::start_ask::StartAsks;
use ssh_fields::{ListOf, OutOfMemory, Text};
use std::alloc::Global;

/// A listening end that is permitted; None means each host, or each port.
#[derive(Drop)]
pub struct ListenEntry {
    pub host: Option<Text>,
    pub port: Option<u32>,
}

impl ListenEntry {
    /// The same once more.
    pub fn copy(&self, alloc: Global) -> Result<ListenEntry, OutOfMemory>
        ensures { IfOk result (λ entry. entry ≡ self.now) }
    {
        let host = match &self.host {
            None => None,
            Some(host) => Some(Text::copy(alloc, host.as_bytes())?),
        };
        Ok(ListenEntry {
            host,
            port: self.port,
        })
    }
}

/// Such ends in order.
pub type ListenEntries = ListOf<ListenEntry>;

/// Where the master's own forwardings may listen on this machine.
#[derive(Drop)]
pub enum ListenPermit {
    /// Anywhere.
    Any,
    /// Where one of these permits it.
    Only(ListenEntries),
}

impl ListenPermit {
    /// The same once more.
    pub fn copy(&self, alloc: Global) -> Result<ListenPermit, OutOfMemory>
        ensures { IfOk result (λ permit. permit ≡ self.now) }
    {
        match self {
            ListenPermit::Any => Ok(ListenPermit::Any),
            ListenPermit::Only(entries) => Ok(ListenPermit::Only(copied(alloc, entries)?)),
        }
    }
}

// The same entries once more.
fn copied(alloc: Global, entries: &ListenEntries) -> Result<ListenEntries, OutOfMemory>
    ensures { IfOk result (λ copy. copy ≡ entries.now) }
{
    let mut copy = ListenEntries::new(alloc);
    for entry in entries.as_slice() {
        let one = entry.copy(alloc)?;
        copy.push(one)?;
    }
    Ok(copy)
}

/// What the configuration requests of the master's own forwardings.
#[derive(Drop)]
pub struct Starts {
    pub asks: StartAsks,
    /// Whether a listener without a host accepts connections from other machines.
    pub gateway: bool,
    /// Whether the run ends where one of them is refused.
    pub must: bool,
    /// Where they may listen on this machine.
    pub here: ListenPermit,
}
