ghost use Rattle.std.specs.Prelude.{◌≡◌, map, IfOk};
ghost use Rattle.mux_history.specs.Policy.{has_host, has_port, is_for, permits};
ghost use Rattle.mux_history.specs.Rows.{any_of};
ghost use Rattle.conn_messages.specs.Keys.{key_of};
ghost use Rattle.forward_rules.specs.Allows.{allow_of, owned_entry_of, parts_of};

use conn_messages::Key;
use ssh_fields::{OutOfMemory, Text};
use std::alloc::Global;

/// An entry as its text has it, where `None` represents each host and each port.
#[derive(Clone, Copy)]
pub enum Parts<'a> {
    /// `host:port`, `[address]:port` or `port`.
    Ports {
        host: Option<&'a [u8]>,
        port: Option<u32>,
    },
    /// A text that begins with a slash.
    Path(&'a [u8]),
}

/// An entry of a permission list, with bytes of its own.
#[derive(Drop)]
pub enum Entry {
    Ports {
        host: Option<Text>,
        port: Option<u32>,
    },
    Path(Text),
}

impl Entry {
    /// A copy of what was read.
    pub fn copy(alloc: Global, parts: Parts<'_>) -> Result<Entry, OutOfMemory>
        ensures { IfOk result (λ e. owned_entry_of e ≡ parts_of parts.entry) }
    {
        match parts {
            Parts::Ports { host, port } => {
                let host = match host {
                    None => None,
                    Some(host) => Some(Text::copy(alloc, host)?),
                };
                Ok(Entry::Ports { host, port })
            }
            Parts::Path(path) => Ok(Entry::Path(Text::copy(alloc, path)?)),
        }
    }

    // Whether it is for this key. One for ports is for no path, and one for a path is for no port.
    fn is_for(&self, key: Key<'_>) -> bool
        ensures { result ≡ is_for (key_of key.entry) (owned_entry_of self.now) }
    {
        match (self, key) {
            (
                Entry::Ports { host, port },
                Key::Tcp {
                    address,
                    port: asked,
                },
            ) => { has_host(host, address) && has_port(*port, asked) }
            (Entry::Path(path), Key::Path(asked)) => path.as_bytes() == asked,
            _ => false,
        }
    }
}

// Whether a host is this one, or each.
fn has_host(host: &Option<Text>, address: &[u8]) -> bool
    ensures { result ≡ has_host host.now address.now }
{
    match host {
        None => true,
        Some(h) => h.as_bytes() == address,
    }
}

// Whether a port is this one, or each.
fn has_port(port: Option<u32>, asked: u32) -> bool
    ensures { result ≡ has_port port asked }
{
    match port {
        None => true,
        Some(p) => p == asked,
    }
}

/// What a permission list permits.
#[derive(Drop)]
pub enum Allowed {
    Anything,
    Entries(Vec<Entry>),
}

impl Allowed {
    /// Whether some entry is for this key, or all is permitted.
    pub fn permits(&self, key: Key<'_>) -> bool
        ensures { result ≡ permits (allow_of self.now) (key_of key.entry) }
    {
        match self {
            Allowed::Anything => true,
            Allowed::Entries(entries) => any_for(entries, key),
        }
    }
}

fn any_for(entries: &[Entry], key: Key<'_>) -> bool
    ensures { result ≡ any_of (is_for (key_of key.entry)) (map owned_entry_of entries.now) }
{
    for entry in entries {
        if entry.is_for(key) {
            return true;
        }
    }
    false
}
