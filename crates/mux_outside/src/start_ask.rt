ghost use Rattle.std.specs.Prelude.{◌≡◌, IfOk};

use ssh_fields::{ListOf, OutOfMemory, Text};
use std::alloc::Global;

/// How many bytes a host that is listened on or connected to has at most.
pub const LONGEST_HOST: usize = 255;

/// A forwarding that is asked for by the configuration, by words or by a client: its kind, and both
/// ends. An absent end has an empty host and port 0.
#[derive(Drop)]
pub struct StartAsk {
    /// 1 for a local forwarding, 2 for a remote and 3 for a dynamic one.
    pub kind: u32,
    pub listen_host: Text,
    pub listen_port: u32,
    pub connect_host: Text,
    pub connect_port: u32,
    /// Whether an end is a path.
    pub path: bool,
}

impl StartAsk {
    /// The same once more.
    pub fn copy(&self, alloc: Global) -> Result<StartAsk, OutOfMemory>
        ensures { IfOk result (λ ask. ask ≡ self.now) }
    {
        let listen_host = Text::copy(alloc, self.listen_host.as_bytes())?;
        let connect_host = Text::copy(alloc, self.connect_host.as_bytes())?;
        Ok(StartAsk {
            kind: self.kind,
            listen_host,
            listen_port: self.listen_port,
            connect_host,
            connect_port: self.connect_port,
            path: self.path,
        })
    }
}

/// Such forwardings in order.
pub type StartAsks = ListOf<StartAsk>;
