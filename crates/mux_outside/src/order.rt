ghost use Rattle.std.specs.Prelude.{◌≡◌, IfOk};

use ssh_fields::{OutOfMemory, Text};
use std::alloc::Global;

/// What a forwarder orders of the wire.
#[derive(Drop)]
pub enum Order {
    /// Listen there.
    Listen { host: Text, port: u32 },
    /// Make a stream that connects there.
    Connect { host: Text, port: u32 },
    /// This listener is closed.
    Unlisten(u64),
    /// This stream gives nothing for now.
    Pause(u64),
    /// This stream gives what comes again.
    Resume(u64),
    /// This stream accepts no more bytes.
    Finish(u64),
    /// This stream is closed.
    Close(u64),
}

impl Order {
    /// The same once more.
    pub fn copy(&self, alloc: Global) -> Result<Order, OutOfMemory>
        ensures { IfOk result (λ order. order ≡ self.now) }
    {
        match self {
            Order::Listen { host, port } => {
                let host = Text::copy(alloc, host.as_bytes())?;
                Ok(Order::Listen { host, port: *port })
            }
            Order::Connect { host, port } => {
                let host = Text::copy(alloc, host.as_bytes())?;
                Ok(Order::Connect { host, port: *port })
            }
            Order::Unlisten(listener) => Ok(Order::Unlisten(*listener)),
            Order::Pause(stream) => Ok(Order::Pause(*stream)),
            Order::Resume(stream) => Ok(Order::Resume(*stream)),
            Order::Finish(stream) => Ok(Order::Finish(*stream)),
            Order::Close(stream) => Ok(Order::Close(*stream)),
        }
    }
}
