ghost use Rattle.std.specs.Prelude.{◌≡◌};
ghost use Rattle.mux_outside.specs.Tally.{no_tally};

/// Which turns are wanted.
#[derive(Clone, Copy, PartialEq, Eq)]
pub enum Want {
    /// Any.
    Read,
    /// Only that a blocked stream accepts bytes again.
    WriteOnly,
}

/// What happened next.
#[derive(Clone, Copy, PartialEq, Eq)]
pub enum Turn {
    /// A client came, with the number above that of the last one.
    Accepted(u64),
    /// A stream gave bytes: from 1 to 65,536.
    Got(u64),
    /// A stream gives no more bytes.
    End(u64),
    /// A blocked stream accepts bytes again.
    Writable(u64),
    /// A stream failed.
    Failed(u64),
    /// A socket was accepted at this listener of the master's own, and is this stream.
    Joined(u64, u64),
    /// There was no memory, and nothing has changed.
    NoMemory,
}

/// How a write went.
#[derive(Clone, Copy, PartialEq, Eq)]
pub enum Wrote {
    /// So many bytes were accepted, from the front.
    Took(usize),
    /// None was accepted, and the stream is blocked now.
    Later,
    /// The stream failed.
    Failed,
    /// There was no memory, and nothing was accepted.
    NoMemory,
}

/// What a wire has counted of the clients and of their data.
#[derive(Clone, Copy, PartialEq, Eq)]
pub struct Tally {
    /// Clients accepted.
    pub clients: u64,
    /// Messages finished.
    pub messages: u64,
    /// Bytes of data that the server read.
    pub data_up: u64,
    /// Bytes of data that clients read.
    pub data_down: u64,
    /// Clients whose channel was closed both ways.
    pub closed: u64,
}

impl Tally {
    /// Nothing was counted.
    pub fn zero() -> Tally
        ensures { result ≡ no_tally }
    {
        Tally {
            clients: 0,
            messages: 0,
            data_up: 0,
            data_down: 0,
            closed: 0,
        }
    }
}
