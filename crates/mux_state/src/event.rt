use mux_history::Ended;
use mux_outside::HouseReply;

/// What happened at a stream.
#[derive(Clone, Copy)]
pub enum Event<'a> {
    /// A client came, with a number from 1 on that no client had before.
    Accepted(u64),
    /// A client's stream gave bytes.
    FromClient(u64, &'a [u8]),
    /// A client's stream ended.
    ClientEnd(u64),
    /// A client's stream failed.
    ClientFailed(u64),
    /// The forwarder replied to a client's request, with the id of the request, later than at once.
    HouseSays(u64, u32, HouseReply),
    /// The server's stream gave bytes.
    FromServer(&'a [u8]),
    /// The server's stream ended.
    ServerEnd,
    /// The server's stream failed.
    ServerFailed,
}

/// Whether the run goes on.
#[derive(Clone, Copy, PartialEq, Eq)]
pub enum Went {
    /// It goes on.
    On,
    /// It ended, and every later event answers the same.
    Ended(Ended),
}
