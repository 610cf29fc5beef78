/// What happened to one of the master's own listeners or streams.
#[derive(Clone, Copy)]
pub enum OwnTurn<'a> {
    /// A socket was accepted at a listener, and is this stream.
    Joined { listener: u64, stream: u64 },
    /// A stream gave bytes: from 1 to 65,536.
    Got(u64, &'a [u8]),
    /// A stream gives no more bytes.
    End(u64),
    /// A stream that was blocked accepts bytes again, or is connected.
    Writable(u64),
    /// A stream failed.
    Failed(u64),
}
