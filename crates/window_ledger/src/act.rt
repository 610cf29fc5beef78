/// What a message does in a confirmed channel.
#[derive(Clone, Copy, PartialEq, Eq)]
pub enum Act {
    /// DATA or EXTENDED_DATA of so many bytes.
    Data(u32),
    /// WINDOW_ADJUST by so many bytes.
    Grant(u32),
    /// No more data comes.
    Eof,
    /// Nothing more comes.
    Close,
    /// A channel request, and whether it wants a reply.
    Request(bool),
    /// SUCCESS or FAILURE.
    Reply,
}
