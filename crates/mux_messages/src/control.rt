use mux_outside::FwdAsk;

/// A control message of a client (PROTOCOL.mux). The id comes back in the answer.
#[derive(Clone, Copy)]
pub enum Control<'a> {
    /// MUX_MSG_HELLO: the first message of each side. Its extensions are skipped.
    Hello { version: u32 },
    /// MUX_C_NEW_SESSION: asks for a session over descriptors that are handed over. What follows
    /// the id isn't read.
    NewSession { id: u32 },
    /// MUX_C_ALIVE_CHECK: asks whether the master is there.
    Alive { id: u32 },
    /// MUX_C_TERMINATE: requests that the master ends.
    Terminate { id: u32 },
    /// MUX_C_OPEN_FWD: requests that the master opens a forwarding of its own.
    OpenForward { id: u32, what: FwdAsk<'a> },
    /// MUX_C_CLOSE_FWD: requests that the master closes one.
    CloseForward { id: u32, what: FwdAsk<'a> },
    /// MUX_C_NEW_STDIO_FWD: asks for one forwarding over descriptors that are handed over. What
    /// follows the id isn't read.
    StdioForward { id: u32 },
    /// MUX_C_STOP_LISTENING: requests that the master accepts no more clients.
    StopListening { id: u32 },
    /// MUX_C_PROXY: announces that all further bytes are proxy frames.
    Proxy { id: u32 },
}
