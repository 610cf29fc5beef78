/// What a forwarder sends first as a client (PROTOCOL.mux): MUX_MSG_HELLO of version 4, and
/// MUX_C_PROXY with the request id 0.
pub const GREETING: &[u8] = &[
    0, 0, 0, 8, 0, 0, 0, 1, 0, 0, 0, 4, 0, 0, 0, 8, 0x10, 0, 0, 0x0f, 0, 0, 0, 0,
];
