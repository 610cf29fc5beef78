/// How a stream is cut into frames (PROTOCOL.mux).
#[derive(Clone, Copy, PartialEq, Eq)]
pub enum Framing {
    /// Control messages: a length, and so many bytes.
    Control,
    /// Payloads of the proxy: a packet length, a padding length of 0, and the payload.
    Proxy,
}
