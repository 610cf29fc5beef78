//! The limits of a master, which code and definitions name alike.

/// Clients with open matters.
pub const MAX_CLIENTS: usize = 64;

/// Channels that a client holds.
pub const MAX_CHANNELS: usize = 256;

/// Forwardings of a client, asked or live.
pub const MAX_FORWARDINGS: usize = 64;

/// Bytes of a forwarding's address or path.
pub const MAX_ADDRESS: usize = 255;

/// Wanted global requests of a client without an answer.
pub const MAX_GLOBAL_REQUESTS: u32 = 1_024;

/// Wanted requests of a channel and direction without a reply.
pub const MAX_CHANNEL_REQUESTS: u32 = 1_024;

/// The greatest room of a direction.
pub const MAX_WINDOW: u32 = 4_294_967_295;

/// Bytes that wait for a client.
pub const MAX_QUEUE: usize = 33_554_432;

/// While so many bytes wait for the server, nothing is read.
pub const READING_STOPS_AT: usize = 4_194_304;

/// The number of the forwarder, where it is admitted as a client.
pub const HOUSE: u64 = 18_446_744_073_709_551_615;

/// Every channel number of the master is below it.
pub const NUMBERS_END: u32 = 16_384;
