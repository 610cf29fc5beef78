//! The numbers of the protocol, in the order of their standards.

// ---- messages: RFC 4250, section 4.1.2

pub const DISCONNECT: u8 = 1;

pub const IGNORE: u8 = 2;

pub const UNIMPLEMENTED: u8 = 3;

pub const DEBUG: u8 = 4;

pub const GLOBAL_REQUEST: u8 = 80;

pub const REQUEST_SUCCESS: u8 = 81;

pub const REQUEST_FAILURE: u8 = 82;

pub const CHANNEL_OPEN: u8 = 90;

pub const CHANNEL_OPEN_CONFIRMATION: u8 = 91;

pub const CHANNEL_OPEN_FAILURE: u8 = 92;

pub const CHANNEL_WINDOW_ADJUST: u8 = 93;

pub const CHANNEL_DATA: u8 = 94;

pub const CHANNEL_EXTENDED_DATA: u8 = 95;

pub const CHANNEL_EOF: u8 = 96;

pub const CHANNEL_CLOSE: u8 = 97;

pub const CHANNEL_REQUEST: u8 = 98;

pub const CHANNEL_SUCCESS: u8 = 99;

pub const CHANNEL_FAILURE: u8 = 100;

// ---- why an open fails: RFC 4254, section 5.1

pub const ADMINISTRATIVELY_PROHIBITED: u32 = 1;

pub const CONNECT_FAILED: u32 = 2;

pub const UNKNOWN_CHANNEL_TYPE: u32 = 3;

pub const RESOURCE_SHORTAGE: u32 = 4;

// ---- control messages: PROTOCOL.mux, protocol numbers

pub const HELLO: u32 = 0x0000_0001;

pub const NEW_SESSION: u32 = 0x1000_0002;

pub const ALIVE_CHECK: u32 = 0x1000_0004;

pub const TERMINATE: u32 = 0x1000_0005;

pub const OPEN_FWD: u32 = 0x1000_0006;

pub const CLOSE_FWD: u32 = 0x1000_0007;

pub const NEW_STDIO_FWD: u32 = 0x1000_0008;

pub const STOP_LISTENING: u32 = 0x1000_0009;

pub const PROXY: u32 = 0x1000_000f;

pub const S_OK: u32 = 0x8000_0001;

pub const S_PERMISSION_DENIED: u32 = 0x8000_0002;

pub const S_FAILURE: u32 = 0x8000_0003;

pub const S_ALIVE: u32 = 0x8000_0005;

pub const S_REMOTE_PORT: u32 = 0x8000_0007;

pub const S_PROXY: u32 = 0x8000_000f;

/// The version of PROTOCOL.mux that is spoken.
pub const VERSION: u32 = 4;

// ---- frames: PROTOCOL.mux

/// The greatest value of a frame's length field.
pub const LONGEST_FRAME: u32 = 262_144;
