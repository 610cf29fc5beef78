//! The numbers of SOCKS 4 and 4a, and of SOCKS 5 (RFC 1928), in the order of their fields.

/// The first byte of a dialog.
pub const VERSION_4: u8 = 4;

pub const VERSION_5: u8 = 5;

/// The method that needs no authentication.
pub const NO_AUTHENTICATION: u8 = 0;

/// None of the client's methods is acceptable.
pub const NO_ACCEPTABLE_METHOD: u8 = 0xff;

/// The command that asks for a connection, in both versions.
pub const CONNECT: u8 = 1;

pub const RESERVED: u8 = 0;

/// The types of an address in SOCKS 5.
pub const IPV4: u8 = 1;

pub const DOMAIN_NAME: u8 = 3;

pub const IPV6: u8 = 4;

/// The codes of SOCKS 4's reply: the request is granted, or it isn't.
pub const GRANTED: u8 = 90;

pub const REJECTED: u8 = 91;

/// The codes of SOCKS 5's reply.
pub const SUCCEEDED: u8 = 0;

pub const GENERAL_FAILURE: u8 = 1;

pub const NOT_ALLOWED: u8 = 2;

pub const COMMAND_NOT_SUPPORTED: u8 = 7;

pub const ADDRESS_TYPE_NOT_SUPPORTED: u8 = 8;
