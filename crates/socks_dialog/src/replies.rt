//! What is written to a client.
ghost use Rattle.std.specs.Prelude.{◌≡◌, ◌++◌};
ghost use Rattle.socks_dialog.specs.Replies.{reply4, reply5, no_authentication, no_method, granted_to, refused_to};

use crate::numbers::{
    GENERAL_FAILURE, GRANTED, IPV4, NO_ACCEPTABLE_METHOD, NO_AUTHENTICATION, NOT_ALLOWED, REJECTED,
    RESERVED, SUCCEEDED, VERSION_4, VERSION_5,
};
use ssh_fields::Small;

/// The reply of SOCKS 4 with this code.
pub fn reply_of_4(code: u8) -> Small
    ensures { result ≡ reply4 code }
{
    Small::copy(&[0, code, 0, 0, 0, 0, 0, 0])
}

/// The reply of SOCKS 5 with this code.
pub fn reply_of_5(code: u8) -> Small
    ensures { result ≡ reply5 code }
{
    Small::copy(&[VERSION_5, code, RESERVED, IPV4, 0, 0, 0, 0, 0, 0])
}

/// The method is chosen that needs no authentication.
pub fn method_taken() -> Small
    ensures { result ≡ no_authentication }
{
    Small::copy(&[VERSION_5, NO_AUTHENTICATION])
}

/// No method is chosen.
pub fn no_method_taken() -> Small
    ensures { result ≡ no_method }
{
    Small::copy(&[VERSION_5, NO_ACCEPTABLE_METHOD])
}

/// To a dialog of this version: the end is reached.
pub fn granted_in(version: u8) -> Small
    ensures { result ≡ granted_to version }
{
    match version {
        VERSION_4 => reply_of_4(GRANTED),
        _ => reply_of_5(SUCCEEDED),
    }
}

/// To a dialog of this version: the end isn't reached, for a reason of an open failure (RFC 4254,
/// section 5.1), of which 1 is that it is prohibited.
pub fn refused_in(version: u8, reason: u32) -> Small
    ensures { result ≡ refused_to version reason }
{
    match (version, reason) {
        (VERSION_4, _) => reply_of_4(REJECTED),
        (_, 1) => reply_of_5(NOT_ALLOWED),
        _ => reply_of_5(GENERAL_FAILURE),
    }
}
