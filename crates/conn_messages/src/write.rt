ghost use Rattle.std.specs.Prelude.{◌≡◌, ◌≤◌, [], length, Ok};
ghost use Rattle.ssh_grammar.specs.Messages as grammar;
ghost use Rattle.ssh_grammar.specs.ReadMessage.{read_message as reading};
ghost use Rattle.ssh_grammar.specs.SpellMessage as spelling;
ghost use Rattle.mux_history.specs.declared.limits.TheConstants.{MAX_ADDRESS};

use crate::further::{CANCEL, CANCEL_PATH};
use ssh_fields::Small;
use ssh_grammar::numbers::*;

/// The longest text that goes with the reason of a failed open.
pub const LONGEST_TEXT: usize = 64;

/// The boolean of a request that wants no reply.
const NO_REPLY: &[u8] = &[0];

/// CHANNEL_OPEN_FAILURE with an empty language tag (RFC 4254, section 5.1).
pub fn open_failure(recipient: u32, reason: u32, text: &[u8]) -> Small
    requires { length text.now ≤ LONGEST_TEXT }
    ensures spelled { result ≡ spelling.open_failure recipient reason text.now }
    ensures read_back { reading result
        ≡ Ok (grammar.To recipient (grammar.OpenFailure reason text.now [])) }
{
    let mut payload = Small::copy(&[CHANNEL_OPEN_FAILURE]);
    payload.push_u32(recipient);
    payload.push_u32(reason);
    payload.push_string(text);
    payload.push_string(b"");
    payload
}

/// CHANNEL_CLOSE (RFC 4254, section 5.3).
pub fn close(recipient: u32) -> Small
    ensures spelled { result ≡ spelling.close recipient }
    ensures read_back { reading result ≡ Ok (grammar.To recipient grammar.Close) }
{
    let mut payload = Small::copy(&[CHANNEL_CLOSE]);
    payload.push_u32(recipient);
    payload
}

/// REQUEST_FAILURE (RFC 4254, section 4).
pub fn request_failure() -> Small
    ensures spelled { result ≡ spelling.request_failure }
    ensures read_back { reading result ≡ Ok (grammar.Plain grammar.RequestFailure) }
{
    Small::copy(&[REQUEST_FAILURE])
}

/// A `cancel-tcpip-forward` that wants no reply (RFC 4254, section 7.1).
pub fn cancel_forward(address: &[u8], port: u32) -> Small
    requires { length address.now ≤ MAX_ADDRESS }
    ensures spelled { result ≡ spelling.cancel_forward (grammar.Tcp address.now port) }
    ensures read_back { reading result ≡ Ok (spelling.cancel_of (grammar.Tcp address.now port)) }
{
    let mut payload = Small::copy(&[GLOBAL_REQUEST]);
    payload.push_string(CANCEL);
    payload.push(NO_REPLY);
    payload.push_string(address);
    payload.push_u32(port);
    payload
}

/// A `cancel-streamlocal-forward@openssh.com` that wants no reply (OpenSSH's PROTOCOL, section
/// 2.4).
pub fn cancel_path(path: &[u8]) -> Small
    requires { length path.now ≤ MAX_ADDRESS }
    ensures spelled { result ≡ spelling.cancel_forward (grammar.Path path.now) }
    ensures read_back { reading result ≡ Ok (spelling.cancel_of (grammar.Path path.now)) }
{
    let mut payload = Small::copy(&[GLOBAL_REQUEST]);
    payload.push_string(CANCEL_PATH);
    payload.push(NO_REPLY);
    payload.push_string(path);
    payload
}
