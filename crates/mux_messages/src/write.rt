ghost use Rattle.std.specs.Prelude.{◌≡◌, ◌+◌, ◌≤◌, ◌<◌, ◌^◌, ◌++◌, length};
ghost use Rattle.ssh_fields.specs.Fields.{u32};
ghost use Rattle.ssh_grammar.specs.Control as grammar;
ghost use Rattle.ssh_grammar.specs.Frames.{frame_answer};
ghost use Rattle.mux_messages.specs.Frames.{Says};

use ssh_fields::Small;
use ssh_grammar::numbers::*;

/// The longest reason of a failure.
pub const LONGEST_REASON: usize = 64;

// A frame's length field and the type of its body.
fn header(length: u32, kind: u32) -> Small
    ensures { result ≡ u32 length ++ u32 kind }
{
    let mut frame = Small::copy(&length.to_be_bytes());
    frame.push_u32(kind);
    frame
}

/// The master's hello, with no extension.
pub fn hello() -> Small
    ensures spelled { result ≡ frame_answer (grammar.Greets VERSION) }
    ensures read_back { Says result (grammar.Greets VERSION) }
{
    let mut frame = header(8, HELLO);
    frame.push_u32(VERSION);
    frame
}

/// S_OK
pub fn ok(id: u32) -> Small
    ensures spelled { result ≡ frame_answer (grammar.Okay id) }
    ensures read_back { Says result (grammar.Okay id) }
{
    let mut frame = header(8, S_OK);
    frame.push_u32(id);
    frame
}

/// S_PROXY
pub fn proxy(id: u32) -> Small
    ensures spelled { result ≡ frame_answer (grammar.Proxies id) }
    ensures read_back { Says result (grammar.Proxies id) }
{
    let mut frame = header(8, S_PROXY);
    frame.push_u32(id);
    frame
}

/// S_ALIVE
pub fn alive(id: u32, pid: u32) -> Small
    ensures spelled { result ≡ frame_answer (grammar.Alive id pid) }
    ensures read_back { Says result (grammar.Alive id pid) }
{
    let mut frame = header(12, S_ALIVE);
    frame.push_u32(id);
    frame.push_u32(pid);
    frame
}

/// S_REMOTE_PORT
pub fn remote_port(id: u32, port: u32) -> Small
    ensures spelled { result ≡ frame_answer (grammar.RemotePort id port) }
    ensures read_back { Says result (grammar.RemotePort id port) }
{
    let mut frame = header(12, S_REMOTE_PORT);
    frame.push_u32(id);
    frame.push_u32(port);
    frame
}

/// S_FAILURE
pub fn failure(id: u32, reason: &[u8]) -> Small
    requires { length reason.now ≤ LONGEST_REASON }
    ensures spelled { result ≡ frame_answer (grammar.Failed id reason.now) }
    ensures read_back { Says result (grammar.Failed id reason.now) }
{
    let mut frame = header(12 + reason.len() as u32, S_FAILURE);
    frame.push_u32(id);
    frame.push_string(reason);
    frame
}
