ghost use Rattle.std.specs.Prelude.{◌≡◌, ◌≤◌, length};
ghost use Rattle.ssh_grammar.specs.SpellMessage as spelling;
ghost use Rattle.conn_messages.specs.Keys.{IsShort, key_of};

use conn_messages::{Key, cancel_forward, cancel_path};
use ssh_fields::Small;

/// The payload that cancels a key and wants no reply (RFC 4254, section 7.1; OpenSSH's PROTOCOL,
/// section 2.4).
pub fn cancel(key: Key<'_>) -> Small
    requires { IsShort (key_of key) }
    ensures spelled { result ≡ spelling.cancel_forward (key_of key.entry) }
    ensures least { 1 ≤ length result }
    ensures most { length result ≤ 303 }
{
    match key {
        Key::Tcp { address, port } => cancel_forward(address, port),
        Key::Path(path) => cancel_path(path),
    }
}
