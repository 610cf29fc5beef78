ghost use Rattle.std.specs.Prelude.{◌≡◌, ◌||◌, not};
ghost use Rattle.conf_rules.specs.Forwardings.{host_of};
ghost use Rattle.conf_rules.specs.Permissions.{is_alone, is_entry_port, is_path_text, is_entry_host, is_entry};

use crate::bytes::is_same;
use conf_lexer::{host_of, number, split_at_last};

/// Whether an entry stands alone in its list.
pub fn is_alone(text: &[u8]) -> bool
    ensures { result ≡ is_alone text.now }
{
    is_same(text, b"any") || is_same(text, b"none")
}

// Whether a text is a star or a port.
fn is_port(text: &[u8]) -> bool
    ensures { result ≡ is_entry_port text.now }
{
    is_same(text, b"*") || number(text, 0, 65_535).is_some()
}

// Whether a text begins with a slash.
fn is_path(text: &[u8]) -> bool
    ensures { result ≡ is_path_text text.now }
{
    match text {
        [b'/', ..] => true,
        _ => false,
    }
}

// Whether a host is one of an entry: not empty and no path.
fn is_entry_host(host: &[u8]) -> bool
    ensures { result ≡ is_entry_host host.now }
{
    match host_of(host) {
        None => false,
        Some(name) => !(name.is_empty() || is_path(name)),
    }
}

/// Whether a text is a path, or `host:port`, `[address]:port` or `port`.
pub fn is_entry(text: &[u8]) -> bool
    ensures { result ≡ is_entry text.now }
{
    if is_path(text) {
        return true;
    }
    match split_at_last(b':', text) {
        None => is_port(text),
        Some((host, port)) => is_entry_host(host) && is_port(port),
    }
}
