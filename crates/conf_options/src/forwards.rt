ghost use Rattle.std.specs.Prelude.{◌≡◌, ◌<◌, [], Some, None, IfOk};
ghost use Rattle.conf_rules.specs.Texts.{has, split_at_last};
ghost use Rattle.conf_rules.specs.Numbers.{number_within};
ghost use Rattle.conf_rules.specs.Forwardings.{host_of, listen_port, listen_end, connect_end, end_with_port};

use conf_lexer::{has_slash, host_of, number, split_at_last};
use conf_rules::End;
use ssh_fields::{OutOfMemory, Text};
use std::alloc::Global;

// A port from `low` on.
fn port(word: &[u8], low: u64) -> Option<u16>
    ensures { result ≡ number_within low 65535 word.now }
{
    match number(word, low, 65_535) {
        None => None,
        Some(n) => Some(n as u16),
    }
}

// A port after its host.
fn with_port(alloc: Global, low: u64, host: &[u8], word: &[u8]) -> Result<Option<End>, OutOfMemory>
    ensures { IfOk result (λ end. end ≡ end_with_port low word.now (Some host.now)) }
{
    match port(word, low) {
        None => Ok(None),
        Some(port) => {
            let host = Text::copy(alloc, host)?;
            Ok(Some(End::Port {
                host: Some(host),
                port,
            }))
        }
    }
}

/// A listening end that is no path.
pub fn listen_port(alloc: Global, low: u64, word: &[u8]) -> Result<Option<End>, OutOfMemory>
    ensures { IfOk result (λ end. end ≡ listen_port low word.now) }
{
    match split_at_last(b':', word) {
        None => match port(word, low) {
            None => Ok(None),
            Some(port) => Ok(Some(End::Port { host: None, port })),
        },
        Some((host, port)) => match host_of(host) {
            None => Ok(None),
            Some([]) => with_port(alloc, low, b"*", port),
            Some(host) => with_port(alloc, low, host, port),
        },
    }
}

/// A listening end: a word that has a slash is a path.
pub fn listen_end(alloc: Global, low: u64, word: &[u8]) -> Result<Option<End>, OutOfMemory>
    ensures { IfOk result (λ end. end ≡ listen_end low word.now) }
{
    if has_slash(word) {
        return Ok(Some(End::Path(Text::copy(alloc, word)?)));
    }
    listen_port(alloc, low, word)
}

/// A connecting end: a path, or a port with its host.
pub fn connect_end(alloc: Global, word: &[u8]) -> Result<Option<End>, OutOfMemory>
    ensures { IfOk result (λ end. end ≡ connect_end word.now) }
{
    if has_slash(word) {
        return Ok(Some(End::Path(Text::copy(alloc, word)?)));
    }
    match split_at_last(b':', word) {
        None => Ok(None),
        Some((host, port)) => match host_of(host) {
            None => Ok(None),
            Some([]) => Ok(None),
            Some(host) => with_port(alloc, 1, host, port),
        },
    }
}
