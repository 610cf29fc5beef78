ghost use Rattle.std.specs.Prelude.{◌≡◌};
ghost use Rattle.std.specs.List.{list_any};
ghost use Rattle.std.specs.Option.{option_copied};
ghost use Rattle.conf_rules.specs.Texts.{split_last};
ghost use Rattle.conf_rules.specs.Forwardings.{is_host_byte, before_bracket, host_of};
ghost use Rattle.conf_lexer.specs.Hosts.{plain_host};

use crate::bytes::first;

// Whether a byte is a colon or a bracket.
fn is_host_byte(b: u8) -> bool
    ensures { result ≡ is_host_byte b }
{
    b == b':' || b == b'[' || b == b']'
}

// What stands before a closing bracket.
fn before_bracket(inner: &[u8]) -> Option<&[u8]>
    ensures { option_copied result ≡ before_bracket (split_last inner.now) }
{
    match inner {
        [before @ .., last] => { if *last == b']' { Some(before) } else { None } }
        [] => None,
    }
}

// Whether a text has a colon or a bracket.
fn has_host_byte(text: &[u8]) -> bool
    ensures { result ≡ list_any is_host_byte text.now }
{
    text.iter().any(|b| is_host_byte(*b))
}

// A host without brackets.
fn plain_host(host: &[u8]) -> Option<&[u8]>
    ensures { option_copied result ≡ plain_host host.now }
{
    if has_host_byte(host) {
        None
    } else {
        Some(host)
    }
}

/// A host without its brackets; one without brackets has no colon and no bracket.
pub fn host_of(host: &[u8]) -> Option<&[u8]>
    ensures { option_copied result ≡ host_of host.now }
{
    match first(host) {
        None => plain_host(host),
        Some((byte, inner)) => {
            if byte == b'[' {
                before_bracket(inner)
            } else {
                plain_host(host)
            }
        }
    }
}
