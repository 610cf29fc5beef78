ghost use Rattle.std.specs.Prelude.{◌≡◌};
ghost use Rattle.std.specs.Option.{option_map};
ghost use Rattle.conf_rules.specs.Destinations.{is_host, destination};
ghost use Rattle.conf_command.specs.Shown.{destination_of};

use conf_lexer::split_at_last;

/// A host, and the user if one is named.
#[derive(Clone, Copy)]
pub struct Destination<'a> {
    pub user: Option<&'a [u8]>,
    pub host: &'a [u8],
}

// Whether a host is not empty and begins with no dash.
fn is_host(host: &[u8]) -> bool
    ensures { result ≡ is_host host.now }
{
    match host {
        [] => false,
        [first, ..] => *first != b'-',
    }
}

/// The destination that a word names: `host`, or `user@host`, which the last at sign parts.
pub fn destination_in(word: &[u8]) -> Option<Destination<'_>>
    ensures { option_map destination_of result ≡ destination word.now }
{
    match split_at_last(b'@', word) {
        None => {
            if is_host(word) {
                return Some(Destination {
                    user: None,
                    host: word,
                });
            }
            None
        }
        Some((user, host)) => {
            if !user.is_empty() && is_host(host) {
                return Some(Destination {
                    user: Some(user),
                    host,
                });
            }
            None
        }
    }
}
