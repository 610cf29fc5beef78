ghost use Rattle.std.specs.Prelude.{◌≡◌};
ghost use Rattle.conf_rules.specs.Options.{option_letters, letter_among, Sets, With, OfKey, OfForward};
ghost use Rattle.conf_command.specs.Shown.{letter_of};

use crate::act::CommandMode;
use conf_rules::PermitList;

/// An option that has a value.
#[derive(Clone, Copy, Drop)]
pub enum Takes {
    /// An option of a key.
    Key(&'static [u8]),
    /// A forwarding, which may have one end or two.
    Forward {
        keyword: &'static [u8],
        one: bool,
        two: bool,
    },
    /// A whole line.
    Line,
    File,
    Transport,
    /// The request to a running master.
    Control,
    /// A permission of a list.
    Permit(PermitList),
    /// Whether sessions are permitted.
    Sessions,
}

/// What a letter means.
#[derive(Clone, Copy, Drop)]
pub enum Letter {
    Names(CommandMode),
    /// It sets a key to a fixed value.
    Sets {
        keyword: &'static [u8],
        value: &'static [u8],
    },
    With(Takes),
    NoLetter,
}

// A key that a letter sets.
fn sets(keyword: &'static [u8], value: &'static [u8]) -> Letter
    ensures { letter_of result ≡ Sets keyword.now value.now }
{
    Letter::Sets { keyword, value }
}

// A key whose value follows a letter.
fn key(keyword: &'static [u8]) -> Letter
    ensures { letter_of result ≡ With (OfKey keyword.now) }
{
    Letter::With(Takes::Key(keyword))
}

// A forwarding whose ends follow a letter.
fn forward(keyword: &'static [u8], one: bool, two: bool) -> Letter
    ensures { letter_of result ≡ With (OfForward keyword.now one two) }
{
    Letter::With(Takes::Forward { keyword, one, two })
}

/// The meaning of a letter.
pub fn meaning_of(byte: u8) -> Letter
    ensures { letter_of result ≡ letter_among option_letters byte }
{
    match byte {
        b'G' => Letter::Names(CommandMode::Listing),
        b'M' => Letter::Names(CommandMode::Master),
        b'4' => sets(b"addressfamily", b"inet"),
        b'6' => sets(b"addressfamily", b"inet6"),
        b'A' => sets(b"forwardagent", b"yes"),
        b'a' => sets(b"forwardagent", b"no"),
        b'b' => key(b"bindaddress"),
        b'B' => key(b"bindinterface"),
        b'C' => sets(b"compression", b"yes"),
        b'i' => key(b"identityfile"),
        b'J' => key(b"proxyjump"),
        b'F' => Letter::With(Takes::File),
        b'l' => key(b"user"),
        b'L' => forward(b"localforward", false, true),
        b'R' => forward(b"remoteforward", true, true),
        b'D' => forward(b"dynamicforward", true, false),
        b'O' => Letter::With(Takes::Control),
        b'o' => Letter::With(Takes::Line),
        b'P' => key(b"tag"),
        b'p' => key(b"port"),
        b'S' => key(b"controlpath"),
        _ => Letter::NoLetter,
    }
}
