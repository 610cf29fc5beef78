//! A dialog, read from its first byte on.
ghost use Rattle.socks_dialog.specs.Socks.{socks};
ghost use Rattle.socks_dialog.specs.Reads.{IsReading};

use crate::numbers::{VERSION_4, VERSION_5};
use crate::outcome::{DialogReading, ends_with, wants_more};
use crate::{socks4, socks5};
use ssh_fields::Small;

/// A dialog, by all bytes of its client.
pub fn read(bytes: &[u8]) -> DialogReading
    ensures { IsReading result (socks bytes.now) }
{
    match bytes {
        [] => wants_more(),
        [VERSION_4, rest @ ..] => socks4::read_command(rest),
        [VERSION_5, rest @ ..] => socks5::read_methods(rest),
        [_, rest @ ..] => ends_with(Small::copy(b""), rest),
    }
}
