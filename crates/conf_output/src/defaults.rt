ghost use Rattle.std.specs.Prelude.{◌≡◌};
ghost use Rattle.std.specs.Option.{option_copied};
ghost use Rattle.conf_rules.specs.Listing.{text_list};
ghost use Rattle.conf_output.specs.Shown.{default_texts};

use conf_options::Key;

/// The text that is listed for a key that isn't set. User and Hostname have a default of their own
/// besides.
#[tactic(auto, unfolding(conf_rules::specs::Kinds::default_of, conf_rules::specs::Numbers::digits_of))]
pub fn default_text(key: Key) -> Option<&'static [u8]>
    ensures { text_list (option_copied result) ≡ default_texts key }
{
    match key {
        Key::AddressFamily => Some(b"any"),
        Key::ConnectionAttempts => Some(b"1"),
        Key::LogLevel => Some(b"INFO"),
        Key::NumberOfPasswordPrompts | Key::ServerAliveCountMax => Some(b"3"),
        Key::Port => Some(b"22"),
        Key::RequestTTY => Some(b"auto"),
        Key::ServerAliveInterval => Some(b"0"),
        Key::StrictHostKeyChecking => Some(b"ask"),
        Key::PasswordAuthentication | Key::PubkeyAuthentication | Key::TCPKeepAlive => Some(b"yes"),
        Key::BatchMode
        | Key::CheckHostIP
        | Key::ClearAllForwardings
        | Key::Compression
        | Key::ExitOnForwardFailure
        | Key::ForwardAgent
        | Key::ForwardX11
        | Key::GatewayPorts
        | Key::HashKnownHosts
        | Key::HostbasedAuthentication
        | Key::IdentitiesOnly
        | Key::PermitLocalCommand
        | Key::Tunnel
        | Key::VisualHostKey => Some(b"no"),
        _ => None,
    }
}
