ghost use Rattle.std.specs.Prelude.{◌≡◌, true};
ghost use Rattle.mux_history.specs.Keys.{is_askable, is_key};
ghost use Rattle.conn_messages.specs.Keys.{key_of, own_key_of, key_with_port, IsShort};

use mux_history::limits::MAX_ADDRESS;
use ssh_fields::Small;

/// What is listened on: an address with a port (RFC 4254, section 7.1), or the path of a Unix
/// socket (OpenSSH's PROTOCOL, section 2.4). The two are never the same.
#[derive(Clone, Copy)]
pub enum Key<'a> {
    Tcp { address: &'a [u8], port: u32 },
    Path(&'a [u8]),
}

/// The same, with bytes of its own.
#[derive(Drop)]
pub enum OwnKey {
    Tcp { address: Small, port: u32 },
    Path(Small),
}

impl<'a> Key<'a> {
    /// Whether it may be asked for: its address or path has at most 255 bytes, and a path isn't
    /// empty.
    pub fn is_askable(self) -> bool
        ensures exact { result ≡ is_askable (key_of self.entry) }
        ensures short { result ≡ true → IsShort (key_of self.entry) }
    {
        match self {
            Key::Tcp { address, .. } => address.len() <= MAX_ADDRESS,
            Key::Path(path) => !path.is_empty() && path.len() <= MAX_ADDRESS,
        }
    }

    /// The key that is listened on: where port 0 was asked, with the port that the server chose.
    pub fn with_port(self, chosen: u32) -> Key<'a>
        ensures { key_of result ≡ key_with_port chosen (key_of self.entry) }
    {
        match self {
            Key::Tcp { address, port: 0 } => Key::Tcp {
                address,
                port: chosen,
            },
            Key::Tcp { .. } | Key::Path(_) => self,
        }
    }
}

impl OwnKey {
    /// A copy of a key whose address or path has at most 255 bytes.
    pub fn copy(key: Key<'_>) -> OwnKey
        requires { IsShort (key_of key) }
        ensures { own_key_of result ≡ key_of key.entry }
    {
        match key {
            Key::Tcp { address, port } => OwnKey::Tcp {
                address: Small::copy(address),
                port,
            },
            Key::Path(path) => OwnKey::Path(Small::copy(path)),
        }
    }

    /// The same key, lent.
    pub fn as_key(&self) -> Key<'_>
        ensures { key_of result ≡ own_key_of self.now }
    {
        match self {
            OwnKey::Tcp { address, port } => Key::Tcp {
                address: address.as_bytes(),
                port: *port,
            },
            OwnKey::Path(path) => Key::Path(path.as_bytes()),
        }
    }

    /// Whether it is this key: of its kind, with its bytes and its port.
    pub fn is(&self, key: Key<'_>) -> bool
        ensures { result ≡ is_key (own_key_of self.now) (key_of key.entry) }
    {
        match (self, key) {
            (
                OwnKey::Tcp { address, port },
                Key::Tcp {
                    address: a,
                    port: p,
                },
            ) => { *port == p && address.as_bytes() == a }
            (OwnKey::Path(path), Key::Path(p)) => path.as_bytes() == p,
            _ => false,
        }
    }

    /// Where port 0 was asked, the port that the server chose.
    pub fn bind(&mut self, chosen: u32)
        ensures { own_key_of self.new ≡ key_with_port chosen (own_key_of self.old) }
    {
        if let OwnKey::Tcp { port, .. } = self {
            if *port == 0 {
                *port = chosen;
            }
        }
    }
}
