use mux_outside::Facts;

/// What tokens and criteria see at a line: the values set on the lines before it, and what is known
/// of the machine.
#[derive(Clone, Copy)]
pub struct View<'a> {
    /// The host of the command line.
    pub original: &'a [u8],
    /// Hostname with its tokens expanded, or else the host of the command line: what `%h` gives.
    pub host: &'a [u8],
    /// ProxyJump, or nothing.
    pub jump: &'a [u8],
    /// Tag, or nothing.
    pub tag: &'a [u8],
    /// Port, or 22.
    pub port: u16,
    pub user: Option<&'a [u8]>,
    /// HostKeyAlias.
    pub alias: Option<&'a [u8]>,
    pub facts: &'a Facts,
    /// Whether this is the second pass, in which the criterion `final` holds.
    pub last: bool,
    /// What the criterion `host` looks at: `host`, but in the second pass that of the first.
    pub name: &'a [u8],
}
