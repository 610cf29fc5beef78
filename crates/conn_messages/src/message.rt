use crate::key::Key;

/// What a global request is about: its data, read further for these names alone (RFC 4254, sections
/// 4 and 7.1; OpenSSH's PROTOCOL, section 2.4).
#[derive(Clone, Copy)]
pub enum Request<'a> {
    /// `tcpip-forward` or `streamlocal-forward@openssh.com`
    Forward(Key<'a>),
    /// `cancel-tcpip-forward` or `cancel-streamlocal-forward@openssh.com`
    Cancel(Key<'a>),
    /// `keepalive@openssh.com`
    KeepAlive,
    /// Every other name.
    Other,
}

/// What an open is about: its data, read further for these types alone (RFC 4254, sections 6.1 and
/// 7.2; OpenSSH's PROTOCOL, section 2.4).
#[derive(Clone, Copy)]
pub enum Opening<'a> {
    /// `session`
    Session,
    /// `direct-tcpip` or `direct-streamlocal@openssh.com`: where to connect to.
    Direct(Key<'a>),
    /// `forwarded-tcpip` or `forwarded-streamlocal@openssh.com`: what was connected to.
    Forwarded(Key<'a>),
    /// Every other type.
    Other,
}

/// A message of RFC 4254 with its fields in their order. Strings and data are parts of the payload;
/// `rest` is data as it came, and `what` is that data read further.
#[derive(Clone, Copy)]
pub enum Message<'a> {
    /// A message of the transport, 1 to 4, whose fields aren't read.
    Transport {
        number: u8,
        rest: &'a [u8],
    },
    GlobalRequest {
        name: &'a [u8],
        want: bool,
        rest: &'a [u8],
        what: Request<'a>,
    },
    RequestSuccess {
        rest: &'a [u8],
    },
    RequestFailure,
    Open {
        kind: &'a [u8],
        sender: u32,
        window: u32,
        maximum: u32,
        rest: &'a [u8],
        what: Opening<'a>,
    },
    Confirmation {
        recipient: u32,
        sender: u32,
        window: u32,
        maximum: u32,
        rest: &'a [u8],
    },
    OpenFailure {
        recipient: u32,
        reason: u32,
        text: &'a [u8],
        language: &'a [u8],
    },
    Adjust {
        recipient: u32,
        add: u32,
    },
    Data {
        recipient: u32,
        bytes: &'a [u8],
    },
    Extended {
        recipient: u32,
        code: u32,
        bytes: &'a [u8],
    },
    Eof {
        recipient: u32,
    },
    Close {
        recipient: u32,
    },
    Request {
        recipient: u32,
        kind: &'a [u8],
        want: bool,
        rest: &'a [u8],
    },
    Success {
        recipient: u32,
    },
    Failure {
        recipient: u32,
    },
}
