/// A list of the master's permissions.
#[derive(Clone, Copy, Drop, PartialEq, Eq)]
pub enum PermitList {
    /// What clients may open.
    Open,
    /// Where clients may have the server listen.
    Listen,
    /// Where the master's own forwardings may listen on this machine.
    Here,
}
