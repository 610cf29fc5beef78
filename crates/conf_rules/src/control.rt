/// A request to a running master.
#[derive(Clone, Copy, Drop, PartialEq, Eq)]
pub enum MasterCommand {
    /// Whether it runs.
    Check,
    /// To end.
    Exit,
    /// To accept no more clients.
    Stop,
    /// To open the forwardings that the words name.
    Forward,
    /// To close them.
    Cancel,
}
