ghost use Rattle.std.specs.Prelude.{◌≡◌};
ghost use Rattle.ssh_mux.specs.Status.{code_of};

/// How a run ended. The program's exit status is its `code`.
#[derive(Clone, Copy, PartialEq, Eq)]
pub enum Status {
    /// The listing, or the summary of a drill, was written, the server or a client ended the
    /// connection, or a running master granted all that it was asked.
    Done,
    /// The words have no reading.
    Usage,
    /// The configuration is refused.
    Config,
    /// A file could not be read, or a command could not be run.
    Outside,
    /// The listing, the summary of a drill or what a running master answered could not be written.
    Write,
    /// The sockets could not be opened.
    Open,
    /// The connection to the server, or to the running master, failed.
    Transport,
    /// The server broke the protocol.
    Broke,
    /// All turns were used.
    Spent,
    /// There was no memory.
    Memory,
    /// A forwarding asked for at the start was refused, and none may be.
    StartRefused,
    /// The running master refused.
    Refused,
    /// The running master broke the protocol.
    BadMaster,
}

impl Status {
    /// The exit status of the program.
    pub fn code(&self) -> u8
        ensures { result ≡ code_of self.now }
    {
        match self {
            Status::Done => 0,
            Status::Usage | Status::Config => 255,
            Status::Outside => 3,
            Status::Write => 4,
            Status::Open => 5,
            Status::Transport => 6,
            Status::Broke => 7,
            Status::Spent => 8,
            Status::Memory => 9,
            Status::StartRefused => 10,
            Status::Refused => 11,
            Status::BadMaster => 12,
        }
    }
}
