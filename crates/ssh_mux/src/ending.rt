ghost use Rattle.std.specs.Prelude.{◌≡◌, ◌++◌, OnOk, IfOk, IsTrue, MatchOption};
ghost use Rattle.conf_rules.specs.Diagnostics.{line_of, text_of, located, cause_text};
ghost use Rattle.ssh_mux.specs.declared.ending.Ending.TheVariants.{NoMemory};
ghost use Rattle.ssh_mux.specs.Err.{is_built};
ghost use Rattle.ssh_mux.specs.Ending.{ending_shown, misread_as, refused_as, unlisted_as};
ghost use Rattle.ssh_mux.specs.Status.{status_of};

use crate::diagnostics::{put_break_text, put_cause_text, put_token_text, usage_text};
use crate::status::Status;
use conf_command::WordsError;
use conf_rules::{Cause, Key, ListError, ResolveError, TokenError, UsageError};
use conf_tokens::put_number;
use mux_history::Break;
use ssh_fields::{OutOfMemory, Text};
use std::alloc::Global;

/// The out-of-memory line.
pub const NO_MEMORY: &[u8] = b"ssh-mux: out of memory\n";

/// How a run ends of which a line is written.
#[derive(Drop)]
pub enum Ending {
    /// The words have no reading.
    BadWords(UsageError),
    /// A line of the configuration is refused, or its file as line 0.
    BadLine { file: Text, line: u64, cause: Cause },
    /// The tokens of a key can't be expanded.
    BadListing { key: Key, error: TokenError },
    /// No control path is set.
    NoControlPath,
    /// The sockets could not be opened.
    NotOpened,
    /// The connection to the server, or to the running master, failed.
    TransportFailed,
    /// The server broke the protocol, by its message with this number, counted from 1.
    ServerBroke { index: u64, why: Break },
    /// All turns were used.
    TurnsSpent,
    /// A forwarding asked for at the start was refused, and none may be.
    StartRefused,
    /// The running master refused.
    MasterRefused,
    /// The running master broke the protocol.
    MasterBroke,
    /// There was no memory.
    NoMemory,
}

impl From<WordsError> for Ending {
    ghost from_gives = { λ e ending. ending ≡ misread_as e };

    fn from(error: WordsError) -> Ending {
        match error {
            WordsError::Refused(e) => Ending::BadWords(e),
            WordsError::OutOfMemory => Ending::NoMemory,
        }
    }
}

impl From<ResolveError> for Ending {
    ghost from_gives = { λ e ending. ending ≡ refused_as e };

    fn from(error: ResolveError) -> Ending {
        match error {
            ResolveError::At { file, line, cause } => Ending::BadLine { file, line, cause },
            ResolveError::OutOfMemory => Ending::NoMemory,
        }
    }
}

impl From<ListError> for Ending {
    ghost from_gives = { λ e ending. ending ≡ unlisted_as e };

    fn from(error: ListError) -> Ending {
        match error {
            ListError::Token { key, error } => Ending::BadListing { key, error },
            ListError::OutOfMemory => Ending::NoMemory,
        }
    }
}

impl From<OutOfMemory> for Ending {
    ghost from_gives = { λ _ ending. ending ≡ NoMemory };

    fn from(_error: OutOfMemory) -> Ending {
        Ending::NoMemory
    }
}

impl Ending {
    /// The status of the run.
    pub fn status(&self) -> Status
        ensures { result ≡ status_of (ending_shown self.now) }
    {
        match self {
            Ending::BadWords(_) => Status::Usage,
            Ending::BadLine {
                cause: Cause::ReadFault | Cause::RunFault,
                ..
            } => Status::Outside,
            Ending::BadLine { .. } | Ending::BadListing { .. } | Ending::NoControlPath => {
                Status::Config
            }
            Ending::NotOpened => Status::Open,
            Ending::TransportFailed => Status::Transport,
            Ending::ServerBroke { .. } => Status::Broke,
            Ending::TurnsSpent => Status::Spent,
            Ending::StartRefused => Status::StartRefused,
            Ending::MasterRefused => Status::Refused,
            Ending::MasterBroke => Status::BadMaster,
            Ending::NoMemory => Status::Memory,
        }
    }

    /// The line that is written of it, where all of its kind have the same: no memory is needed.
    #[tactic(auto, unfolding(conf_rules::specs::Diagnostics::line_of, conf_rules::specs::Diagnostics::text_of))]
    pub fn fixed_line(&self) -> Option<&'static [u8]>
        ensures { MatchOption result (IsTrue (is_built (ending_shown self.now)))
            (λ line. line.now ≡ line_of (ending_shown self.now)) }
    {
        match self {
            Ending::BadWords(_)
            | Ending::BadLine { .. }
            | Ending::BadListing { .. }
            | Ending::ServerBroke { .. } => None,
            Ending::NoControlPath => Some(b"ssh-mux: controlpath: not set\n"),
            Ending::NotOpened => Some(b"ssh-mux: cannot open the sockets\n"),
            Ending::TransportFailed => Some(b"ssh-mux: the transport failed\n"),
            Ending::TurnsSpent => Some(b"ssh-mux: turns are spent\n"),
            Ending::StartRefused => Some(b"ssh-mux: a forwarding was refused\n"),
            Ending::MasterRefused => Some(b"ssh-mux: the master refused\n"),
            Ending::MasterBroke => Some(b"ssh-mux: the master broke the protocol\n"),
            Ending::NoMemory => Some(NO_MEMORY),
        }
    }

    /// The line that is written of it, where it is put together.
    #[tactic(auto, unfolding(conf_rules::specs::Diagnostics::line_of))]
    pub fn built_line(&self, alloc: Global) -> Result<Text, OutOfMemory>
        requires { IsTrue (is_built (ending_shown self.now)) }
        ensures { IfOk result (λ line. line ≡ line_of (ending_shown self.now)) }
    {
        let mut line = Text::copy(alloc, b"ssh-mux: ")?;
        self.put_text(alloc, &mut line)?;
        line.push(b'\n')?;
        Ok(line)
    }

    // The text of the line.
    #[tactic(auto, unfolding(conf_rules::specs::Diagnostics::text_of))]
    fn put_text(&self, alloc: Global, out: &mut Text) -> Result<(), OutOfMemory>
        requires { IsTrue (is_built (ending_shown self.now)) }
        ensures { OnOk result (out.new ≡ out.old ++ text_of (ending_shown self.now)) }
    {
        match self {
            Ending::BadWords(e) => {
                out.add(b"word ")?;
                put_number(alloc, out, e.word)?;
                out.add(b": ")?;
                out.add(usage_text(e.cause))
            }
            Ending::BadLine { file, line, cause } => {
                put_located(alloc, out, file.as_bytes(), *line, cause)
            }
            Ending::BadListing { key, error } => {
                out.add(key.keyword())?;
                out.add(b": ")?;
                put_token_text(out, error)
            }
            Ending::ServerBroke { index, why } => {
                out.add(b"server message ")?;
                put_number(alloc, out, *index)?;
                out.add(b": ")?;
                put_break_text(alloc, out, why)
            }
            _ => unreachable!(),
        }
    }
}

// A file's line with the text of its cause.
fn put_located(
    alloc: Global,
    out: &mut Text,
    file: &[u8],
    line: u64,
    cause: &Cause,
) -> Result<(), OutOfMemory>
    ensures { OnOk result (out.new ≡ out.old ++ located file.now line (cause_text cause.now)) }
{
    out.add(file)?;
    out.add(b" line ")?;
    put_number(alloc, out, line)?;
    out.add(b": ")?;
    put_cause_text(out, cause)
}
