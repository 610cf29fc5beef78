ghost use Rattle.std.specs.Prelude.{◌≡◌};
ghost use Rattle.conf_reader.specs.declared.errors.LineError.TheVariants as line_errors;
ghost use Rattle.conf_reader.specs.Results.{of_lex, of_value, of_match, of_eval, of_token, of_file, RefusesLine, resolve_error_at};

use conf_match::EvalError;
use conf_rules::{Cause, LexError, MatchError, ResolveError, TokenError, ValueError};
use mux_outside::FileError;
use ssh_fields::{OutOfMemory, Text};
use std::alloc::Global;

/// Why a line has no reading.
#[derive(Drop)]
pub enum LineError {
    Refused(Cause),
    OutOfMemory,
}

impl From<LexError> for LineError {
    ghost from_gives = { λ e d. d ≡ of_lex e };

    fn from(e: LexError) -> LineError {
        match e {
            LexError::OutOfMemory => LineError::OutOfMemory,
            other => LineError::Refused(Cause::Lex(other)),
        }
    }
}

impl From<ValueError> for LineError {
    ghost from_gives = { λ e d. d ≡ of_value e };

    fn from(e: ValueError) -> LineError {
        match e {
            ValueError::OutOfMemory => LineError::OutOfMemory,
            other => LineError::Refused(Cause::Value(other)),
        }
    }
}

impl From<MatchError> for LineError {
    ghost from_gives = { λ e d. d ≡ of_match e };

    fn from(e: MatchError) -> LineError {
        match e {
            MatchError::OutOfMemory => LineError::OutOfMemory,
            other => LineError::Refused(Cause::Match(other)),
        }
    }
}

impl From<EvalError> for LineError {
    ghost from_gives = { λ e d. d ≡ of_eval e };

    fn from(e: EvalError) -> LineError {
        match e {
            EvalError::OutOfMemory => LineError::OutOfMemory,
            EvalError::Token(error) => LineError::Refused(Cause::Token(error)),
            EvalError::RunFault => LineError::Refused(Cause::RunFault),
        }
    }
}

impl From<TokenError> for LineError {
    ghost from_gives = { λ e d. d ≡ of_token e };

    fn from(e: TokenError) -> LineError {
        match e {
            TokenError::OutOfMemory => LineError::OutOfMemory,
            other => LineError::Refused(Cause::Token(other)),
        }
    }
}

impl From<FileError> for LineError {
    ghost from_gives = { λ e d. d ≡ of_file e };

    fn from(e: FileError) -> LineError {
        match e {
            FileError::Failed => LineError::Refused(Cause::ReadFault),
            FileError::OutOfMemory => LineError::OutOfMemory,
        }
    }
}

impl From<OutOfMemory> for LineError {
    ghost from_gives = { λ _ e. e ≡ line_errors.OutOfMemory };

    fn from(_e: OutOfMemory) -> LineError {
        LineError::OutOfMemory
    }
}

impl LineError {
    /// The refusal of a line of a file, whose path is given away for it; line 0 is the file itself.
    /// It allocates no memory.
    pub fn at(self, file: Text, line: u64) -> ResolveError
        ensures { result ≡ resolve_error_at self file line }
    {
        match self {
            LineError::OutOfMemory => ResolveError::OutOfMemory,
            LineError::Refused(cause) => ResolveError::At { file, line, cause },
        }
    }
}

/// The refusal of a line of a file, with a copy of the file's path.
pub fn refuse(alloc: Global, file: &[u8], line: u64, error: LineError) -> ResolveError
    ensures { RefusesLine error file.now line result }
{
    match Text::copy(alloc, file) {
        Ok(file) => error.at(file, line),
        Err(_) => ResolveError::OutOfMemory,
    }
}
