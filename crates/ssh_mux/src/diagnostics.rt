ghost use Rattle.std.specs.Prelude.{◌≡◌, ◌++◌, OnOk};
ghost use Rattle.conf_rules.specs.Numbers.{digits_of};
ghost use Rattle.ssh_mux.specs.Breaks.{break_text};
ghost use Rattle.conf_rules.specs.Diagnostics.{usage_text, lex_text, value_text, match_text};
ghost use Rattle.conf_rules.specs.Diagnostics.{token_text, cause_text};

use conf_rules::{Cause, LexError, MatchError, TokenError, Usage, ValueError};
use conf_tokens::put_number;
use mux_history::Break;
use ssh_fields::{OutOfMemory, Text};
use std::alloc::Global;

/// Why the words have no reading.
pub fn usage_text(cause: Usage) -> &'static [u8]
    ensures { result.now ≡ usage_text cause }
{
    match cause {
        Usage::UnknownOption => b"unknown option",
        Usage::NoValue => b"a value is missing",
        Usage::TwoModes => b"only one of -G, -M and -O is taken",
        Usage::OnlyForMaster => b"only for -M",
        Usage::TwoDestinations => b"only one destination is taken",
        Usage::BadDestination => b"not a destination",
        Usage::BadForward => b"not a forwarding",
        Usage::BadEntry => b"not a permission",
        Usage::BadDrill => b"not a drill number",
        Usage::NoMode => b"-G, -M or -O is missing",
        Usage::NoDestination => b"a destination is missing",
        Usage::NoTransport => b"--transport is missing",
        Usage::BadCommand => b"not a command",
        Usage::NoForward => b"no forwarding is named",
    }
}

// Why a line or its words have no reading.
fn lex_text(error: LexError) -> &'static [u8]
    ensures { result.now ≡ lex_text error }
{
    match error {
        LexError::OpenQuote { .. } => b"a quote is not closed",
        LexError::NoArgument => b"an argument is missing",
        LexError::TwoEquals { .. } => b"two equals signs",
        LexError::ZeroByte { .. } => b"a zero byte",
        LexError::OutOfMemory => b"out of memory",
    }
}

// Why words are no value.
fn value_text(error: ValueError) -> &'static [u8]
    ensures { result.now ≡ value_text error }
{
    match error {
        ValueError::BadFlag => b"not yes or no",
        ValueError::BadNumber => b"not a number in range",
        ValueError::BadTime => b"not a time",
        ValueError::BadChoice => b"not a choice",
        ValueError::BadForward => b"not a forwarding",
        ValueError::BadToken => b"not a token here",
        ValueError::TooMany => b"too many arguments",
        ValueError::Missing => b"an argument is missing",
        ValueError::OutOfMemory => b"out of memory",
    }
}

// Why words are no criteria.
fn match_text(error: MatchError) -> &'static [u8]
    ensures { result.now ≡ match_text error }
{
    match error {
        MatchError::Unknown { .. } => b"unknown criterion",
        MatchError::AllNotAlone => b"all must stand alone",
        MatchError::NoValue { .. } => b"a value is missing",
        MatchError::Unsupported { .. } => b"criterion not supported",
        MatchError::OutOfMemory => b"out of memory",
    }
}

/// Why tokens have no expansion.
pub fn put_token_text(out: &mut Text, error: &TokenError) -> Result<(), OutOfMemory>
    ensures { OnOk result (out.new ≡ out.old ++ token_text error.now) }
{
    match error {
        TokenError::Unknown { .. } => out.add(b"not a token here"),
        TokenError::LoneAtEnd => out.add(b"a percent sign at the end"),
        TokenError::FactMissing { byte } => {
            out.add(b"fact ")?;
            out.push(*byte)?;
            out.add(b" is missing")
        }
        TokenError::NoVariable { name } => {
            out.add(b"no variable ")?;
            out.add(name.as_bytes())
        }
        TokenError::OpenBrace { .. } => out.add(b"a brace is not closed"),
        TokenError::OutOfMemory => out.add(b"out of memory"),
    }
}

/// Why a line is refused.
pub fn put_cause_text(out: &mut Text, cause: &Cause) -> Result<(), OutOfMemory>
    ensures { OnOk result (out.new ≡ out.old ++ cause_text cause.now) }
{
    match cause {
        Cause::UnknownKeyword(word) => {
            out.add(b"unknown keyword ")?;
            out.add(word.as_bytes())
        }
        Cause::NotOnCommandLine => out.add(b"not on the command line"),
        Cause::Lex(e) => out.add(lex_text(*e)),
        Cause::Value(e) => out.add(value_text(*e)),
        Cause::Match(e) => out.add(match_text(*e)),
        Cause::Token(e) => put_token_text(out, e),
        Cause::TooDeep => out.add(b"includes are too deep"),
        Cause::TooLarge => out.add(b"the file is too large"),
        Cause::TooManyLines => out.add(b"too many lines"),
        Cause::NoFile => out.add(b"no such file"),
        Cause::ReadFault => out.add(b"cannot read"),
        Cause::RunFault => out.add(b"cannot run"),
    }
}

// A number between two texts.
fn put_around(
    alloc: Global,
    out: &mut Text,
    before: &[u8],
    number: u32,
    behind: &[u8],
) -> Result<(), OutOfMemory>
    ensures { OnOk result (out.new ≡ out.old ++ (before.now ++ (digits_of number ++ behind.now))) }
{
    out.add(before)?;
    put_number(alloc, out, u64::from(number))?;
    out.add(behind)
}

/// How the server broke the protocol.
pub fn put_break_text(alloc: Global, out: &mut Text, why: &Break) -> Result<(), OutOfMemory>
    ensures { OnOk result (out.new ≡ out.old ++ break_text why.now) }
{
    match why {
        Break::Frame(_) => out.add(b"bad frame"),
        Break::Cut { .. } => out.add(b"cut inside a frame"),
        Break::Message(_) => out.add(b"unreadable"),
        Break::NoAsker => out.add(b"a reply to nothing"),
        Break::BadReply { .. } => out.add(b"bad reply"),
        Break::NumberInUse { number } => put_around(alloc, out, b"number ", *number, b" in use"),
        Break::NotPending { number } => {
            put_around(alloc, out, b"number ", *number, b" is not being opened")
        }
        Break::NoChannel { number } => put_around(alloc, out, b"no channel ", *number, b""),
        Break::Channel { number, .. } => {
            put_around(alloc, out, b"channel ", *number, b" breaks its rules")
        }
    }
}
