ghost use Rattle.std.specs.Prelude.{◌&&◌, nat_le, ◌≡◌, ◌≤◌, ◌<◌, ◌∷◌, [], length, IfSome, MatchOption};
ghost use Rattle.std.specs.Option.{option_map};
ghost use Rattle.conf_rules.specs.Globs.{in_class, class_of, bracketed, piece_takes};
ghost use Rattle.conf_match.specs.Pieces.{range_end, piece_meaning, with_count, is_any, piece_by, pieces_by, NoneInLast, PatternFits};

use conf_lexer::{first, split_at_first};

/// Which bytes of a pattern say more than themselves.
#[derive(Clone, Copy)]
pub enum Syntax {
    /// Stars and question marks (ssh_config(5), PATTERNS).
    Pattern,
    /// Classes besides (glob(7)): no closing bracket stands among the last `tail` bytes.
    Glob { tail: usize },
}

/// What a pattern is made of.
#[derive(Clone, Copy)]
pub enum PatternPiece<'a> {
    /// A star.
    Any,
    /// A question mark.
    One,
    /// A byte that represents itself.
    Same(u8),
    /// A class, whose members are single bytes and ranges.
    Class { negated: bool, members: &'a [u8] },
}

// The end of a range after its first byte, and what follows.
#[tactic(auto, unfolding(crate::specs::Pieces::range_end))]
fn range_end(behind: &[u8]) -> Option<(u8, &[u8])>
    ensures { option_map (λ x. (x.0, x.1.now)) result ≡ range_end behind.now }
{
    let (dash, more) = first(behind)?;
    let (end, rest) = first(more)?;
    (dash == b'-').then_some((end, rest))
}

// Whether a byte is in a range.
fn is_within(start: u8, byte: u8, end: u8) -> bool
    ensures { result ≡ (nat_le start byte && nat_le byte end) }
{
    start <= byte && byte <= end
}

// Whether a byte is among those of a class.
fn in_class(byte: u8, members: &[u8]) -> bool
    ensures { result ≡ in_class byte members.now }
{
    let mut left = members;
    while let Some((start, behind)) = first(left) {
        if let Some((end, rest)) = range_end(behind) {
            if is_within(start, byte, end) {
                return true;
            }
            left = rest;
            continue;
        }
        if start == byte {
            return true;
        }
        left = behind;
    }
    false
}

// The members of a class after its bracket, and how many bytes it consumes. Where a class isn't
// closed it is not looked for: no closing bracket stands among the last `tail` bytes.
fn class_of(bytes: &[u8], tail: usize) -> Option<(&[u8], usize)>
    requires { NoneInLast tail bytes.now }
    ensures class { option_map (λ x. (x.0.now, x.1)) result ≡ class_of bytes.now }
    ensures within { IfSome result (λ x. x.1 ≤ length bytes.now) }
{
    if bytes.len() <= tail {
        return None;
    }
    let (_, behind) = first(bytes)?;
    let (inner, _) = split_at_first(b']', behind)?;
    Some((&bytes[..inner.len() + 1], inner.len() + 2))
}

// The piece that an open bracket begins, and how many more bytes it consumes.
fn bracketed(bytes: &[u8], tail: usize) -> (PatternPiece<'_>, usize)
    requires { NoneInLast tail bytes.now }
    ensures piece { with_count result ≡ bracketed bytes.now }
    ensures within { result.1 ≤ length bytes.now }
{
    match bytes {
        [b'!', rest @ ..] => match class_of(rest, tail) {
            Some((members, more)) => (
                PatternPiece::Class {
                    negated: true,
                    members,
                },
                1 + more,
            ),
            None => (PatternPiece::Same(b'['), 0),
        },
        _ => match class_of(bytes, tail) {
            Some((members, more)) => (
                PatternPiece::Class {
                    negated: false,
                    members,
                },
                more,
            ),
            None => (PatternPiece::Same(b'['), 0),
        },
    }
}

// The piece that a byte begins, and how many more bytes it consumes.
fn piece_at(syntax: Syntax, byte: u8, behind: &[u8]) -> (PatternPiece<'_>, usize)
    requires { PatternFits syntax behind.now }
    ensures piece { with_count result ≡ piece_by syntax byte behind.now }
    ensures within { result.1 ≤ length behind.now }
{
    if byte == b'*' {
        return (PatternPiece::Any, 0);
    }
    if byte == b'?' {
        return (PatternPiece::One, 0);
    }
    match syntax {
        Syntax::Glob { tail } if byte == b'[' => bracketed(behind, tail),
        _ => (PatternPiece::Same(byte), 0),
    }
}

/// The first piece, and what follows it.
pub fn next_piece(syntax: Syntax, pattern: &[u8]) -> Option<(PatternPiece<'_>, &[u8])>
    requires { PatternFits syntax pattern.now }
    ensures piece { MatchOption result (pattern.now ≡ []) (λ x. pieces_by syntax pattern.now
        ≡ piece_meaning x.0 ∷ pieces_by syntax x.1.now) }
    ensures shorter { IfSome result (λ x. length x.1.now < length pattern.now) }
    ensures fits { IfSome result (λ x. PatternFits syntax x.1.now) }
{
    let (byte, behind) = first(pattern)?;
    let (piece, more) = piece_at(syntax, byte, behind);
    Some((piece, &behind[more..]))
}

/// Whether a piece is a star.
pub fn is_any(piece: &PatternPiece<'_>) -> bool
    ensures { result ≡ is_any (piece_meaning piece.now) }
{
    match piece {
        PatternPiece::Any => true,
        _ => false,
    }
}

/// Whether a piece takes a byte.
pub fn takes(piece: &PatternPiece<'_>, byte: u8) -> bool
    ensures { result ≡ piece_takes (piece_meaning piece.now) byte }
{
    match piece {
        PatternPiece::Any | PatternPiece::One => true,
        PatternPiece::Same(own) => *own == byte,
        PatternPiece::Class { negated, members } => {
            if *negated {
                !in_class(byte, members)
            } else {
                in_class(byte, members)
            }
        }
    }
}
