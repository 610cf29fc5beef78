ghost use Rattle.std.specs.Prelude.{◌≡◌};
ghost use Rattle.conf_rules.specs.Patterns.{some_suffix};
ghost use Rattle.conf_match.specs.Pieces.{PatternFits, takes_name};
ghost use Rattle.conf_match.specs.Segments.{SegmentBegins};

use crate::pieces::{Syntax, is_any, next_piece, takes};
use conf_lexer::first;

/// How a pattern's pieces before its first star fare.
#[derive(Clone, Copy)]
pub enum Segment<'p, 't> {
    /// There is no star, and the name is matched.
    Yes,
    No,
    /// They match, and these are what follows the star and what is left of the name.
    Star(&'p [u8], &'t [u8]),
}

// Goes to the pattern's first star.
fn to_star<'p, 't>(syntax: Syntax, pattern: &'p [u8], name: &'t [u8]) -> Segment<'p, 't>
    requires { PatternFits syntax pattern.now }
    ensures { SegmentBegins syntax pattern.now name.now result }
{
    let mut p = pattern;
    let mut t = name;
    while let Some((piece, ps)) = next_piece(syntax, p) {
        if is_any(&piece) {
            return Segment::Star(ps, t);
        }
        let Some((x, ts)) = first(t) else {
            return Segment::No;
        };
        if !takes(&piece, x) {
            return Segment::No;
        }
        p = ps;
        t = ts;
    }
    if t.is_empty() {
        Segment::Yes
    } else {
        Segment::No
    }
}

// Whether the pattern takes a suffix.
fn some_suffix(syntax: Syntax, pattern: &[u8], name: &[u8]) -> bool
    requires { PatternFits syntax pattern.now }
    ensures { result ≡ some_suffix (takes_name syntax pattern.now) name.now }
{
    let mut p = pattern;
    let mut t = name;
    loop {
        match to_star(syntax, p, t) {
            Segment::Yes => return true,
            Segment::No => match first(t) {
                None => return false,
                Some((_, ts)) => t = ts,
            },
            // Earlier stars needn't be tried again.
            Segment::Star(ps, ts) => {
                p = ps;
                t = ts;
            }
        }
    }
}

/// Whether a pattern matches a name. It allocates no memory, and at most about the product of both
/// lengths in steps: no star is tried again once a later one is reached, and no class is looked for
/// that isn't closed.
pub fn takes_name(syntax: Syntax, pattern: &[u8], name: &[u8]) -> bool
    requires { PatternFits syntax pattern.now }
    ensures { result ≡ takes_name syntax pattern.now name.now }
{
    match to_star(syntax, pattern, name) {
        Segment::Yes => true,
        Segment::No => false,
        Segment::Star(ps, ts) => some_suffix(syntax, ps, ts),
    }
}
