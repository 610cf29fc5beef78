ghost use Rattle.std.specs.Prelude.{◌≡◌};
ghost use Rattle.conf_rules.specs.Globs.{is_dotted, component_takes};
ghost use Rattle.conf_match.specs.Pieces.{NoneInLast};

use crate::pieces::Syntax;
use crate::stars::takes_name;

// How many bytes stand after the last closing bracket; where there is none, all.
fn tail_of(pattern: &[u8]) -> usize
    ensures { NoneInLast result pattern.now }
{
    let mut i = pattern.len();
    while i > 0 {
        if pattern[i - 1] == b']' {
            return pattern.len() - i;
        }
        i -= 1;
    }
    pattern.len()
}

// Whether a text begins with a dot.
fn is_dotted(text: &[u8]) -> bool
    ensures { result ≡ is_dotted text.now }
{
    match text {
        [] => false,
        [byte, ..] => *byte == b'.',
    }
}

/// Whether a component of a path matches a name (glob(7)): one with a leading dot only where the
/// component begins with a dot itself. It allocates no memory, and at most about the product of
/// both lengths in steps.
#[tactic(auto, unfolding(conf_rules::specs::Globs::component_takes))]
pub fn glob_component(pattern: &[u8], name: &[u8]) -> bool
    ensures { result ≡ component_takes pattern.now name.now }
{
    if is_dotted(name) && !is_dotted(pattern) {
        return false;
    }
    let tail = tail_of(pattern);
    takes_name(Syntax::Glob { tail }, pattern, name)
}
