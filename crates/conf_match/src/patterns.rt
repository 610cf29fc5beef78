ghost use Rattle.std.specs.Prelude.{◌≡◌};
ghost use Rattle.conf_rules.specs.Patterns.{matches};

use crate::pieces::Syntax;
use crate::stars::takes_name;

/// Whether a pattern matches a text (ssh_config(5), PATTERNS): a star is any bytes, a question mark
/// one byte. It allocates no memory.
pub fn matches_pattern(pattern: &[u8], text: &[u8]) -> bool
    ensures { result ≡ matches pattern.now text.now }
{
    takes_name(Syntax::Pattern, pattern, text)
}
