ghost use Rattle.std.specs.Prelude.{◌≡◌, ◌↔◌, ◌≤◌, ◌<◌, ◌==◌, ◌∷◌, length, drop, not, slice_range, IsNone, IfSome};
ghost use Rattle.std.specs.List.{prefix_len};
ghost use Rattle.conf_rules.specs.Heads.{lines_of};

// How many bytes stand before the first line feed.
fn line_len(bytes: &[u8]) -> usize
    ensures count { result ≡ prefix_len (λ b. not (b == 10)) bytes.now }
    ensures within { result ≤ length bytes.now }
{
    bytes.iter().take_while(|b| !(**b == b'\n')).count()
}

/// The line of a text that begins at a place: where it ends, without its line feed, and where the
/// next one begins. It allocates no memory.
pub fn next_line(text: &[u8], at: usize) -> Option<(usize, usize)>
    requires { at ≤ length text.now }
    ensures none { IsNone result ↔ (at ≡ length text.now) }
    ensures line { IfSome result (λ x. lines_of (drop at text.now) ≡ slice_range text.now at x.0
        ∷ lines_of (drop x.1 text.now)) }
    ensures end { IfSome result (λ x. (at ≤ x.0) × (x.0 ≤ x.1)) }
    ensures next { IfSome result (λ x. (at < x.1) × (x.1 ≤ length text.now)) }
{
    if at == text.len() {
        return None;
    }
    let n = line_len(&text[at..]);
    if at + n == text.len() {
        return Some((at + n, at + n));
    }
    Some((at + n, at + n + 1))
}
