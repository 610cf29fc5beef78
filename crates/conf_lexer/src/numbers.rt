ghost use Rattle.std.specs.Prelude.{◌≡◌, ◌≤◌, ◌+◌, ◌-◌, ◌*◌, ◌^◌, MatchOption};
ghost use Rattle.conf_rules.specs.Numbers.{number_within};

// A number with one more digit, if it fits.
fn with_digit(number: u64, digit: u8) -> Option<u64>
    requires { (48 ≤ digit) × (digit ≤ 57) }
    ensures { MatchOption result (2 ^ 64 ≤ number * 10 + (digit - 48)) (λ n.
        n ≡ number * 10 + (digit - 48)) }
{
    number.checked_mul(10)?.checked_add(u64::from(digit - b'0'))
}

/// The number within its range that a word spells.
pub fn number(word: &[u8], low: u64, high: u64) -> Option<u64>
    ensures { result ≡ number_within low high word.now }
{
    if word.is_empty() {
        return None;
    }
    let mut number: u64 = 0;
    for digit in word {
        if !digit.is_ascii_digit() {
            return None;
        }
        number = with_digit(number, *digit)?;
    }
    (low <= number && number <= high).then_some(number)
}
