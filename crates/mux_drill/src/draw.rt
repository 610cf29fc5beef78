ghost use Rattle.std.specs.Prelude.{◌≡◌};
ghost use Rattle.mux_drill.specs.Generator.{draw as number_after, length_of};

/// The number after x.
#[tactic(auto, unfolding(crate::specs::Generator::draw))]
pub fn draw(x: u64) -> u64
    ensures { result ≡ number_after x }
{
    x.wrapping_mul(6364136223846793005)
        .wrapping_add(1442695040888963407)
}

/// The length that a number represents.
#[tactic(auto, unfolding(crate::specs::Generator::length_of))]
pub fn len_of(x: u64) -> u64
    ensures { result ≡ length_of x }
{
    (x / (1 << 33)) % 1025
}
