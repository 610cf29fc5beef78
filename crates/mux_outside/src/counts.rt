ghost use Rattle.std.specs.Prelude.{◌≡◌};
ghost use Rattle.mux_outside.specs.Counts.{counted as count_after, Rose};

/// A count after one more: it stays at the end of its type.
pub fn counted(count: u64) -> u64
    ensures { result ≡ count_after count }
{
    count.saturating_add(1)
}

/// A count of faults after one more: it stays at the end of its type.
pub fn raised(count: u64) -> u64
    ensures { Rose count result }
{
    counted(count)
}
