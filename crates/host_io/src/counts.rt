ghost use Rattle.std.specs.Prelude.{◌≡◌, ◌≤◌};
ghost use Rattle.host_io.specs.Counts.{raised, is_to_fail};

/// The next number. The greatest one is followed by itself.
pub fn raise(number: u64) -> u64
    ensures next { result ≡ raised number }
    ensures grows { number ≤ result }
{
    number.saturating_add(1)
}

/// Whether the call with this number is among those that are to fail.
pub fn fails_at(fails: &[u64], call: u64) -> bool
    ensures { result ≡ is_to_fail fails.now call }
{
    fails.contains(&call)
}
