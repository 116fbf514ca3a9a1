//! Counts of faults and of calls.

ghost use Rattle.std.specs.Prelude.{◌≡◌};
ghost use Rattle.lotos_base.specs.Counts.{Rises, next_count};

/// The count after one more fault or call. It stops at the last value of a `u64`.
pub fn counted(count: u64) -> u64
    ensures next { result ≡ next_count count }
    ensures rises { Rises count result }
{
    count.saturating_add(1)
}
