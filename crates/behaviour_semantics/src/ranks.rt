//! Ranks of processes. The function carries one law as its contract and does nothing.

ghost use Rattle.behaviour_semantics.specs.RankLaws.{RanksGuard};

/// Numbers that fall along every unguarded call make recursion guarded, and bound the walks in the
/// graph of calls.
pub fn falling_ranks_guard()
    ensures { RanksGuard }
{}
