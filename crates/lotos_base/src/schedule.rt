//! Which calls of an object in memory fail.

ghost use Rattle.std.specs.Prelude.{◌≡◌, ◌↔◌, IsTrue, MatchBool};
ghost use Rattle.lotos_base.specs.Counts.{IsListedCall, Rises, next_count};

use crate::counts::counted;

/// Whether the call behind so many others is one of those that fail, by their numbers from 1.
pub fn is_listed(failing: &[u64], calls: u64) -> bool
    ensures { IsTrue result ↔ IsListedCall failing.now calls }
{
    calls < u64::MAX && failing.contains(&(calls + 1))
}

/// Counts one more call, and a fault where it is one of those that fail, which it tells.
pub fn call_fails(failing: &[u64], calls: &mut u64, faults: &mut u64) -> bool
    ensures fails { IsTrue result ↔ IsListedCall failing.now calls.old }
    ensures calls { calls.new ≡ next_count calls.old }
    ensures counts { MatchBool result (Rises faults.old faults.new) (faults.new ≡ faults.old) }
{
    let listed = is_listed(failing, *calls);
    *calls = counted(*calls);
    if listed {
        *faults = counted(*faults);
    }
    listed
}
