//! Tuples of terms, one of each of some lists, by their numbers.

ghost use Rattle.behaviour_tree.specs.BehaviourTerms.{profiles_of};
ghost use Rattle.sort_terms.specs.ProfiledTerm.{profiled_variable};
ghost use Rattle.std.specs.Prelude.{◌≡◌, ◌<◌, ◌≤◌, IfOk, MatchOption};
ghost use Rattle.value_lists.specs.InstanceList.{profiled_lists_in};
ghost use Rattle.value_lists.specs.TupleNumbers.{has_empty, tuple_at};
ghost use Rattle.value_lists.specs.Tuples.{tuple_count};

use crate::limits::MAX_INSTANCES;
use lotos_base::NoMemory;
use sort_terms::Sorted;
use std::alloc::Global;

/// The product of the lengths of the lists, or `None` exactly where it is above 100,000.
pub fn count(choices: &[Vec<Sorted>]) -> Option<usize>
    ensures { MatchOption result (MAX_INSTANCES < tuple_count (profiled_lists_in choices.now))
        (λ n. (n ≡ tuple_count (profiled_lists_in choices.now)) × (n ≤ MAX_INSTANCES)) }
{
    if some_is_empty(choices) {
        return Some(0);
    }
    let mut count: usize = 1;
    for choice in choices {
        if choice.len() > MAX_INSTANCES {
            return None;
        }
        count *= choice.len();
        if count > MAX_INSTANCES {
            return None;
        }
    }
    Some(count)
}

// Whether one of the lists is empty.
fn some_is_empty(choices: &[Vec<Sorted>]) -> bool
    ensures { result ≡ has_empty (profiled_lists_in choices.now) }
{
    for choice in choices {
        if choice.is_empty() {
            return true;
        }
    }
    false
}

/// The tuple with this number, from 0, in the order in which the first place changes slowest.
/// `count` is how many there are.
pub fn tuple(
    alloc: Global,
    choices: &[Vec<Sorted>],
    count: usize,
    number: usize,
) -> Result<Vec<Sorted>, NoMemory>
    requires count { count ≡ tuple_count (profiled_lists_in choices.now) }
    requires number { number < count }
    ensures { IfOk result (λ tuple. profiles_of tuple.items
        ≡ tuple_at (profiled_lists_in choices.now) number (profiled_variable 0 0)) }
{
    let mut rest = count;
    let mut place = number;
    let mut tuple = Vec::with_capacity(alloc, choices.len())?;
    for choice in choices {
        rest /= choice.len();
        tuple.push(choice[place / rest].copy()?)?;
        place %= rest;
    }
    Ok(tuple)
}
