//! The instances of an entry by given values for its variables.

ghost use Rattle.event_offers.specs.Instances.{AreValuesOver};
ghost use Rattle.event_offers.specs.Keeping.{KeepsData};
ghost use Rattle.event_offers.specs.Offers.{IsEntryOf};
ghost use Rattle.sort_terms.specs.SortedView.{term_in};
ghost use Rattle.std.specs.Prelude.{◌≡◌, ◌<◌, ◌≤◌, IfErr, IfOk, OnOk, map};
ghost use Rattle.value_lists.specs.FaultMeaning.{FaultMeans};
ghost use Rattle.value_lists.specs.InstanceList.{
  AreChoices,
  AreTuplesOver,
  HasSortedTests,
  term_lists_of,
  ListsInstances,
  profiled_lists_in,
};
ghost use Rattle.value_lists.specs.Tried.{IsTried};
ghost use Rattle.value_lists.specs.Tuples.{tuple_count};

use crate::limits::MAX_INSTANCES;
use crate::list_fault::ListFault;
use crate::tuples::{count, tuple};
use event_offers::Entry;
use lotos_base::NoMemory;
use sort_terms::{Deciding, Sorted};

/// The instances of the entry: of the tuples that have a term of each of the lists, those that meet
/// its conditions, in the order of the lists, the first variable changing slowest. There is a list
/// for each variable, of ground terms of its sort; where no list has a term twice, no tuple comes
/// twice. An entry without variables has one instance, the empty tuple, if its conditions hold.
///
/// The equations of the data have sides of one sort, or the conditions of the entry have.
///
/// `TooManyInstances` comes exactly where the product of the lengths of the lists is above 100,000,
/// before any tuple is made. So at most 100,000 tuples are made, one after the other.
pub fn instances_of<D: Deciding>(
    entry: &Entry,
    choices: &[Vec<Sorted>],
    decider: &mut D,
) -> Result<Vec<Vec<Sorted>>, ListFault>
    requires over { IsEntryOf (D.known_data decider.old).signature entry.now }
    requires choices { AreChoices (D.known_data decider.old).signature entry.now.vars.items
        (profiled_lists_in choices.now) }
    requires tested { HasSortedTests (D.known_data decider.old) entry.now }
    ensures instances { IfOk result (λ tuples. ListsInstances (D.known_data decider.old) entry.now
        (term_lists_of choices.now) (term_lists_of tuples.items)) }
    ensures values { IfOk result (λ tuples. AreTuplesOver (D.known_data decider.old).signature
        entry.now.vars.items tuples.items) }
    ensures few { IfOk result (λ _. tuple_count (term_lists_of choices.now) ≤ MAX_INSTANCES) }
    ensures fault { IfErr result (λ fault. FaultMeans ⊥
        (MAX_INSTANCES < tuple_count (term_lists_of choices.now)) fault) }
    ensures same_known { KeepsData D.known_data D.canon decider.old decider.new }
{
    let Some(count) = count(choices) else {
        return Err(ListFault::TooManyInstances);
    };
    let found = instances_among(entry, choices, count, decider)?;
    Ok(found)
}

// The tuples of the lists, of which there are so many, that meet the conditions of the entry.
fn instances_among<D: Deciding>(
    entry: &Entry,
    choices: &[Vec<Sorted>],
    count: usize,
    decider: &mut D,
) -> Result<Vec<Vec<Sorted>>, NoMemory>
    requires over { IsEntryOf (D.known_data decider.old).signature entry.now }
    requires choices { AreChoices (D.known_data decider.old).signature entry.now.vars.items
        (profiled_lists_in choices.now) }
    requires tested { HasSortedTests (D.known_data decider.old) entry.now }
    requires count { count ≡ tuple_count (profiled_lists_in choices.now) }
    ensures instances { IfOk result (λ tuples. ListsInstances (D.known_data decider.old) entry.now
        (term_lists_of choices.now) (term_lists_of tuples.items)) }
    ensures values { IfOk result (λ tuples. AreTuplesOver (D.known_data decider.old).signature
        entry.now.vars.items tuples.items) }
    ensures same_known { KeepsData D.known_data D.canon decider.old decider.new }
{
    let mut found = Vec::new(*entry.leaves.allocator());
    for number in 0..count {
        let one = tuple(*entry.leaves.allocator(), choices, count, number)?;
        add_if_met(entry, one, decider, &mut found)?;
    }
    Ok(found)
}

// Adds the tuple, if it meets the conditions of the entry.
fn add_if_met<D: Deciding>(
    entry: &Entry,
    one: Vec<Sorted>,
    decider: &mut D,
    found: &mut Vec<Vec<Sorted>>,
) -> Result<(), NoMemory>
    requires over { IsEntryOf (D.known_data decider.old).signature entry.now }
    requires values { AreValuesOver (D.known_data decider.old).signature entry.now.vars.items
        one.items }
    ensures tried { OnOk result (IsTried (D.known_data decider.old) entry.now
        (map term_in one.items)
        (term_lists_of found.old.items) (term_lists_of found.new.items)) }
    ensures values { OnOk result (AreTuplesOver (D.known_data decider.old).signature
        entry.now.vars.items found.old.items → AreTuplesOver (D.known_data decider.old).signature
        entry.now.vars.items found.new.items) }
    ensures same_known { KeepsData D.known_data D.canon decider.old decider.new }
{
    let failing = entry.unmet(one.as_slice(), decider)?;
    match failing {
        Some(_) => Ok(()),
        None => {
            found.push(one)?;
            Ok(())
        }
    }
}
