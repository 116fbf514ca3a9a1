//! A replacement put in where its variable stands, and nowhere else.

ghost use Rattle.behaviour_semantics.specs.Behaviour.{Test};
ghost use Rattle.behaviour_semantics.specs.Solving.{replacement_of, test_in};
ghost use Rattle.draft_solving.specs.Changing.{AreReadyPairs, changed_by, LacksItsVariable};
ghost use Rattle.draft_solving.specs.Conditions.{
  AreOpen,
  changed_at,
  GiveNoneBefore,
  HasUnmet,
  OccursInCondition,
};
ghost use Rattle.draft_solving.specs.Putting.{tests_in};
ghost use Rattle.draft_solving.specs.Standing.{AreAllNoted, IsNoted, KeepsPlaces, room};
ghost use Rattle.event_offers.specs.Keeping.{KeepsData};
ghost use Rattle.event_offers.specs.OfferView.{
  condition_of,
  condition_profiles,
  conditions_of,
};
ghost use Rattle.event_offers.specs.Offers.{AreConditionsOf};
ghost use Rattle.sort_terms.specs.SortedView.{term_in};
ghost use Rattle.std.specs.Prelude.{
  ◌≡◌,
  ◌<◌,
  ◌≤◌,
  ℕ,
  IfOk,
  IsFalse,
  IsTrue,
  length,
  map,
  None,
  slice_get,
  Some,
};

use crate::changing::put_in_sides;
use crate::places::Places;
use crate::replacements::{is_unmet, replacement};
use event_offers::drafts::Draft;
use lotos_base::NoMemory;
use sort_terms::{Deciding, Sorted};
use term_match::occurrence::occurs;

/// A draft while it is solved.
#[derive(Debug, Drop)]
pub struct Work {
    /// The draft as it was.
    pub draft: Draft,
    /// Its terms, spread, with what was put in by now.
    pub spread: Vec<(Sorted, Sorted)>,
    /// What the numbers of their variables are named.
    pub names: Vec<u64>,
    /// Where the variables stand.
    pub places: Places,
    /// No condition before this place gives a replacement.
    pub next: usize,
}

/// Puts the term for the variable wherever that stands. `false` where a condition is left without
/// variables whose sides differ.
pub fn put_everywhere<D: Deciding>(
    work: &mut Work,
    found: &(u64, Sorted),
    decider: &mut D,
) -> Result<bool, NoMemory>
    requires ready { AreReadyPairs (D.known_data decider.old).signature (D.canon decider.old)
        found.now (condition_profiles work.old.spread.items) }
    requires lacks { LacksItsVariable found.now }
    requires noted { AreAllNoted work.old.places (tests_in work.old) }
    requires below { found.now.0 < room work.old.places }
    ensures put { IfOk result (λ b. IsTrue b → tests_in work.new
        ≡ map (test_in (changed_by (D.canon decider.old) found.now)) (tests_in work.old)) }
    ensures is_of { IfOk result (λ b. IsTrue b
        → AreConditionsOf (D.known_data decider.old).signature
        (condition_profiles work.new.spread.items)) }
    ensures noted { IfOk result (λ b. IsTrue b → AreAllNoted work.new.places (tests_in work.new)) }
    ensures size { IfOk result (λ b. IsTrue b → room work.new.places ≡ room work.old.places) }
    ensures passed { IfOk result (λ b. IsTrue b
        → GiveNoneBefore work.old.next (tests_in work.old)
        → GiveNoneBefore work.new.next (tests_in work.new)) }
    ensures none_unmet { IfOk result (λ b. IsTrue b
        → AreOpen (tests_in work.old) → AreOpen (tests_in work.new)) }
    ensures unmet { IfOk result (λ b. IsFalse b
        → HasUnmet (map (test_in (changed_by (D.canon decider.old) found.now))
        (tests_in work.old))) }
    ensures names { work.new.names ≡ work.old.names }
    ensures draft { work.new.draft ≡ work.old.draft }
    ensures same_known { KeepsData D.known_data D.canon decider.old decider.new }
{
    let places = work.places.taken(found.0);
    for place in &places {
        if !put_at(work, *place, found, decider)? {
            return Ok(false);
        }
    }
    Ok(true)
}

// Puts it into one condition, if that has the variable.
fn put_at<D: Deciding>(
    work: &mut Work,
    place: usize,
    found: &(u64, Sorted),
    decider: &mut D,
) -> Result<bool, NoMemory>
    requires ready { AreReadyPairs (D.known_data decider.old).signature (D.canon decider.old)
        found.now (condition_profiles work.old.spread.items) }
    requires lacks { LacksItsVariable found.now }
    ensures put { IfOk result (λ _. tests_in work.new
        ≡ changed_at (changed_by (D.canon decider.old) found.now) place (tests_in work.old)) }
    ensures ready { IfOk result (λ _. AreReadyPairs (D.known_data decider.old).signature
        (D.canon decider.old) found.now (condition_profiles work.new.spread.items)) }
    ensures kept { IfOk result (λ _. KeepsPlaces work.old.places work.new.places) }
    ensures noted { IfOk result (λ _. (test : Test) (s : ℕ)
        → slice_get (tests_in work.old) place ≡ Some test → OccursInCondition found.now.0 s test
        → IsNoted work.new.places place (term_in found.now.1)) }
    ensures passed { IfOk result (λ _. GiveNoneBefore work.old.next (tests_in work.old)
        → GiveNoneBefore work.new.next (tests_in work.new)) }
    ensures none_unmet { IfOk result (λ b. IsTrue b
        → AreOpen (tests_in work.old) → AreOpen (tests_in work.new)) }
    ensures unmet { IfOk result (λ b. IsFalse b → HasUnmet (tests_in work.new)) }
    ensures names { work.new.names ≡ work.old.names }
    ensures draft { work.new.draft ≡ work.old.draft }
    ensures same_known { KeepsData D.known_data D.canon decider.old decider.new }
{
    if !stands_at(&work.spread, place, found.0) {
        return Ok(true);
    }
    put_there(work, place, found, decider)
}

// Puts it into the condition at a place that there is.
fn put_there<D: Deciding>(
    work: &mut Work,
    place: usize,
    found: &(u64, Sorted),
    decider: &mut D,
) -> Result<bool, NoMemory>
    requires ready { AreReadyPairs (D.known_data decider.old).signature (D.canon decider.old)
        found.now (condition_profiles work.old.spread.items) }
    requires lacks { LacksItsVariable found.now }
    requires within { place < length work.old.spread.items }
    ensures put { IfOk result (λ _. tests_in work.new
        ≡ changed_at (changed_by (D.canon decider.old) found.now) place (tests_in work.old)) }
    ensures ready { IfOk result (λ _. AreReadyPairs (D.known_data decider.old).signature
        (D.canon decider.old) found.now (condition_profiles work.new.spread.items)) }
    ensures kept { IfOk result (λ _. KeepsPlaces work.old.places work.new.places) }
    ensures noted { IfOk result (λ _. IsNoted work.new.places place (term_in found.now.1)) }
    ensures passed { IfOk result (λ _. GiveNoneBefore work.old.next (tests_in work.old)
        → GiveNoneBefore work.new.next (tests_in work.new)) }
    ensures none_unmet { IfOk result (λ b. IsTrue b
        → AreOpen (tests_in work.old) → AreOpen (tests_in work.new)) }
    ensures unmet { IfOk result (λ b. IsFalse b → HasUnmet (tests_in work.new)) }
    ensures names { work.new.names ≡ work.old.names }
    ensures draft { work.new.draft ≡ work.old.draft }
    ensures same_known { KeepsData D.known_data D.canon decider.old decider.new }
{
    put_in_sides(&mut work.spread[place], found, decider)?;
    work.places.note(found.1.term(), place)?;
    work.next = next_behind(&work.spread[place], place, work.next);
    Ok(!is_unmet(&work.spread[place]))
}

// Whether the variable with the number stands in the condition at the place.
fn stands_at(conditions: &Vec<(Sorted, Sorted)>, place: usize, number: u64) -> bool
    ensures within { IsTrue result → place < length conditions.now.items }
    ensures lacks { IsFalse result → (test : Test) (s : ℕ)
        → slice_get (conditions_of conditions.now.items) place ≡ Some test
        → OccursInCondition number s test → ⊥ }
{
    if place >= conditions.len() {
        return false;
    }
    has_variable(&conditions[place], number)
}

// Whether the variable with the number stands in the condition.
fn has_variable(condition: &(Sorted, Sorted), number: u64) -> bool
    ensures lacks { IsFalse result
        → (s : ℕ) → OccursInCondition number s (condition_of condition.now) → ⊥ }
{
    if occurs(number, condition.0.term()) {
        return true;
    }
    occurs(number, condition.1.term())
}

// The place before which no condition gives a replacement, once that at a place was changed.
fn next_behind(condition: &(Sorted, Sorted), place: usize, next: usize) -> usize
    ensures least { result ≤ next }
    ensures passed { place < result
        → replacement_of (term_in condition.now.0) (term_in condition.now.1) ≡ None }
{
    if place >= next {
        return next;
    }
    if gives(condition) {
        return place;
    }
    next
}

// Whether the condition gives a replacement.
fn gives(condition: &(Sorted, Sorted)) -> bool
    ensures { IsFalse result
        → replacement_of (term_in condition.now.0) (term_in condition.now.1) ≡ None }
{
    replacement(&condition.0, &condition.1).is_some()
}
