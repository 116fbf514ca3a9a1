//! The condition that solving uses next.

ghost use Rattle.behaviour_semantics.specs.Solving.{
  has_closed as has_closed_condition,
  one_side as side_given,
  replacement_of,
};
ghost use Rattle.draft_solving.specs.Changing.{found_of};
ghost use Rattle.draft_solving.specs.Finding.{found_term, given_in};
ghost use Rattle.draft_solving.specs.Conditions.{GiveNoneBefore, is_unmet as is_unmet_condition};
ghost use Rattle.behaviour_semantics.specs.Behaviour.{Test};
ghost use Rattle.event_offers.specs.OfferView.{condition_of, condition_profiles, conditions_of};
ghost use Rattle.event_offers.specs.Offers.{AreConditionsOf};
ghost use Rattle.sort_terms.specs.ProfiledTerm.{IsOf};
ghost use Rattle.sort_terms.specs.SortedView.{profiled_in, term_in};
ghost use Rattle.std.specs.Option.{option_map};
ghost use Rattle.std.specs.Prelude.{
  ◌≡◌,
  ◌&&◌,
  IfOk,
  IfSome,
  nat_lt,
  None,
  slice_get,
  Some,
  if◌then◌else◌,
};
ghost use Rattle.lotos_base.specs.Signature.{Signature};
ghost use Rattle.lotos_base.specs.Tests.{is_ground};

use lotos_base::NoMemory;
use sort_terms::{Sorted, Term, has_variable};

/// Whether a condition has no variable.
pub fn has_closed(conditions: &Vec<(Sorted, Sorted)>) -> bool
    ensures { result ≡ has_closed_condition (conditions_of conditions.now.items) }
{
    for condition in conditions {
        if is_closed(&condition.0, &condition.1) {
            return true;
        }
    }
    false
}

// Whether neither side has a variable.
fn is_closed(left: &Sorted, right: &Sorted) -> bool
    ensures { result ≡ (is_ground (term_in left.now) && is_ground (term_in right.now)) }
{
    if !left.ground() {
        return false;
    }
    right.ground()
}

/// Whether the condition has no variable, and its sides differ.
pub fn is_unmet(condition: &(Sorted, Sorted)) -> bool
    ensures { result ≡ is_unmet_condition (condition_of condition.now) }
{
    if !is_closed(&condition.0, &condition.1) {
        return false;
    }
    !condition.0.same(&condition.1)
}

/// The first place from another on whose condition gives a replacement, or where there is none the
/// end.
pub fn next_place(conditions: &Vec<(Sorted, Sorted)>, from: usize) -> usize
    ensures passed { GiveNoneBefore from (conditions_of conditions.now.items)
        → GiveNoneBefore result (conditions_of conditions.now.items) }
    ensures gives { (test : Test)
        → slice_get (conditions_of conditions.now.items) result ≡ Some test
        → replacement_of test.left test.right ≡ None → ⊥ }
{
    for place in from..conditions.len() {
        let condition = &conditions[place];
        if replacement(&condition.0, &condition.1).is_some() {
            return place;
        }
    }
    conditions.len()
}

/// The variable that the condition at the place gives a value, with this value.
pub fn given_at(
    conditions: &Vec<(Sorted, Sorted)>,
    place: usize,
) -> Result<Option<(u64, Sorted)>, NoMemory>
    ensures same { IfOk result (λ o. option_map found_of o
        ≡ given_in (slice_get (conditions_of conditions.now.items) place)) }
    ensures is_of { IfOk result (λ o. IfSome o (λ found. (signature : Signature)
        → AreConditionsOf signature (condition_profiles conditions.now.items)
        → IsOf signature (profiled_in found.1))) }
{
    if place >= conditions.len() {
        return Ok(None);
    }
    let condition = &conditions[place];
    match replacement(&condition.0, &condition.1) {
        Some((number, term)) => Ok(Some((number, term.copy()?))),
        None => Ok(None),
    }
}

/// The variable that a condition gives a value, with this value. Of two bare variables the later
/// is replaced by the earlier; otherwise a bare left side that the right side lacks is replaced,
/// or else a bare right side that the left side lacks.
pub fn replacement<'a>(left: &'a Sorted, right: &'a Sorted) -> Option<(u64, &'a Sorted)>
    ensures same { option_map found_term result
        ≡ replacement_of (term_in left.now) (term_in right.now) }
    ensures is_of { IfSome result (λ found. (signature : Signature)
        → IsOf signature (profiled_in left.now) → IsOf signature (profiled_in right.now)
        → IsOf signature (profiled_in found.1.now)) }
{
    match left.term() {
        Term::Var { number, .. } => match right.term() {
            Term::Var { number: other, .. } => later(*number, left, *other, right),
            Term::Node { .. } => one_side(left, right),
        },
        Term::Node { .. } => one_side(right, left),
    }
}

// Of two bare variables the later one, with the earlier.
fn later<'a>(
    number: u64,
    left: &'a Sorted,
    other: u64,
    right: &'a Sorted,
) -> Option<(u64, &'a Sorted)>
    ensures same { option_map found_term result
        ≡ (if nat_lt number other then Some (other, term_in left.now) else
        (if nat_lt other number then Some (number, term_in right.now) else None)) }
    ensures is_of { IfSome result (λ found. (signature : Signature)
        → IsOf signature (profiled_in left.now) → IsOf signature (profiled_in right.now)
        → IsOf signature (profiled_in found.1.now)) }
{
    if number < other {
        return Some((other, left));
    }
    if other < number {
        return Some((number, right));
    }
    None
}

// A bare side, with the other side, which lacks it.
fn one_side<'a>(side: &Sorted, other: &'a Sorted) -> Option<(u64, &'a Sorted)>
    ensures same { option_map found_term result
        ≡ side_given (term_in side.now) (term_in other.now) }
    ensures is_of { IfSome result (λ found. (signature : Signature)
        → IsOf signature (profiled_in other.now) → IsOf signature (profiled_in found.1.now)) }
{
    match side.term() {
        Term::Var { number, sort } => {
            if has_variable(other.term(), *number, *sort) {
                return None;
            }
            Some((*number, other))
        }
        Term::Node { .. } => None,
    }
}
