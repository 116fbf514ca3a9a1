//! The leaves that a node has.

ghost use Rattle.behaviour_semantics.specs.Behaviour as plain;
ghost use Rattle.behaviour_semantics.specs.Derives.{leaves_in};
ghost use Rattle.behaviour_semantics.specs.Fault.{first_bad, wrong_leaves};
ghost use Rattle.behaviour_tree.specs.BehaviourTerms.{profiles_of};
ghost use Rattle.behaviour_tree.specs.BehaviourView.{exit_value_of, offer_of, terms_of};
ghost use Rattle.behaviour_tree.specs.Over.{AreTermsOf};
ghost use Rattle.behaviour_tree.specs.declared.behaviours.ExitValue.{ExitValue as ExitResult};
ghost use Rattle.behaviour_tree.specs.declared.behaviours.Offer.{Offer as OfferValue};
ghost use Rattle.sort_terms.specs.ProfiledTerm.{IsOf};
ghost use Rattle.sort_terms.specs.SortedView.{profiled_in, term_in};
ghost use Rattle.std.specs.Prelude.{
  ◌≡◌,
  ◌≤◌,
  ◌+◌,
  ◌++◌,
  ◌∷◌,
  ℕ,
  IfOk,
  List,
  length,
  map,
  nat_lt,
};
ghost use Rattle.step_parts.specs.Leaves.{leaf_wrong};
ghost use Rattle.step_parts.specs.StepFaults.{IsStepChecked, kept_number};
ghost use Rattle.lotos_base.specs.Signature.{Signature};

use crate::faults::{At, StepFault, kept, misfit};
use behaviour_tree::{ExitValue, Offer};
use lotos_base::NoMemory;
use sort_terms::Sorted;
use std::alloc::Global;

/// Answers nothing where there are leaves of these sorts from that of the place on, or else what is
/// wrong with them: they are too few, or the first that is not ground or has another sort.
pub fn checked_leaves(leaves: &[Sorted], at: At, sorts: &[u32]) -> Result<(), StepFault>
    ensures checked { (signature : Signature) (n : ℕ)
        → AreTermsOf signature (profiles_of leaves.now) → at.node ≡ kept_number n
        → IsStepChecked n (wrong_leaves signature (terms_of leaves.now) at.leaf sorts.now) result }
    ensures enough { IfOk result (λ _. at.leaf + length sorts.now ≤ length leaves.now) }
{
    if are_too_few(leaves.len(), at.leaf, sorts.len()) {
        return Err(misfit(at));
    }
    checked_from(leaves, at.leaf, sorts)
}

// Whether fewer than the wanted come from the first on.
fn are_too_few(many: usize, first: usize, wanted: usize) -> bool
    ensures { result ≡ nat_lt many (first + wanted) }
{
    if first > many {
        return true;
    }
    many - first < wanted
}

// Answers nothing where the leaves from the first on have these sorts, or else the first that has
// not.
fn checked_from(leaves: &[Sorted], first: usize, sorts: &[u32]) -> Result<(), StepFault>
    requires { first + length sorts.now ≤ length leaves.now }
    ensures { (signature : Signature) (n : ℕ) → AreTermsOf signature (profiles_of leaves.now)
        → IsStepChecked n (first_bad signature (leaves_in (terms_of leaves.now)) first sorts.now)
        result }
{
    for i in 0..sorts.len() {
        checked_leaf(&leaves[first + i], sorts[i], first + i)?;
    }
    Ok(())
}

// Answers nothing where the leaf is a value of the sort.
fn checked_leaf(leaf: &Sorted, sort: u32, number: usize) -> Result<(), StepFault>
    ensures { (signature : Signature) (n : ℕ) → IsOf signature (profiled_in leaf.now)
        → IsStepChecked n (leaf_wrong signature sort (term_in leaf.now) number) result }
{
    if !leaf.ground() {
        return Err(StepFault::BadValue { leaf: kept(number) });
    }
    if leaf.sort() != sort {
        return Err(StepFault::BadValue { leaf: kept(number) });
    }
    Ok(())
}

/// The sorts of the variables that offers ask for.
pub fn asked_sorts(alloc: Global, offers: &Vec<Offer>) -> Result<Vec<u32>, NoMemory>
    ensures { IfOk result (λ made. made.items
        ≡ plain.sorts_of (plain.asked_variables (map offer_of offers.now.items))) }
{
    let mut sorts = Vec::new(alloc);
    for offer in offers {
        push_asked(&mut sorts, offer)?;
    }
    Ok(sorts)
}

// The sorts with that of the variable that the offer asks for, if it asks.
fn push_asked(sorts: &mut Vec<u32>, offer: &Offer) -> Result<(), NoMemory>
    ensures { IfOk result (λ _. (rest : List OfferValue)
        → sorts.new.items ++ plain.sorts_of (plain.asked_variables (map offer_of rest))
        ≡ sorts.old.items
        ++ plain.sorts_of (plain.asked_variables (map offer_of (offer.now ∷ rest)))) }
{
    match offer {
        Offer::Give(_) => Ok(()),
        Offer::Ask(variable) => Ok(sorts.push(variable.sort)?),
    }
}

/// The sorts of the values that an `exit` leaves open.
pub fn open_sorts(alloc: Global, values: &Vec<ExitValue>) -> Result<Vec<u32>, NoMemory>
    ensures { IfOk result (λ made. made.items
        ≡ plain.open_sorts (map exit_value_of values.now.items)) }
{
    let mut sorts = Vec::new(alloc);
    for value in values {
        push_open(&mut sorts, value)?;
    }
    Ok(sorts)
}

// The sorts with that of the value, if it is left open.
fn push_open(sorts: &mut Vec<u32>, value: &ExitValue) -> Result<(), NoMemory>
    ensures { IfOk result (λ _. (rest : List ExitResult)
        → sorts.new.items ++ plain.open_sorts (map exit_value_of rest)
        ≡ sorts.old.items ++ plain.open_sorts (map exit_value_of (value.now ∷ rest))) }
{
    match value {
        ExitValue::Give(_) => Ok(()),
        ExitValue::Any(sort) => Ok(sorts.push(*sort)?),
    }
}
