//! The values of the label of an action and of an `exit`, and the values of variables.

ghost use Rattle.behaviour_semantics.specs.Behaviour as plain;
ghost use Rattle.behaviour_semantics.specs.Derives.{leaves_in};
ghost use Rattle.behaviour_semantics.specs.Move.{taken};
ghost use Rattle.behaviour_semantics.specs.Rule as rule;
ghost use Rattle.behaviour_tree.specs.BehaviourTerms.{
  exit_profiles,
  joined,
  let_profile,
  offer_profiles,
  profiles_of,
};
ghost use Rattle.behaviour_tree.specs.BehaviourView.{
  exit_value_of,
  let_of,
  offer_of,
  terms_of,
  variables_of,
};
ghost use Rattle.behaviour_tree.specs.Over.{AreTermsOf};
ghost use Rattle.behaviour_tree.specs.StateView.{environment_of, pair_profile};
ghost use Rattle.behaviour_tree.specs.declared.behaviours.ExitValue.{ExitValue as ExitResult};
ghost use Rattle.behaviour_tree.specs.declared.behaviours.Offer.{Offer as OfferValue};
ghost use Rattle.draft_parts.specs.HandedOn.{KeepsData};
ghost use Rattle.lotos_base.specs.Term.{Term};
ghost use Rattle.sort_terms.specs.ProfiledTerm.{IsOf};
ghost use Rattle.sort_terms.specs.SortedView.{profiled_in, term_in};
ghost use Rattle.std.specs.Prelude.{
  ℕ,
  ◌≡◌,
  ◌≤◌,
  ◌+◌,
  ◌++◌,
  ◌∷◌,
  [],
  IfOk,
  List,
  length,
  map,
  zip,
};

use behaviour_tree::{ExitValue, Offer};
use lotos_base::NoMemory;
use sort_terms::{Deciding, Sorted, Variable};
use std::alloc::Global;

/// The values of an action's label in canonical form: each given one, and for each `?x` the next
/// leaf.
pub fn offered<D: Deciding>(
    alloc: Global,
    offers: &Vec<Offer>,
    leaves: &[Sorted],
    first: usize,
    data: &mut D,
) -> Result<Vec<Sorted>, NoMemory>
    requires terms { AreTermsOf (D.known_data data.old).signature
        (joined (map offer_profiles offers.now.items)) }
    requires leaves { AreTermsOf (D.known_data data.old).signature (profiles_of leaves.now) }
    requires enough { first
        + length (plain.sorts_of (plain.asked_variables (map offer_of offers.now.items)))
        ≤ length leaves.now }
    ensures same { IfOk result (λ made. terms_of made.items
        ≡ rule.offered (D.canon data.old) (map offer_of offers.now.items)
        (taken (leaves_in (terms_of leaves.now)) first
        (plain.sorts_of (plain.asked_variables (map offer_of offers.now.items))))) }
    ensures over { IfOk result (λ made. AreTermsOf (D.known_data data.old).signature
        (profiles_of made.items)) }
    ensures same_known { KeepsData D.known_data D.canon data.old data.new }
{
    let mut values = Vec::with_capacity(alloc, offers.len())?;
    let mut next = first;
    for offer in offers {
        next = push_offered(&mut values, offer, leaves, next, data)?;
    }
    Ok(values)
}

// The values with that of one more offer, and the number of the next leaf.
fn push_offered<D: Deciding>(
    values: &mut Vec<Sorted>,
    offer: &Offer,
    leaves: &[Sorted],
    next: usize,
    data: &mut D,
) -> Result<usize, NoMemory>
    requires term { AreTermsOf (D.known_data data.old).signature (offer_profiles offer.now) }
    requires leaves { AreTermsOf (D.known_data data.old).signature (profiles_of leaves.now) }
    requires enough { next
        + length (plain.sorts_of (plain.asked_variables (map offer_of (offer.now ∷ []))))
        ≤ length leaves.now }
    ensures same { IfOk result (λ n. (rest : List OfferValue) → terms_of values.new.items
        ++ rule.offered (D.canon data.old) (map offer_of rest)
        (taken (leaves_in (terms_of leaves.now)) n
        (plain.sorts_of (plain.asked_variables (map offer_of rest))))
        ≡ terms_of values.old.items
        ++ rule.offered (D.canon data.old) (map offer_of (offer.now ∷ rest))
        (taken (leaves_in (terms_of leaves.now)) next
        (plain.sorts_of (plain.asked_variables (map offer_of (offer.now ∷ rest)))))) }
    ensures next { IfOk result (λ n. n ≡ next
        + length (plain.sorts_of (plain.asked_variables (map offer_of (offer.now ∷ []))))) }
    ensures over { IfOk result
        (λ _. AreTermsOf (D.known_data data.old).signature (profiles_of values.old.items)
        → AreTermsOf (D.known_data data.old).signature (profiles_of values.new.items)) }
    ensures same_known { KeepsData D.known_data D.canon data.old data.new }
{
    match offer {
        Offer::Give(term) => {
            push_canon(values, term, data)?;
            Ok(next)
        }
        Offer::Ask(_) => {
            push_canon(values, &leaves[next], data)?;
            Ok(next + 1)
        }
    }
}

// The values with the canonical form of one more term.
fn push_canon<D: Deciding>(
    values: &mut Vec<Sorted>,
    term: &Sorted,
    data: &mut D,
) -> Result<(), NoMemory>
    requires { IsOf (D.known_data data.old).signature (profiled_in term.now) }
    ensures same { IfOk result (λ _. (rest : List Term) → terms_of values.new.items ++ rest
        ≡ terms_of values.old.items ++ (D.canon data.old (term_in term.now) ∷ rest)) }
    ensures over { IfOk result
        (λ _. AreTermsOf (D.known_data data.old).signature (profiles_of values.old.items)
        → AreTermsOf (D.known_data data.old).signature (profiles_of values.new.items)) }
    ensures same_known { KeepsData D.known_data D.canon data.old data.new }
{
    let value = data.normal(term)?;
    Ok(values.push(value)?)
}

/// The variables that offers ask for by their numbers, with the canonical forms of their leaves.
pub fn asked_values<D: Deciding>(
    alloc: Global,
    offers: &Vec<Offer>,
    leaves: &[Sorted],
    first: usize,
    data: &mut D,
) -> Result<Vec<(u64, Sorted)>, NoMemory>
    requires leaves { AreTermsOf (D.known_data data.old).signature (profiles_of leaves.now) }
    requires enough { first
        + length (plain.sorts_of (plain.asked_variables (map offer_of offers.now.items)))
        ≤ length leaves.now }
    ensures same { IfOk result (λ made. environment_of made.items
        ≡ zip (plain.numbers_of (plain.asked_variables (map offer_of offers.now.items)))
        (map (D.canon data.old) (taken (leaves_in (terms_of leaves.now)) first
        (plain.sorts_of (plain.asked_variables (map offer_of offers.now.items)))))) }
    ensures over { IfOk result (λ made. AreTermsOf (D.known_data data.old).signature
        (map pair_profile made.items)) }
    ensures same_known { KeepsData D.known_data D.canon data.old data.new }
{
    let mut pairs = Vec::new(alloc);
    let mut next = first;
    for offer in offers {
        next = push_pair(&mut pairs, offer, leaves, next, data)?;
    }
    Ok(pairs)
}

// The pairs with that of the variable of one more offer, and the number of the next leaf.
fn push_pair<D: Deciding>(
    pairs: &mut Vec<(u64, Sorted)>,
    offer: &Offer,
    leaves: &[Sorted],
    next: usize,
    data: &mut D,
) -> Result<usize, NoMemory>
    requires leaves { AreTermsOf (D.known_data data.old).signature (profiles_of leaves.now) }
    requires enough { next
        + length (plain.sorts_of (plain.asked_variables (map offer_of (offer.now ∷ []))))
        ≤ length leaves.now }
    ensures same { IfOk result (λ n. (rest : List OfferValue) → environment_of pairs.new.items
        ++ zip (plain.numbers_of (plain.asked_variables (map offer_of rest)))
        (map (D.canon data.old) (taken (leaves_in (terms_of leaves.now)) n
        (plain.sorts_of (plain.asked_variables (map offer_of rest)))))
        ≡ environment_of pairs.old.items
        ++ zip (plain.numbers_of (plain.asked_variables (map offer_of (offer.now ∷ rest))))
        (map (D.canon data.old) (taken (leaves_in (terms_of leaves.now)) next
        (plain.sorts_of (plain.asked_variables (map offer_of (offer.now ∷ rest))))))) }
    ensures next { IfOk result (λ n. n ≡ next
        + length (plain.sorts_of (plain.asked_variables (map offer_of (offer.now ∷ []))))) }
    ensures over { IfOk result
        (λ _. AreTermsOf (D.known_data data.old).signature (map pair_profile pairs.old.items)
        → AreTermsOf (D.known_data data.old).signature (map pair_profile pairs.new.items)) }
    ensures same_known { KeepsData D.known_data D.canon data.old data.new }
{
    match offer {
        Offer::Give(_) => Ok(next),
        Offer::Ask(variable) => {
            push_value(pairs, variable.number, &leaves[next], data)?;
            Ok(next + 1)
        }
    }
}

// The pairs with one more: a variable by its number and the canonical form of a term.
fn push_value<D: Deciding>(
    pairs: &mut Vec<(u64, Sorted)>,
    number: u64,
    term: &Sorted,
    data: &mut D,
) -> Result<(), NoMemory>
    requires { IsOf (D.known_data data.old).signature (profiled_in term.now) }
    ensures same { IfOk result (λ _. (rest : List (ℕ × Term))
        → environment_of pairs.new.items ++ rest ≡ environment_of pairs.old.items
        ++ ((number, D.canon data.old (term_in term.now)) ∷ rest)) }
    ensures over { IfOk result
        (λ _. AreTermsOf (D.known_data data.old).signature (map pair_profile pairs.old.items)
        → AreTermsOf (D.known_data data.old).signature (map pair_profile pairs.new.items)) }
    ensures same_known { KeepsData D.known_data D.canon data.old data.new }
{
    let value = data.normal(term)?;
    Ok(pairs.push((number, value))?)
}

/// The values of an `exit` in canonical form: each given one, and for each `any` the next leaf.
pub fn results<D: Deciding>(
    alloc: Global,
    values: &Vec<ExitValue>,
    leaves: &[Sorted],
    first: usize,
    data: &mut D,
) -> Result<Vec<Sorted>, NoMemory>
    requires terms { AreTermsOf (D.known_data data.old).signature
        (joined (map exit_profiles values.now.items)) }
    requires leaves { AreTermsOf (D.known_data data.old).signature (profiles_of leaves.now) }
    requires enough { first + length (plain.open_sorts (map exit_value_of values.now.items))
        ≤ length leaves.now }
    ensures same { IfOk result (λ made. terms_of made.items
        ≡ rule.results_of (D.canon data.old) (map exit_value_of values.now.items)
        (taken (leaves_in (terms_of leaves.now)) first
        (plain.open_sorts (map exit_value_of values.now.items)))) }
    ensures over { IfOk result (λ made. AreTermsOf (D.known_data data.old).signature
        (profiles_of made.items)) }
    ensures same_known { KeepsData D.known_data D.canon data.old data.new }
{
    let mut made = Vec::with_capacity(alloc, values.len())?;
    let mut next = first;
    for value in values {
        next = push_result(&mut made, value, leaves, next, data)?;
    }
    Ok(made)
}

// The values with one more, and the number of the next leaf.
fn push_result<D: Deciding>(
    made: &mut Vec<Sorted>,
    value: &ExitValue,
    leaves: &[Sorted],
    next: usize,
    data: &mut D,
) -> Result<usize, NoMemory>
    requires term { AreTermsOf (D.known_data data.old).signature (exit_profiles value.now) }
    requires leaves { AreTermsOf (D.known_data data.old).signature (profiles_of leaves.now) }
    requires enough { next + length (plain.open_sorts (map exit_value_of (value.now ∷ [])))
        ≤ length leaves.now }
    ensures same { IfOk result (λ n. (rest : List ExitResult) → terms_of made.new.items
        ++ rule.results_of (D.canon data.old) (map exit_value_of rest)
        (taken (leaves_in (terms_of leaves.now)) n (plain.open_sorts (map exit_value_of rest)))
        ≡ terms_of made.old.items
        ++ rule.results_of (D.canon data.old) (map exit_value_of (value.now ∷ rest))
        (taken (leaves_in (terms_of leaves.now)) next
        (plain.open_sorts (map exit_value_of (value.now ∷ rest))))) }
    ensures next { IfOk result (λ n. n ≡ next
        + length (plain.open_sorts (map exit_value_of (value.now ∷ [])))) }
    ensures over { IfOk result
        (λ _. AreTermsOf (D.known_data data.old).signature (profiles_of made.old.items)
        → AreTermsOf (D.known_data data.old).signature (profiles_of made.new.items)) }
    ensures same_known { KeepsData D.known_data D.canon data.old data.new }
{
    match value {
        ExitValue::Give(term) => {
            push_canon(made, term, data)?;
            Ok(next)
        }
        ExitValue::Any(_) => {
            push_canon(made, &leaves[next], data)?;
            Ok(next + 1)
        }
    }
}

/// The variables of `let` by their numbers, with the canonical forms of their terms.
pub fn let_values<D: Deciding>(
    alloc: Global,
    bindings: &Vec<(Variable, Sorted)>,
    data: &mut D,
) -> Result<Vec<(u64, Sorted)>, NoMemory>
    requires { AreTermsOf (D.known_data data.old).signature
        (map let_profile bindings.now.items) }
    ensures same { IfOk result (λ made. environment_of made.items
        ≡ zip (plain.numbers_of (plain.let_variables (map let_of bindings.now.items)))
        (map (D.canon data.old) (plain.let_terms (map let_of bindings.now.items)))) }
    ensures over { IfOk result (λ made. AreTermsOf (D.known_data data.old).signature
        (map pair_profile made.items)) }
    ensures same_known { KeepsData D.known_data D.canon data.old data.new }
{
    let mut pairs = Vec::with_capacity(alloc, bindings.len())?;
    for binding in bindings {
        push_value(&mut pairs, binding.0.number, &binding.1, data)?;
    }
    Ok(pairs)
}

/// The parameters by their numbers, with the canonical forms of the actual values.
pub fn call_values<D: Deciding>(
    alloc: Global,
    parameters: &Vec<Variable>,
    values: &Vec<Sorted>,
    data: &mut D,
) -> Result<Vec<(u64, Sorted)>, NoMemory>
    requires { AreTermsOf (D.known_data data.old).signature (profiles_of values.now.items) }
    ensures same { IfOk result (λ made. environment_of made.items
        ≡ zip (plain.numbers_of (variables_of parameters.now.items))
        (map (D.canon data.old) (terms_of values.now.items))) }
    ensures over { IfOk result (λ made. AreTermsOf (D.known_data data.old).signature
        (map pair_profile made.items)) }
    ensures same_known { KeepsData D.known_data D.canon data.old data.new }
{
    let mut pairs = Vec::with_capacity(alloc, values.len())?;
    for i in 0..values.len() {
        if i >= parameters.len() {
            return Ok(pairs);
        }
        push_value(&mut pairs, parameters[i].number, &values[i], data)?;
    }
    Ok(pairs)
}

/// The variable with this number and its value.
pub fn value_pair(alloc: Global, number: u64, value: Sorted) -> Result<Vec<(u64, Sorted)>, NoMemory>
    ensures { IfOk result (λ made. made.items ≡ (number, value) ∷ []) }
{
    let mut pairs = Vec::new(alloc);
    pairs.push((number, value))?;
    Ok(pairs)
}
