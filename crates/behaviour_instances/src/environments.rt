//! Environments below binders: without the pairs of the variables that are bound there.

ghost use Rattle.behaviour_instances.specs.Unlisted.{profiled_without, unlisted_pairs};
ghost use Rattle.behaviour_semantics.specs.Behaviour.{asked_variables, let_variables, numbers_of};
ghost use Rattle.behaviour_tree.specs.BehaviourView.{let_of, offer_of, variables_of};
ghost use Rattle.behaviour_tree.specs.declared.behaviours.Offer.{Offer as OfferValue};
ghost use Rattle.behaviour_tree.specs.StateView.{environment_of};
ghost use Rattle.std.specs.Prelude.{◌≡◌, ◌++◌, ◌∷◌, [], ℕ, IfOk, IsTrue, List, map};
ghost use Rattle.sort_terms.specs.ProfiledTerm.{ProfiledTerm};
ghost use Rattle.lotos_base.specs.Substitution.{binding, is_listed, without};
ghost use Rattle.term_match.specs.ProfiledInstance.{profiled_binding};
ghost use Rattle.term_match.specs.SubstView.{profiled_pair, profiled_pairs};

use behaviour_tree::Offer;
use lotos_base::NoMemory;
use sort_terms::{Sorted, Variable};

/// The environment below an action: without the variables that its offers ask for.
pub fn below_action(
    environment: &Vec<(u64, Sorted)>,
    offers: &Vec<Offer>,
) -> Result<Vec<(u64, Sorted)>, NoMemory>
    ensures profiled { IfOk result (λ made. profiled_binding (profiled_pairs made.items)
        ≡ profiled_without (numbers_of (asked_variables (map offer_of offers.now.items)))
        (profiled_binding (profiled_pairs environment.now.items))) }
    ensures plain { IfOk result (λ made. binding (environment_of made.items)
        ≡ without (numbers_of (asked_variables (map offer_of offers.now.items)))
        (binding (environment_of environment.now.items))) }
{
    let mut numbers = Vec::new(*environment.allocator());
    for offer in offers {
        push_asked(&mut numbers, offer)?;
    }
    left_free(environment, numbers.as_slice())
}

/// Whether no offer asks for a variable.
pub fn asks_nothing(offers: &Vec<Offer>) -> bool
    ensures { IsTrue result → asked_variables (map offer_of offers.now.items) ≡ [] }
{
    for offer in offers {
        match offer {
            Offer::Give(_) => {}
            Offer::Ask(_) => return false,
        }
    }
    true
}

// The numbers with that of the variable that the offer asks for, if it asks.
fn push_asked(numbers: &mut Vec<u64>, offer: &Offer) -> Result<(), NoMemory>
    ensures { IfOk result (λ _. (rest : List OfferValue)
        → numbers.new.items ++ numbers_of (asked_variables (map offer_of rest))
        ≡ numbers.old.items ++ numbers_of (asked_variables (map offer_of (offer.now ∷ rest)))) }
{
    match offer {
        Offer::Give(_) => Ok(()),
        Offer::Ask(variable) => Ok(numbers.push(variable.number)?),
    }
}

/// The environment below `accept`: without the variables that are accepted.
pub fn below_accept(
    environment: &Vec<(u64, Sorted)>,
    variables: &Vec<Variable>,
) -> Result<Vec<(u64, Sorted)>, NoMemory>
    ensures profiled { IfOk result (λ made. profiled_binding (profiled_pairs made.items)
        ≡ profiled_without (numbers_of (variables_of variables.now.items))
        (profiled_binding (profiled_pairs environment.now.items))) }
    ensures plain { IfOk result (λ made. binding (environment_of made.items)
        ≡ without (numbers_of (variables_of variables.now.items))
        (binding (environment_of environment.now.items))) }
{
    let mut numbers = Vec::new(*environment.allocator());
    for variable in variables {
        numbers.push(variable.number)?;
    }
    left_free(environment, numbers.as_slice())
}

/// The environment below `let`: without the variables that it binds.
pub fn below_let(
    environment: &Vec<(u64, Sorted)>,
    bindings: &Vec<(Variable, Sorted)>,
) -> Result<Vec<(u64, Sorted)>, NoMemory>
    ensures profiled { IfOk result (λ made. profiled_binding (profiled_pairs made.items)
        ≡ profiled_without (numbers_of (let_variables (map let_of bindings.now.items)))
        (profiled_binding (profiled_pairs environment.now.items))) }
    ensures plain { IfOk result (λ made. binding (environment_of made.items)
        ≡ without (numbers_of (let_variables (map let_of bindings.now.items)))
        (binding (environment_of environment.now.items))) }
{
    let mut numbers = Vec::new(*environment.allocator());
    for binding in bindings {
        numbers.push(binding.0.number)?;
    }
    left_free(environment, numbers.as_slice())
}

/// The environment below a value choice: without its variable.
pub fn below_choice(
    environment: &Vec<(u64, Sorted)>,
    variable: &Variable,
) -> Result<Vec<(u64, Sorted)>, NoMemory>
    ensures profiled { IfOk result (λ made. profiled_binding (profiled_pairs made.items)
        ≡ profiled_without (variable.now.number ∷ [])
        (profiled_binding (profiled_pairs environment.now.items))) }
    ensures plain { IfOk result (λ made. binding (environment_of made.items)
        ≡ without (variable.now.number ∷ [])
        (binding (environment_of environment.now.items))) }
{
    let mut numbers = Vec::new(*environment.allocator());
    numbers.push(variable.number)?;
    left_free(environment, numbers.as_slice())
}

/// The pairs whose numbers are not listed.
pub fn left_free(
    environment: &Vec<(u64, Sorted)>,
    numbers: &[u64],
) -> Result<Vec<(u64, Sorted)>, NoMemory>
    ensures profiled { IfOk result (λ made. profiled_binding (profiled_pairs made.items)
        ≡ profiled_without numbers.now (profiled_binding (profiled_pairs environment.now.items))) }
    ensures plain { IfOk result (λ made. binding (environment_of made.items)
        ≡ without numbers.now (binding (environment_of environment.now.items))) }
{
    unlisted(environment, numbers)
}

// The same, pair by pair.
fn unlisted(
    environment: &Vec<(u64, Sorted)>,
    numbers: &[u64],
) -> Result<Vec<(u64, Sorted)>, NoMemory>
    ensures { IfOk result (λ made. profiled_pairs made.items
        ≡ unlisted_pairs numbers.now (profiled_pairs environment.now.items)) }
{
    let mut made = Vec::new(*environment.allocator());
    for pair in environment {
        push_unlisted(&mut made, pair, numbers)?;
    }
    Ok(made)
}

// The pairs with one more, where its number is not listed.
fn push_unlisted(
    pairs: &mut Vec<(u64, Sorted)>,
    pair: &(u64, Sorted),
    numbers: &[u64],
) -> Result<(), NoMemory>
    ensures { IfOk result (λ _. (rest : List (ℕ × ProfiledTerm))
        → profiled_pairs pairs.new.items ++ unlisted_pairs numbers.now rest
        ≡ profiled_pairs pairs.old.items
        ++ unlisted_pairs numbers.now (profiled_pair pair.now ∷ rest)) }
{
    if lists(numbers, pair.0) {
        return Ok(());
    }
    let value = pair.1.copy()?;
    Ok(pairs.push((pair.0, value))?)
}

// Whether the number is one of these.
fn lists(numbers: &[u64], number: u64) -> bool
    ensures { result ≡ is_listed numbers.now number }
{
    for known in numbers {
        if *known == number {
            return true;
        }
    }
    false
}
