//! Values of an environment put into the terms of a behaviour.

ghost use Rattle.behaviour_instances.specs.InstanceTerms.{
  let_pair_placed,
  exit_placed,
  offer_terms_placed,
  terms_placed,
};
ghost use Rattle.behaviour_instances.specs.Suited.{SuitsWhere};
ghost use Rattle.behaviour_semantics.specs.Replacement.{
  exit_value_with,
  offer_with,
  test_with,
};
ghost use Rattle.behaviour_semantics.specs.Behaviour.{let_terms};
ghost use Rattle.behaviour_tree.specs.BehaviourTerms.{
  exit_profiles,
  let_profile,
  offer_profiles,
  option_profiles,
  profiles_of,
  test_profiles,
};
ghost use Rattle.behaviour_tree.specs.BehaviourView.{
  exit_value_of,
  let_of,
  offer_of,
  terms_of,
  test_of,
};
ghost use Rattle.behaviour_tree.specs.Closed.{
  OccursInOffers,
  OccursInOne,
  OccursInResults,
  OccursInTest,
  OccursInTestOption,
};
ghost use Rattle.behaviour_tree.specs.StateView.{environment_of};
ghost use Rattle.behaviour_instances.specs.InstanceTerms.{let_placed};
ghost use Rattle.sort_terms.specs.SortedView.{profiled_in, term_in};
ghost use Rattle.std.specs.Prelude.{◌≡◌, ◌∷◌, [], IfOk, map, option_map};
ghost use Rattle.lotos_base.specs.Sorting.{Occurs};
ghost use Rattle.lotos_base.specs.Substitution.{binding, substituted};
ghost use Rattle.term_match.specs.ProfiledInstance.{profiled_binding, profiled_instance};
ghost use Rattle.term_match.specs.SubstView.{profiled_pairs};

use behaviour_tree::{ExitValue, Offer, Test};
use event_offers::valued::Values;
use lotos_base::NoMemory;
use sort_terms::{Sorted, Variable};
use std::alloc::Global;

/// The term with the values of the environment put in.
pub fn placed(environment: &Vec<(u64, Sorted)>, term: &Sorted) -> Result<Sorted, NoMemory>
    requires { SuitsWhere (profiled_pairs environment.now.items)
        (λ n s. Occurs n s (term_in term.now)) }
    ensures same { IfOk result (λ t. term_in t
        ≡ substituted (binding (environment_of environment.now.items)) (term_in term.now)) }
    ensures terms { IfOk result (λ t. profiled_in t ≡ profiled_instance
        (profiled_binding (profiled_pairs environment.now.items)) (profiled_in term.now)) }
{
    Values::Paired(environment.as_slice()).put_into(term)
}

/// The terms with the values of the environment put in.
pub fn placed_terms(
    environment: &Vec<(u64, Sorted)>,
    terms: &Vec<Sorted>,
) -> Result<Vec<Sorted>, NoMemory>
    requires { SuitsWhere (profiled_pairs environment.now.items)
        (λ n s. OccursInOne n s (terms_of terms.now.items)) }
    ensures same { IfOk result (λ made. terms_of made.items
        ≡ map (substituted (binding (environment_of environment.now.items)))
        (terms_of terms.now.items)) }
    ensures terms { IfOk result (λ made. profiles_of made.items ≡ terms_placed
        (profiled_binding (profiled_pairs environment.now.items)) (profiles_of terms.now.items)) }
{
    let mut made = Vec::with_capacity(*environment.allocator(), terms.len())?;
    for term in terms {
        made.push(placed(environment, term)?)?;
    }
    Ok(made)
}

/// The test with the values of the environment put in.
pub fn placed_test(environment: &Vec<(u64, Sorted)>, test: &Test) -> Result<Test, NoMemory>
    requires { SuitsWhere (profiled_pairs environment.now.items)
        (λ n s. OccursInTest n s (test_of test.now)) }
    ensures same { IfOk result (λ t. test_of t
        ≡ test_with (binding (environment_of environment.now.items)) (test_of test.now)) }
    ensures terms { IfOk result (λ t. test_profiles t ≡ terms_placed
        (profiled_binding (profiled_pairs environment.now.items)) (test_profiles test.now)) }
{
    let left = placed(environment, &test.left)?;
    let right = placed(environment, &test.right)?;
    Ok(Test { left, right })
}

/// The test with the values of the environment put in, if there is one.
pub fn placed_option(
    environment: &Vec<(u64, Sorted)>,
    test: &Option<Test>,
) -> Result<Option<Test>, NoMemory>
    requires { SuitsWhere (profiled_pairs environment.now.items)
        (λ n s. OccursInTestOption n s (option_map test_of test.now)) }
    ensures same { IfOk result (λ t. option_map test_of t
        ≡ option_map (test_with (binding (environment_of environment.now.items)))
        (option_map test_of test.now)) }
    ensures terms { IfOk result (λ t. option_profiles t ≡ terms_placed
        (profiled_binding (profiled_pairs environment.now.items)) (option_profiles test.now)) }
{
    match test {
        None => Ok(None),
        Some(test) => Ok(Some(placed_test(environment, test)?)),
    }
}

// The offer with the values of the environment put in.
fn placed_offer(environment: &Vec<(u64, Sorted)>, offer: &Offer) -> Result<Offer, NoMemory>
    requires { SuitsWhere (profiled_pairs environment.now.items)
        (λ n s. OccursInOffers n s (offer_of offer.now ∷ [])) }
    ensures same { IfOk result (λ o. offer_of o
        ≡ offer_with (binding (environment_of environment.now.items)) (offer_of offer.now)) }
    ensures terms { IfOk result (λ o. offer_profiles o ≡ offer_terms_placed
        (profiled_binding (profiled_pairs environment.now.items)) offer.now) }
{
    match offer {
        Offer::Give(term) => Ok(Offer::Give(placed(environment, term)?)),
        Offer::Ask(variable) => Ok(Offer::Ask(variable.copy(*environment.allocator())?)),
    }
}

/// The offers with the values of the environment put in.
pub fn placed_offers(
    environment: &Vec<(u64, Sorted)>,
    offers: &Vec<Offer>,
) -> Result<Vec<Offer>, NoMemory>
    requires { SuitsWhere (profiled_pairs environment.now.items)
        (λ n s. OccursInOffers n s (map offer_of offers.now.items)) }
    ensures same { IfOk result (λ made. map offer_of made.items
        ≡ map (offer_with (binding (environment_of environment.now.items)))
        (map offer_of offers.now.items)) }
    ensures terms { IfOk result (λ made. map offer_profiles made.items ≡ map (offer_terms_placed
        (profiled_binding (profiled_pairs environment.now.items))) offers.now.items) }
{
    let mut made = Vec::with_capacity(*environment.allocator(), offers.len())?;
    for offer in offers {
        made.push(placed_offer(environment, offer)?)?;
    }
    Ok(made)
}

// The value of `exit` with the values of the environment put in.
fn placed_result(environment: &Vec<(u64, Sorted)>, value: &ExitValue) -> Result<ExitValue, NoMemory>
    requires { SuitsWhere (profiled_pairs environment.now.items)
        (λ n s. OccursInResults n s (exit_value_of value.now ∷ [])) }
    ensures same { IfOk result (λ v. exit_value_of v
        ≡ exit_value_with (binding (environment_of environment.now.items))
        (exit_value_of value.now)) }
    ensures terms { IfOk result (λ v. exit_profiles v ≡ exit_placed
        (profiled_binding (profiled_pairs environment.now.items)) value.now) }
{
    match value {
        ExitValue::Give(term) => Ok(ExitValue::Give(placed(environment, term)?)),
        ExitValue::Any(sort) => Ok(ExitValue::Any(*sort)),
    }
}

/// The values of `exit` with the values of the environment put in.
pub fn placed_results(
    environment: &Vec<(u64, Sorted)>,
    values: &Vec<ExitValue>,
) -> Result<Vec<ExitValue>, NoMemory>
    requires { SuitsWhere (profiled_pairs environment.now.items)
        (λ n s. OccursInResults n s (map exit_value_of values.now.items)) }
    ensures same { IfOk result (λ made. map exit_value_of made.items
        ≡ map (exit_value_with (binding (environment_of environment.now.items)))
        (map exit_value_of values.now.items)) }
    ensures terms { IfOk result (λ made. map exit_profiles made.items ≡ map (exit_placed
        (profiled_binding (profiled_pairs environment.now.items))) values.now.items) }
{
    let mut made = Vec::with_capacity(*environment.allocator(), values.len())?;
    for value in values {
        made.push(placed_result(environment, value)?)?;
    }
    Ok(made)
}

/// The variables of `let` with their terms, in which the values of the environment are put.
pub fn placed_bindings(
    environment: &Vec<(u64, Sorted)>,
    bindings: &Vec<(Variable, Sorted)>,
) -> Result<Vec<(Variable, Sorted)>, NoMemory>
    requires { SuitsWhere (profiled_pairs environment.now.items)
        (λ n s. OccursInOne n s (let_terms (map let_of bindings.now.items))) }
    ensures same { IfOk result (λ made. map let_of made.items
        ≡ map (let_pair_placed (binding (environment_of environment.now.items)))
        (map let_of bindings.now.items)) }
    ensures terms { IfOk result (λ made. map let_profile made.items ≡ map (let_placed
        (profiled_binding (profiled_pairs environment.now.items))) bindings.now.items) }
{
    let alloc = *environment.allocator();
    let mut made = Vec::with_capacity(alloc, bindings.len())?;
    for binding in bindings {
        let variable = binding.0.copy(alloc)?;
        let term = placed(environment, &binding.1)?;
        made.push((variable, term))?;
    }
    Ok(made)
}
