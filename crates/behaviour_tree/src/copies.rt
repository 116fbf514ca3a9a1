//! Copies of lists of terms and variables.

ghost use Rattle.behaviour_tree.specs.BehaviourTerms.{profiles_of};
ghost use Rattle.behaviour_tree.specs.BehaviourView.{terms_of};
ghost use Rattle.behaviour_tree.specs.StateView.{
  environment_of,
  pair_profile,
  pairs_with_profiles,
};
ghost use Rattle.sort_terms.specs.EquationView.{variable_of};
ghost use Rattle.std.specs.Prelude.{◌≡◌, IfOk, map};

use lotos_base::NoMemory;
use sort_terms::{Sorted, Variable};
use std::alloc::Global;

/// The same terms, with the same profiles.
pub fn term_copies(alloc: Global, terms: &Vec<Sorted>) -> Result<Vec<Sorted>, NoMemory>
    ensures same { IfOk result (λ made. terms_of made.items ≡ terms_of terms.now.items) }
    ensures terms { IfOk result (λ made. profiles_of made.items ≡ profiles_of terms.now.items) }
{
    let mut made = Vec::with_capacity(alloc, terms.len())?;
    for term in terms {
        made.push(term.copy()?)?;
    }
    Ok(made)
}

/// The same variables.
pub fn variable_copies(alloc: Global, variables: &Vec<Variable>) -> Result<Vec<Variable>, NoMemory>
    ensures { IfOk result (λ made. map variable_of made.items
        ≡ map variable_of variables.now.items) }
{
    let mut made = Vec::with_capacity(alloc, variables.len())?;
    for variable in variables {
        made.push(variable.copy(alloc)?)?;
    }
    Ok(made)
}

/// The same variables with the same values, and the same profiles in them.
pub fn environment_copy(
    alloc: Global,
    environment: &Vec<(u64, Sorted)>,
) -> Result<Vec<(u64, Sorted)>, NoMemory>
    ensures same { IfOk result (λ made. environment_of made.items
        ≡ environment_of environment.now.items) }
    ensures terms { IfOk result (λ made. map pair_profile made.items
        ≡ map pair_profile environment.now.items) }
    ensures pairs { IfOk result (λ made. pairs_with_profiles made.items
        ≡ pairs_with_profiles environment.now.items) }
{
    let mut made = Vec::with_capacity(alloc, environment.len())?;
    for pair in environment {
        let value = pair.1.copy()?;
        made.push((pair.0, value))?;
    }
    Ok(made)
}
