//! The variables that the offers of an action and a `let` bind.

ghost use Rattle.behaviour_semantics.specs.Behaviour.{asked_variables, let_variables};
ghost use Rattle.behaviour_tree.specs.BehaviourView.{let_of, offer_of};
ghost use Rattle.sort_terms.specs.EquationView.{variable_of};
ghost use Rattle.std.specs.Prelude.{◌≡◌, IfOk, map};

use behaviour_tree::Offer;
use lotos_base::NoMemory;
use sort_terms::{Sorted, Variable};
use std::alloc::Global;

/// The variables that offers ask for.
pub fn asked(alloc: Global, offers: &Vec<Offer>) -> Result<Vec<Variable>, NoMemory>
    ensures { IfOk result (λ made. map variable_of made.items
        ≡ asked_variables (map offer_of offers.now.items)) }
{
    let mut made = Vec::with_capacity(alloc, offers.len())?;
    for offer in offers {
        if let Offer::Ask(variable) = offer {
            made.push(variable.copy(alloc)?)?;
        }
    }
    Ok(made)
}

/// The variables of a `let`.
pub fn let_bound(
    alloc: Global,
    bindings: &Vec<(Variable, Sorted)>,
) -> Result<Vec<Variable>, NoMemory>
    ensures { IfOk result (λ made. map variable_of made.items
        ≡ let_variables (map let_of bindings.now.items)) }
{
    let mut made = Vec::with_capacity(alloc, bindings.len())?;
    for (variable, _) in bindings {
        made.push(variable.copy(alloc)?)?;
    }
    Ok(made)
}
