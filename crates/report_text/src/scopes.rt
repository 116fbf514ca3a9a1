//! The variables in scope below binders, those of the innermost binder first.

ghost use Rattle.behaviour_semantics.specs.Behaviour.{asked_variables, let_variables};
ghost use Rattle.behaviour_tree.specs.BehaviourView.{let_of, offer_of, variables_of};
ghost use Rattle.behaviour_tree.specs.declared.behaviours.Offer.{Offer as OfferValue};
ghost use Rattle.sort_terms.specs.EquationView.{variable_of};
ghost use Rattle.std.specs.Prelude.{◌≡◌, ◌++◌, ◌∷◌, IfOk, List, map};

use behaviour_tree::Offer;
use behaviour_tree::copies::variable_copies;
use lotos_base::NoMemory;
use sort_terms::{Sorted, Variable};

/// The variables below an action: those that its offers ask for, and then these.
pub fn below_offers(names: &Vec<Variable>, offers: &Vec<Offer>) -> Result<Vec<Variable>, NoMemory>
    ensures { IfOk result (λ made. variables_of made.items
        ≡ asked_variables (map offer_of offers.now.items) ++ variables_of names.now.items) }
{
    let mut made = Vec::new(*names.allocator());
    for offer in offers {
        push_asked(&mut made, offer)?;
    }
    push_all(&mut made, names)?;
    Ok(made)
}

// The variables with that of the offer, if it asks for one.
fn push_asked(made: &mut Vec<Variable>, offer: &Offer) -> Result<(), NoMemory>
    ensures { IfOk result (λ _. (rest : List OfferValue)
        → variables_of made.new.items ++ asked_variables (map offer_of rest)
        ≡ variables_of made.old.items ++ asked_variables (map offer_of (offer.now ∷ rest))) }
{
    match offer {
        Offer::Give(_) => Ok(()),
        Offer::Ask(variable) => {
            let variable = variable.copy(*made.allocator())?;
            Ok(made.push(variable)?)
        }
    }
}

// The variables with the others behind them.
fn push_all(made: &mut Vec<Variable>, others: &Vec<Variable>) -> Result<(), NoMemory>
    ensures { IfOk result (λ _. variables_of made.new.items
        ≡ variables_of made.old.items ++ variables_of others.now.items) }
{
    let alloc = *made.allocator();
    for other in others {
        made.push(other.copy(alloc)?)?;
    }
    Ok(())
}

/// The variables below `accept`: those that are accepted, and then these.
pub fn below_accept(
    names: &Vec<Variable>,
    variables: &Vec<Variable>,
) -> Result<Vec<Variable>, NoMemory>
    ensures { IfOk result (λ made. variables_of made.items
        ≡ variables_of variables.now.items ++ variables_of names.now.items) }
{
    let mut made = variable_copies(*names.allocator(), variables)?;
    push_all(&mut made, names)?;
    Ok(made)
}

/// The variables below a value choice: its own, and then these.
pub fn below_choice(names: &Vec<Variable>, variable: &Variable) -> Result<Vec<Variable>, NoMemory>
    ensures { IfOk result (λ made. variables_of made.items
        ≡ variable_of variable.now ∷ variables_of names.now.items) }
{
    let alloc = *names.allocator();
    let mut made = Vec::new(alloc);
    made.push(variable.copy(alloc)?)?;
    push_all(&mut made, names)?;
    Ok(made)
}

/// The variables below `let`: those that it binds, and then these.
pub fn below_let(
    names: &Vec<Variable>,
    bindings: &Vec<(Variable, Sorted)>,
) -> Result<Vec<Variable>, NoMemory>
    ensures { IfOk result (λ made. variables_of made.items
        ≡ let_variables (map let_of bindings.now.items) ++ variables_of names.now.items) }
{
    let alloc = *names.allocator();
    let mut made = Vec::new(alloc);
    for binding in bindings {
        made.push(binding.0.copy(alloc)?)?;
    }
    push_all(&mut made, names)?;
    Ok(made)
}
