//! A number above those of all variables that a behaviour, a node or a specification binds. Where a
//! number passes the last value of a `u64`, this is answered as want of memory.

ghost use Rattle.behaviour_semantics.specs.Behaviour.{asked_variables, let_variables};
ghost use Rattle.behaviour_semantics.specs.Draft.{
  above,
  above_processes as above_bound,
  above_variables as above_listed,
};
ghost use Rattle.behaviour_tree.specs.BehaviourView.{
  behaviour_of,
  let_of,
  offer_of,
  variables_of,
};
ghost use Rattle.behaviour_tree.specs.DefinitionView.{specification_of};
ghost use Rattle.menu_builder.specs.ClosedParts.{variables_given};
ghost use Rattle.menu_builder.specs.NodeNumbers.{above_node as above_parts};
ghost use Rattle.std.specs.Prelude.{◌≤◌, ◌<◌, ◌∷◌, [], IfOk, map};
ghost use Rattle.term_match.specs.SubstView.{profiled_pairs};

use behaviour_tree::{Beh, Node, Offer, Spec};
use lotos_base::NoMemory;
use sort_terms::{Sorted, Variable};
use std::cmp::max;

// A number not below the first one and above the second.
fn past(least: u64, number: u64) -> Result<u64, NoMemory>
    ensures least { IfOk result (λ n. least ≤ n) }
    ensures above { IfOk result (λ n. number < n) }
{
    match number.checked_add(1) {
        Some(next) => Ok(max(least, next)),
        None => Err(NoMemory),
    }
}

// A number not below the least one and above those of the variables.
fn above_variables(variables: &Vec<Variable>, least: u64) -> Result<u64, NoMemory>
    ensures least { IfOk result (λ n. least ≤ n) }
    ensures above { IfOk result (λ n. above_listed (variables_of variables.now.items) ≤ n) }
{
    let mut above = least;
    for variable in variables {
        above = past(above, variable.number)?;
    }
    Ok(above)
}

// A number not below the least one and above those of the variables that the offers ask for.
fn above_offers(offers: &Vec<Offer>, least: u64) -> Result<u64, NoMemory>
    ensures least { IfOk result (λ n. least ≤ n) }
    ensures above { IfOk result
        (λ n. above_listed (asked_variables (map offer_of offers.now.items)) ≤ n) }
{
    let mut above = least;
    for offer in offers {
        above = past_offer(above, offer)?;
    }
    Ok(above)
}

// A number not below the first one and above that of the variable that the offer asks for, if any.
fn past_offer(least: u64, offer: &Offer) -> Result<u64, NoMemory>
    ensures least { IfOk result (λ n. least ≤ n) }
    ensures above { IfOk result
        (λ n. above_listed (asked_variables (offer_of offer.now ∷ [])) ≤ n) }
{
    match offer {
        Offer::Give(_) => Ok(least),
        Offer::Ask(variable) => past(least, variable.number),
    }
}

// A number not below the least one and above those of the variables that the bindings bind.
fn above_bindings(bindings: &Vec<(Variable, Sorted)>, least: u64) -> Result<u64, NoMemory>
    ensures least { IfOk result (λ n. least ≤ n) }
    ensures above { IfOk result
        (λ n. above_listed (let_variables (map let_of bindings.now.items)) ≤ n) }
{
    let mut above = least;
    for binding in bindings {
        above = past(above, binding.0.number)?;
    }
    Ok(above)
}

// A number not below the least one and above those of the variables of the environment.
fn above_pairs(environment: &Vec<(u64, Sorted)>, least: u64) -> Result<u64, NoMemory>
    ensures least { IfOk result (λ n. least ≤ n) }
    ensures above { IfOk result
        (λ n. above_listed (variables_given (profiled_pairs environment.now.items)) ≤ n) }
{
    let mut above = least;
    for pair in environment {
        above = past(above, pair.0)?;
    }
    Ok(above)
}

/// A number not below the least one and above those that the behaviour binds.
pub fn above_behaviour(behaviour: &Beh, least: u64) -> Result<u64, NoMemory>
    ensures least { IfOk result (λ n. least ≤ n) }
    ensures above { IfOk result (λ n. above (behaviour_of behaviour.now) ≤ n) }
{
    match behaviour {
        Beh::Stop => Ok(least),
        Beh::Exit(_) => Ok(least),
        Beh::Action {
            gate: _,
            offers,
            test: _,
            next,
        } => {
            let bound = above_offers(offers, least)?;
            let above = above_behaviour(next, bound)?;
            Ok(above)
        }
        Beh::Inner(next) => above_behaviour(next, least),
        Beh::Guard(_, next) => above_behaviour(next, least),
        Beh::Choice(_, left, right) => {
            let first = above_behaviour(left, least)?;
            let above = above_behaviour(right, first)?;
            Ok(above)
        }
        Beh::Parallel(_, _, left, right) => {
            let first = above_behaviour(left, least)?;
            let above = above_behaviour(right, first)?;
            Ok(above)
        }
        Beh::Hide(_, next) => above_behaviour(next, least),
        Beh::Enable(_, left, variables, right) => {
            let first = above_behaviour(left, least)?;
            let bound = above_variables(variables, first)?;
            let above = above_behaviour(right, bound)?;
            Ok(above)
        }
        Beh::Disable(_, left, right) => {
            let first = above_behaviour(left, least)?;
            let above = above_behaviour(right, first)?;
            Ok(above)
        }
        Beh::Let(bindings, next) => {
            let bound = above_bindings(bindings, least)?;
            let above = above_behaviour(next, bound)?;
            Ok(above)
        }
        Beh::ChooseValue(variable, next) => {
            let bound = past(least, variable.number)?;
            let above = above_behaviour(next, bound)?;
            Ok(above)
        }
        Beh::ChooseGate(_, _, next) => above_behaviour(next, least),
        Beh::ParGate(_, _, _, next) => above_behaviour(next, least),
        Beh::Call { .. } => Ok(least),
    }
}

/// A number not below the least one and above those that the node binds or has values for.
pub fn above_node(node: &Node, least: u64) -> Result<u64, NoMemory>
    ensures least { IfOk result (λ n. least ≤ n) }
    ensures above { IfOk result (λ n. above_parts node.now ≤ n) }
{
    match node {
        Node::Stop => Ok(least),
        Node::Part(behaviour, environment) => {
            let bound = above_pairs(environment, least)?;
            let above = above_behaviour(behaviour, bound)?;
            Ok(above)
        }
        Node::Call { .. } => Ok(least),
        Node::Parallel(_, left, right) => {
            let first = above_node(left, least)?;
            let above = above_node(right, first)?;
            Ok(above)
        }
        Node::Hide(_, part) => above_node(part, least),
        Node::Enable(left, variables, right, _) => {
            let first = above_node(left, least)?;
            let bound = above_variables(variables, first)?;
            let above = above_behaviour(right, bound)?;
            Ok(above)
        }
        Node::Disable(left, right) => {
            let first = above_node(left, least)?;
            let above = above_node(right, first)?;
            Ok(above)
        }
        Node::Relabel(_, part) => above_node(part, least),
    }
}

/// A number not below the least one and above those that the processes bind.
pub fn above_processes(spec: &Spec, least: u64) -> Result<u64, NoMemory>
    ensures least { IfOk result (λ n. least ≤ n) }
    ensures above { IfOk result (λ n. above_bound (specification_of spec.now).processes ≤ n) }
{
    let mut above = least;
    for process in &spec.processes {
        let bound = above_variables(&process.parameters, above)?;
        above = above_behaviour(&process.body, bound)?;
    }
    Ok(above)
}
