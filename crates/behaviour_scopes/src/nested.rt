//! A behaviour under the choices that one declaration stands for, the first outermost.

ghost use Rattle.behaviour_tree.specs.BehaviourTerms.{profiles_in};
ghost use Rattle.behaviour_tree.specs.BehaviourView.{behaviour_of};
ghost use Rattle.behaviour_scopes.specs.PlacesView.{places_in};
ghost use Rattle.sort_terms.specs.EquationView.{variable_of};
ghost use Rattle.scope_parts.specs.Choices.{
  under_gates as under_gates_of,
  under_par as under_par_of,
  under_values as under_values_of,
};
ghost use Rattle.scope_parts.specs.GatesView.{choice_in, pars_in};
ghost use Rattle.std.specs.Prelude.{◌≡◌, IfOk, length, map};

use behaviour_tree::Beh;
use behaviour_tree::boxes::shared;
use lotos_base::NoMemory;
use scope_parts::gate_choices::{GateChoice, ParChoices};
use sort_terms::Variable;
use std::alloc::Global;

/// The behaviour under choices of values.
pub fn under_values(alloc: Global, variables: Vec<Variable>, inside: Beh) -> Result<Beh, NoMemory>
    ensures nested { IfOk result (λ b. behaviour_of b
        ≡ under_values_of (map variable_of variables.items) (behaviour_of inside)) }
    ensures profiles { IfOk result (λ b. profiles_in b ≡ profiles_in inside) }
    ensures places { IfOk result (λ b. places_in b ≡ places_in inside) }
{
    let mut rest = variables;
    let mut made = inside;
    while let Some(variable) = rest.pop() {
        made = Beh::ChooseValue(variable, shared(alloc, made)?);
    }
    Ok(made)
}

/// The behaviour under choices of gates.
pub fn under_gates(alloc: Global, choices: Vec<GateChoice>, inside: Beh) -> Result<Beh, NoMemory>
    ensures nested { IfOk result (λ b. behaviour_of b
        ≡ under_gates_of (map choice_in choices.items) (behaviour_of inside)) }
    ensures profiles { IfOk result (λ b. profiles_in b ≡ profiles_in inside) }
    ensures places { IfOk result (λ b. places_in b ≡ places_in inside) }
{
    let mut rest = choices;
    let mut made = inside;
    while let Some(choice) = rest.pop() {
        made = Beh::ChooseGate(choice.gate, choice.among, shared(alloc, made)?);
    }
    Ok(made)
}

/// The behaviour under the parallels of a `par`.
pub fn under_par(alloc: Global, pars: ParChoices, inside: Beh) -> Result<Beh, NoMemory>
    requires { length pars.meets.items ≡ length pars.choices.items }
    ensures nested { IfOk result (λ b. behaviour_of b
        ≡ under_par_of (pars_in pars) (behaviour_of inside)) }
    ensures profiles { IfOk result (λ b. profiles_in b ≡ profiles_in inside) }
    ensures places { IfOk result (λ b. places_in b ≡ places_in inside) }
{
    let mut choices = pars.choices;
    let mut meets = pars.meets;
    let mut made = inside;
    while let Some(choice) = choices.pop() {
        let Some(meet) = meets.pop() else {
            unreachable!()
        };
        made = Beh::ParGate(choice.gate, choice.among, meet, shared(alloc, made)?);
    }
    Ok(made)
}
