//! Behaviours with values put for their free variables, compared.

ghost use Rattle.behaviour_tree.specs.Placings.{values_of};
ghost use Rattle.behaviour_semantics.specs.Replacement.{
  offer_with,
  exit_value_with,
  test_with,
  with_values,
};
ghost use Rattle.behaviour_tree.specs.BehaviourView.{
  behaviour_of,
  exit_value_of,
  let_of,
  meet_of,
  offer_of,
  terms_of,
  test_of,
  variables_of,
};
ghost use Rattle.lotos_base.specs.Substitution.{substituted};
ghost use Rattle.behaviour_tree.specs.Placed.{bound_with};
ghost use Rattle.std.specs.Prelude.{◌≡◌, ◌↔◌, IsTrue, map, option_map};

use crate::binders::Binders;
use crate::list_equality::{all_same, same_variables};
use crate::placing::Placing;
use crate::term_equality::same_terms;
use crate::{Beh, ExitValue, Meet, Offer, Test};
use sort_terms::{Sorted, Variable};

/// Whether the two behaviours, each with its values, are identical, places aside.
pub fn same_parts<'x>(
    part: &'x Beh,
    here: &'x Placing<'x>,
    other: &'x Beh,
    there: &'x Placing<'x>,
) -> bool
    ensures { IsTrue result ↔ (with_values (values_of here.now) (behaviour_of part.now)
        ≡ with_values (values_of there.now) (behaviour_of other.now)) }
{
    match (part, other) {
        (Beh::Stop, Beh::Stop) => true,
        (Beh::Exit(values), Beh::Exit(others)) => same_results(values, here, others, there),
        (
            Beh::Action {
                gate,
                offers,
                test,
                next,
            },
            Beh::Action {
                gate: other_gate,
                offers: others,
                test: other_test,
                next: other_next,
            },
        ) => {
            let inside = Placing {
                environment: here.environment,
                binders: Binders::Action(offers, &here.binders),
            };
            let other_inside = Placing {
                environment: there.environment,
                binders: Binders::Action(others, &there.binders),
            };
            if *gate != *other_gate {
                return false;
            }
            if !same_offers(offers, here, others, there) {
                return false;
            }
            same_options(test, &inside, other_test, &other_inside)
                && same_parts(next, &inside, other_next, &other_inside)
        }
        (Beh::Inner(next), Beh::Inner(other_next)) => same_parts(next, here, other_next, there),
        (Beh::Guard(test, next), Beh::Guard(other_test, other_next)) => {
            same_tests(test, here, other_test, there) && same_parts(next, here, other_next, there)
        }
        (Beh::Choice(_, left, right), Beh::Choice(_, other_left, other_right)) => {
            same_parts(left, here, other_left, there) && same_parts(right, here, other_right, there)
        }
        (
            Beh::Parallel(_, meet, left, right),
            Beh::Parallel(_, other_meet, other_left, other_right),
        ) => {
            same_meets(meet, other_meet)
                && same_parts(left, here, other_left, there)
                && same_parts(right, here, other_right, there)
        }
        (Beh::Hide(gates, next), Beh::Hide(others, other_next)) => {
            same_gates(gates, others) && same_parts(next, here, other_next, there)
        }
        (Beh::Enable(_, left, variables, right), Beh::Enable(_, other_left, others, other_right)) =>
            {
                let inside = Placing {
                    environment: here.environment,
                    binders: Binders::Accept(variables, &here.binders),
                };
                let other_inside = Placing {
                    environment: there.environment,
                    binders: Binders::Accept(others, &there.binders),
                };
                same_parts(left, here, other_left, there)
                    && same_accepted(variables, here, others, there)
                    && same_parts(right, &inside, other_right, &other_inside)
            }
        (Beh::Disable(_, left, right), Beh::Disable(_, other_left, other_right)) => {
            same_parts(left, here, other_left, there) && same_parts(right, here, other_right, there)
        }
        (Beh::Let(bindings, next), Beh::Let(others, other_next)) => {
            let inside = Placing {
                environment: here.environment,
                binders: Binders::Let(bindings, &here.binders),
            };
            let other_inside = Placing {
                environment: there.environment,
                binders: Binders::Let(others, &there.binders),
            };
            same_bindings(bindings, here, others, there)
                && same_parts(next, &inside, other_next, &other_inside)
        }
        (Beh::ChooseValue(variable, next), Beh::ChooseValue(other_variable, other_next)) => {
            let inside = Placing {
                environment: here.environment,
                binders: Binders::Choice(variable, &here.binders),
            };
            let other_inside = Placing {
                environment: there.environment,
                binders: Binders::Choice(other_variable, &there.binders),
            };
            same_variables(variable, other_variable)
                && same_parts(next, &inside, other_next, &other_inside)
        }
        (Beh::ChooseGate(gate, gates, next), Beh::ChooseGate(other_gate, others, other_next)) => {
            *gate == *other_gate
                && same_gates(gates, others)
                && same_parts(next, here, other_next, there)
        }
        (
            Beh::ParGate(gate, gates, meet, next),
            Beh::ParGate(other_gate, others, other_meet, other_next),
        ) => {
            *gate == *other_gate
                && same_gates(gates, others)
                && same_meets(meet, other_meet)
                && same_parts(next, here, other_next, there)
        }
        (
            Beh::Call {
                process,
                gates,
                values,
                ..
            },
            Beh::Call {
                process: other_process,
                gates: other_gates,
                values: others,
                ..
            },
        ) => {
            *process == *other_process
                && same_gates(gates, other_gates)
                && same_values(values, here, others, there)
        }
        _ => false,
    }
}

/// Whether the two synchronise at the same gates, listed in the same order.
pub fn same_meets(meet: &Meet, other: &Meet) -> bool
    ensures { IsTrue result ↔ (meet_of meet.now ≡ meet_of other.now) }
{
    match (meet, other) {
        (Meet::Nothing, Meet::Nothing) | (Meet::Everything, Meet::Everything) => true,
        (Meet::Gates(gates), Meet::Gates(others)) => same_gates(gates, others),
        _ => false,
    }
}

/// Whether the two lists have the same gates in the same order.
pub fn same_gates(gates: &Vec<u32>, others: &Vec<u32>) -> bool
    ensures { IsTrue result ↔ (gates.now.items ≡ others.now.items) }
{
    gates.as_slice() == others.as_slice()
}

/// Whether the two lists have the same variables in the same order, whatever values there are.
pub fn same_accepted(
    variables: &Vec<Variable>,
    here: &Placing,
    others: &Vec<Variable>,
    there: &Placing,
) -> bool
    ensures { IsTrue result
        ↔ (variables_of variables.now.items ≡ variables_of others.now.items) }
{
    all_same(variables, here, others, there)
}

/// Whether the two lists of terms, each with its values, are identical.
pub fn same_values(
    values: &Vec<Sorted>,
    here: &Placing,
    others: &Vec<Sorted>,
    there: &Placing,
) -> bool
    ensures { IsTrue result
        ↔ (map (substituted (values_of here.now)) (terms_of values.now.items)
        ≡ map (substituted (values_of there.now)) (terms_of others.now.items)) }
{
    all_same(values, here, others, there)
}

// The same of offers.
fn same_offers(offers: &Vec<Offer>, here: &Placing, others: &Vec<Offer>, there: &Placing) -> bool
    ensures { IsTrue result
        ↔ (map (offer_with (values_of here.now)) (map offer_of offers.now.items)
        ≡ map (offer_with (values_of there.now)) (map offer_of others.now.items)) }
{
    all_same(offers, here, others, there)
}

// The same of values of `exit`.
fn same_results(
    values: &Vec<ExitValue>,
    here: &Placing,
    others: &Vec<ExitValue>,
    there: &Placing,
) -> bool
    ensures { IsTrue result
        ↔ (map (exit_value_with (values_of here.now)) (map exit_value_of values.now.items)
        ≡ map (exit_value_with (values_of there.now)) (map exit_value_of others.now.items)) }
{
    all_same(values, here, others, there)
}

// The same of the variables and terms of a `let`.
fn same_bindings(
    bindings: &Vec<(Variable, Sorted)>,
    here: &Placing,
    others: &Vec<(Variable, Sorted)>,
    there: &Placing,
) -> bool
    ensures { IsTrue result
        ↔ (map (bound_with (values_of here.now)) (map let_of bindings.now.items)
        ≡ map (bound_with (values_of there.now)) (map let_of others.now.items)) }
{
    all_same(bindings, here, others, there)
}

// The same of two tests.
fn same_tests(test: &Test, here: &Placing, other: &Test, there: &Placing) -> bool
    ensures { IsTrue result ↔ (test_with (values_of here.now) (test_of test.now)
        ≡ test_with (values_of there.now) (test_of other.now)) }
{
    same_terms(test.left.term(), here, other.left.term(), there)
        && same_terms(test.right.term(), here, other.right.term(), there)
}

// The same of tests where there are any.
fn same_options(test: &Option<Test>, here: &Placing, other: &Option<Test>, there: &Placing) -> bool
    ensures { IsTrue result
        ↔ (option_map (test_with (values_of here.now)) (option_map test_of test.now)
        ≡ option_map (test_with (values_of there.now)) (option_map test_of other.now)) }
{
    match (test, other) {
        (None, None) => true,
        (Some(test), Some(other)) => same_tests(test, here, other, there),
        (None, Some(_)) | (Some(_), None) => false,
    }
}
