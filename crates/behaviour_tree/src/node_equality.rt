//! Closed behaviours, compared.

ghost use Rattle.behaviour_tree.specs.Placings.{values_of};
ghost use Rattle.behaviour_semantics.specs.Replacement.{with_values};
ghost use Rattle.behaviour_tree.specs.BehaviourView.{behaviour_of, terms_of};
ghost use Rattle.lotos_base.specs.Substitution.{substituted};
ghost use Rattle.behaviour_tree.specs.declared.binders.Binders.{Outermost};
ghost use Rattle.behaviour_tree.specs.StateView.{stands_for};
ghost use Rattle.std.specs.Prelude.{◌≡◌, ◌↔◌, IsTrue, map};

use crate::binders::Binders;
use crate::part_equality::{same_accepted, same_gates, same_meets, same_parts, same_values};
use crate::placing::Placing;
use crate::{Beh, Node};
use sort_terms::Sorted;

impl Node {
    /// Whether the two closed behaviours are identical, places aside. The numbers and names of bound
    /// variables count, and so does the order of gates and of the pairs of a relabelling. Takes no
    /// memory.
    pub fn same(&self, other: &Node) -> bool
        ensures { IsTrue result ↔ (stands_for self.now ≡ stands_for other.now) }
    {
        match (self, other) {
            (Node::Part(behaviour, environment), _) => {
                is_part(behaviour, &placing(environment), &*other)
            }
            (_, Node::Part(behaviour, environment)) => {
                is_part(behaviour, &placing(environment), &*self)
            }
            (Node::Stop, Node::Stop) => true,
            (
                Node::Call {
                    process,
                    gates,
                    values,
                },
                Node::Call {
                    process: other_process,
                    gates: other_gates,
                    values: others,
                },
            ) => {
                *process == *other_process
                    && same_gates(gates, other_gates)
                    && same_closed_values(values, others)
            }
            (
                Node::Parallel(meet, left, right),
                Node::Parallel(other_meet, other_left, other_right),
            ) => {
                same_meets(meet, other_meet) && left.same(other_left) && right.same(other_right)
            }
            (Node::Hide(gates, part), Node::Hide(others, other_part)) => {
                same_gates(gates, others) && part.same(other_part)
            }
            (
                Node::Enable(left, variables, right, environment),
                Node::Enable(other_left, others, other_right, other_environment),
            ) => {
                let here = placing(environment);
                let there = placing(other_environment);
                let inside = Placing {
                    environment: here.environment,
                    binders: Binders::Accept(variables, &here.binders),
                };
                let other_inside = Placing {
                    environment: there.environment,
                    binders: Binders::Accept(others, &there.binders),
                };
                left.same(other_left)
                    && same_accepted(variables, &here, others, &there)
                    && same_parts(right, &inside, other_right, &other_inside)
            }
            (Node::Disable(left, right), Node::Disable(other_left, other_right)) => {
                left.same(other_left) && right.same(other_right)
            }
            (Node::Relabel(pairs, part), Node::Relabel(others, other_part)) => {
                same_pairs(pairs, others) && part.same(other_part)
            }
            _ => false,
        }
    }
}

// Whether the behaviour with its values is the closed behaviour of the node.
fn is_part<'x>(part: &'x Beh, here: &'x Placing<'x>, node: &'x Node) -> bool
    ensures { IsTrue result
        ↔ (with_values (values_of here.now) (behaviour_of part.now) ≡ stands_for node.now) }
{
    match (node, part) {
        (Node::Part(behaviour, environment), _) => {
            same_parts(&*part, &*here, behaviour, &placing(environment))
        }
        (Node::Stop, Beh::Stop) => true,
        (
            Node::Call {
                process,
                gates,
                values,
            },
            Beh::Call {
                process: other_process,
                gates: other_gates,
                values: others,
                ..
            },
        ) => {
            *other_process == *process
                && same_gates(other_gates, gates)
                && are_values(others, here, values)
        }
        (Node::Parallel(meet, left, right), Beh::Parallel(_, other_meet, own_left, own_right)) => {
            same_meets(other_meet, meet)
                && is_part(own_left, &*here, left)
                && is_part(own_right, &*here, right)
        }
        (Node::Hide(gates, inner), Beh::Hide(own_gates, own)) => {
            same_gates(own_gates, gates) && is_part(own, &*here, inner)
        }
        (
            Node::Enable(left, variables, right, environment),
            Beh::Enable(_, own_left, own_variables, own_right),
        ) => {
            let there = placing(environment);
            let inside = Placing {
                environment: here.environment,
                binders: Binders::Accept(own_variables, &here.binders),
            };
            let other_inside = Placing {
                environment: there.environment,
                binders: Binders::Accept(variables, &there.binders),
            };
            is_part(own_left, &*here, left)
                && same_accepted(own_variables, here, variables, &there)
                && same_parts(own_right, &inside, right, &other_inside)
        }
        (Node::Disable(left, right), Beh::Disable(_, own_left, own_right)) => {
            is_part(own_left, &*here, left) && is_part(own_right, &*here, right)
        }
        (Node::Relabel(_, _), _) => false,
        _ => false,
    }
}

// The values of an environment, below no binder.
fn placing(environment: &Vec<(u64, Sorted)>) -> Placing<'_>
    ensures environment { result.environment.now ≡ environment.now.items }
    ensures binders { result.binders ≡ Outermost }
{
    Placing {
        environment: environment.as_slice(),
        binders: Binders::Outermost,
    }
}

// Whether the terms with their values are these closed terms.
fn are_values(values: &Vec<Sorted>, here: &Placing, closed: &Vec<Sorted>) -> bool
    ensures { IsTrue result ↔ (map (substituted (values_of here.now)) (terms_of values.now.items)
        ≡ terms_of closed.now.items) }
{
    let nothing = Placing {
        environment: &[],
        binders: Binders::Outermost,
    };
    same_values(values, here, closed, &nothing)
}

// Whether the closed terms are identical.
fn same_closed_values(values: &Vec<Sorted>, others: &Vec<Sorted>) -> bool
    ensures { IsTrue result ↔ (terms_of values.now.items ≡ terms_of others.now.items) }
{
    let nothing = Placing {
        environment: &[],
        binders: Binders::Outermost,
    };
    are_values(values, &nothing, others)
}

// Whether the two lists have the same pairs of gates in the same order.
fn same_pairs(pairs: &Vec<(u32, u32)>, others: &Vec<(u32, u32)>) -> bool
    ensures { IsTrue result ↔ (pairs.now.items ≡ others.now.items) }
{
    pairs.as_slice() == others.as_slice()
}
