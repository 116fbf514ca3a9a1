//! The walk through a state by the shape of a derivation.

ghost use Rattle.behaviour_semantics.specs.Behaviour as plain;
ghost use Rattle.behaviour_tree.specs.BehaviourTerms.{
  let_profile,
  profiles_in,
  profiles_of,
  test_profiles,
};
ghost use Rattle.behaviour_tree.specs.BehaviourView.{
  behaviour_of,
  let_of,
  meet_of,
  terms_of,
  test_of,
};
ghost use Rattle.behaviour_tree.specs.MoveView.{shape_of};
ghost use Rattle.behaviour_tree.specs.StateView.{node_profiles, stands_for};
ghost use Rattle.behaviour_tree.specs.Closed.{IsClosedNode};
ghost use Rattle.step_parts.specs.HandedOn.{KeepsData};
ghost use Rattle.sort_terms.specs.EquationView.{variable_of};
ghost use Rattle.std.specs.Prelude.{◌++◌, map};
ghost use Rattle.step_taker.specs.Sides.{
  enabling_of,
  following_profiles,
  IsFollowing,
  IsSideState,
  side_of,
  side_profiles,
};
ghost use Rattle.step_taker.specs.Stands.{Stand};
ghost use Rattle.step_taker.specs.Taken.{ground_of};
ghost use Rattle.step_taker.specs.Walked.{
  IsPassable,
  IsPassableNode,
  IsPassableSide,
  IsThere,
  IsStepWalk,
  IsWalked,
};

use crate::bodies::{call_body, called_at, checked_value, gate_at, let_body, value_body};
use crate::enablings::{enabled, passed};
use crate::events::{action_step, exit_step, inner_step};
use crate::moved::{Moved, Walk};
use crate::parallels::{left_alone, right_alone, together};
use crate::sides::{Following, Side};
use crate::targets::{at_gate, disabled, hidden, in_call, under_pairs};
use behaviour_tree::{Beh, Meet, Node, Shape, Test};
use sort_terms::{Deciding, Sorted, Variable};
use step_parts::faults::{At, StepFault, misfit};
use step_parts::instance;
use step_parts::node_tests::checked_pair;
use step_parts::targets::side_by_side;

/// The move that the shape gives the node, or the first fault; the first leaf of the node has the
/// number of the place.
#[cycle(walking)]
pub fn node_step<D: Deciding>(
    walk: &Walk<'_>,
    node: &Node,
    shape: &Shape,
    at: At,
    data: &mut D,
) -> Result<Moved, StepFault>
    requires walk { IsStepWalk
        (ground_of (D.known_data data.old) (D.canon data.old) walk.now.spec.now)
        walk.now.leaves.now at.leaf }
    requires node { IsPassableNode
        (ground_of (D.known_data data.old) (D.canon data.old) walk.now.spec.now) node.now }
    ensures answer { (place : Stand)
        → IsThere place
        (stands_for node.now) (shape_of shape.now) at
        → IsWalked (ground_of (D.known_data data.old) (D.canon data.old) walk.now.spec.now)
        (terms_of walk.now.leaves.now) place result }
    ensures same_known { KeepsData D.known_data D.canon data.old data.new }
{
    match node {
        Node::Stop => Err(misfit(at)),
        Node::Part(behaviour, environment) => {
            let whole = instance(environment, behaviour)?;
            beh_step(walk, &whole, shape, at, data)
        }
        Node::Call {
            process,
            gates,
            values,
        } => call_step(walk, *process, gates, values, shape, at, data),
        Node::Parallel(meet, left, right) => {
            let left = Side::Standing(left);
            parallel_step(walk, meet, &left, &Side::Standing(right), shape, at, data)
        }
        Node::Hide(gates, inner) => {
            hide_step(walk, gates, &Side::Standing(inner), shape, at, data)
        }
        Node::Enable(left, variables, right, environment) => {
            let side = Following {
                variables,
                right,
                environment,
            };
            enable_step(walk, &Side::Standing(left), &side, shape, at, data)
        }
        Node::Disable(left, right) => {
            let left = Side::Standing(left);
            disable_step(walk, &left, &Side::Standing(right), shape, at, data)
        }
        Node::Relabel(pairs, inner) => relabel_step(walk, pairs, inner, shape, at, data),
    }
}

// The same for a closed behaviour.
#[cycle(walking)]
fn beh_step<D: Deciding>(
    walk: &Walk<'_>,
    behaviour: &Beh,
    shape: &Shape,
    at: At,
    data: &mut D,
) -> Result<Moved, StepFault>
    requires walk { IsStepWalk
        (ground_of (D.known_data data.old) (D.canon data.old) walk.now.spec.now)
        walk.now.leaves.now at.leaf }
    requires part { IsPassable
        (ground_of (D.known_data data.old) (D.canon data.old) walk.now.spec.now)
        (behaviour_of behaviour.now)
        (profiles_in behaviour.now) }
    ensures answer { (place : Stand)
        → IsThere place
        (behaviour_of behaviour.now) (shape_of shape.now) at
        → IsWalked (ground_of (D.known_data data.old) (D.canon data.old) walk.now.spec.now)
        (terms_of walk.now.leaves.now) place result }
    ensures same_known { KeepsData D.known_data D.canon data.old data.new }
{
    match behaviour {
        Beh::Stop => Err(misfit(at)),
        Beh::Exit(values) => exit_step(walk, values, shape, at, data),
        Beh::Action {
            gate,
            offers,
            test,
            next,
        } => action_step(walk, *gate, offers, test, next, shape, at, data),
        Beh::Inner(next) => inner_step(walk, next, shape, at),
        Beh::Guard(test, next) => guard_step(walk, test, next, shape, at, data),
        Beh::Choice(_, left, right) => choice_step(walk, left, right, shape, at, data),
        Beh::Parallel(_, meet, left, right) => {
            let left = Side::Closed(left);
            parallel_step(walk, meet, &left, &Side::Closed(right), shape, at, data)
        }
        Beh::Hide(gates, next) => hide_step(walk, gates, &Side::Closed(next), shape, at, data),
        Beh::Enable(_, left, variables, right) => {
            let environment = Vec::new(walk.alloc);
            let side = Following {
                variables,
                right,
                environment: &environment,
            };
            enable_step(walk, &Side::Closed(left), &side, shape, at, data)
        }
        Beh::Disable(_, left, right) => {
            let left = Side::Closed(left);
            disable_step(walk, &left, &Side::Closed(right), shape, at, data)
        }
        Beh::Let(bindings, next) => let_step(walk, bindings, next, shape, at, data),
        Beh::ChooseValue(variable, next) => value_step(walk, variable, next, shape, at, data),
        Beh::ChooseGate(gate, gates, next) => {
            gate_step(walk, *gate, gates, next, shape, at, data)
        }
        Beh::ParGate(gate, gates, meet, next) => {
            let opened = side_by_side(*gate, gates, meet, next)?;
            node_step(walk, &opened, shape, at, data)
        }
        Beh::Call {
            place: _,
            process,
            gates,
            values,
        } => call_step(walk, *process, gates, values, shape, at, data),
    }
}

// The same for a side.
#[cycle(walking)]
fn side_step<D: Deciding>(
    walk: &Walk<'_>,
    side: &Side<'_>,
    shape: &Shape,
    at: At,
    data: &mut D,
) -> Result<Moved, StepFault>
    requires walk { IsStepWalk
        (ground_of (D.known_data data.old) (D.canon data.old) walk.now.spec.now)
        walk.now.leaves.now at.leaf }
    requires side { IsPassableSide
        (ground_of (D.known_data data.old) (D.canon data.old) walk.now.spec.now) side.now }
    ensures answer { (place : Stand)
        → IsThere place
        (side_of side.now) (shape_of shape.now) at
        → IsWalked (ground_of (D.known_data data.old) (D.canon data.old) walk.now.spec.now)
        (terms_of walk.now.leaves.now) place result }
    ensures same_known { KeepsData D.known_data D.canon data.old data.new }
{
    match side {
        Side::Closed(behaviour) => beh_step(walk, behaviour, shape, at, data),
        Side::Standing(node) => node_step(walk, node, shape, at, data),
    }
}

// A guard: its test, and then its part.
#[cycle(walking)]
fn guard_step<D: Deciding>(
    walk: &Walk<'_>,
    test: &Test,
    next: &Beh,
    shape: &Shape,
    at: At,
    data: &mut D,
) -> Result<Moved, StepFault>
    requires walk { IsStepWalk
        (ground_of (D.known_data data.old) (D.canon data.old) walk.now.spec.now)
        walk.now.leaves.now at.leaf }
    requires part { IsPassable
        (ground_of (D.known_data data.old) (D.canon data.old) walk.now.spec.now)
        (plain.guard (test_of test.now) (behaviour_of next.now))
        (test_profiles test.now ++ profiles_in next.now) }
    ensures answer { (place : Stand)
        → IsThere place
        (plain.guard (test_of test.now) (behaviour_of next.now)) (shape_of shape.now) at
        → IsWalked (ground_of (D.known_data data.old) (D.canon data.old) walk.now.spec.now)
        (terms_of walk.now.leaves.now) place result }
    ensures same_known { KeepsData D.known_data D.canon data.old data.new }
{
    let Shape::Guarded(inner) = shape else {
        return Err(misfit(at));
    };
    checked_pair(&test.left, &test.right, at, data)?;
    beh_step(walk, next, inner, at.below(), data)
}

// A choice: one of its sides.
#[cycle(walking)]
fn choice_step<D: Deciding>(
    walk: &Walk<'_>,
    left: &Beh,
    right: &Beh,
    shape: &Shape,
    at: At,
    data: &mut D,
) -> Result<Moved, StepFault>
    requires walk { IsStepWalk
        (ground_of (D.known_data data.old) (D.canon data.old) walk.now.spec.now)
        walk.now.leaves.now at.leaf }
    requires part { IsPassable
        (ground_of (D.known_data data.old) (D.canon data.old) walk.now.spec.now)
        (plain.choice (behaviour_of left.now) (behaviour_of right.now))
        (profiles_in left.now ++ profiles_in right.now) }
    ensures answer { (place : Stand)
        → IsThere place
        (plain.choice (behaviour_of left.now) (behaviour_of right.now)) (shape_of shape.now) at
        → IsWalked (ground_of (D.known_data data.old) (D.canon data.old) walk.now.spec.now)
        (terms_of walk.now.leaves.now) place result }
    ensures same_known { KeepsData D.known_data D.canon data.old data.new }
{
    match shape {
        Shape::Left(inner) => beh_step(walk, left, inner, at.below(), data),
        Shape::Right(inner) => beh_step(walk, right, inner, at.below(), data),
        _ => Err(misfit(at)),
    }
}

// A parallel: one of its sides alone, or both.
#[cycle(walking)]
fn parallel_step<D: Deciding>(
    walk: &Walk<'_>,
    meet: &Meet,
    left: &Side<'_>,
    right: &Side<'_>,
    shape: &Shape,
    at: At,
    data: &mut D,
) -> Result<Moved, StepFault>
    requires walk { IsStepWalk
        (ground_of (D.known_data data.old) (D.canon data.old) walk.now.spec.now)
        walk.now.leaves.now at.leaf }
    requires part { IsPassable
        (ground_of (D.known_data data.old) (D.canon data.old) walk.now.spec.now)
        (plain.parallel (meet_of meet.now) (side_of left.now) (side_of right.now))
        (side_profiles left.now ++ side_profiles right.now) }
    requires states { IsSideState left.now × IsSideState right.now }
    ensures answer { (place : Stand)
        → IsThere place
        (plain.parallel (meet_of meet.now) (side_of left.now) (side_of right.now))
        (shape_of shape.now) at
        → IsWalked (ground_of (D.known_data data.old) (D.canon data.old) walk.now.spec.now)
        (terms_of walk.now.leaves.now) place result }
    ensures same_known { KeepsData D.known_data D.canon data.old data.new }
{
    match shape {
        Shape::Left(inner) => {
            let moved = side_step(walk, left, inner, at.below(), data)?;
            left_alone(walk.alloc, meet, moved, right, at)
        }
        Shape::Right(inner) => {
            let moved = side_step(walk, right, inner, at.below(), data)?;
            right_alone(walk.alloc, meet, left, moved, at)
        }
        Shape::Both(inner, other) => {
            let first = side_step(walk, left, inner, at.below(), data)?;
            let second = side_step(walk, right, other, first.behind, data)?;
            together(walk, meet, first, second, at, data)
        }
        _ => Err(misfit(at)),
    }
}

// A hiding.
#[cycle(walking)]
fn hide_step<D: Deciding>(
    walk: &Walk<'_>,
    gates: &Vec<u32>,
    inner: &Side<'_>,
    shape: &Shape,
    at: At,
    data: &mut D,
) -> Result<Moved, StepFault>
    requires walk { IsStepWalk
        (ground_of (D.known_data data.old) (D.canon data.old) walk.now.spec.now)
        walk.now.leaves.now at.leaf }
    requires part { IsPassable
        (ground_of (D.known_data data.old) (D.canon data.old) walk.now.spec.now)
        (plain.hide gates.now.items (side_of inner.now))
        (side_profiles inner.now) }
    requires states { IsSideState inner.now }
    ensures answer { (place : Stand)
        → IsThere place
        (plain.hide gates.now.items (side_of inner.now)) (shape_of shape.now) at
        → IsWalked (ground_of (D.known_data data.old) (D.canon data.old) walk.now.spec.now)
        (terms_of walk.now.leaves.now) place result }
    ensures same_known { KeepsData D.known_data D.canon data.old data.new }
{
    let Shape::Hidden(below) = shape else {
        return Err(misfit(at));
    };
    let moved = side_step(walk, inner, below, at.below(), data)?;
    hidden(walk.alloc, gates, moved, at)
}

// An enabling: its left side goes on, or has ended.
#[cycle(walking)]
fn enable_step<D: Deciding>(
    walk: &Walk<'_>,
    left: &Side<'_>,
    side: &Following<'_>,
    shape: &Shape,
    at: At,
    data: &mut D,
) -> Result<Moved, StepFault>
    requires walk { IsStepWalk
        (ground_of (D.known_data data.old) (D.canon data.old) walk.now.spec.now)
        walk.now.leaves.now at.leaf }
    requires part { IsPassable
        (ground_of (D.known_data data.old) (D.canon data.old) walk.now.spec.now)
        (enabling_of (side_of left.now) side.now)
        (side_profiles left.now ++ following_profiles side.now) }
    requires states { IsSideState left.now × IsFollowing side.now }
    ensures answer { (place : Stand)
        → IsThere place
        (enabling_of (side_of left.now) side.now) (shape_of shape.now) at
        → IsWalked (ground_of (D.known_data data.old) (D.canon data.old) walk.now.spec.now)
        (terms_of walk.now.leaves.now) place result }
    ensures same_known { KeepsData D.known_data D.canon data.old data.new }
{
    match shape {
        Shape::Passed(inner) => {
            let moved = side_step(walk, left, inner, at.below(), data)?;
            passed(walk.alloc, moved, side, at)
        }
        Shape::Enabled(inner) => {
            let moved = side_step(walk, left, inner, at.below(), data)?;
            enabled(walk.alloc, moved, side, at)
        }
        _ => Err(misfit(at)),
    }
}

// A disabling: one of its sides.
#[cycle(walking)]
fn disable_step<D: Deciding>(
    walk: &Walk<'_>,
    left: &Side<'_>,
    right: &Side<'_>,
    shape: &Shape,
    at: At,
    data: &mut D,
) -> Result<Moved, StepFault>
    requires walk { IsStepWalk
        (ground_of (D.known_data data.old) (D.canon data.old) walk.now.spec.now)
        walk.now.leaves.now at.leaf }
    requires part { IsPassable
        (ground_of (D.known_data data.old) (D.canon data.old) walk.now.spec.now)
        (plain.disable (side_of left.now) (side_of right.now))
        (side_profiles left.now ++ side_profiles right.now) }
    requires states { IsSideState left.now × IsSideState right.now }
    ensures answer { (place : Stand)
        → IsThere place
        (plain.disable (side_of left.now) (side_of right.now)) (shape_of shape.now) at
        → IsWalked (ground_of (D.known_data data.old) (D.canon data.old) walk.now.spec.now)
        (terms_of walk.now.leaves.now) place result }
    ensures same_known { KeepsData D.known_data D.canon data.old data.new }
{
    match shape {
        Shape::Left(inner) => {
            let moved = side_step(walk, left, inner, at.below(), data)?;
            disabled(walk.alloc, moved, right, at)
        }
        Shape::Right(inner) => side_step(walk, right, inner, at.below(), data),
        _ => Err(misfit(at)),
    }
}

// A `let`: its part with the values of its terms.
#[cycle(walking)]
fn let_step<D: Deciding>(
    walk: &Walk<'_>,
    bindings: &Vec<(Variable, Sorted)>,
    next: &Beh,
    shape: &Shape,
    at: At,
    data: &mut D,
) -> Result<Moved, StepFault>
    requires walk { IsStepWalk
        (ground_of (D.known_data data.old) (D.canon data.old) walk.now.spec.now)
        walk.now.leaves.now at.leaf }
    requires part { IsPassable
        (ground_of (D.known_data data.old) (D.canon data.old) walk.now.spec.now)
        (plain.let_be (map let_of bindings.now.items) (behaviour_of next.now))
        (map let_profile bindings.now.items ++ profiles_in next.now) }
    ensures answer { (place : Stand)
        → IsThere place
        (plain.let_be (map let_of bindings.now.items) (behaviour_of next.now))
        (shape_of shape.now) at
        → IsWalked (ground_of (D.known_data data.old) (D.canon data.old) walk.now.spec.now)
        (terms_of walk.now.leaves.now) place result }
    ensures same_known { KeepsData D.known_data D.canon data.old data.new }
{
    let Shape::Bound(inner) = shape else {
        return Err(misfit(at));
    };
    let body = let_body(walk, bindings, next, data)?;
    beh_step(walk, &body, inner, at.below(), data)
}

// A value choice: its part with its leaf.
#[cycle(walking)]
fn value_step<D: Deciding>(
    walk: &Walk<'_>,
    variable: &Variable,
    next: &Beh,
    shape: &Shape,
    at: At,
    data: &mut D,
) -> Result<Moved, StepFault>
    requires walk { IsStepWalk
        (ground_of (D.known_data data.old) (D.canon data.old) walk.now.spec.now)
        walk.now.leaves.now at.leaf }
    requires part { IsPassable
        (ground_of (D.known_data data.old) (D.canon data.old) walk.now.spec.now)
        (plain.choose_value (variable_of variable.now) (behaviour_of next.now))
        (profiles_in next.now) }
    ensures answer { (place : Stand)
        → IsThere place
        (plain.choose_value (variable_of variable.now) (behaviour_of next.now))
        (shape_of shape.now) at
        → IsWalked (ground_of (D.known_data data.old) (D.canon data.old) walk.now.spec.now)
        (terms_of walk.now.leaves.now) place result }
    ensures same_known { KeepsData D.known_data D.canon data.old data.new }
{
    let Shape::Value(inner) = shape else {
        return Err(misfit(at));
    };
    checked_value(walk.leaves, at, variable.sort)?;
    let body = value_body(walk, variable, next, at.leaf, data)?;
    let below = At {
        node: at.below().node,
        leaf: at.leaf + 1,
    };
    beh_step(walk, &body, inner, below, data)
}

// A gate choice: its part with one of the gates.
#[cycle(walking)]
fn gate_step<D: Deciding>(
    walk: &Walk<'_>,
    formal: u32,
    gates: &Vec<u32>,
    next: &Beh,
    shape: &Shape,
    at: At,
    data: &mut D,
) -> Result<Moved, StepFault>
    requires walk { IsStepWalk
        (ground_of (D.known_data data.old) (D.canon data.old) walk.now.spec.now)
        walk.now.leaves.now at.leaf }
    requires part { IsPassable
        (ground_of (D.known_data data.old) (D.canon data.old) walk.now.spec.now)
        (plain.choose_gate formal gates.now.items (behaviour_of next.now))
        (profiles_in next.now) }
    ensures answer { (place : Stand)
        → IsThere place
        (plain.choose_gate formal gates.now.items (behaviour_of next.now)) (shape_of shape.now) at
        → IsWalked (ground_of (D.known_data data.old) (D.canon data.old) walk.now.spec.now)
        (terms_of walk.now.leaves.now) place result }
    ensures same_known { KeepsData D.known_data D.canon data.old data.new }
{
    let Shape::Gate(position, inner) = shape else {
        return Err(misfit(at));
    };
    let Some(actual) = gate_at(gates, *position) else {
        return Err(misfit(at));
    };
    let moved = beh_step(walk, next, inner, at.below(), data)?;
    at_gate(walk.alloc, formal, actual, moved, at)
}

// A call: the body of its process with the values of its parameters.
#[cycle(walking)]
fn call_step<D: Deciding>(
    walk: &Walk<'_>,
    process: u32,
    gates: &Vec<u32>,
    values: &Vec<Sorted>,
    shape: &Shape,
    at: At,
    data: &mut D,
) -> Result<Moved, StepFault>
    requires walk { IsStepWalk
        (ground_of (D.known_data data.old) (D.canon data.old) walk.now.spec.now)
        walk.now.leaves.now at.leaf }
    requires part { IsPassable
        (ground_of (D.known_data data.old) (D.canon data.old) walk.now.spec.now)
        (plain.call process gates.now.items (terms_of values.now.items))
        (profiles_of values.now.items) }
    ensures answer { (place : Stand)
        → IsThere place
        (plain.call process gates.now.items (terms_of values.now.items)) (shape_of shape.now) at
        → IsWalked (ground_of (D.known_data data.old) (D.canon data.old) walk.now.spec.now)
        (terms_of walk.now.leaves.now) place result }
    ensures same_known { KeepsData D.known_data D.canon data.old data.new }
{
    let Shape::Called(inner) = shape else {
        return Err(misfit(at));
    };
    let Some(called) = called_at(walk.spec, process) else {
        return Err(misfit(at));
    };
    let body = call_body(walk, called, values, data)?;
    let moved = beh_step(walk, &body, inner, at.below(), data)?;
    in_call(walk.alloc, called, gates, moved, at)
}

// A relabelling.
#[cycle(walking)]
fn relabel_step<D: Deciding>(
    walk: &Walk<'_>,
    pairs: &Vec<(u32, u32)>,
    inner: &Node,
    shape: &Shape,
    at: At,
    data: &mut D,
) -> Result<Moved, StepFault>
    requires walk { IsStepWalk
        (ground_of (D.known_data data.old) (D.canon data.old) walk.now.spec.now)
        walk.now.leaves.now at.leaf }
    requires part { IsPassable
        (ground_of (D.known_data data.old) (D.canon data.old) walk.now.spec.now)
        (plain.relabel pairs.now.items (stands_for inner.now))
        (node_profiles inner.now) }
    requires states { IsClosedNode inner.now }
    ensures answer { (place : Stand)
        → IsThere place
        (plain.relabel pairs.now.items (stands_for inner.now)) (shape_of shape.now) at
        → IsWalked (ground_of (D.known_data data.old) (D.canon data.old) walk.now.spec.now)
        (terms_of walk.now.leaves.now) place result }
    ensures same_known { KeepsData D.known_data D.canon data.old data.new }
{
    let Shape::Relabelled(below) = shape else {
        return Err(misfit(at));
    };
    let moved = node_step(walk, inner, below, at.below(), data)?;
    under_pairs(walk.alloc, pairs, moved, at)
}
