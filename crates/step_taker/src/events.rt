//! Moves of actions, of `exit` and of the inner event.

ghost use Rattle.behaviour_semantics.specs.Behaviour as plain;
ghost use Rattle.behaviour_semantics.specs.Fault.{first_unmet};
ghost use Rattle.behaviour_semantics.specs.Replacement.{with_values};
ghost use Rattle.behaviour_semantics.specs.Rule.{tests_of};
ghost use Rattle.behaviour_tree.specs.BehaviourTerms.{
  exit_profiles,
  joined,
  offer_profiles,
  option_profiles,
  profiles_in,
};
ghost use Rattle.behaviour_tree.specs.BehaviourView.{
  behaviour_of,
  exit_value_of,
  offer_of,
  terms_of,
  test_of,
};
ghost use Rattle.behaviour_tree.specs.Closed.{IsClosedBy};
ghost use Rattle.behaviour_tree.specs.MoveView.{shape_of};
ghost use Rattle.behaviour_tree.specs.Over.{AreTermsOf};
ghost use Rattle.behaviour_tree.specs.StateView.{
  environment_of,
  node_profiles,
  pair_profile,
  stands_for,
};
ghost use Rattle.step_parts.specs.HandedOn.{KeepsData};
ghost use Rattle.std.specs.Prelude.{◌≡◌, ◌++◌, ℕ, IfOk, List, map, option_map};
ghost use Rattle.step_parts.specs.StepFaults.{IsStepChecked, kept_number};
ghost use Rattle.step_parts.specs.TargetNodes.{HasClosedParts};
ghost use Rattle.step_taker.specs.Stands.{Stand};
ghost use Rattle.step_taker.specs.Taken.{Ground, ground_of};
ghost use Rattle.step_taker.specs.Walked.{
  chosen_values,
  IsChosen,
  IsPassable,
  IsThere,
  IsStepWalk,
  IsWalked,
};
ghost use Rattle.lotos_base.specs.Substitution.{binding};
ghost use Rattle.lotos_base.specs.Term.{Term};

use crate::moved::{Moved, Walk};
use crate::sides::Side;
use behaviour_tree::boxes::{owner, shared};
use behaviour_tree::{Beh, ExitValue, Label, Node, Offer, Shape, Test};
use lotos_base::NoMemory;
use sort_terms::{Deciding, Sorted};
use std::alloc::Global;
use std::rc::Rc;
use step_parts::faults::{At, StepFault, misfit};
use step_parts::leaves::{asked_sorts, checked_leaves, open_sorts};
use step_parts::node_tests::checked_test;
use step_parts::offers::{asked_values, offered, results};

/// The move of an `exit`, or its fault.
pub fn exit_step<D: Deciding>(
    walk: &Walk<'_>,
    values: &Vec<ExitValue>,
    shape: &Shape,
    at: At,
    data: &mut D,
) -> Result<Moved, StepFault>
    requires walk { IsStepWalk
        (ground_of (D.known_data data.old) (D.canon data.old) walk.now.spec.now)
        walk.now.leaves.now at.leaf }
    requires part { IsPassable
        (ground_of (D.known_data data.old) (D.canon data.old) walk.now.spec.now)
        (plain.exit_with (map exit_value_of values.now.items))
        (joined (map exit_profiles values.now.items)) }
    ensures answer { (place : Stand)
        → IsThere place (plain.exit_with (map exit_value_of values.now.items))
        (shape_of shape.now) at
        → IsWalked (ground_of (D.known_data data.old) (D.canon data.old) walk.now.spec.now)
        (terms_of walk.now.leaves.now) place result }
    ensures same_known { KeepsData D.known_data D.canon data.old data.new }
{
    let Shape::Quit = shape else {
        return Err(misfit(at));
    };
    let sorts = open_sorts(walk.alloc, values)?;
    checked_leaves(walk.leaves, at, sorts.as_slice())?;
    let target = shared(walk.alloc, Node::Stop)?;
    let made = results(walk.alloc, values, walk.leaves, at.leaf, data)?;
    Ok(Moved {
        label: Label::Exit(made),
        target,
        behind: At {
            node: at.below().node,
            leaf: at.leaf + sorts.len(),
        },
    })
}

/// The move of an action, or its fault.
pub fn action_step<D: Deciding>(
    walk: &Walk<'_>,
    gate: u32,
    offers: &Vec<Offer>,
    test: &Option<Test>,
    next: &Rc<Beh>,
    shape: &Shape,
    at: At,
    data: &mut D,
) -> Result<Moved, StepFault>
    requires walk { IsStepWalk
        (ground_of (D.known_data data.old) (D.canon data.old) walk.now.spec.now)
        walk.now.leaves.now at.leaf }
    requires part { IsPassable
        (ground_of (D.known_data data.old) (D.canon data.old) walk.now.spec.now)
        (plain.action gate (map offer_of offers.now.items)
        (option_map test_of test.now) (behaviour_of next.now.value))
        (joined (map offer_profiles offers.now.items) ++ option_profiles test.now
        ++ profiles_in next.now.value) }
    ensures answer { (place : Stand)
        → IsThere place (plain.action gate (map offer_of offers.now.items)
        (option_map test_of test.now) (behaviour_of next.now.value)) (shape_of shape.now) at
        → IsWalked (ground_of (D.known_data data.old) (D.canon data.old) walk.now.spec.now)
        (terms_of walk.now.leaves.now) place result }
    ensures same_known { KeepsData D.known_data D.canon data.old data.new }
{
    let Shape::Act = shape else {
        return Err(misfit(at));
    };
    let sorts = asked_sorts(walk.alloc, offers)?;
    checked_leaves(walk.leaves, at, sorts.as_slice())?;
    let made = offered(walk.alloc, offers, walk.leaves, at.leaf, data)?;
    let target = action_target(walk, offers, test, next, at, data)?;
    Ok(Moved {
        label: Label::Gate(gate, made),
        target,
        behind: At {
            node: at.below().node,
            leaf: at.leaf + sorts.len(),
        },
    })
}

// The target of an action whose test holds.
fn action_target<D: Deciding>(
    walk: &Walk<'_>,
    offers: &Vec<Offer>,
    test: &Option<Test>,
    next: &Rc<Beh>,
    at: At,
    data: &mut D,
) -> Result<Rc<Node>, StepFault>
    requires walk { IsStepWalk
        (ground_of (D.known_data data.old) (D.canon data.old) walk.now.spec.now)
        walk.now.leaves.now at.leaf }
    requires part { IsChosen
        (ground_of (D.known_data data.old) (D.canon data.old) walk.now.spec.now)
        (map offer_of offers.now.items) (option_map test_of test.now) (behaviour_of next.now.value)
        (terms_of walk.now.leaves.now) at.leaf }
    requires test { AreTermsOf (D.known_data data.old).signature (option_profiles test.now) }
    requires next { AreTermsOf (D.known_data data.old).signature (profiles_in next.now.value) }
    ensures checked { (n : ℕ) → at.node ≡ kept_number n → IsStepChecked n
        (first_unmet (D.canon data.old) (tests_of (chosen_values (D.canon data.old)
        (map offer_of offers.now.items) (terms_of walk.now.leaves.now) at.leaf)
        (option_map test_of test.now))) result }
    ensures same { IfOk result (λ made. stands_for made.value
        ≡ with_values (chosen_values (D.canon data.old) (map offer_of offers.now.items)
        (terms_of walk.now.leaves.now) at.leaf) (behaviour_of next.now.value)) }
    ensures terms { IfOk result
        (λ made. AreTermsOf (D.known_data data.old).signature (node_profiles made.value)) }
    ensures closed_parts { IfOk result (λ made. HasClosedParts made.value) }
    ensures same_known { KeepsData D.known_data D.canon data.old data.new }
{
    let pairs = asked_values(walk.alloc, offers, walk.leaves, at.leaf, data)?;
    checked_test(&pairs, test, at, data)?;
    Ok(own_behind(walk.alloc, next, pairs)?)
}

// The behaviour with these values.
fn own_behind(
    alloc: Global,
    next: &Rc<Beh>,
    pairs: Vec<(u64, Sorted)>,
) -> Result<Rc<Node>, NoMemory>
    ensures same { IfOk result (λ made. stands_for made.value
        ≡ with_values (binding (environment_of pairs.items)) (behaviour_of next.now.value)) }
    ensures terms { IfOk result (λ made. node_profiles made.value
        ≡ profiles_in next.now.value ++ map pair_profile pairs.items) }
    ensures closed_parts { IfOk result (λ made. IsClosedBy pairs.items (behaviour_of next.now.value)
        → HasClosedParts made.value) }
{
    let own = owner(next)?;
    shared(alloc, Node::Part(own, pairs))
}

/// The move of an inner event, or its fault.
pub fn inner_step(
    walk: &Walk<'_>,
    next: &Rc<Beh>,
    shape: &Shape,
    at: At,
) -> Result<Moved, StepFault>
    ensures { (base : Ground) (leaves : List Term) (place : Stand)
        → IsPassable base (plain.inner_action (behaviour_of next.now.value))
        (profiles_in next.now.value)
        → IsThere place (plain.inner_action (behaviour_of next.now.value)) (shape_of shape.now) at
        → IsWalked base leaves place result }
{
    let Shape::Inner = shape else {
        return Err(misfit(at));
    };
    let target = Side::Closed(next).node(walk.alloc)?;
    Ok(Moved {
        label: Label::Inner,
        target,
        behind: at.below(),
    })
}
