//! Moves of parallels from those of their sides.

ghost use Rattle.behaviour_semantics.specs.Behaviour as plain;
ghost use Rattle.behaviour_semantics.specs.Fault.{size};
ghost use Rattle.behaviour_semantics.specs.Shape as plain_shape;
ghost use Rattle.behaviour_tree.specs.BehaviourView.{meet_of};
ghost use Rattle.behaviour_tree.specs.StateView.{node_profiles, stands_for};
ghost use Rattle.step_parts.specs.HandedOn.{KeepsData};
ghost use Rattle.step_parts.specs.HandedOn.{label_profiles};
ghost use Rattle.behaviour_tree.specs.Over.{AreTermsOf};
ghost use Rattle.std.specs.Prelude.{◌≡◌, ◌+◌, ℕ, suc, IfOk, List};
ghost use Rattle.step_parts.specs.StepFaults.{kept_number};
ghost use Rattle.step_parts.specs.TargetNodes.{HasClosedParts};
ghost use Rattle.step_taker.specs.Rows.{alone_row};
ghost use Rattle.step_taker.specs.Sides.{side_of, side_profiles};
ghost use Rattle.step_taker.specs.Stands.{stand};
ghost use Rattle.step_taker.specs.Taken.{Ground, ground_of};
ghost use Rattle.step_taker.specs.Walked.{IsMadeBy, IsMoved, IsPassableSide, IsWalked};
ghost use Rattle.lotos_base.specs.Signature.{Signature};
ghost use Rattle.lotos_base.specs.Term.{Term};

use crate::moved::{Moved, Walk};
use crate::sides::Side;
use behaviour_tree::boxes::shared;
use behaviour_tree::{Meet, Node};
use lotos_base::NoMemory;
use sort_terms::Deciding;
use std::alloc::Global;
use std::rc::Rc;
use step_parts::faults::{At, StepFault, misfit};
use step_parts::labels::may_move_together;
use step_parts::node_tests::checked_pairs;
use step_parts::{may_move_alone, values};

/// The move of a parallel whose left side moves alone.
pub fn left_alone(
    alloc: Global,
    meet: &Meet,
    moved: Moved,
    right: &Side<'_>,
    at: At,
) -> Result<Moved, StepFault>
    ensures { IsMadeBy (λ base. alone_row (meet_of meet.now)
        (λ target. plain.parallel (meet_of meet.now) target (side_of right.now)))
        (λ base. IsPassableSide base right.now) at moved result }
{
    if !may_move_alone(meet, &moved.label) {
        return Err(misfit(at));
    }
    let target = left_target(alloc, meet, moved.target, right)?;
    Ok(Moved {
        label: moved.label,
        target,
        behind: moved.behind,
    })
}

/// The move of a parallel whose right side moves alone.
pub fn right_alone(
    alloc: Global,
    meet: &Meet,
    left: &Side<'_>,
    moved: Moved,
    at: At,
) -> Result<Moved, StepFault>
    ensures { IsMadeBy (λ base. alone_row (meet_of meet.now)
        (λ target. plain.parallel (meet_of meet.now) (side_of left.now) target))
        (λ base. IsPassableSide base left.now) at moved result }
{
    if !may_move_alone(meet, &moved.label) {
        return Err(misfit(at));
    }
    let target = right_target(alloc, meet, left, moved.target)?;
    Ok(Moved {
        label: moved.label,
        target,
        behind: moved.behind,
    })
}

/// The move of a parallel whose sides move together, with labels of one event and equal values.
pub fn together<D: Deciding>(
    walk: &Walk<'_>,
    meet: &Meet,
    first: Moved,
    second: Moved,
    at: At,
    data: &mut D,
) -> Result<Moved, StepFault>
    requires left { AreTermsOf (D.known_data data.old).signature (label_profiles first.label) }
    requires right { AreTermsOf (D.known_data data.old).signature (label_profiles second.label) }
    ensures answer { (leaves : List Term) (b c : plain.Behaviour) (s t : plain_shape.Shape)
        (n k : ℕ) → at.node ≡ kept_number n
        → IsMoved (ground_of (D.known_data data.old) (D.canon data.old) walk.now.spec.now) leaves
        (stand b s (suc n) k) first
        → IsMoved (ground_of (D.known_data data.old) (D.canon data.old) walk.now.spec.now) leaves
        (stand c t (suc (n + size s)) first.behind.leaf) second
        → IsWalked (ground_of (D.known_data data.old) (D.canon data.old) walk.now.spec.now) leaves
        (stand (plain.parallel (meet_of meet.now) b c) (plain_shape.both_sides s t) n k) result }
    ensures same_known { KeepsData D.known_data D.canon data.old data.new }
{
    if !may_move_together(meet, &first.label, &second.label) {
        return Err(misfit(at));
    }
    checked_pairs(values(&first.label), values(&second.label), at, data)?;
    let target = parallel(walk.alloc, meet, first.target, second.target)?;
    Ok(Moved {
        label: first.label,
        target,
        behind: second.behind,
    })
}

// The moved left side beside the right one.
fn left_target(
    alloc: Global,
    meet: &Meet,
    left: Rc<Node>,
    right: &Side<'_>,
) -> Result<Rc<Node>, NoMemory>
    ensures same { IfOk result (λ made. stands_for made.value
        ≡ plain.parallel (meet_of meet.now) (stands_for left.value) (side_of right.now)) }
    ensures terms { IfOk result (λ made. (signature : Signature)
        → AreTermsOf signature (node_profiles left.value)
        → AreTermsOf signature (side_profiles right.now)
        → AreTermsOf signature (node_profiles made.value)) }
    ensures closed_parts { IfOk result (λ made. (base : Ground)
        → IsPassableSide base right.now → HasClosedParts left.value
        → HasClosedParts made.value) }
{
    let right = right.node(alloc)?;
    parallel(alloc, meet, left, right)
}

// The left side beside the moved right one.
fn right_target(
    alloc: Global,
    meet: &Meet,
    left: &Side<'_>,
    right: Rc<Node>,
) -> Result<Rc<Node>, NoMemory>
    ensures same { IfOk result (λ made. stands_for made.value
        ≡ plain.parallel (meet_of meet.now) (side_of left.now) (stands_for right.value)) }
    ensures terms { IfOk result (λ made. (signature : Signature)
        → AreTermsOf signature (side_profiles left.now)
        → AreTermsOf signature (node_profiles right.value)
        → AreTermsOf signature (node_profiles made.value)) }
    ensures closed_parts { IfOk result (λ made. (base : Ground)
        → IsPassableSide base left.now → HasClosedParts right.value
        → HasClosedParts made.value) }
{
    let left = left.node(alloc)?;
    parallel(alloc, meet, left, right)
}

// These nodes side by side.
fn parallel(
    alloc: Global,
    meet: &Meet,
    left: Rc<Node>,
    right: Rc<Node>,
) -> Result<Rc<Node>, NoMemory>
    ensures same { IfOk result (λ made. stands_for made.value
        ≡ plain.parallel (meet_of meet.now) (stands_for left.value) (stands_for right.value)) }
    ensures terms { IfOk result (λ made. (signature : Signature)
        → AreTermsOf signature (node_profiles left.value)
        → AreTermsOf signature (node_profiles right.value)
        → AreTermsOf signature (node_profiles made.value)) }
    ensures closed_parts { IfOk result (λ made. HasClosedParts left.value
        → HasClosedParts right.value → HasClosedParts made.value) }
{
    let meet = meet.copy(alloc)?;
    shared(alloc, Node::Parallel(meet, left, right))
}
