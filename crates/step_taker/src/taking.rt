//! The move of a derivation.

ghost use Rattle.behaviour_tree.specs.BehaviourTerms.{profiles_of};
ghost use Rattle.behaviour_tree.specs.Closed.{IsClosedNode};
ghost use Rattle.behaviour_tree.specs.Over.{AreTermsOf, IsSpecOver, IsStateOf};
ghost use Rattle.behaviour_tree.specs.StateView.{node_profiles, stands_for};
ghost use Rattle.step_parts.specs.HandedOn.{KeepsData};
ghost use Rattle.std.specs.Prelude.{◌≡◌, ℕ, IfOk, length, MatchResult, nat_lt, None, Some, if◌then◌else◌};
ghost use Rattle.behaviour_semantics.specs.Fault.{not_fitting};
ghost use Rattle.step_parts.specs.StepFaults.{IsStepChecked, kept_number, UnlessMemory};
ghost use Rattle.step_taker.specs.Taken.{ground_of, IsStepFault, IsTaken};

use crate::depths::checked_depth;
use crate::moved::Walk;
use crate::walks::node_step;
use behaviour_tree::{Derivation, Label, Node, Spec, State};
use lotos_base::NoMemory;
use sort_terms::{Deciding, Sorted};
use std::alloc::Global;
use std::rc::Rc;
use step_parts::faults::{At, StepFault, misfit};

/// The label and the target of the move that the derivation gives the state, with each value that
/// is bound to a variable and each value of the label in canonical form, or the first fault of the
/// derivation. A derivation whose rules nest more than 2,500 deep, each call counted twice, is want
/// of memory.
pub fn take<D: Deciding>(
    spec: &Spec,
    state: &State,
    derivation: &Derivation,
    data: &mut D,
) -> Result<(Label, State), StepFault>
    requires over { IsSpecOver (D.known_data data.old).signature spec.now }
    requires state { IsStateOf (D.known_data data.old).signature spec.now state.now }
    requires closed { IsClosedNode state.now.node }
    requires leaves { AreTermsOf (D.known_data data.old).signature
        (profiles_of derivation.now.leaves.items) }
    ensures answer { MatchResult result
        (λ moved. IsTaken (ground_of (D.known_data data.old) (D.canon data.old) spec.now)
        state.now derivation.now moved.0 moved.1)
        (λ fault. UnlessMemory (IsStepFault (ground_of (D.known_data data.old)
        (D.canon data.old) spec.now) state.now derivation.now) fault) }
    ensures same_known { KeepsData D.known_data D.canon data.old data.new }
{
    let walk = Walk {
        spec,
        leaves: derivation.leaves.as_slice(),
        alloc: *derivation.leaves.allocator(),
    };
    checked_depth(&derivation.shape)?;
    let at = At { node: 0, leaf: 0 };
    let moved = node_step(&walk, state.node(), &derivation.shape, at, data)?;
    none_left_over(walk.leaves, moved.behind)?;
    let node = own_node(moved.target, walk.alloc)?;
    Ok((moved.label, State::of(node)))
}

// Answers nothing where the derivation has no leaf behind those of its nodes.
fn none_left_over(leaves: &[Sorted], behind: At) -> Result<(), StepFault>
    ensures { (n : ℕ) → behind.node ≡ kept_number n
        → IsStepChecked n (if nat_lt behind.leaf (length leaves.now) then Some not_fitting
        else None)
        result }
{
    if behind.leaf < leaves.len() {
        return Err(misfit(behind));
    }
    Ok(())
}

// The node itself, where nothing else has it, and else one with the same parts.
fn own_node(node: Rc<Node>, alloc: Global) -> Result<Node, NoMemory>
    ensures same { IfOk result (λ own. stands_for own ≡ stands_for node.value) }
    ensures terms { IfOk result (λ own. node_profiles own ≡ node_profiles node.value) }
    ensures closed { IfOk result (λ own. IsClosedNode node.value → IsClosedNode own) }
{
    match Rc::try_unwrap(node) {
        Ok(own) => Ok(own),
        Err(kept) => kept.copy(alloc),
    }
}
