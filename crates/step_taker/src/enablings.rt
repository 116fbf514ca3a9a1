//! Moves of `>>` from those of its left side.

ghost use Rattle.behaviour_tree.specs.BehaviourView.{behaviour_of, terms_of, variables_of};
ghost use Rattle.behaviour_tree.specs.BehaviourTerms.{profiles_of};
ghost use Rattle.behaviour_tree.specs.MoveView.{label_of};
ghost use Rattle.behaviour_tree.specs.Over.{AreTermsOf};
ghost use Rattle.behaviour_tree.specs.StateView.{
  node_profiles,
  stands_for,
};
ghost use Rattle.behaviour_semantics.specs.Behaviour.{Specification};
ghost use Rattle.behaviour_semantics.specs.Replacement.{binding_of, with_values};
ghost use Rattle.behaviour_semantics.specs.Rule.{label_values};
ghost use Rattle.behaviour_semantics.specs.WellFormed.{IsClosedLabel};
ghost use Rattle.step_parts.specs.HandedOn.{label_profiles};
ghost use Rattle.behaviour_tree.specs.DefinitionView.{specification_of};
ghost use Rattle.std.specs.Prelude.{◌≡◌, ◌++◌, IfOk};
ghost use Rattle.step_parts.specs.TargetNodes.{HasClosedParts, IsAccepting};
ghost use Rattle.step_taker.specs.Rows.{enabling_row, passing_row};
ghost use Rattle.step_taker.specs.Sides.{enabling_of, followed, following_profiles, IsFollowing};
ghost use Rattle.step_taker.specs.Walked.{IsMadeBy, IsPassableFollowing};
ghost use Rattle.lotos_base.specs.Signature.{Signature};

use crate::moved::Moved;
use crate::sides::Following;
use behaviour_tree::boxes::{owner, shared};
use behaviour_tree::copies::{environment_copy, variable_copies};
use behaviour_tree::{Label, Node};
use lotos_base::NoMemory;
use sort_terms::Sorted;
use std::alloc::Global;
use std::rc::Rc;
use step_parts::faults::{At, StepFault, misfit};
use step_parts::labels::{ends, have_sorts};
use step_parts::targets::accepted;

/// The move of a left side of `>>` that goes on.
pub fn passed(alloc: Global, moved: Moved, side: &Following<'_>, at: At) -> Result<Moved, StepFault>
    ensures { IsMadeBy (λ base. passing_row (variables_of side.now.variables.now.items)
        (followed side.now)) (λ base. IsPassableFollowing base side.now) at moved result }
{
    if ends(&moved.label) {
        return Err(misfit(at));
    }
    let target = still_enabled(alloc, moved.target, side)?;
    Ok(Moved {
        label: moved.label,
        target,
        behind: moved.behind,
    })
}

/// The move of a left side of `>>` that has ended.
pub fn enabled(
    alloc: Global,
    moved: Moved,
    side: &Following<'_>,
    at: At,
) -> Result<Moved, StepFault>
    requires { IsFollowing side.now }
    ensures { IsMadeBy (λ base. enabling_row base.data_.signature
        (variables_of side.now.variables.now.items) (followed side.now))
        (λ base. IsPassableFollowing base side.now
        × IsClosedLabel base.data_.signature (specification_of base.spec)
        (label_of moved.label)) at moved result }
{
    if !ends(&moved.label) {
        return Err(misfit(at));
    }
    let behind = moved.behind;
    let made = own_values(alloc, moved.label);
    if !have_sorts(&made, side.variables) {
        return Err(misfit(at));
    }
    let target = begun(alloc, side, made)?;
    Ok(Moved {
        label: Label::Inner,
        target,
        behind,
    })
}

// The values of the label.
fn own_values(alloc: Global, label: Label) -> Vec<Sorted>
    ensures same { terms_of result.items ≡ label_values (label_of label) }
    ensures profiles { profiles_of result.items ≡ label_profiles label }
{
    match label {
        Label::Exit(values) => values,
        Label::Gate(_, values) => values,
        Label::Inner => Vec::new(alloc),
    }
}

// `>>` with another left side.
fn still_enabled(alloc: Global, left: Rc<Node>, side: &Following<'_>) -> Result<Rc<Node>, NoMemory>
    ensures same { IfOk result
        (λ made. stands_for made.value ≡ enabling_of (stands_for left.value) side.now) }
    ensures terms { IfOk result (λ made. node_profiles made.value
        ≡ node_profiles left.value ++ following_profiles side.now) }
    ensures closed_parts { IfOk result (λ made. IsFollowing side.now
        → HasClosedParts left.value → HasClosedParts made.value) }
{
    let variables = variable_copies(alloc, side.variables)?;
    let right = owner(side.right)?;
    let environment = environment_copy(alloc, side.environment)?;
    shared(alloc, Node::Enable(left, variables, right, environment))
}

// The right side of `>>` with these values.
fn begun(alloc: Global, side: &Following<'_>, made: Vec<Sorted>) -> Result<Rc<Node>, NoMemory>
    requires { IsFollowing side.now }
    ensures same { IfOk result (λ node. stands_for node.value
        ≡ with_values (binding_of (variables_of side.now.variables.now.items)
        (terms_of made.items)) (followed side.now)) }
    ensures terms { IfOk result (λ node. (signature : Signature)
        → AreTermsOf signature (following_profiles side.now)
        → AreTermsOf signature (profiles_of made.items)
        → AreTermsOf signature (node_profiles node.value)) }
    ensures closed_parts { IfOk result (λ node. (signature : Signature)
        (specification : Specification) → IsAccepting signature specification
        (variables_of side.now.variables.now.items) side.now.environment.now.items made.items
        (behaviour_of side.now.right.now.value) → HasClosedParts node.value) }
{
    let right = owner(side.right)?;
    let node = accepted(right, side.variables, made, side.environment)?;
    shared(alloc, node)
}
