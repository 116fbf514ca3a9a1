//! Moves of nodes with one part from those of the part: under `hide`, under a relabelling, and of
//! the left side of `[>`.

ghost use Rattle.behaviour_tree.specs.DefinitionView.{process_of};
ghost use Rattle.behaviour_semantics.specs.Behaviour as plain;
ghost use Rattle.behaviour_tree.specs.StateView.{node_profiles, stands_for};
ghost use Rattle.behaviour_semantics.specs.Label.{under as made_under};
ghost use Rattle.behaviour_semantics.specs.Rule.{still_disabled as disabled_still};
ghost use Rattle.behaviour_tree.specs.MoveView.{label_of};
ghost use Rattle.behaviour_tree.specs.Over.{AreTermsOf};
ghost use Rattle.std.specs.Prelude.{◌≡◌, ◌∷◌, [], IfOk, zip};
ghost use Rattle.step_parts.specs.TargetNodes.{HasClosedParts};
ghost use Rattle.step_taker.specs.Rows.{disabling_row, hiding_row, relabelling_row};
ghost use Rattle.step_taker.specs.Sides.{side_of, side_profiles};
ghost use Rattle.step_taker.specs.Taken.{Ground};
ghost use Rattle.lotos_base.specs.Signature.{Signature};
ghost use Rattle.step_taker.specs.Walked.{IsClosedOn, IsMadeBy, IsPassableSide};

use crate::moved::Moved;
use crate::sides::Side;
use behaviour_tree::boxes::shared;
use behaviour_tree::{Label, Node, Process};
use lotos_base::NoMemory;
use std::alloc::Global;
use std::rc::Rc;
use step_parts::faults::{At, StepFault};
use step_parts::targets::{gate_pair, still_disabled, under};
use step_parts::{hide_label, relabel};

/// The move under `hide`.
pub fn hidden(alloc: Global, gates: &Vec<u32>, moved: Moved, at: At) -> Result<Moved, StepFault>
    ensures { IsMadeBy (λ base. hiding_row gates.now.items) (λ base. Unit {0})
        at moved result }
{
    let label = hide_label(moved.label, gates.as_slice());
    let target = hide(alloc, gates, moved.target)?;
    Ok(Moved {
        label,
        target,
        behind: moved.behind,
    })
}

// The node under `hide`.
fn hide(alloc: Global, gates: &Vec<u32>, inner: Rc<Node>) -> Result<Rc<Node>, NoMemory>
    ensures same { IfOk result
        (λ made. stands_for made.value ≡ plain.hide gates.now.items (stands_for inner.value)) }
    ensures terms { IfOk result (λ made. node_profiles made.value ≡ node_profiles inner.value) }
    ensures closed_parts { IfOk result
        (λ made. HasClosedParts inner.value → HasClosedParts made.value) }
{
    let hidden = Vec::from_slice(alloc, gates)?;
    shared(alloc, Node::Hide(hidden, inner))
}

/// The move of the left side of `[>`.
pub fn disabled(alloc: Global, moved: Moved, right: &Side<'_>, at: At) -> Result<Moved, StepFault>
    ensures { IsMadeBy (λ base. disabling_row (side_of right.now))
        (λ base. IsPassableSide base right.now) at moved result }
{
    let Moved {
        label,
        target,
        behind,
    } = moved;
    let target = disabled_target(alloc, &label, target, right)?;
    Ok(Moved {
        label,
        target,
        behind,
    })
}

// The target of the left side of `[>`.
fn disabled_target(
    alloc: Global,
    label: &Label,
    target: Rc<Node>,
    right: &Side<'_>,
) -> Result<Rc<Node>, NoMemory>
    ensures same { IfOk result (λ made. stands_for made.value
        ≡ disabled_still (label_of label.now) (stands_for target.value) (side_of right.now)) }
    ensures terms { IfOk result (λ made. (signature : Signature)
        → AreTermsOf signature (node_profiles target.value)
        → AreTermsOf signature (side_profiles right.now)
        → AreTermsOf signature (node_profiles made.value)) }
    ensures closed_parts { IfOk result (λ made. (base : Ground)
        → IsPassableSide base right.now → HasClosedParts target.value
        → HasClosedParts made.value) }
{
    let right = right.node(alloc)?;
    still_disabled(alloc, label, target, right)
}

/// The move under the relabelling of one formal gate by an actual one.
pub fn at_gate(
    alloc: Global,
    formal: u32,
    actual: u32,
    moved: Moved,
    at: At,
) -> Result<Moved, StepFault>
    requires { HasClosedParts moved.target.value }
    ensures { IsMadeBy (λ base. relabelling_row ((formal, actual) ∷ []))
        (λ base. IsClosedOn base (stands_for moved.target.value)) at moved result }
{
    let pairs = gate_pair(alloc, formal, actual)?;
    relabelled(alloc, moved, pairs, at)
}

/// The move of the body of a process under the relabelling of a call.
pub fn in_call(
    alloc: Global,
    called: &Process,
    gates: &Vec<u32>,
    moved: Moved,
    at: At,
) -> Result<Moved, StepFault>
    requires { HasClosedParts moved.target.value }
    ensures { IsMadeBy
        (λ base. relabelling_row (zip (process_of called.now).gates gates.now.items))
        (λ base. IsClosedOn base (stands_for moved.target.value)) at moved result }
{
    let pairs = gate_pairs(alloc, &called.gates, gates)?;
    relabelled(alloc, moved, pairs, at)
}

// The formal gates with the actual ones, one by one.
fn gate_pairs(
    alloc: Global,
    formals: &Vec<u32>,
    actuals: &Vec<u32>,
) -> Result<Vec<(u32, u32)>, NoMemory>
    ensures { IfOk result (λ made. made.items ≡ zip formals.now.items actuals.now.items) }
{
    let mut pairs = Vec::with_capacity(alloc, formals.len())?;
    for i in 0..formals.len() {
        if i >= actuals.len() {
            return Ok(pairs);
        }
        pairs.push((formals[i], actuals[i]))?;
    }
    Ok(pairs)
}

/// The move under a relabelling.
pub fn under_pairs(
    alloc: Global,
    pairs: &Vec<(u32, u32)>,
    moved: Moved,
    at: At,
) -> Result<Moved, StepFault>
    requires { HasClosedParts moved.target.value }
    ensures { IsMadeBy (λ base. relabelling_row pairs.now.items)
        (λ base. IsClosedOn base (stands_for moved.target.value)) at moved result }
{
    let copied = pair_copies(alloc, pairs)?;
    relabelled(alloc, moved, copied, at)
}

// The same pairs.
fn pair_copies(alloc: Global, pairs: &Vec<(u32, u32)>) -> Result<Vec<(u32, u32)>, NoMemory>
    ensures { IfOk result (λ made. made.items ≡ pairs.now.items) }
{
    Ok(Vec::from_slice(alloc, pairs)?)
}

// The same with a relabelling that is handed on.
fn relabelled(
    alloc: Global,
    moved: Moved,
    pairs: Vec<(u32, u32)>,
    at: At,
) -> Result<Moved, StepFault>
    requires { HasClosedParts moved.target.value }
    ensures { IsMadeBy (λ base. relabelling_row pairs.items)
        (λ base. IsClosedOn base (stands_for moved.target.value)) at moved result }
{
    let label = relabel(moved.label, pairs.as_slice());
    let target = target_under(alloc, moved.target, pairs)?;
    Ok(Moved {
        label,
        target,
        behind: moved.behind,
    })
}

// The target under a relabelling.
fn target_under(
    alloc: Global,
    target: Rc<Node>,
    pairs: Vec<(u32, u32)>,
) -> Result<Rc<Node>, NoMemory>
    requires { HasClosedParts target.value }
    ensures same { IfOk result
        (λ made. stands_for made.value ≡ made_under (stands_for target.value) pairs.items) }
    ensures terms { IfOk result (λ made. (signature : Signature)
        → AreTermsOf signature (node_profiles target.value)
        → AreTermsOf signature (node_profiles made.value)) }
    ensures closed_parts { IfOk result (λ made. (base : Ground)
        → IsClosedOn base (stands_for target.value) → HasClosedParts made.value) }
{
    let made = under(alloc, &target, pairs)?;
    shared(alloc, made)
}
