//! Nodes and kept menus as the parts of others.

ghost use Rattle.behaviour_semantics.specs.Behaviour.{Specification};
ghost use Rattle.behaviour_semantics.specs.Replacement.{with_values};
ghost use Rattle.behaviour_semantics.specs.WellFormed.{IsClosedBehaviour};
ghost use Rattle.behaviour_tree.specs.BehaviourTerms.{profiles_in};
ghost use Rattle.behaviour_tree.specs.BehaviourView.{behaviour_of};
ghost use Rattle.behaviour_tree.specs.Closed.{IsClosedBy, IsClosedNode};
ghost use Rattle.behaviour_tree.specs.Over.{AreTermsOf};
ghost use Rattle.behaviour_tree.specs.StateView.{
  environment_of,
  node_profiles,
  pair_profile,
  stands_for,
};
ghost use Rattle.lotos_base.specs.Signature.{Signature};
ghost use Rattle.lotos_base.specs.Substitution.{binding};
ghost use Rattle.menu_parts.specs.KeptMenus.{IsKept};
ghost use Rattle.std.specs.Prelude.{◌≡◌, ◌++◌, IfOk, IfSome, map};
ghost use Rattle.step_taker.specs.HandedOn.{HasClosedParts};
ghost use Rattle.step_taker.specs.Taken.{Ground};
ghost use Rattle.step_taker.specs.Walked.{IsPassable, IsPassableNode};

use crate::kept::Kept;
use behaviour_tree::boxes::{owner, shared};
use behaviour_tree::{Beh, Node};
use lotos_base::NoMemory;
use sort_terms::Sorted;
use std::alloc::Global;
use std::rc::Rc;
use step_taker::{instance, part};

/// The node with the values of its environment put in, where it is a behaviour with one.
pub fn closed_node(alloc: Global, node: &Rc<Node>) -> Result<Rc<Node>, NoMemory>
    requires { IsClosedNode node.now.value }
    ensures same { IfOk result (λ made. stands_for made.value ≡ stands_for node.now.value) }
    ensures passable { IfOk result (λ made. (basis : Ground)
        → IsPassableNode basis node.now.value → IsPassableNode basis made.value) }
{
    let Node::Part(behaviour, environment) = &**node else {
        return owner(node);
    };
    if environment.len() == 0 {
        return owner(node);
    }
    closed_part(alloc, behaviour, environment)
}

// The behaviour with the values put in, as a node.
fn closed_part(
    alloc: Global,
    behaviour: &Beh,
    environment: &Vec<(u64, Sorted)>,
) -> Result<Rc<Node>, NoMemory>
    requires { IsClosedBy environment.now.items (behaviour_of behaviour.now) }
    ensures same { IfOk result (λ made. stands_for made.value
        ≡ with_values (binding (environment_of environment.now.items))
        (behaviour_of behaviour.now)) }
    ensures passable { IfOk result (λ made. (basis : Ground)
        → IsPassable basis (with_values (binding (environment_of environment.now.items))
        (behaviour_of behaviour.now))
        (profiles_in behaviour.now ++ map pair_profile environment.now.items)
        → IsPassableNode basis made.value) }
{
    let made = instance(environment, behaviour)?;
    let own = own_node(alloc, made)?;
    Ok(own)
}

/// The closed behaviour as a node.
pub fn own_node(alloc: Global, behaviour: Beh) -> Result<Rc<Node>, NoMemory>
    ensures same { IfOk result (λ made. stands_for made.value ≡ behaviour_of behaviour) }
    ensures terms { IfOk result (λ made. (signature : Signature)
        → AreTermsOf signature (profiles_in behaviour)
        → AreTermsOf signature (node_profiles made.value)) }
    ensures closed_parts { IfOk result (λ made. (signature : Signature)
        (specification : Specification)
        → IsClosedBehaviour signature specification (behaviour_of behaviour)
        → HasClosedParts made.value) }
{
    let own = shared(alloc, behaviour)?;
    let node = part(alloc, own);
    let made = shared(alloc, node)?;
    Ok(made)
}

/// The kept menus with which a node is compared: none where it is known to have moved.
pub fn compared(kept: Option<&Rc<Kept>>, moved: bool) -> Option<&Rc<Kept>>
    ensures { (basis : Ground) → IfSome kept.entry (λ k. IsKept basis k.now.value)
        → IfSome result (λ k. IsKept basis k.now.value) }
{
    if moved {
        return None;
    }
    kept
}

/// The kept menus of the one part or of the left side, if there are any.
pub fn first_of(kept: Option<&Rc<Kept>>) -> Option<&Rc<Kept>>
    ensures { (basis : Ground) → IfSome kept.entry (λ k. IsKept basis k.now.value)
        → IfSome result (λ k. IsKept basis k.now.value) }
{
    match kept {
        None => None,
        Some(whole) => whole.first(),
    }
}

/// The kept menus of the right side, if there are any.
pub fn second_of(kept: Option<&Rc<Kept>>) -> Option<&Rc<Kept>>
    ensures { (basis : Ground) → IfSome kept.entry (λ k. IsKept basis k.now.value)
        → IfSome result (λ k. IsKept basis k.now.value) }
{
    match kept {
        None => None,
        Some(whole) => whole.second(),
    }
}

/// The kept menus among which those of the parts of the next node are looked for: those of its part
/// where what is kept is for a `let` or a gate `par`, which are gone after a step.
pub fn going_on(kept: Option<&Rc<Kept>>) -> Option<&Rc<Kept>>
    ensures { (basis : Ground) → IfSome kept.entry (λ k. IsKept basis k.now.value)
        → IfSome result (λ k. IsKept basis k.now.value) }
{
    match kept {
        None => None,
        Some(whole) => {
            if vanishes(&whole.listed().node) {
                return whole.first();
            }
            Some(whole)
        }
    }
}

// Whether the node is a `let` or a gate `par`.
fn vanishes(node: &Node) -> bool {
    match node {
        Node::Part(behaviour, _) => match &**behaviour {
            Beh::Let(_, _) | Beh::ParGate(_, _, _, _) => true,
            _ => false,
        },
        _ => false,
    }
}
