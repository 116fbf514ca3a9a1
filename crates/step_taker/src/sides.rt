//! Sides of behaviours: closed behaviours as they stand in a specification, or nodes of a state.

ghost use Rattle.behaviour_semantics.specs.Behaviour.{Specification};
ghost use Rattle.behaviour_semantics.specs.WellFormed.{IsClosedBehaviour};
ghost use Rattle.behaviour_tree.specs.BehaviourTerms.{profiles_in};
ghost use Rattle.behaviour_tree.specs.BehaviourView.{behaviour_of};
ghost use Rattle.behaviour_tree.specs.Over.{AreTermsOf};
ghost use Rattle.behaviour_tree.specs.StateView.{node_profiles, stands_for};
ghost use Rattle.std.specs.Prelude.{◌≡◌, IfOk};
ghost use Rattle.step_parts.specs.TargetNodes.{HasClosedParts};
ghost use Rattle.step_taker.specs.Sides.{IsSideState, side_of, side_profiles};
ghost use Rattle.lotos_base.specs.Signature.{Signature};

use behaviour_tree::boxes::{owner, shared};
use behaviour_tree::{Beh, Node};
use lotos_base::NoMemory;
use sort_terms::{Sorted, Variable};
use std::alloc::Global;
use std::rc::Rc;
use step_parts::targets::part;

/// A side of a behaviour of two sides, or the one part of another behaviour.
#[derive(Clone, Copy)]
pub enum Side<'a> {
    /// A closed behaviour.
    Closed(&'a Rc<Beh>),
    /// A node.
    Standing(&'a Rc<Node>),
}

impl Side<'_> {
    /// A node that stands for the same behaviour.
    pub fn node(&self, alloc: Global) -> Result<Rc<Node>, NoMemory>
        ensures same { IfOk result (λ made. stands_for made.value ≡ side_of self.now) }
        ensures terms { IfOk result (λ made. (signature : Signature)
            → AreTermsOf signature (side_profiles self.now)
            → AreTermsOf signature (node_profiles made.value)) }
        ensures closed_parts { IfOk result (λ made. (signature : Signature)
            (specification : Specification)
            → IsClosedBehaviour signature specification (side_of self.now)
            → IsSideState self.now → HasClosedParts made.value) }
    {
        match self {
            Side::Closed(behaviour) => own_part(behaviour, alloc),
            Side::Standing(node) => owner(*node),
        }
    }
}

// The closed behaviour as a node.
fn own_part(behaviour: &Rc<Beh>, alloc: Global) -> Result<Rc<Node>, NoMemory>
    ensures same { IfOk result (λ made. stands_for made.value ≡ behaviour_of behaviour.now.value) }
    ensures terms { IfOk result (λ made. (signature : Signature)
        → AreTermsOf signature (profiles_in behaviour.now.value)
        → AreTermsOf signature (node_profiles made.value)) }
    ensures closed_parts { IfOk result (λ made. (signature : Signature)
        (specification : Specification)
        → IsClosedBehaviour signature specification (behaviour_of behaviour.now.value)
        → HasClosedParts made.value) }
{
    let own = owner(behaviour)?;
    shared(alloc, part(alloc, own))
}

/// The right side of `>>`, with the variables that it accepts and the values of its environment.
#[derive(Clone, Copy)]
pub struct Following<'a> {
    /// The variables that it accepts.
    pub variables: &'a Vec<Variable>,
    /// The behaviour.
    pub right: &'a Rc<Beh>,
    /// Values for its free variables other than the accepted.
    pub environment: &'a Vec<(u64, Sorted)>,
}
