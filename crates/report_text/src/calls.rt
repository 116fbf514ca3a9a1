//! The calls that print a state.

ghost use Rattle.behaviour_tree.specs.Closed.{IsClosedNode};
ghost use Rattle.behaviour_tree.specs.DefinitionView.{specification_of};
ghost use Rattle.behaviour_tree.specs.StateView.{stands_for, state_of};
ghost use Rattle.printed_texts.specs.BehaviourText.{state_text as text_of_state};
ghost use Rattle.sort_terms.specs.SignatureView.{signature_of};
ghost use Rattle.std.specs.Prelude.{◌≡◌, ◌++◌, MatchResult, OnOk};

use crate::naming::{Naming, ProcessNames};
use crate::nodes::push_node;
use behaviour_tree::{Node, Spec, State};
use lotos_base::NoMemory;
use sort_terms::Signature;

/// Appends the closed behaviour that the state is, on one line. A part that is a binary form, a
/// word form or a relabelling stands in brackets, unless it ends a word form or a relabelling.
/// Values of variables that are bound stand in place of the variables, as they are. After a failure
/// for want of memory the text that is appended to is as it was.
pub fn state_text(
    signature: &Signature,
    spec: &Spec,
    state: &State,
    into: &mut Vec<u8>,
) -> Result<(), NoMemory>
    requires { IsClosedNode state.now.node }
    ensures { MatchResult result
        (λ _. into.new.items ≡ into.old.items ++ text_of_state (signature_of signature.now)
        (specification_of spec.now) (state_of state.now))
        (λ _. into.new.items ≡ into.old.items) }
{
    let mut text = Vec::new(*into.allocator());
    push_state(signature, spec, state.node(), &mut text)?;
    Ok(into.extend_from_slice(text.as_slice())?)
}

/// Appends the closed behaviour that the node stands for. After a failure for want of memory a part
/// of it may have been appended.
pub fn push_state(
    signature: &Signature,
    spec: &Spec,
    node: &Node,
    into: &mut Vec<u8>,
) -> Result<(), NoMemory>
    requires { IsClosedNode node.now }
    ensures { OnOk result (into.new.items ≡ into.old.items ++ text_of_state
        (signature_of signature.now) (specification_of spec.now) (stands_for node.now)) }
{
    let naming = Naming {
        signature,
        gates: &spec.gate_names,
        processes: ProcessNames::Own(&spec.processes),
        truth: None,
    };
    push_node(&naming, node, into)
}
