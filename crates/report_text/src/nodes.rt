//! The text of a node, which stands for a closed behaviour.

ghost use Rattle.behaviour_semantics.specs.Behaviour as plain;
ghost use Rattle.behaviour_semantics.specs.Replacement.{with_values};
ghost use Rattle.behaviour_tree.specs.BehaviourView.{
  behaviour_of,
  meet_of,
  terms_of,
  variables_of,
};
ghost use Rattle.behaviour_tree.specs.Closed.{IsClosedBy, IsClosedNode, IsClosedUnder};
ghost use Rattle.behaviour_tree.specs.StateView.{environment_of, stands_for};
ghost use Rattle.report_text.specs.NamingView.{naming_of};
ghost use Rattle.printed_texts.specs.BehaviourText.{
  behaviour_text,
  between_blanks,
  enable_sign,
  stands_in_brackets,
  unit_text,
};
ghost use Rattle.std.specs.Prelude.{◌≡◌, ◌++◌, [], IfOk, OnOk};
ghost use Rattle.lotos_base.specs.Substitution.{binding, without};

use crate::behaviours::{is_bracketed, push_behaviour, push_unit};
use crate::heads::{push_call, push_hide, push_relabel};
use crate::naming::Naming;
use crate::scopes::below_accept;
use crate::signs::{push_accept, push_meet};
use behaviour_instances::environments::below_accept as values_below;
use behaviour_instances::instance;
use behaviour_tree::{Beh, Meet, Node};
use lotos_base::NoMemory;
use printed_texts::brackets::{close_bracket, open_bracket, push_text};
use sort_terms::{Sorted, Variable};
use std::rc::Rc;

/// Appends the text of a node, with the values of its environments put in.
#[cycle(nodes)]
pub fn push_node(naming: &Naming<'_>, node: &Node, into: &mut Vec<u8>) -> Result<(), NoMemory>
    requires { IsClosedNode node.now }
    ensures { OnOk result (into.new.items ≡ into.old.items ++ behaviour_text
        (naming_of naming.now) [] (stands_for node.now)) }
{
    match node {
        Node::Stop => push_text(into, b"stop"),
        Node::Part(behaviour, environment) => push_part(naming, behaviour, environment, into),
        Node::Call {
            process,
            gates,
            values,
        } => push_call(naming, &[], *process, gates, values, into),
        Node::Parallel(meet, left, right) => push_parallel(naming, meet, left, right, into),
        Node::Hide(gates, part) => push_hidden(naming, gates, part, into),
        Node::Enable(left, variables, right, environment) => push_enabling(
            naming,
            left,
            variables,
            right,
            environment,
            into,
        ),
        Node::Disable(left, right) => push_disabling(naming, left, right, into),
        Node::Relabel(pairs, part) => push_relabelled(naming, pairs, part, into),
    }
}

// Appends a behaviour with the values of its environment put in.
fn push_part(
    naming: &Naming<'_>,
    behaviour: &Beh,
    environment: &Vec<(u64, Sorted)>,
    into: &mut Vec<u8>,
) -> Result<(), NoMemory>
    requires { IsClosedBy environment.now.items (behaviour_of behaviour.now) }
    ensures { OnOk result (into.new.items ≡ into.old.items ++ behaviour_text
        (naming_of naming.now) [] (with_values
        (binding (environment_of environment.now.items)) (behaviour_of behaviour.now))) }
{
    let closed = instance(environment, behaviour)?;
    let names = Vec::new(*into.allocator());
    push_behaviour(naming, &names, &closed, into)
}

// Whether the node stands in brackets as a part.
fn is_in_brackets(node: &Node) -> bool
    ensures { result ≡ stands_in_brackets (stands_for node.now) }
{
    match node {
        Node::Stop => false,
        Node::Part(behaviour, _) => is_bracketed(behaviour),
        Node::Call { .. } => false,
        Node::Parallel(_, _, _) => true,
        Node::Hide(_, _) => true,
        Node::Enable(_, _, _, _) => true,
        Node::Disable(_, _) => true,
        Node::Relabel(_, _) => true,
    }
}

// Appends the text of a part, with its brackets where it needs some.
#[cycle(nodes)]
fn push_node_unit(naming: &Naming<'_>, part: &Node, into: &mut Vec<u8>) -> Result<(), NoMemory>
    requires { IsClosedNode part.now }
    ensures { OnOk result (into.new.items ≡ into.old.items ++ unit_text (stands_for part.now)
        (behaviour_text (naming_of naming.now) [] (stands_for part.now))) }
{
    let is_needed = is_in_brackets(part);
    let position = open_bracket(into, is_needed)?;
    push_node(naming, part, into)?;
    close_bracket(into, is_needed, position)
}

// Appends a parallel.
#[cycle(nodes)]
#[inline(never)]
fn push_parallel(
    naming: &Naming<'_>,
    meet: &Meet,
    left: &Rc<Node>,
    right: &Rc<Node>,
    into: &mut Vec<u8>,
) -> Result<(), NoMemory>
    requires { IsClosedNode left.now.value × IsClosedNode right.now.value }
    ensures { OnOk result (into.new.items ≡ into.old.items ++ behaviour_text
        (naming_of naming.now) [] (plain.parallel (meet_of meet.now)
        (stands_for left.now.value) (stands_for right.now.value))) }
{
    push_node_unit(naming, left, into)?;
    push_meet(naming, meet, into)?;
    push_node_unit(naming, right, into)
}

// Appends a hiding.
#[cycle(nodes)]
#[inline(never)]
fn push_hidden(
    naming: &Naming<'_>,
    gates: &Vec<u32>,
    part: &Rc<Node>,
    into: &mut Vec<u8>,
) -> Result<(), NoMemory>
    requires { IsClosedNode part.now.value }
    ensures { OnOk result (into.new.items ≡ into.old.items ++ behaviour_text
        (naming_of naming.now) [] (plain.hide gates.now.items
        (stands_for part.now.value))) }
{
    push_hide(naming, gates, into)?;
    push_node(naming, part, into)
}

// Appends an enabling.
#[cycle(nodes)]
#[inline(never)]
fn push_enabling(
    naming: &Naming<'_>,
    left: &Rc<Node>,
    variables: &Vec<Variable>,
    right: &Rc<Beh>,
    environment: &Vec<(u64, Sorted)>,
    into: &mut Vec<u8>,
) -> Result<(), NoMemory>
    requires { IsClosedNode left.now.value × IsClosedUnder (variables_of variables.now.items)
        environment.now.items (behaviour_of right.now.value) }
    ensures { OnOk result (into.new.items ≡ into.old.items ++ behaviour_text
        (naming_of naming.now) [] (plain.enable (stands_for left.now.value)
        (variables_of variables.now.items) (with_values
        (without (plain.numbers_of (variables_of variables.now.items))
        (binding (environment_of environment.now.items))) (behaviour_of right.now.value)))) }
{
    push_node_unit(naming, left, into)?;
    push_accept(naming, variables, into)?;
    push_following(naming, variables, right, environment, into)
}

// Appends the right side of an enabling, which sees the variables that it accepts.
fn push_following(
    naming: &Naming<'_>,
    variables: &Vec<Variable>,
    right: &Beh,
    environment: &Vec<(u64, Sorted)>,
    into: &mut Vec<u8>,
) -> Result<(), NoMemory>
    requires { IsClosedUnder (variables_of variables.now.items) environment.now.items
        (behaviour_of right.now) }
    ensures { OnOk result (into.new.items ≡ into.old.items ++ unit_text
        (with_values (without (plain.numbers_of (variables_of variables.now.items))
        (binding (environment_of environment.now.items))) (behaviour_of right.now))
        (behaviour_text (naming_of naming.now)
        (variables_of variables.now.items ++ []) (with_values
        (without (plain.numbers_of (variables_of variables.now.items))
        (binding (environment_of environment.now.items))) (behaviour_of right.now)))) }
{
    let closed = following(variables, right, environment)?;
    push_accepting(naming, variables, &closed, into)
}

// The right side of an enabling with the values of its environment put in.
fn following(
    variables: &Vec<Variable>,
    right: &Beh,
    environment: &Vec<(u64, Sorted)>,
) -> Result<Beh, NoMemory>
    requires { IsClosedUnder (variables_of variables.now.items) environment.now.items
        (behaviour_of right.now) }
    ensures { IfOk result (λ made. behaviour_of made ≡ with_values
        (without (plain.numbers_of (variables_of variables.now.items))
        (binding (environment_of environment.now.items))) (behaviour_of right.now)) }
{
    let values = values_below(environment, variables)?;
    instance(&values, right)
}

// Appends a behaviour as a part that sees these variables alone.
fn push_accepting(
    naming: &Naming<'_>,
    variables: &Vec<Variable>,
    part: &Beh,
    into: &mut Vec<u8>,
) -> Result<(), NoMemory>
    ensures { OnOk result (into.new.items ≡ into.old.items ++ unit_text (behaviour_of part.now)
        (behaviour_text (naming_of naming.now)
        (variables_of variables.now.items ++ []) (behaviour_of part.now))) }
{
    let names = below_accept(&Vec::new(*into.allocator()), variables)?;
    push_unit(naming, &names, part, into)
}

// Appends a disabling.
#[cycle(nodes)]
#[inline(never)]
fn push_disabling(
    naming: &Naming<'_>,
    left: &Rc<Node>,
    right: &Rc<Node>,
    into: &mut Vec<u8>,
) -> Result<(), NoMemory>
    requires { IsClosedNode left.now.value × IsClosedNode right.now.value }
    ensures { OnOk result (into.new.items ≡ into.old.items ++ behaviour_text
        (naming_of naming.now) [] (plain.disable (stands_for left.now.value)
        (stands_for right.now.value))) }
{
    push_node_unit(naming, left, into)?;
    push_text(into, b" [> ")?;
    push_node_unit(naming, right, into)
}

// Appends a relabelling.
#[cycle(nodes)]
#[inline(never)]
fn push_relabelled(
    naming: &Naming<'_>,
    pairs: &Vec<(u32, u32)>,
    part: &Rc<Node>,
    into: &mut Vec<u8>,
) -> Result<(), NoMemory>
    requires { IsClosedNode part.now.value }
    ensures { OnOk result (into.new.items ≡ into.old.items ++ behaviour_text
        (naming_of naming.now) [] (plain.relabel pairs.now.items
        (stands_for part.now.value))) }
{
    push_relabel(naming, pairs, into)?;
    push_node(naming, part, into)
}
