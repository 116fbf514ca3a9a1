//! States: closed behaviours that share the behaviours of the specification, with environments for
//! their free variables.

ghost use Rattle.behaviour_semantics.specs.Replacement.{binding_of, with_values};
ghost use Rattle.behaviour_tree.specs.BehaviourTerms.{profiles_in, profiles_of};
ghost use Rattle.behaviour_tree.specs.BehaviourView.{behaviour_of, terms_of, variables_of};
ghost use Rattle.behaviour_tree.specs.Closed.{IsClosedNode};
ghost use Rattle.behaviour_tree.specs.NodeContent.{content_of};
ghost use Rattle.behaviour_tree.specs.Over.{IsStart};
ghost use Rattle.behaviour_tree.specs.StateView.{
  node_profiles,
  number_of,
  pairs_with,
  stands_for,
  state_of,
};
ghost use Rattle.std.specs.Prelude.{◌≡◌, ◌++◌, IfOk, map, zip};

use crate::behaviours::{Beh, Meet};
use crate::boxes::owner;
use crate::copies::{environment_copy, term_copies, variable_copies};
use crate::definitions::Spec;
use lotos_base::NoMemory;
use sort_terms::{Sorted, Variable};
use std::alloc::Global;
use std::rc::Rc;

/// A closed behaviour, or a part of one. The pairs of an environment are variables by their numbers
/// with ground values. Behaviours and parts are shared: a step makes the nodes on its way anew, and
/// the states before and after it share all others.
#[derive(Debug, Drop)]
pub enum Node {
    /// `stop`.
    Stop,
    /// A behaviour with values for its free variables.
    Part(Rc<Beh>, Vec<(u64, Sorted)>),
    /// A call of a process.
    Call {
        /// The process.
        process: u32,
        /// The actual gates.
        gates: Vec<u32>,
        /// The actual values.
        values: Vec<Sorted>,
    },
    /// `B |[..]| C`.
    Parallel(Meet, Rc<Node>, Rc<Node>),
    /// `hide .. in B`.
    Hide(Vec<u32>, Rc<Node>),
    /// `B >> accept .. in C`, with values for the free variables of `C` other than the accepted.
    Enable(Rc<Node>, Vec<Variable>, Rc<Beh>, Vec<(u64, Sorted)>),
    /// `B [> C`.
    Disable(Rc<Node>, Rc<Node>),
    /// `B` under a relabelling: pairs of a formal and an actual gate, with distinct formal gates.
    Relabel(Vec<(u32, u32)>, Rc<Node>),
}

/// A state of a specification.
#[derive(Debug, Drop)]
pub struct State {
    node: Node,
}

impl State {
    /// The state in which the specification begins, with these values for its parameters.
    pub fn start(alloc: Global, spec: &Spec, values: Vec<Sorted>) -> Result<State, NoMemory>
        requires { IsStart spec.now values.items }
        ensures begins { IfOk result (λ s. state_of s
            ≡ with_values (binding_of (variables_of spec.now.parameters.items)
            (terms_of values.items)) (behaviour_of spec.now.body.value)) }
        ensures terms { IfOk result (λ s. node_profiles s.node
            ≡ profiles_in spec.now.body.value ++ profiles_of values.items) }
        ensures closed { IfOk result (λ s. IsClosedNode s.node) }
    {
        let environment = environment(alloc, &spec.parameters, values)?;
        let body = owner(&spec.body)?;
        Ok(State::of(Node::Part(body, environment)))
    }

    /// The state that this node is.
    pub fn of(node: Node) -> State
        requires { IsClosedNode node }
        ensures { result.node ≡ node }
    {
        State { node }
    }

    /// The node that the state is.
    pub fn node(&self) -> &Node
        ensures { result.now ≡ self.now.node }
    {
        &self.node
    }

    /// The same state: its node holds the same.
    pub fn copy(&self, alloc: Global) -> Result<State, NoMemory>
        ensures node { IfOk result (λ s. content_of s.node ≡ content_of self.now.node) }
        ensures same { IfOk result (λ s. state_of s ≡ state_of self.now) }
        ensures terms { IfOk result (λ s. node_profiles s.node ≡ node_profiles self.now.node) }
        ensures closed { IfOk result (λ s. IsClosedNode self.now.node → IsClosedNode s.node) }
    {
        Ok(State {
            node: self.node.copy(alloc)?,
        })
    }
}

// The variables with their values.
fn environment(
    alloc: Global,
    variables: &Vec<Variable>,
    values: Vec<Sorted>,
) -> Result<Vec<(u64, Sorted)>, NoMemory>
    ensures { IfOk result (λ made. made.items
        ≡ zip (map number_of variables.now.items) values.items) }
{
    let mut made = Vec::with_capacity(alloc, values.len())?;
    let mut rest = values;
    rest.reverse();
    for variable in variables {
        add_pair(&mut made, variable.number, rest.pop())?;
    }
    Ok(made)
}

/// The pairs with one more, where there is a value.
pub fn add_pair(
    pairs: &mut Vec<(u64, Sorted)>,
    number: u64,
    value: Option<Sorted>,
) -> Result<(), NoMemory>
    ensures { IfOk result (λ _. pairs.new.items ≡ pairs.old.items ++ pairs_with number value) }
{
    match value {
        None => Ok(()),
        Some(value) => Ok(pairs.push((number, value))?),
    }
}

impl Node {
    /// The same node: of this form, with the same lists, behaviours and parts. These parts are
    /// shared.
    pub fn copy(&self, alloc: Global) -> Result<Node, NoMemory>
        ensures node { IfOk result (λ n. content_of n ≡ content_of self.now) }
        ensures same { IfOk result (λ n. stands_for n ≡ stands_for self.now) }
        ensures terms { IfOk result (λ n. node_profiles n ≡ node_profiles self.now) }
        ensures closed { IfOk result (λ n. IsClosedNode self.now → IsClosedNode n) }
    {
        match self {
            Node::Stop => Ok(Node::Stop),
            Node::Part(behaviour, environment) => {
                let environment = environment_copy(alloc, environment)?;
                Ok(Node::Part(owner(behaviour)?, environment))
            }
            Node::Call {
                process,
                gates,
                values,
            } => {
                let gates = Vec::from_slice(alloc, gates)?;
                let values = term_copies(alloc, values)?;
                Ok(Node::Call {
                    process: *process,
                    gates,
                    values,
                })
            }
            Node::Parallel(meet, left, right) => {
                let meet = meet.copy(alloc)?;
                let left = owner(left)?;
                Ok(Node::Parallel(meet, left, owner(right)?))
            }
            Node::Hide(gates, part) => {
                let gates = Vec::from_slice(alloc, gates)?;
                Ok(Node::Hide(gates, owner(part)?))
            }
            Node::Enable(left, variables, right, environment) => {
                let left = owner(left)?;
                let variables = variable_copies(alloc, variables)?;
                let right = owner(right)?;
                Ok(Node::Enable(
                    left,
                    variables,
                    right,
                    environment_copy(alloc, environment)?,
                ))
            }
            Node::Disable(left, right) => {
                let left = owner(left)?;
                Ok(Node::Disable(left, owner(right)?))
            }
            Node::Relabel(pairs, part) => {
                let pairs = Vec::from_slice(alloc, pairs)?;
                Ok(Node::Relabel(pairs, owner(part)?))
            }
        }
    }
}
