//! The targets of moves.

ghost use Rattle.behaviour_instances.specs.Suited.{SuitsWhere};
ghost use Rattle.behaviour_semantics.specs.Behaviour.{
  Behaviour,
  Relabelling,
  Specification,
  call,
  numbers_of,
  relabel,
};
ghost use Rattle.behaviour_semantics.specs.Label.{
  formals_of,
  gate_under as gate_given,
  then_relabelling,
  under as made_under,
};
ghost use Rattle.behaviour_semantics.specs.Replacement.{binding_of, with_values};
ghost use Rattle.behaviour_semantics.specs.Rule.{copies, still_disabled as disabled_still};
ghost use Rattle.behaviour_semantics.specs.WellFormed.{Every, IsClosedBehaviour};
ghost use Rattle.behaviour_tree.specs.BehaviourTerms.{profiles_in, profiles_of};
ghost use Rattle.behaviour_tree.specs.BehaviourView.{
  behaviour_of,
  meet_of,
  terms_of,
  variables_of,
};
ghost use Rattle.behaviour_tree.specs.Closed.{AreGroundValues, IsClosedBy, IsFree};
ghost use Rattle.behaviour_tree.specs.MoveView.{label_of};
ghost use Rattle.behaviour_tree.specs.Over.{AreTermsOf};
ghost use Rattle.behaviour_tree.specs.StateView.{
  environment_of,
  node_profiles,
  number_of,
  pair_profile,
  stands_for,
};
ghost use Rattle.behaviour_tree.specs.declared.states.Node.{Node as Entire, Stop};
ghost use Rattle.sort_terms.specs.SortedView.{term_in};
ghost use Rattle.sort_terms.specs.declared.sorted.Sorted.{Sorted as Value};
ghost use Rattle.std.specs.Prelude.{
  ◌≡◌,
  ◌++◌,
  ◌∷◌,
  [],
  ℕ,
  IfOk,
  List,
  None,
  Some,
  filter,
  map,
  zip,
};
ghost use Rattle.step_parts.specs.Beside.{HasClosedRest, StandsBeside, rest_profiles};
ghost use Rattle.step_parts.specs.TargetNodes.{
  HasClosedParts,
  IsAccepting,
  is_lacking,
  pair_given,
  stands_apart,
  unbound,
};
ghost use Rattle.lotos_base.specs.Signature.{Signature};
ghost use Rattle.lotos_base.specs.Sorting.{IsGround};
ghost use Rattle.lotos_base.specs.Substitution.{binding, is_listed, without};
ghost use Rattle.term_match.specs.SubstView.{profiled_pairs};

use crate::labels::ends;
use behaviour_instances::instance;
use behaviour_tree::boxes::{owner, shared};
use behaviour_tree::copies::term_copies;
use behaviour_tree::states::add_pair;
use behaviour_tree::{Beh, Label, Meet, Node};
use draft_parts::rules::gate_under;
use lotos_base::NoMemory;
use sort_terms::{Sorted, Variable};
use std::alloc::Global;
use std::rc::Rc;

/// The closed behaviour as a node.
pub fn part(alloc: Global, behaviour: Rc<Beh>) -> Node
    ensures same { stands_for result ≡ behaviour_of behaviour.value }
    ensures terms { (signature : Signature) → AreTermsOf signature (profiles_in behaviour.value)
        → AreTermsOf signature (node_profiles result) }
    ensures closed_parts { (signature : Signature) (specification : Specification)
        → IsClosedBehaviour signature specification (behaviour_of behaviour.value)
        → HasClosedParts result }
{
    Node::Part(behaviour, Vec::new(alloc))
}

// The behaviour with the values of the environment put in. Where there are none, it is shared.
fn closed(behaviour: &Rc<Beh>, environment: &Vec<(u64, Sorted)>) -> Result<Rc<Beh>, NoMemory>
    requires { SuitsWhere (profiled_pairs environment.now.items)
        (λ n s. IsFree n s (behaviour_of behaviour.now.value)) }
    ensures same { IfOk result (λ b. behaviour_of b.value
        ≡ with_values (binding (environment_of environment.now.items))
        (behaviour_of behaviour.now.value)) }
    ensures terms { IfOk result (λ b. (signature : Signature)
        → AreTermsOf signature (profiles_in behaviour.now.value)
        → AreTermsOf signature (map pair_profile environment.now.items)
        → AreTermsOf signature (profiles_in b.value)) }
{
    if environment.len() == 0 {
        return owner(behaviour);
    }
    let made = instance(environment, behaviour)?;
    shared(*environment.allocator(), made)
}

/// The target of a left side of `[>`: the disabling is gone after the left side has ended.
pub fn still_disabled(
    alloc: Global,
    label: &Label,
    target: Rc<Node>,
    right: Rc<Node>,
) -> Result<Rc<Node>, NoMemory>
    ensures same { IfOk result (λ made. stands_for made.value ≡ disabled_still (label_of label.now)
        (stands_for target.value) (stands_for right.value)) }
    ensures terms { IfOk result (λ made. (signature : Signature)
        → AreTermsOf signature (node_profiles target.value)
        → AreTermsOf signature (node_profiles right.value)
        → AreTermsOf signature (node_profiles made.value)) }
    ensures closed_parts { IfOk result (λ made. HasClosedParts target.value
        → HasClosedParts right.value → HasClosedParts made.value) }
{
    if ends(label) {
        return Ok(target);
    }
    shared(alloc, Node::Disable(target, right))
}

/// The right side of `>>` with the values that the left side ended with.
pub fn accepted(
    right: Rc<Beh>,
    variables: &Vec<Variable>,
    values: Vec<Sorted>,
    environment: &Vec<(u64, Sorted)>,
) -> Result<Node, NoMemory>
    requires { AreGroundValues environment.now.items }
    ensures same { IfOk result (λ made. stands_for made
        ≡ with_values (binding_of (variables_of variables.now.items) (terms_of values.items))
        (with_values (without (numbers_of (variables_of variables.now.items))
        (binding (environment_of environment.now.items))) (behaviour_of right.value))) }
    ensures terms { IfOk result (λ made. (signature : Signature)
        → AreTermsOf signature (profiles_in right.value)
        → AreTermsOf signature (map pair_profile environment.now.items)
        → AreTermsOf signature (profiles_of values.items)
        → AreTermsOf signature (node_profiles made)) }
    ensures closed_parts { IfOk result (λ made. (signature : Signature)
        (specification : Specification) → IsAccepting signature specification
        (variables_of variables.now.items) environment.now.items values.items
        (behaviour_of right.value) → HasClosedParts made) }
{
    let left = left_free(environment, variables)?;
    Ok(Node::Part(right, with_pairs(left, variables, values)?))
}

// The pairs of other variables.
fn left_free(
    environment: &Vec<(u64, Sorted)>,
    variables: &Vec<Variable>,
) -> Result<Vec<(u64, Sorted)>, NoMemory>
    ensures same { IfOk result (λ made. environment_of made.items
        ≡ environment_of (unbound (numbers_of (variables_of variables.now.items))
        environment.now.items)) }
    ensures terms { IfOk result (λ made. map pair_profile made.items
        ≡ map pair_profile (unbound (numbers_of (variables_of variables.now.items))
        environment.now.items)) }
{
    let mut left = Vec::with_capacity(*environment.allocator(), environment.len())?;
    for pair in environment {
        push_free(&mut left, pair, variables)?;
    }
    Ok(left)
}

// The pairs with one more, where it is of another variable.
fn push_free(
    pairs: &mut Vec<(u64, Sorted)>,
    pair: &(u64, Sorted),
    variables: &Vec<Variable>,
) -> Result<(), NoMemory>
    ensures same { IfOk result (λ _. (rest : List (ℕ × Value)) → environment_of pairs.new.items
        ++ environment_of (unbound (numbers_of (variables_of variables.now.items)) rest)
        ≡ environment_of pairs.old.items ++ environment_of
        (unbound (numbers_of (variables_of variables.now.items)) (pair.now ∷ rest))) }
    ensures terms { IfOk result (λ _. (rest : List (ℕ × Value)) → map pair_profile pairs.new.items
        ++ map pair_profile (unbound (numbers_of (variables_of variables.now.items)) rest)
        ≡ map pair_profile pairs.old.items ++ map pair_profile
        (unbound (numbers_of (variables_of variables.now.items)) (pair.now ∷ rest))) }
{
    if binds(variables, pair.0) {
        return Ok(());
    }
    let value = pair.1.copy()?;
    Ok(pairs.push((pair.0, value))?)
}

// Whether one of the variables has the number.
fn binds(variables: &Vec<Variable>, number: u64) -> bool
    ensures { result ≡ is_listed (numbers_of (variables_of variables.now.items)) number }
{
    for variable in variables {
        if variable.number == number {
            return true;
        }
    }
    false
}

// The pairs with those of the variables and the values, one by one.
fn with_pairs(
    left: Vec<(u64, Sorted)>,
    variables: &Vec<Variable>,
    values: Vec<Sorted>,
) -> Result<Vec<(u64, Sorted)>, NoMemory>
    ensures { IfOk result (λ made. made.items
        ≡ left.items ++ zip (map number_of variables.now.items) values.items) }
{
    let mut pairs = left;
    let mut rest = values;
    rest.reverse();
    for variable in variables {
        add_pair(&mut pairs, variable.number, rest.pop())?;
    }
    Ok(pairs)
}

/// The node under a relabelling: `stop` stays, a call has its actual gates relabelled, a relabelled
/// node has the two relabellings as one, and any other node is relabelled.
pub fn under(alloc: Global, node: &Rc<Node>, pairs: Vec<(u32, u32)>) -> Result<Node, NoMemory>
    requires { HasClosedParts node.now.value }
    ensures same { IfOk result
        (λ made. stands_for made ≡ made_under (stands_for node.now.value) pairs.items) }
    ensures terms { IfOk result (λ made. (signature : Signature)
        → AreTermsOf signature (node_profiles node.now.value)
        → AreTermsOf signature (node_profiles made)) }
    ensures closed_parts { IfOk result (λ made. (signature : Signature)
        (specification : Specification)
        → IsClosedBehaviour signature specification (stands_for node.now.value)
        → HasClosedParts made) }
{
    match &**node {
        Node::Stop => Ok(Node::Stop),
        Node::Part(behaviour, environment) => {
            if stays_apart(behaviour) {
                return relabelled(node, pairs);
            }
            beh_under(alloc, &closed(behaviour, environment)?, pairs)
        }
        Node::Call {
            process,
            gates,
            values,
        } => call_under(alloc, *process, gates, values, &pairs),
        Node::Relabel(inner, target) => relabelled(target, in_turn(alloc, inner, &pairs)?),
        _ => relabelled(node, pairs),
    }
}

// The node with a relabelling before it.
fn relabelled(node: &Rc<Node>, pairs: Vec<(u32, u32)>) -> Result<Node, NoMemory>
    ensures same { IfOk result
        (λ made. stands_for made ≡ relabel pairs.items (stands_for node.now.value)) }
    ensures terms { IfOk result (λ made. node_profiles made ≡ node_profiles node.now.value) }
    ensures closed_parts { IfOk result
        (λ made. HasClosedParts node.now.value → HasClosedParts made) }
{
    let inside = owner(node)?;
    Ok(Node::Relabel(pairs, inside))
}

// A call with its actual gates relabelled.
fn call_under(
    alloc: Global,
    process: u32,
    gates: &Vec<u32>,
    values: &Vec<Sorted>,
    pairs: &Vec<(u32, u32)>,
) -> Result<Node, NoMemory>
    ensures same { IfOk result (λ made. stands_for made ≡ call process
        (map (gate_given pairs.now.items) gates.now.items) (terms_of values.now.items)) }
    ensures terms { IfOk result (λ made. node_profiles made ≡ profiles_of values.now.items) }
    ensures closed_parts { IfOk result
        (λ made. Every (λ (value : Value). IsGround (term_in value)) values.now.items
        → HasClosedParts made) }
{
    let gates = gates_under(alloc, pairs, gates)?;
    let values = term_copies(alloc, values)?;
    Ok(Node::Call {
        process,
        gates,
        values,
    })
}

// Whether the behaviour is neither `stop` nor a call.
fn stays_apart(behaviour: &Beh) -> bool
    ensures { result ≡ stands_apart behaviour.now }
{
    match behaviour {
        Beh::Stop => false,
        Beh::Call { .. } => false,
        _ => true,
    }
}

// The closed behaviour under a relabelling.
fn beh_under(alloc: Global, behaviour: &Rc<Beh>, pairs: Vec<(u32, u32)>) -> Result<Node, NoMemory>
    ensures same { IfOk result
        (λ made. stands_for made ≡ made_under (behaviour_of behaviour.now.value) pairs.items) }
    ensures terms { IfOk result (λ made. (signature : Signature)
        → AreTermsOf signature (profiles_in behaviour.now.value)
        → AreTermsOf signature (node_profiles made)) }
    ensures closed_parts { IfOk result (λ made. (signature : Signature)
        (specification : Specification)
        → IsClosedBehaviour signature specification (behaviour_of behaviour.now.value)
        → HasClosedParts made) }
{
    match &**behaviour {
        Beh::Stop => Ok(Node::Stop),
        Beh::Call {
            place: _,
            process,
            gates,
            values,
        } => call_under(alloc, *process, gates, values, &pairs),
        _ => other_under(alloc, behaviour, pairs),
    }
}

// The same of a behaviour that is neither `stop` nor a call.
fn other_under(alloc: Global, behaviour: &Rc<Beh>, pairs: Vec<(u32, u32)>) -> Result<Node, NoMemory>
    ensures same { IfOk result
        (λ made. stands_for made ≡ relabel pairs.items (behaviour_of behaviour.now.value)) }
    ensures terms { IfOk result (λ made. (signature : Signature)
        → AreTermsOf signature (profiles_in behaviour.now.value)
        → AreTermsOf signature (node_profiles made)) }
    ensures closed_parts { IfOk result (λ made. (signature : Signature)
        (specification : Specification)
        → IsClosedBehaviour signature specification (behaviour_of behaviour.now.value)
        → HasClosedParts made) }
{
    let inside = owner(behaviour)?;
    let node = shared(alloc, part(alloc, inside))?;
    Ok(Node::Relabel(pairs, node))
}

// The gates under a relabelling.
fn gates_under(
    alloc: Global,
    pairs: &Vec<(u32, u32)>,
    gates: &Vec<u32>,
) -> Result<Vec<u32>, NoMemory>
    ensures { IfOk result
        (λ made. made.items ≡ map (gate_given pairs.now.items) gates.now.items) }
{
    let mut made = Vec::with_capacity(alloc, gates.len())?;
    for gate in gates {
        made.push(gate_under(pairs.as_slice(), *gate))?;
    }
    Ok(made)
}

// The first relabelling and then the second, as one.
fn in_turn(
    alloc: Global,
    first: &Vec<(u32, u32)>,
    second: &Vec<(u32, u32)>,
) -> Result<Vec<(u32, u32)>, NoMemory>
    ensures { IfOk result
        (λ made. made.items ≡ then_relabelling first.now.items second.now.items) }
{
    let mut made = first_under(alloc, first, second)?;
    add_lacking(&mut made, first, second)?;
    Ok(made)
}

// The pairs of the first with their actual gates relabelled by the second.
fn first_under(
    alloc: Global,
    first: &Vec<(u32, u32)>,
    second: &Vec<(u32, u32)>,
) -> Result<Vec<(u32, u32)>, NoMemory>
    ensures { IfOk result (λ made. made.items ≡ map (pair_given second.now.items) first.now.items) }
{
    let mut made = Vec::with_capacity(alloc, first.len())?;
    for pair in first {
        made.push((pair.0, gate_under(second.as_slice(), pair.1)))?;
    }
    Ok(made)
}

// The pairs with those of the second relabelling whose formal gates the first lacks.
fn add_lacking(
    made: &mut Vec<(u32, u32)>,
    first: &Vec<(u32, u32)>,
    second: &Vec<(u32, u32)>,
) -> Result<(), NoMemory>
    ensures { IfOk result (λ _. made.new.items
        ≡ made.old.items ++ filter (is_lacking first.now.items) second.now.items) }
{
    for pair in second {
        push_lacking(made, first, *pair)?;
    }
    Ok(())
}

// The pairs with one more, where the first relabelling lacks its formal gate.
fn push_lacking(
    made: &mut Vec<(u32, u32)>,
    first: &Vec<(u32, u32)>,
    pair: (u32, u32),
) -> Result<(), NoMemory>
    ensures { IfOk result (λ _. (rest : Relabelling) → made.new.items
        ++ filter (is_lacking first.now.items) rest
        ≡ made.old.items ++ filter (is_lacking first.now.items) (pair ∷ rest)) }
{
    if has_formal(first, pair.0) {
        return Ok(());
    }
    Ok(made.push(pair)?)
}

// Whether the gate is one of the formal gates.
fn has_formal(pairs: &Vec<(u32, u32)>, gate: u32) -> bool
    ensures { result ≡ is_listed (formals_of pairs.now.items) gate }
{
    for pair in pairs {
        if pair.0 == gate {
            return true;
        }
    }
    false
}

/// The copies of the body of a gate `par`, each relabelled by one gate of the list, side by side.
pub fn side_by_side(
    formal: u32,
    gates: &Vec<u32>,
    meet: &Meet,
    body: &Rc<Beh>,
) -> Result<Node, NoMemory>
    ensures same { IfOk result (λ made. stands_for made
        ≡ copies formal gates.now.items (meet_of meet.now) (behaviour_of body.now.value)) }
    ensures terms { IfOk result (λ made. (signature : Signature)
        → AreTermsOf signature (profiles_in body.now.value)
        → AreTermsOf signature (node_profiles made)) }
    ensures closed_parts { IfOk result (λ made. (signature : Signature)
        (specification : Specification)
        → IsClosedBehaviour signature specification (behaviour_of body.now.value)
        → HasClosedParts made) }
{
    let alloc = *gates.allocator();
    let mut rest = None;
    let mut at = gates.len();
    while at > 0 {
        at -= 1;
        let copy = copied(alloc, formal, gates[at], body)?;
        rest = Some(beside(alloc, copy, rest, meet)?);
    }
    Ok(or_stop(rest))
}

// The node, or `stop` where there is none.
fn or_stop(node: Option<Node>) -> Node
    ensures some { (whole : Entire) → node ≡ Some whole → result ≡ whole }
    ensures none { node ≡ None → result ≡ Stop }
{
    match node {
        None => Node::Stop,
        Some(whole) => whole,
    }
}

/// The relabelling of one formal gate by an actual one.
pub fn gate_pair(alloc: Global, formal: u32, actual: u32) -> Result<Vec<(u32, u32)>, NoMemory>
    ensures { IfOk result (λ made. made.items ≡ (formal, actual) ∷ []) }
{
    let mut pairs = Vec::new(alloc);
    pairs.push((formal, actual))?;
    Ok(pairs)
}

// The copy of the body for one gate.
fn copied(alloc: Global, formal: u32, actual: u32, body: &Rc<Beh>) -> Result<Node, NoMemory>
    ensures same { IfOk result (λ made. stands_for made
        ≡ made_under (behaviour_of body.now.value) ((formal, actual) ∷ [])) }
    ensures terms { IfOk result (λ made. (signature : Signature)
        → AreTermsOf signature (profiles_in body.now.value)
        → AreTermsOf signature (node_profiles made)) }
    ensures closed_parts { IfOk result (λ made. (signature : Signature)
        (specification : Specification)
        → IsClosedBehaviour signature specification (behaviour_of body.now.value)
        → HasClosedParts made) }
{
    let pairs = gate_pair(alloc, formal, actual)?;
    beh_under(alloc, body, pairs)
}

// The node beside what comes after it, if anything does.
fn beside(alloc: Global, node: Node, rest: Option<Node>, meet: &Meet) -> Result<Node, NoMemory>
    ensures same { IfOk result (λ made. (behaviours : List Behaviour)
        → StandsBeside (meet_of meet.now) rest behaviours
        → StandsBeside (meet_of meet.now) (Some made) (stands_for node ∷ behaviours)) }
    ensures terms { IfOk result (λ made. node_profiles made
        ≡ node_profiles node ++ rest_profiles rest) }
    ensures closed_parts { IfOk result (λ made. HasClosedParts node → HasClosedRest rest
        → HasClosedParts made) }
{
    match rest {
        None => Ok(node),
        Some(rest) => {
            let left = shared(alloc, node)?;
            let right = shared(alloc, rest)?;
            Ok(Node::Parallel(meet.copy(alloc)?, left, right))
        }
    }
}
