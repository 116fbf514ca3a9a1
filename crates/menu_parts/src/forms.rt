//! What the menu of a behaviour is made from: the menus of its parts, by a rule.

ghost use Rattle.behaviour_semantics.specs.Behaviour as plain;
ghost use Rattle.behaviour_semantics.specs.Behaviour.{Behaviour};
ghost use Rattle.behaviour_tree.specs.BehaviourTerms.{let_profile, profiles_in, profiles_of};
ghost use Rattle.behaviour_tree.specs.BehaviourView.{
  behaviour_of,
  let_of,
  meet_of,
  terms_of,
  variables_of,
};
ghost use Rattle.behaviour_tree.specs.DefinitionView.{process_of};
ghost use Rattle.behaviour_tree.specs.StateView.{stands_for};
ghost use Rattle.menu_parts.specs.Forms.{IsLawfulGround, IsForm};
ghost use Rattle.sort_terms.specs.ProfiledTerm.{ProfiledTerm};
ghost use Rattle.std.specs.Prelude.{◌≡◌, ◌++◌, IfOk, List, map, zip};
ghost use Rattle.step_taker.specs.HandedOn.{KeepsData};
ghost use Rattle.step_taker.specs.Sides.{IsSideState, side_of, side_profiles};
ghost use Rattle.step_taker.specs.Taken.{Ground, ground_of};
ghost use Rattle.step_taker.specs.Walked.{IsPassable, IsPassableNode};

use crate::parts::own_node;
use behaviour_tree::boxes::shared;
use behaviour_tree::{Beh, Meet, Node, Process};
use lotos_base::NoMemory;
use shared_entries::rules::PartRule;
use shared_entries::{Call, Variant};
use sort_terms::{Deciding, Sorted, Variable};
use std::alloc::Global;
use std::rc::Rc;
use step_taker::bodies::{call_body, called_at, let_body};
use step_taker::moved::Walk;
use step_taker::side_by_side;
use step_taker::sides::Side;

/// How the menu of a behaviour is made from those of its parts.
#[derive(Drop)]
pub enum Form<'a> {
    /// It is made as a whole.
    Whole,
    /// By a rule from that of one part.
    One(PartRule<'a>, Rc<Node>),
    /// From those of both sides of `[>`.
    Either(Rc<Node>, Rc<Node>),
    /// From those of both sides of a parallel.
    Beside(&'a Meet, Rc<Node>, Rc<Node>),
}

// A form, where there is memory for it.
type Formed<'a> = Result<Form<'a>, NoMemory>;

/// The form of a node.
pub fn node_form<'a, D: Deciding>(
    walk: &Walk<'_>,
    node: &'a Node,
    decider: &mut D,
) -> Result<Form<'a>, NoMemory>
    requires base { IsLawfulGround
        (ground_of (D.known_data decider.old) (D.canon decider.old) walk.now.spec.now) }
    requires node { IsPassableNode
        (ground_of (D.known_data decider.old) (D.canon decider.old) walk.now.spec.now) node.now }
    ensures form { IfOk result (λ form. IsForm
        (ground_of (D.known_data decider.old) (D.canon decider.old) walk.now.spec.now)
        (stands_for node.now) form) }
    ensures same_known { KeepsData D.known_data D.canon decider.old decider.new }
{
    match node {
        Node::Stop => Ok(Form::Whole),
        Node::Part(behaviour, environment) => {
            if environment.len() == 0 {
                return behaviour_form(walk, behaviour, decider);
            }
            Ok(Form::Whole)
        }
        Node::Call {
            process,
            gates,
            values,
        } => call_form(walk, *process, gates, values, decider),
        Node::Parallel(meet, left, right) => {
            let left = Side::Standing(left);
            parallel_form(walk.alloc, meet, &left, &Side::Standing(right))
        }
        Node::Hide(gates, part) => hide_form(walk.alloc, gates, &Side::Standing(part)),
        Node::Enable(left, variables, _, _) => {
            enable_form(walk.alloc, variables, &Side::Standing(left))
        }
        Node::Disable(left, right) => {
            let left = Side::Standing(left);
            disable_form(walk.alloc, &left, &Side::Standing(right))
        }
        Node::Relabel(pairs, part) => relabel_form(walk.alloc, pairs, &Side::Standing(part)),
    }
}

// The form of a closed behaviour.
fn behaviour_form<'a, D: Deciding>(
    walk: &Walk<'_>,
    behaviour: &'a Beh,
    decider: &mut D,
) -> Formed<'a>
    requires base { IsLawfulGround
        (ground_of (D.known_data decider.old) (D.canon decider.old) walk.now.spec.now) }
    requires part { IsPassable
        (ground_of (D.known_data decider.old) (D.canon decider.old) walk.now.spec.now)
        (behaviour_of behaviour.now) (profiles_in behaviour.now) }
    ensures form { IfOk result (λ form. IsForm
        (ground_of (D.known_data decider.old) (D.canon decider.old) walk.now.spec.now)
        (behaviour_of behaviour.now) form) }
    ensures same_known { KeepsData D.known_data D.canon decider.old decider.new }
{
    match behaviour {
        Beh::Parallel(_, meet, left, right) => {
            let left = Side::Closed(left);
            parallel_form(walk.alloc, meet, &left, &Side::Closed(right))
        }
        Beh::Hide(gates, part) => hide_form(walk.alloc, gates, &Side::Closed(part)),
        Beh::Enable(_, left, variables, _) => {
            enable_form(walk.alloc, variables, &Side::Closed(left))
        }
        Beh::Disable(_, left, right) => {
            let left = Side::Closed(left);
            disable_form(walk.alloc, &left, &Side::Closed(right))
        }
        Beh::Let(bindings, part) => let_form(walk, bindings, part, decider),
        Beh::ParGate(gate, gates, meet, part) => copies_form(*gate, gates, meet, part),
        Beh::Call {
            place: _,
            process,
            gates,
            values,
        } => call_form(walk, *process, gates, values, decider),
        _ => Ok(Form::Whole),
    }
}

// The form of a parallel.
fn parallel_form<'a>(alloc: Global, meet: &'a Meet, left: &Side<'_>, right: &Side<'_>) -> Formed<'a>
    ensures { IfOk result (λ form. (basis : Ground) → IsLawfulGround basis
        → IsPassable basis (plain.parallel (meet_of meet.now) (side_of left.now)
        (side_of right.now)) (side_profiles left.now ++ side_profiles right.now)
        → IsSideState left.now → IsSideState right.now
        → IsForm basis (plain.parallel (meet_of meet.now) (side_of left.now)
        (side_of right.now)) form) }
{
    let first = left.node(alloc)?;
    let second = right.node(alloc)?;
    Ok(Form::Beside(meet, first, second))
}

// The form of a hiding.
fn hide_form<'a>(alloc: Global, gates: &'a Vec<u32>, part: &Side<'_>) -> Formed<'a>
    ensures { IfOk result (λ form. (basis : Ground) → IsLawfulGround basis
        → IsPassable basis (plain.hide gates.now.items (side_of part.now))
        (side_profiles part.now) → IsSideState part.now
        → IsForm basis (plain.hide gates.now.items (side_of part.now)) form) }
{
    let inner = part.node(alloc)?;
    Ok(Form::One(PartRule::Hidden(gates.as_slice()), inner))
}

// The form of an enabling, whatever its right side is.
fn enable_form<'a>(alloc: Global, variables: &'a Vec<Variable>, left: &Side<'_>) -> Formed<'a>
    ensures { IfOk result (λ form. (basis : Ground) (right : Behaviour)
        (terms : List ProfiledTerm) → IsLawfulGround basis
        → IsPassable basis (plain.enable (side_of left.now)
        (variables_of variables.now.items) right) (side_profiles left.now ++ terms)
        → IsSideState left.now → IsForm basis (plain.enable (side_of left.now)
        (variables_of variables.now.items) right) form) }
{
    let inner = left.node(alloc)?;
    Ok(Form::One(PartRule::Enabled(variables), inner))
}

// The form of a disabling.
fn disable_form<'a>(alloc: Global, left: &Side<'_>, right: &Side<'_>) -> Formed<'a>
    ensures { IfOk result (λ form. (basis : Ground) → IsLawfulGround basis
        → IsPassable basis (plain.disable (side_of left.now) (side_of right.now))
        (side_profiles left.now ++ side_profiles right.now)
        → IsSideState left.now → IsSideState right.now
        → IsForm basis (plain.disable (side_of left.now) (side_of right.now)) form) }
{
    let first = left.node(alloc)?;
    let second = right.node(alloc)?;
    Ok(Form::Either(first, second))
}

// The form of a relabelling.
fn relabel_form<'a>(alloc: Global, pairs: &Vec<(u32, u32)>, part: &Side<'_>) -> Formed<'a>
    ensures { IfOk result (λ form. (basis : Ground) → IsLawfulGround basis
        → IsPassable basis (plain.relabel pairs.now.items (side_of part.now))
        (side_profiles part.now) → IsSideState part.now
        → IsForm basis (plain.relabel pairs.now.items (side_of part.now)) form) }
{
    let inner = part.node(alloc)?;
    let pairs = Vec::from_slice(alloc, pairs)?;
    Ok(Form::One(PartRule::Relabelled(pairs, Variant::Relabelled), inner))
}

// A gate `par` of more copies is one component: its copies side by side would nest as deep.
const MOST_COPIES: usize = 100;

// The form of a gate `par`: that of its copies side by side.
fn copies_form<'a>(formal: u32, gates: &Vec<u32>, meet: &Meet, part: &Rc<Beh>) -> Formed<'a>
    ensures { IfOk result (λ form. (basis : Ground) → IsLawfulGround basis
        → IsPassable basis (plain.par_gate formal gates.now.items (meet_of meet.now)
        (behaviour_of part.now.value)) (profiles_in part.now.value)
        → IsForm basis (plain.par_gate formal gates.now.items (meet_of meet.now)
        (behaviour_of part.now.value)) form) }
{
    if gates.len() > MOST_COPIES {
        return Ok(Form::Whole);
    }
    let alloc = *gates.allocator();
    let copies = side_by_side(formal, gates, meet, part)?;
    let inner = shared(alloc, copies)?;
    Ok(Form::One(PartRule::Same, inner))
}

// Whether the menu of the behaviour is made from those of its parts.
fn has_parts(behaviour: &Beh) -> bool {
    match behaviour {
        Beh::Parallel(_, _, _, _)
        | Beh::Hide(_, _)
        | Beh::Enable(_, _, _, _)
        | Beh::Disable(_, _, _)
        | Beh::Let(_, _)
        | Beh::ParGate(_, _, _, _)
        | Beh::Call { .. } => true,
        _ => false,
    }
}

// The form of a `let`: its body with the values put in, where the body has parts.
fn let_form<'a, D: Deciding>(
    walk: &Walk<'_>,
    bindings: &Vec<(Variable, Sorted)>,
    part: &Beh,
    decider: &mut D,
) -> Formed<'a>
    requires base { IsLawfulGround
        (ground_of (D.known_data decider.old) (D.canon decider.old) walk.now.spec.now) }
    requires part { IsPassable
        (ground_of (D.known_data decider.old) (D.canon decider.old) walk.now.spec.now)
        (plain.let_be (map let_of bindings.now.items) (behaviour_of part.now))
        (map let_profile bindings.now.items ++ profiles_in part.now) }
    ensures form { IfOk result (λ form. IsForm
        (ground_of (D.known_data decider.old) (D.canon decider.old) walk.now.spec.now)
        (plain.let_be (map let_of bindings.now.items) (behaviour_of part.now)) form) }
    ensures same_known { KeepsData D.known_data D.canon decider.old decider.new }
{
    if !has_parts(part) {
        return Ok(Form::Whole);
    }
    let body = let_body(walk, bindings, part, decider)?;
    let inner = own_node(walk.alloc, body)?;
    Ok(Form::One(PartRule::Below(Variant::Bound), inner))
}

// The form of a call: the body of its process with the values put in, where the body has parts.
fn call_form<'a, D: Deciding>(
    walk: &Walk<'_>,
    process: u32,
    gates: &Vec<u32>,
    values: &Vec<Sorted>,
    decider: &mut D,
) -> Formed<'a>
    requires base { IsLawfulGround
        (ground_of (D.known_data decider.old) (D.canon decider.old) walk.now.spec.now) }
    requires part { IsPassable
        (ground_of (D.known_data decider.old) (D.canon decider.old) walk.now.spec.now)
        (plain.call process gates.now.items (terms_of values.now.items))
        (profiles_of values.now.items) }
    ensures form { IfOk result (λ form. IsForm
        (ground_of (D.known_data decider.old) (D.canon decider.old) walk.now.spec.now)
        (plain.call process gates.now.items (terms_of values.now.items)) form) }
    ensures same_known { KeepsData D.known_data D.canon decider.old decider.new }
{
    let Some(called) = called_at(walk.spec, process) else {
        return Ok(Form::Whole);
    };
    if !has_parts(&called.body) {
        return Ok(Form::Whole);
    }
    let body = call_body(walk, called, values, decider)?;
    let inner = own_node(walk.alloc, body)?;
    let pairs = relabelling(walk.alloc, called, gates)?;
    Ok(Form::One(PartRule::Relabelled(pairs, Variant::Called), inner))
}

// The relabelling of the formal gates of a process by actual ones.
fn relabelling(
    alloc: Global,
    called: &Process,
    gates: &Vec<u32>,
) -> Result<Vec<(u32, u32)>, NoMemory>
    ensures { IfOk result (λ made. made.items
        ≡ zip (process_of called.now).gates gates.now.items) }
{
    let call = Call {
        formals: &called.gates,
        actuals: gates,
    };
    call.relabelled(alloc, &[])
}
