//! Whether parts of a node stand side by side, and which.

ghost use Rattle.behaviour_semantics.specs.Behaviour as plain;
ghost use Rattle.behaviour_tree.specs.BehaviourTerms.{profiles_in};
ghost use Rattle.behaviour_tree.specs.BehaviourView.{behaviour_of, meet_of};
ghost use Rattle.behaviour_tree.specs.StateView.{stands_for};
ghost use Rattle.menu_parts.specs.Forms.{IsLawfulGround};
ghost use Rattle.menu_parts.specs.Spread.{IsOpened};
ghost use Rattle.std.specs.Prelude.{◌++◌, IfOk};
ghost use Rattle.step_taker.specs.Sides.{IsSideState, side_of, side_profiles};
ghost use Rattle.step_taker.specs.Taken.{Ground};
ghost use Rattle.step_taker.specs.Walked.{IsPassable, IsPassableNode};

use behaviour_tree::{Beh, Meet, Node};
use lotos_base::NoMemory;
use std::alloc::Global;
use std::rc::Rc;
use step_taker::sides::Side;

/// The parts of a node that stand side by side, or what holds them.
#[derive(Drop)]
pub enum Opened {
    /// It has none.
    Alone,
    /// They stand under a relabelling.
    Relabelled(Vec<(u32, u32)>, Rc<Node>),
    /// It is the parallel of both sides, which meet at no gate.
    Beside(Rc<Node>, Rc<Node>),
}

/// Whether the node has parts side by side, a relabelling before them aside. No clause speaks of
/// it: with either answer the menus are the same.
pub fn spreads(node: &Node) -> bool {
    match node {
        Node::Relabel(_, part) => is_beside(part),
        _ => is_beside(node),
    }
}

// Whether the node is a parallel whose sides meet at no gate.
fn is_beside(node: &Node) -> bool {
    match node {
        Node::Parallel(Meet::Nothing, _, _) => true,
        Node::Part(behaviour, _) => match &**behaviour {
            Beh::Parallel(_, Meet::Nothing, _, _) => true,
            _ => false,
        },
        _ => false,
    }
}

// What is opened, where there is memory for it.
type Opening = Result<Opened, NoMemory>;

/// The parts of the node that stand side by side, or the one under its relabelling.
pub fn open_node(alloc: Global, node: &Node) -> Result<Opened, NoMemory>
    ensures { IfOk result (λ made. (basis : Ground) → IsLawfulGround basis
        → IsPassableNode basis node.now → IsOpened basis (stands_for node.now) made) }
{
    match node {
        Node::Relabel(pairs, part) => open_relabelling(alloc, pairs, &Side::Standing(part)),
        Node::Parallel(meet, left, right) => {
            let left = Side::Standing(left);
            open_parallel(alloc, meet, &left, &Side::Standing(right))
        }
        Node::Part(behaviour, environment) => {
            if environment.len() == 0 {
                return open_behaviour(alloc, behaviour);
            }
            Ok(Opened::Alone)
        }
        _ => Ok(Opened::Alone),
    }
}

// The same of a closed behaviour.
fn open_behaviour(alloc: Global, behaviour: &Beh) -> Opening
    ensures { IfOk result (λ made. (basis : Ground) → IsLawfulGround basis
        → IsPassable basis (behaviour_of behaviour.now) (profiles_in behaviour.now)
        → IsOpened basis (behaviour_of behaviour.now) made) }
{
    match behaviour {
        Beh::Parallel(_, meet, left, right) => {
            let left = Side::Closed(left);
            open_parallel(alloc, meet, &left, &Side::Closed(right))
        }
        _ => Ok(Opened::Alone),
    }
}

// The same of a relabelling.
fn open_relabelling(alloc: Global, pairs: &Vec<(u32, u32)>, part: &Side<'_>) -> Opening
    ensures { IfOk result (λ made. (basis : Ground) → IsLawfulGround basis
        → IsPassable basis (plain.relabel pairs.now.items (side_of part.now))
        (side_profiles part.now) → IsSideState part.now
        → IsOpened basis (plain.relabel pairs.now.items (side_of part.now)) made) }
{
    let inner = part.node(alloc)?;
    let pairs = Vec::from_slice(alloc, pairs)?;
    Ok(Opened::Relabelled(pairs, inner))
}

// The same of a parallel.
fn open_parallel(alloc: Global, meet: &Meet, left: &Side<'_>, right: &Side<'_>) -> Opening
    ensures { IfOk result (λ made. (basis : Ground) → IsLawfulGround basis
        → IsPassable basis (plain.parallel (meet_of meet.now) (side_of left.now)
        (side_of right.now)) (side_profiles left.now ++ side_profiles right.now)
        → IsSideState left.now → IsSideState right.now
        → IsOpened basis (plain.parallel (meet_of meet.now) (side_of left.now)
        (side_of right.now)) made) }
{
    match meet {
        Meet::Nothing => {
            let first = left.node(alloc)?;
            let second = right.node(alloc)?;
            Ok(Opened::Beside(first, second))
        }
        _ => Ok(Opened::Alone),
    }
}
