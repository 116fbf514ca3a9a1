//! Which parts of a node have moved, where the node is known to be another one than that for which
//! menus are kept. What is said here saves comparisons; no menu rests on it.

use crate::kept::Kept;
use behaviour_tree::Node;
use std::rc::Rc;

/// Whether the one part of the node has moved: it has, where all else is the same.
pub fn part_moved(node: &Rc<Node>, kept: Option<&Rc<Kept>>) -> bool {
    let Some(kept) = kept else {
        return true;
    };
    match (&**node, &*kept.listed().node) {
        (Node::Relabel(pairs, _), Node::Relabel(others, _)) => {
            pairs.as_slice() == others.as_slice()
        }
        (Node::Hide(gates, _), Node::Hide(others, _)) => gates.as_slice() == others.as_slice(),
        (Node::Enable(_, _, _, _), Node::Enable(_, _, _, _)) => true,
        _ => false,
    }
}

/// Whether the left side of the node has moved, and whether its right side has, as far as it is
/// seen by a comparison of the side that is no state of two sides itself.
pub fn sides_moved(node: &Rc<Node>, kept: Option<&Rc<Kept>>) -> (bool, bool) {
    let Some(kept) = kept else {
        return (true, true);
    };
    match (sides_of(node), sides_of(&kept.listed().node)) {
        (Some(sides), Some(others)) => moved_of(sides, others),
        _ => (false, false),
    }
}

// The same of both sides and what was kept for them.
fn moved_of(sides: (&Node, &Node), others: (&Node, &Node)) -> (bool, bool) {
    if stands_alone(sides.0) {
        if sides.0.same(others.0) {
            return (false, true);
        }
        return (true, seen_moved(sides.1, others.1));
    }
    if stands_alone(sides.1) {
        if sides.1.same(others.1) {
            return (true, false);
        }
        return (seen_moved(sides.0, others.0), true);
    }
    (false, false)
}

// Whether it is seen by a side that stands alone that the one node is not the other.
fn seen_moved(node: &Node, other: &Node) -> bool {
    match (sides_of(inside(node)), sides_of(inside(other))) {
        (Some(sides), Some(others)) => {
            if stands_alone(sides.0) {
                return !sides.0.same(others.0);
            }
            stands_alone(sides.1) && !sides.1.same(others.1)
        }
        _ => false,
    }
}

// Whether the node has no parts that move by themselves, a relabelling and a hiding aside.
fn stands_alone(node: &Node) -> bool {
    match inside(node) {
        Node::Stop | Node::Part(_, _) | Node::Call { .. } => true,
        _ => false,
    }
}

// What stands under a relabelling or a hiding, or the node itself.
fn inside(node: &Node) -> &Node {
    match node {
        Node::Relabel(_, part) | Node::Hide(_, part) => part,
        _ => node,
    }
}

// The two sides of the node, if it has two that move.
fn sides_of(node: &Node) -> Option<(&Node, &Node)> {
    match node {
        Node::Parallel(_, left, right) | Node::Disable(left, right) => Some((left, right)),
        _ => None,
    }
}
