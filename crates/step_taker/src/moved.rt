//! Moves of parts, and what a walk goes through a behaviour with.

use behaviour_tree::{Label, Node, Spec};
use sort_terms::Sorted;
use std::alloc::Global;
use std::rc::Rc;
use step_parts::faults::At;

/// A move of a part: its label and target, and where the walk goes on behind it.
#[derive(Debug, Drop)]
pub struct Moved {
    /// The label.
    pub label: Label,
    /// The target.
    pub target: Rc<Node>,
    /// The number of the node behind those of the part, and that of the first leaf behind its own.
    pub behind: At,
}

/// What a walk goes through a behaviour with: the specification and the leaves.
#[derive(Drop)]
pub struct Walk<'a> {
    /// The specification.
    pub spec: &'a Spec,
    /// The leaves of the whole derivation.
    pub leaves: &'a [Sorted],
    /// Where memory is taken.
    pub alloc: Global,
}
