//! Drafts of moves and entries of menus.

use behaviour_tree::{Label, Shape};
use sort_terms::Sorted;

/// The draft of a move: its leaves may be variables, and what has to hold is collected as
/// conditions, the two sides of each being equations that are asked.
#[derive(Debug, Drop)]
pub struct Draft {
    /// The shape.
    pub shape: Shape,
    /// The label.
    pub label: Label,
    /// The leaves. In the draft of a shape leaf number `k` is the variable number `k`.
    pub leaves: Vec<Sorted>,
    /// The conditions in order.
    pub conditions: Vec<(Sorted, Sorted)>,
}

/// An entry of a menu: a solved draft. Its variables are numbered from 0.
#[derive(Debug, Drop)]
pub struct Entry {
    /// The shape.
    pub shape: Shape,
    /// The label.
    pub label: Label,
    /// The sorts of its variables, by their numbers.
    pub vars: Vec<u32>,
    /// The leaves.
    pub leaves: Vec<Sorted>,
    /// The conditions that are left, in order.
    pub conditions: Vec<(Sorted, Sorted)>,
}
