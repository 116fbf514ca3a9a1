//! Labels of moves, and derivations: which rules a move uses, and the values that it chooses.

use sort_terms::Sorted;
use std::rc::Rc;

/// The label of a move.
#[derive(Debug, Drop)]
pub enum Label {
    /// The inner event `i`.
    Inner,
    /// An event at a gate with its values.
    Gate(u32, Vec<Sorted>),
    /// Successful termination with its values.
    Exit(Vec<Sorted>),
}

/// The shape of a derivation: which rules it uses and where, without the values that are chosen.
/// Its parts have several owners.
#[derive(Debug, Drop)]
pub enum Shape {
    /// An action.
    Act,
    /// `exit`.
    Quit,
    /// `i`.
    Inner,
    /// A guard that holds.
    Guarded(Rc<Shape>),
    /// The left side of a binary behaviour.
    Left(Rc<Shape>),
    /// Its right side.
    Right(Rc<Shape>),
    /// Both sides of a parallel.
    Both(Rc<Shape>, Rc<Shape>),
    /// Under `hide`.
    Hidden(Rc<Shape>),
    /// A left side of `>>` that ended.
    Enabled(Rc<Shape>),
    /// A left side of `>>` that goes on.
    Passed(Rc<Shape>),
    /// Under `let`.
    Bound(Rc<Shape>),
    /// Under a value choice, whose value is a leaf.
    Value(Rc<Shape>),
    /// A gate choice, by the position of the gate from 0.
    Gate(u32, Rc<Shape>),
    /// A called process.
    Called(Rc<Shape>),
    /// Under a relabelling.
    Relabelled(Rc<Shape>),
}

/// A derivation. Its leaves stand in preorder: the value of a value choice before what is under it,
/// the values of an action's `?x` and of the `any` of an `exit` in order, left before right.
#[derive(Debug, Drop)]
pub struct Derivation {
    /// The shape.
    pub shape: Shape,
    /// The values that are chosen.
    pub leaves: Vec<Sorted>,
}
