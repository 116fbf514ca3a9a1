//! Certificates of induction, as they are when they were read.

use crate::statements::Statement;

/// A sort with the operations that are said to cover it, by their numbers in the signature.
#[derive(Debug, Drop)]
pub struct Cover {
    /// The number of the sort.
    pub sort: u32,
    /// The numbers of the operations, in the order in which they are written.
    pub operations: Vec<u32>,
}

/// A line of a tree of patterns.
#[derive(Debug, Drop)]
pub enum TreeLine {
    /// The variable at this path is replaced by each operation of the cover of its sort.
    Split(Vec<u32>),
    /// Some rule rewrites the pattern.
    Leaf,
}

/// The tree of an operation.
#[derive(Debug, Drop)]
pub struct PatternTree {
    /// The number of the operation.
    pub operation: u32,
    /// The lines, in preorder.
    pub lines: Vec<TreeLine>,
}

/// One of the two sides of a statement.
#[derive(Clone, Copy, Debug, PartialEq, Eq)]
pub enum Side {
    /// The left one.
    Left,
    /// The right one.
    Right,
}

/// Which side a use takes away and which one it puts there.
#[derive(Clone, Copy, Debug, PartialEq, Eq)]
pub enum Direction {
    /// The left side is replaced by the right one.
    Forward,
    /// The right side is replaced by the left one.
    Backward,
}

/// What a use takes, by its number from 0.
#[derive(Clone, Copy, Debug, PartialEq, Eq)]
pub enum Source {
    /// A lemma before this one.
    Lemma(usize),
    /// A hypothesis of the case.
    Hypothesis(usize),
}

/// A use of a lemma or a hypothesis in the goal.
#[derive(Debug, Drop)]
pub struct Use {
    /// What is used.
    pub source: Source,
    /// The side of the goal in which it is used.
    pub side: Side,
    /// The path of the term that is replaced.
    pub path: Vec<u32>,
    /// The direction.
    pub direction: Direction,
}

/// A line of a proof.
#[derive(Debug, Drop)]
pub enum ProofLine {
    /// The variable with this number is split: one case for each operation of the cover of its
    /// sort.
    Split(usize),
    /// A lemma or a hypothesis is used.
    Use(Use),
    /// Both sides are identical, and the case ends.
    Same,
}

/// A lemma with its proof. A variable of it is known by its position from 0.
#[derive(Debug, Drop)]
pub struct StatedLemma {
    /// The sorts of its variables.
    pub variables: Vec<u32>,
    /// Its two sides.
    pub statement: Statement,
    /// The lines of its proof, in preorder.
    pub lines: Vec<ProofLine>,
}

/// A certificate: covers, then trees, then lemmas.
#[derive(Debug, Drop)]
pub struct Certificate {
    /// The covers.
    pub covers: Vec<Cover>,
    /// The trees, which show the covers.
    pub trees: Vec<PatternTree>,
    /// The lemmas, each with its proof.
    pub lemmas: Vec<StatedLemma>,
}
