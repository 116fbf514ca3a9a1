//! What the lines of a certificate have given so far.

use crate::surveys::Surveyed;

/// A listed pair of states.
#[derive(Clone, Copy, Debug, Drop)]
pub struct Listed {
    /// The number of its line.
    pub line: u32,
    /// The number of the left state.
    pub left: u32,
    /// The number of the right state.
    pub right: u32,
}

/// The states of each side, in the order of their numbers, and the pairs that are listed.
#[derive(Drop)]
pub struct Reading {
    /// The states on the left.
    pub lefts: Vec<Surveyed>,
    /// The states on the right.
    pub rights: Vec<Surveyed>,
    /// The pairs.
    pub pairs: Vec<Listed>,
}
