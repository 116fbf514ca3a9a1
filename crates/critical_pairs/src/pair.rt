//! Critical pairs as the calls answer them.

use sort_terms::Sorted;

/// A critical pair of two rules: an instance of the left side of the first rule in which the left
/// side of the second rule stands at the path, and what both rules make of it. Its variables are
/// numbered from 0 by first appearance in the peak.
#[derive(Debug, Drop)]
pub struct Pair {
    /// The number of the equation of the first rule.
    pub first: u32,
    /// The number of the equation of the second rule.
    pub second: u32,
    /// The path in the left side of the first rule: argument positions from 0.
    pub path: Vec<u32>,
    /// The instance of the left side of the first rule.
    pub peak: Sorted,
    /// What the first rule makes of it.
    pub left: Sorted,
    /// What the second rule makes of it.
    pub right: Sorted,
}
