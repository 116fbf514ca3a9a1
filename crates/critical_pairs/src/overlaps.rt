//! What two rules make of an overlap.

use sort_terms::Sorted;

/// An instance of the left side of a first rule in which the left side of a second rule stands at
/// some path, and what both rules make of it.
#[derive(Debug, Drop)]
pub struct Overlap {
    /// The instance.
    pub peak: Sorted,
    /// What the first rule makes of it, at the root.
    pub left: Sorted,
    /// What the second rule makes of it, at the path.
    pub right: Sorted,
}
