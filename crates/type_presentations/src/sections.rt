//! The sections of a type.

use syntax_trees::{EqnsText, Named, OpText};

/// The sections of a type that extends others. A section that is left out is empty.
#[derive(Drop)]
pub struct SectionTexts<'a> {
    /// The formal sorts.
    pub formal_sorts: &'a [Named],
    /// The formal operations.
    pub formal_ops: &'a [OpText],
    /// The formal equations.
    pub formal_equations: &'a EqnsText,
    /// The sorts.
    pub sorts: &'a [Named],
    /// The operations.
    pub ops: &'a [OpText],
    /// The equations.
    pub equations: &'a EqnsText,
}
