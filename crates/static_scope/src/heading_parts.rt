//! What stands before a body.

use lotos_base::{Name, Place};
use sort_terms::Variable;
use syntax_trees::{Named, VarText};

/// A heading with names resolved.
#[derive(Drop)]
pub struct Heading {
    /// The formal gates.
    pub gates: Vec<u32>,
    /// The parameters.
    pub parameters: Vec<Variable>,
    /// The functionality: None for `noexit`, or the sorts of `exit`.
    pub exit: Option<Vec<u32>>,
}

/// A heading as it is written, of a process or of the specification.
#[derive(Clone, Copy)]
pub struct HeadingText<'t> {
    /// The place of the name.
    pub place: Place,
    /// The name.
    pub name: &'t Name,
    /// The formal gates.
    pub gates: &'t Vec<Named>,
    /// The formal parameters.
    pub parameters: &'t Vec<VarText>,
    /// The sorts of its `exit`, or none for `noexit`.
    pub functionality: &'t Option<Vec<Named>>,
}
