//! Processes and specifications.

use crate::behaviours::Beh;
use lotos_base::{Name, Place};
use sort_terms::Variable;
use std::rc::Rc;

/// A process.
#[derive(Debug, Drop)]
pub struct Process {
    /// The place of the name in the definition.
    pub place: Place,
    /// The name as it was first spelled.
    pub name: Name,
    /// The formal gates.
    pub gates: Vec<u32>,
    /// The parameters.
    pub parameters: Vec<Variable>,
    /// The functionality: `None` for `noexit`, or the sorts of the values of `exit`.
    pub exit: Option<Vec<u32>>,
    /// The body.
    pub body: Beh,
}

/// A specification.
#[derive(Debug, Drop)]
pub struct Spec {
    /// The name.
    pub name: Name,
    /// The names of all gates, by their numbers.
    pub gate_names: Vec<Name>,
    /// The gates of the specification itself.
    pub gates: Vec<u32>,
    /// Its parameters.
    pub parameters: Vec<Variable>,
    /// Its functionality: `None` for `noexit`, or the sorts of the values of `exit`.
    pub exit: Option<Vec<u32>>,
    /// The place of its name.
    pub place: Place,
    /// Its body, which the state that the specification begins with shares.
    pub body: Rc<Beh>,
    /// The processes, in the order of the text.
    pub processes: Vec<Process>,
}
