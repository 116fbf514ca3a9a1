//! The equations of a type, and premisses, which stand in behaviours too.

use crate::named::VarText;
use lotos_base::{Name, Place, Written};

/// A premiss: an equation of two terms, or one term, which has to be true.
#[derive(Debug, Drop)]
pub struct TestText {
    /// The place of its first token.
    pub place: Place,
    /// The left side, or the only term.
    pub left: Written,
    /// The right side, where there are two terms.
    pub right: Option<Written>,
}

/// An equation, with the premisses before its `=>`.
#[derive(Debug, Drop)]
pub struct EqText {
    /// The place of its first token.
    pub place: Place,
    /// The premisses in text order.
    pub premisses: Vec<TestText>,
    /// The place of `=>`, which stands there exactly where there are premisses.
    pub arrow: Option<Place>,
    /// The left side.
    pub left: Written,
    /// The right side.
    pub right: Written,
}

/// The equations behind one `ofsort`.
#[derive(Debug, Drop)]
pub struct GroupText {
    /// The place of the sort.
    pub place: Place,
    /// The sort of both sides of each equation.
    pub sort: Name,
    /// The variables that the group declares by its own `forall`.
    pub variables: Vec<VarText>,
    /// The equations in text order.
    pub equations: Vec<EqText>,
}

/// A section of equations.
#[derive(Debug, Drop)]
pub struct EqnsText {
    /// The variables of the whole section.
    pub variables: Vec<VarText>,
    /// The groups in text order, one for each `ofsort`.
    pub groups: Vec<GroupText>,
}
