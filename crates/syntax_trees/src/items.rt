//! Data types and mentions of libraries.

use crate::equations::EqnsText;
use crate::named::Named;
use lotos_base::{Form, Name, Place};

/// An operation of a type; a line `f, g: A -> B` is two of them.
#[derive(Debug, Drop)]
pub struct OpText {
    /// The place of the name, also where underscores stand round it.
    pub place: Place,
    /// The name.
    pub name: Name,
    /// Whether it was declared as `f` or as `_f_`.
    pub form: Form,
    /// The argument sorts in order.
    pub arguments: Vec<Named>,
    /// The result sort.
    pub result: Named,
}

/// A pair `new for old` of a renaming or an actualisation.
#[derive(Debug, Drop)]
pub struct PairText {
    /// The place of the new name.
    pub place: Place,
    /// The new name.
    pub given: Name,
    /// The old name.
    pub replaced: Named,
}

/// What an item is: a mention of libraries, or a type in one of its three forms.
#[derive(Debug, Drop)]
pub enum ItemBody {
    /// `library .. endlib`.
    Library(Vec<Named>),
    /// A type with sections of its own over the types that it imports.
    Extends {
        /// The name of the type.
        name: Name,
        /// The types that it imports.
        imports: Vec<Named>,
        /// The formal sorts.
        formal_sorts: Vec<Named>,
        /// The formal operations.
        formal_ops: Vec<OpText>,
        /// The formal equations.
        formal_equations: EqnsText,
        /// The sorts.
        sorts: Vec<Named>,
        /// The operations.
        ops: Vec<OpText>,
        /// The equations.
        equations: EqnsText,
    },
    /// `base renamedby ..`.
    Renames {
        /// The name of the type.
        name: Name,
        /// The type that it renames.
        base: Named,
        /// The pairs of sorts.
        sort_pairs: Vec<PairText>,
        /// The pairs of operations.
        op_pairs: Vec<PairText>,
    },
    /// `base actualizedby .. using ..`.
    Actualises {
        /// The name of the type.
        name: Name,
        /// The type whose formal parts get actual ones.
        base: Named,
        /// The types that the actual parts are from.
        actuals: Vec<Named>,
        /// The pairs of sorts.
        sort_pairs: Vec<PairText>,
        /// The pairs of operations.
        op_pairs: Vec<PairText>,
    },
}

/// An item of a text: a type at the place of its name, or a mention of libraries at its `library`.
#[derive(Debug, Drop)]
pub struct ItemText {
    /// The place.
    pub place: Place,
    /// What the item is.
    pub body: ItemBody,
}
