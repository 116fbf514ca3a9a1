//! Names at their places, and variables with their sorts.

use lotos_base::{Name, Place};

/// A name with the place where it stands.
pub type Named = (Place, Name);

/// A variable with its sort; a list `x, y: S` is two of them.
#[derive(Debug, Drop)]
pub struct VarText {
    /// The place of the variable.
    pub place: Place,
    /// The variable.
    pub name: Name,
    /// Its sort.
    pub sort: Name,
    /// The place of the sort, which several variables may share.
    pub sort_place: Place,
}
