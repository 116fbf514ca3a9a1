//! Equations, and the flat list of data that a text gives.

ghost use Rattle.sort_terms.specs.EquationView.{variable_of};
ghost use Rattle.std.specs.Prelude.{◌≡◌, IfOk};

use crate::signatures::Signature;
use crate::sorted::Sorted;
use lotos_base::{Name, NoMemory, Place};
use std::alloc::Global;

/// A variable with its number and the number of its sort.
#[derive(Debug, Drop)]
pub struct Variable {
    /// The name as it was declared.
    pub name: Name,
    /// Its number.
    pub number: u64,
    /// The number of its sort.
    pub sort: u32,
}

impl Variable {
    /// The same variable.
    pub fn copy(&self, alloc: Global) -> Result<Variable, NoMemory>
        ensures { IfOk result (λ v. variable_of v ≡ variable_of self.now) }
    {
        Ok(Variable {
            name: self.name.copy(alloc)?,
            number: self.number,
            sort: self.sort,
        })
    }
}

/// An equation.
#[derive(Debug, Drop)]
pub struct Equation {
    /// The place of its first token.
    pub place: Place,
    /// The variables that occur in it.
    pub variables: Vec<Variable>,
    /// The side on the left of `=`.
    pub left: Sorted,
    /// The side on the right of `=`.
    pub right: Sorted,
}

/// Data: a signature and equations over it.
#[derive(Debug, Drop)]
pub struct Flat {
    /// The sorts and operations.
    pub signature: Signature,
    /// The equations in order.
    pub equations: Vec<Equation>,
}
