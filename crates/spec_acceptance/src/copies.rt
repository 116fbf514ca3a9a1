//! Copies of data.

ghost use Rattle.sort_terms.specs.EquationView.{data_of, equation_of};
ghost use Rattle.std.specs.Prelude.{◌≡◌, IfOk};

use behaviour_tree::copies::variable_copies;
use lotos_base::NoMemory;
use sort_terms::{Equation, Flat};
use std::alloc::Global;

/// The same data.
pub fn flat_copy(alloc: Global, flat: &Flat) -> Result<Flat, NoMemory>
    ensures { IfOk result (λ made. data_of made ≡ data_of flat.now) }
{
    let mut equations = Vec::with_capacity(alloc, flat.equations.len())?;
    for equation in &flat.equations {
        equations.push(equation_copy(alloc, equation)?)?;
    }
    Ok(Flat {
        signature: flat.signature.copy()?,
        equations,
    })
}

// The same equation.
fn equation_copy(alloc: Global, equation: &Equation) -> Result<Equation, NoMemory>
    ensures { IfOk result (λ made. equation_of made ≡ equation_of equation.now) }
{
    Ok(Equation {
        place: equation.place,
        variables: variable_copies(alloc, &equation.variables)?,
        left: equation.left.copy()?,
        right: equation.right.copy()?,
    })
}
