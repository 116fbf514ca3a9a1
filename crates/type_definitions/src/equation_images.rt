//! Images of equations.

ghost use Rattle.sort_terms.specs.EquationView.{equation_of, variable_of};
ghost use Rattle.sort_terms.specs.Operations.{operation_of};
ghost use Rattle.sort_terms.specs.SortedView.{profiled_in};
ghost use Rattle.std.specs.Prelude.{◌≡◌, IfOk, map};
ghost use Rattle.type_definitions.specs.Images.{equation_image, variable_image};
ghost use Rattle.type_definitions.specs.ProfiledImage.{KeepsProfiles, number_in, profiled_image};

use crate::images::image;
use crate::operation_images::number_at;
use lotos_base::NoMemory;
use sort_terms::{Equation, Op, Variable};
use std::alloc::Global;
use std::rc::Rc;

/// The equation, at its place, with the new number of each sort and operation, by its old one, and
/// with the profiles of the new operations.
pub fn image_of_equation(
    alloc: Global,
    equation: &Equation,
    sorts: &[u32],
    ops: &[u32],
    profiles: &[Rc<Op>],
) -> Result<Equation, NoMemory>
    requires left { KeepsProfiles (number_in sorts.now) (number_in ops.now)
        (map (λ p. operation_of p.value) profiles.now) (profiled_in equation.now.left) }
    requires right { KeepsProfiles (number_in sorts.now) (number_in ops.now)
        (map (λ p. operation_of p.value) profiles.now) (profiled_in equation.now.right) }
    ensures image { IfOk result (λ made. equation_of made
        ≡ equation_image (number_in sorts.now) (number_in ops.now) (equation_of equation.now)) }
    ensures left { IfOk result (λ made. profiled_in made.left
        ≡ profiled_image (number_in sorts.now) (number_in ops.now)
        (map (λ p. operation_of p.value) profiles.now) (profiled_in equation.now.left)) }
    ensures right { IfOk result (λ made. profiled_in made.right
        ≡ profiled_image (number_in sorts.now) (number_in ops.now)
        (map (λ p. operation_of p.value) profiles.now) (profiled_in equation.now.right)) }
{
    let variables = images_of_variables(alloc, equation.variables.as_slice(), sorts)?;
    let left = image(&equation.left, sorts, ops, profiles)?;
    let right = image(&equation.right, sorts, ops, profiles)?;
    Ok(Equation {
        place: equation.place,
        variables,
        left,
        right,
    })
}

// The variables, each with the new number of its sort.
fn images_of_variables(
    alloc: Global,
    variables: &[Variable],
    sorts: &[u32],
) -> Result<Vec<Variable>, NoMemory>
    ensures { IfOk result (λ made. map variable_of made.items
        ≡ map (variable_image (number_in sorts.now)) (map variable_of variables.now)) }
{
    let mut made = Vec::with_capacity(alloc, variables.len())?;
    for variable in variables {
        made.push(image_of_variable(alloc, variable, sorts)?)?;
    }
    Ok(made)
}

// The variable with the new number of its sort.
fn image_of_variable(
    alloc: Global,
    variable: &Variable,
    sorts: &[u32],
) -> Result<Variable, NoMemory>
    ensures { IfOk result (λ made. variable_of made
        ≡ variable_image (number_in sorts.now) (variable_of variable.now)) }
{
    Ok(Variable {
        name: variable.name.copy(alloc)?,
        number: variable.number,
        sort: number_at(sorts, variable.sort),
    })
}
