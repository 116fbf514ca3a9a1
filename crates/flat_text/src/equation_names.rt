//! The names that the variables of equations are given.

ghost use Rattle.flat_text.specs.EquationNames.{free_names, variables_under_names};
ghost use Rattle.flat_text.specs.WritingView.{HasTheseNames, HaveAtMost};
ghost use Rattle.lotos_base.specs.Name.{spelling};
ghost use Rattle.scope_parts.specs.BindingsView.{bindings_in};
ghost use Rattle.sort_terms.specs.EquationView.{variable_of};
ghost use Rattle.sort_terms.specs.Operations.{operation_of};
ghost use Rattle.std.specs.Prelude.{◌≡◌, IfOk, map};

use crate::free_names::{following, least_free, with_number};
use lotos_base::{Name, NoMemory};
use scope_parts::bindings::Bindings;
use sort_terms::{Equation, Op, Variable};
use std::alloc::Global;

/// So many of the names `v1`, `v2` and so on, without those that are the name of an operation, in
/// either form and without regard to letter case.
pub fn equation_names(alloc: Global, ops: &[Op], count: usize) -> Result<Vec<Name>, NoMemory>
    ensures { IfOk result (λ made. map spelling made.items
        ≡ free_names (map (λ o. o.name) (map operation_of ops.now)) count 1) }
{
    let taken = names_of_operations(alloc, ops)?;
    let mut names = Vec::new(alloc);
    let mut from = 1;
    for _ in 0..count {
        let number = least_free(alloc, &taken, b"v", from)?;
        names.push(with_number(alloc, b"v", number)?)?;
        from = following(number)?;
    }
    Ok(names)
}

// The names of the operations.
fn names_of_operations(alloc: Global, ops: &[Op]) -> Result<Bindings, NoMemory>
    ensures { IfOk result (λ table. HasTheseNames (bindings_in table)
        (map (λ o. o.name) (map operation_of ops.now))) }
{
    let mut names = Bindings::new(alloc);
    for op in ops {
        names.bind(alloc, &op.name, 0)?;
    }
    Ok(names)
}

/// The largest number of variables that one of the equations has.
pub fn most_variables(equations: &Vec<Equation>) -> usize
    ensures { HaveAtMost result equations.now.items }
{
    let mut most: usize = 0;
    for equation in equations {
        most = most.max(equation.variables.len());
    }
    most
}

/// The variables under these names.
pub fn renamed(
    alloc: Global,
    names: &Vec<Name>,
    variables: &Vec<Variable>,
) -> Result<Vec<Variable>, NoMemory>
    ensures { IfOk result (λ made. map variable_of made.items
        ≡ variables_under_names (map spelling names.now.items)
        (map variable_of variables.now.items)) }
{
    let mut made = Vec::new(alloc);
    for (index, variable) in variables.iter().enumerate() {
        let Some(name) = names.get(index) else {
            return Ok(made);
        };
        made.push(Variable {
            name: name.copy(alloc)?,
            number: variable.number,
            sort: variable.sort,
        })?;
    }
    Ok(made)
}
