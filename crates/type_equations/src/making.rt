//! The variables of an equation.

ghost use Rattle.sort_terms.specs.EquationView.{variable_of};
ghost use Rattle.std.specs.Prelude.{◌≡◌, ◌++◌, IfOk, OnOk, map, slice_get};
ghost use Rattle.type_definitions.specs.DeclaredEquations.{declared_as, declared_from};

use indexmap::IndexSet;
use lotos_base::NoMemory;
use sort_terms::Variable;
use std::alloc::Global;

/// The variables with these numbers in scope, numbered in this order.
pub fn declared(
    alloc: Global,
    scope: &[Variable],
    order: &IndexSet<u64>,
) -> Result<Vec<Variable>, NoMemory>
    ensures { IfOk result (λ made. map variable_of made.items
        ≡ declared_from (map variable_of scope.now) 0 order.now.keys) }
{
    let mut made = Vec::with_capacity(alloc, order.len())?;
    let old = order.as_slice();
    for number in 0..old.len() {
        push_variable(alloc, &mut made, scope, old[number], number)?;
    }
    Ok(made)
}

// Adds the variable with the old number under the new one, if it is in scope.
fn push_variable(
    alloc: Global,
    made: &mut Vec<Variable>,
    scope: &[Variable],
    old: u64,
    number: usize,
) -> Result<(), NoMemory>
    ensures { OnOk result (map variable_of made.new.items ≡ map variable_of made.old.items
        ++ declared_as number (slice_get (map variable_of scope.now) old)) }
{
    let Some(variable) = scope.get(old as usize) else {
        return Ok(());
    };
    made.push(Variable {
        name: variable.name.copy(alloc)?,
        number: number as u64,
        sort: variable.sort,
    })?;
    Ok(())
}
