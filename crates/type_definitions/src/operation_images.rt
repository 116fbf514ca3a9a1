//! Images of operations: their sorts get new numbers.

ghost use Rattle.sort_terms.specs.Operations.{operation_of};
ghost use Rattle.std.specs.Prelude.{◌≡◌, IfOk, map};
ghost use Rattle.type_definitions.specs.Images.{operation_image};
ghost use Rattle.type_definitions.specs.ProfiledImage.{number_in};

use lotos_base::NoMemory;
use sort_terms::Op;
use std::alloc::Global;

/// The operation with the new number of each of its sorts, by the old one.
pub fn op_image(alloc: Global, op: &Op, sorts: &[u32]) -> Result<Op, NoMemory>
    ensures { IfOk result (λ made. operation_of made
        ≡ operation_image (number_in sorts.now) (operation_of op.now)) }
{
    Ok(Op {
        name: op.name.copy(alloc)?,
        form: op.form,
        arguments: numbers_at(alloc, sorts, op.arguments.as_slice())?,
        result: number_at(sorts, op.result),
        origin: op.origin.copy(alloc)?,
    })
}

// The new number of each of the old ones.
fn numbers_at(alloc: Global, numbers: &[u32], old: &[u32]) -> Result<Vec<u32>, NoMemory>
    ensures { IfOk result (λ made. made.items ≡ map (number_in numbers.now) old.now) }
{
    let mut made = Vec::with_capacity(alloc, old.len())?;
    for number in old {
        made.push(number_at(numbers, *number))?;
    }
    Ok(made)
}

/// The new number of an old one; 0 where the list has none.
pub fn number_at(numbers: &[u32], old: u32) -> u32
    ensures { result ≡ number_in numbers.now old }
{
    match numbers.get(old as usize) {
        Some(new) => *new,
        None => 0,
    }
}
