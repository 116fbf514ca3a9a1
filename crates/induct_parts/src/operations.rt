//! Operations on new variables.

ghost use Rattle.induct_parts.specs.Variables.{profiled_variables};
ghost use Rattle.sort_terms.specs.Operations.{operation_of};
ghost use Rattle.sort_terms.specs.ProfiledTerm.{profiled_node};
ghost use Rattle.sort_terms.specs.SortedView.{profiled_in};
ghost use Rattle.sort_terms.specs.TermView.{all_profiled};
ghost use Rattle.std.specs.Prelude.{◌≡◌, ◌+◌, ◌<◌, ◌^◌, IfOk, length};

use lotos_base::NoMemory;
use sort_terms::{Op, Sorted, Term};
use std::alloc::Global;
use std::rc::Rc;

/// The operation with this number on variables, of which the first one has the number that is next.
pub fn operation_on(alloc: Global, op: &Op, number: u32, next: u64) -> Result<Sorted, NoMemory>
    requires { next + length op.now.arguments.items < 2 ^ 64 }
    ensures { IfOk result (λ t. profiled_in t ≡ profiled_node number (operation_of op.now)
        (profiled_variables next op.now.arguments.items)) }
{
    let arguments = variables(alloc, op.arguments.as_slice(), next)?;
    let profile = Rc::new(alloc, op.copy()?)?;
    Ok(Sorted::of(Term::node(number, profile, arguments)?))
}

// Variables of these sorts, of which the first one has the number that is next.
fn variables(alloc: Global, sorts: &[u32], next: u64) -> Result<Vec<Term>, NoMemory>
    requires { next + length sorts.now < 2 ^ 64 }
    ensures { IfOk result (λ ts. all_profiled ts.items ≡ profiled_variables next sorts.now) }
{
    let mut made = Vec::with_capacity(alloc, sorts.len())?;
    for i in 0..sorts.len() {
        made.push(Term::Var {
            number: next + i as u64,
            sort: sorts[i],
        })?;
    }
    Ok(made)
}
