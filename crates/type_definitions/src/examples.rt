//! Calls of what this crate offers, for tests.

ghost use Rattle.std.specs.Prelude.{◌≡◌, IfOk};
ghost use Rattle.type_definitions.specs.ProfiledImage.{number_in};

use crate::images::image;
use lotos_base::NoMemory;
use sort_terms::{Sorted, Term};

/// The sort of the image of a variable.
pub fn sort_of_moved_variable(sorts: &[u32], sort: u32) -> Result<u32, NoMemory>
    ensures { IfOk result (λ moved. moved ≡ number_in sorts.now sort) }
{
    let term = Sorted::of(Term::Var { number: 0, sort });
    let moved = image(&term, sorts, &[], &[])?;
    Ok(moved.sort())
}
