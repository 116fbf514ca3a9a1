//! The data of types.

ghost use Rattle.sort_terms.specs.EquationView.{IsSortedFlat};
ghost use Rattle.std.specs.Prelude.{IfOk};

use lotos_grammar::read_types;
use sort_terms::Flat;
use std::alloc::Global;
use std::test::Fail;
use syntax_trees::ItemText;
use type_flatten::flatten;

/// The data of the types of the text.
pub fn data(alloc: Global, types: &[u8]) -> Result<Flat, Fail>
    ensures { IfOk result (λ flat. IsSortedFlat flat) }
{
    let items = read_types(alloc, types, 0)?;
    flattened(alloc, items.as_slice())
}

// The data of the items.
fn flattened(alloc: Global, items: &[ItemText]) -> Result<Flat, Fail>
    ensures { IfOk result (λ flat. IsSortedFlat flat) }
{
    let flat = flatten(alloc, items)?;
    Ok(flat)
}
