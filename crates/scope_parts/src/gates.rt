//! Gates by their names.

ghost use Rattle.lotos_base.specs.Name.{spelling};
ghost use Rattle.lotos_base.specs.WrittenView.{text_place_of};
ghost use Rattle.scope_parts.specs.BindingsView.{bindings_in};
ghost use Rattle.scope_parts.specs.FaultView.{Answers};
ghost use Rattle.scope_parts.specs.Resolution.{Is};
ghost use Rattle.scope_parts.specs.Scope.{
  found_gate,
  gate_at as gate_at_place,
  gates_at as gates_at_places,
};
ghost use Rattle.std.specs.Prelude.{◌≡◌, ℕ};
ghost use Rattle.syntax_trees.specs.TreeViews.{placed_names_of};

use crate::bindings::Bindings;
use crate::scope_faults::ScopeFault;
use lotos_base::{Name, Place};
use std::alloc::Global;
use syntax_trees::Named;

/// The gate of this name, or the fault that none is visible.
pub fn gate_at(
    alloc: Global,
    gates: &Bindings,
    place: Place,
    name: &Name,
) -> Result<u32, ScopeFault>
    ensures { Answers (λ (n : ℕ). n) result (Is (gate_at_place (bindings_in gates.now)
        (record { place = text_place_of place; name = spelling name.now }))) }
{
    let found = gates.find(alloc, name)?;
    gate_found(alloc, place, name, found)
}

// The gate, or the fault that there is none. There is no memory for so many gates that the number
// does not fit.
fn gate_found(
    alloc: Global,
    place: Place,
    name: &Name,
    found: Option<usize>,
) -> Result<u32, ScopeFault>
    ensures { Answers (λ (n : ℕ). n) result (Is (found_gate
        (record { place = text_place_of place; name = spelling name.now }) found)) }
{
    let Some(number) = found else {
        let name = name.copy(alloc)?;
        return Err(ScopeFault::UnknownGate { place, name });
    };
    if number > 0xffff_ffff {
        return Err(ScopeFault::NoMemory);
    }
    Ok(number as u32)
}

/// The gates of a list.
pub fn gates_at(alloc: Global, gates: &Bindings, names: &Vec<Named>) -> Result<Vec<u32>, ScopeFault>
    ensures { Answers (λ numbers. numbers.items) result (Is (gates_at_places
        (bindings_in gates.now) (placed_names_of names.now.items))) }
{
    let mut numbers = Vec::with_capacity(alloc, names.len())?;
    for (place, name) in names {
        let number = gate_at(alloc, gates, *place, name)?;
        numbers.push(number)?;
    }
    Ok(numbers)
}
