//! Sorts by their names, and the variables that a list declares.

ghost use Rattle.lotos_base.specs.Name.{spelling};
ghost use Rattle.lotos_base.specs.WrittenView.{text_place_of};
ghost use Rattle.sort_terms.specs.EquationView.{variable_of as resolved_variable};
ghost use Rattle.sort_terms.specs.ReaderView.{signature_read};
ghost use Rattle.scope_parts.specs.FaultView.{Answers};
ghost use Rattle.scope_parts.specs.Resolution.{Is};
ghost use Rattle.scope_parts.specs.Sorts.{
  found_sort,
  functionality_at,
  sort_at as sort_at_place,
  sorted_variables as sorted_variables_of,
  sorts_at as sorts_at_places,
  variable_at as variable_at_place,
  variables_at as variables_at_places,
};
ghost use Rattle.std.specs.Prelude.{
  ◌≡◌,
  ℕ,
  suc,
  IfOk,
  map,
  option_map,
};
ghost use Rattle.syntax_trees.specs.TreeViews.{
  written_functionality_of,
  placed_names_of,
  written_variable_of,
  written_variables_of,
};

use crate::doubles::first_double;
use crate::fault_order::beside;
use crate::scope_faults::ScopeFault;
use lotos_base::{Name, NoMemory, Place};
use sort_terms::{Reader, Variable};
use std::alloc::Global;
use syntax_trees::{Named, VarText};

/// The sort of this name, or the fault that the data lack it.
pub fn sort_at(alloc: Global, reader: &Reader, place: Place, name: &Name) -> Result<u32, ScopeFault>
    ensures { Answers (λ (n : ℕ). n) result (Is (sort_at_place (signature_read reader.now)
        (text_place_of place) (spelling name.now))) }
{
    let found = reader.sort_named(name)?;
    sort_found(alloc, place, name, found)
}

// The sort, or the fault that there is none.
fn sort_found(
    alloc: Global,
    place: Place,
    name: &Name,
    found: Option<u32>,
) -> Result<u32, ScopeFault>
    ensures { Answers (λ (n : ℕ). n) result
        (Is (found_sort (text_place_of place) (spelling name.now) found)) }
{
    match found {
        Some(sort) => Ok(sort),
        None => {
            let name = name.copy(alloc)?;
            Err(ScopeFault::UnknownSort { place, name })
        }
    }
}

/// The sorts of a list.
pub fn sorts_at(alloc: Global, reader: &Reader, names: &Vec<Named>) -> Result<Vec<u32>, ScopeFault>
    ensures { Answers (λ sorts. sorts.items) result (Is (sorts_at_places
        (signature_read reader.now) (placed_names_of names.now.items))) }
{
    let mut sorts = Vec::with_capacity(alloc, names.len())?;
    for (place, name) in names {
        let sort = sort_at(alloc, reader, *place, name)?;
        sorts.push(sort)?;
    }
    Ok(sorts)
}

/// A variable with its number and its sort.
pub fn variable_at(
    alloc: Global,
    reader: &Reader,
    number: u64,
    text: &VarText,
) -> Result<Variable, ScopeFault>
    ensures { Answers resolved_variable result (Is (variable_at_place
        (signature_read reader.now) number (written_variable_of text.now))) }
{
    let sort = sort_at(alloc, reader, text.sort_place, &text.sort)?;
    let name = text.name.copy(alloc)?;
    Ok(Variable { name, number, sort })
}

/// The variables that one list declares, numbered from a number on. No name may stand twice.
pub fn variables_at(
    alloc: Global,
    reader: &Reader,
    first: u64,
    texts: &Vec<VarText>,
) -> Result<Vec<Variable>, ScopeFault>
    ensures { Answers (λ made. map resolved_variable made.items) result
        (Is (variables_at_places (signature_read reader.now) first
        (written_variables_of texts.now.items))) }
{
    let double = first_double(alloc, texts)?;
    beside(double, sorted_variables(alloc, reader, first, texts))
}

// The same, where a name may stand twice.
fn sorted_variables(
    alloc: Global,
    reader: &Reader,
    first: u64,
    texts: &Vec<VarText>,
) -> Result<Vec<Variable>, ScopeFault>
    ensures { Answers (λ made. map resolved_variable made.items) result
        (Is (sorted_variables_of (signature_read reader.now) first
        (written_variables_of texts.now.items))) }
{
    let mut made = Vec::with_capacity(alloc, texts.len())?;
    let mut number = first;
    for text in texts {
        let variable = variable_at(alloc, reader, number, text)?;
        made.push(variable)?;
        number = next_number(number)?;
    }
    Ok(made)
}

/// The next number. There is no memory for so many declarations that there is none.
pub fn next_number(number: u64) -> Result<u64, NoMemory>
    ensures { IfOk result (λ next. next ≡ suc number) }
{
    match number.checked_add(1) {
        Some(next) => Ok(next),
        None => Err(NoMemory),
    }
}
