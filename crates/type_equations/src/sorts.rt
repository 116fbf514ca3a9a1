//! Sorts of variables and of sides, by their names.

ghost use Rattle.lotos_base.specs.Name.{spelling};
ghost use Rattle.lotos_base.specs.WrittenView.{text_place_of};
ghost use Rattle.sort_terms.specs.EquationView.{variable_of};
ghost use Rattle.sort_terms.specs.ReaderView.{signature_read};
ghost use Rattle.sort_terms.specs.ReadingOutcome.{is_sort_name};
ghost use Rattle.std.specs.Prelude.{
  ◌≡◌,
  ◌++◌,
  ℕ,
  false,
  true,
  List,
  Some,
  MatchResult,
  length,
  map,
};
ghost use Rattle.syntax_trees.specs.TreeViews.{written_variables_of};
ghost use Rattle.type_definitions.specs.FaultView.{HoldsOfFault};
ghost use Rattle.type_definitions.specs.DeclaredEquations.{
  GiveAll,
  HasFirstFault,
  asked_of_variables,
  scope_from,
};
ghost use Rattle.type_definitions.specs.Declarations.{sort_numbered};
ghost use Rattle.type_definitions.specs.Presentation.{Presentation as PlainPresentation};
ghost use Rattle.type_definitions.specs.TypeFault.{unknown_sort};

use lotos_base::{Name, Place};
use sort_terms::{Reader, Variable};
use std::alloc::Global;
use syntax_trees::VarText;
use type_definitions::TypeFault;

/// The number of the sort of this name, or the fault at the place that there is none.
pub fn sort_at(
    alloc: Global,
    reader: &Reader<'_>,
    place: Place,
    name: &Name,
) -> Result<u32, TypeFault>
    ensures { (p : PlainPresentation) → p.signature ≡ signature_read reader.now
        → MatchResult result (λ number. (is_sort_name p.signature (spelling name.now) ≡ true)
        × (number ≡ sort_numbered p (spelling name.now)))
        (λ fault. HoldsOfFault fault (λ f. (is_sort_name p.signature (spelling name.now) ≡ false)
        × (f ≡ unknown_sort (text_place_of place) (Some (spelling name.now))))) }
{
    let found = reader.sort_named(name)?;
    let Some(number) = found else {
        return Err(TypeFault::UnknownSort {
            place,
            name: name.copy(alloc)?,
        });
    };
    Ok(number)
}

/// Adds the variables behind the others, each with its position as its number.
pub fn add_variables(
    alloc: Global,
    reader: &Reader<'_>,
    variables: &mut Vec<Variable>,
    written: &[VarText],
) -> Result<(), TypeFault>
    ensures { (p : PlainPresentation) → p.signature ≡ signature_read reader.now
        → MatchResult result
        (λ _. GiveAll p (asked_of_variables (written_variables_of written.now)) p
        × (map variable_of variables.new.items ≡ map variable_of variables.old.items
        ++ scope_from p (length variables.old.items) (written_variables_of written.now)))
        (λ fault. HoldsOfFault fault (λ f. (type_name : List ℕ) → HasFirstFault type_name p
        (asked_of_variables (written_variables_of written.now)) f)) }
{
    for text in written {
        let sort = sort_at(alloc, reader, text.sort_place, &text.sort)?;
        let number = variables.len() as u64;
        variables.push(Variable {
            name: text.name.copy(alloc)?,
            number,
            sort,
        })?;
    }
    Ok(())
}
