//! Declarations of sorts.

ghost use Rattle.lotos_base.specs.Name.{spelling};
ghost use Rattle.lotos_base.specs.WrittenView.{placed_name_of, text_place_of};
ghost use Rattle.type_presentations.specs.Growth.{with_one_sort};
ghost use Rattle.sort_terms.specs.Operations.{sort_of};
ghost use Rattle.std.specs.Prelude.{MatchResult};
ghost use Rattle.syntax_trees.specs.TreeViews.{placed_names_of};
ghost use Rattle.type_presentations.specs.DeclarationMade.{AreSortsDeclared, IsFaultOfSorts};
ghost use Rattle.type_presentations.specs.Making.{IsMade};
ghost use Rattle.type_definitions.specs.FaultView.{IsFaultFound};
ghost use Rattle.type_definitions.specs.Declarations.{sort_fault, with_sort};
ghost use Rattle.type_definitions.specs.Union.{presentation_fault};
ghost use Rattle.type_presentations.specs.PresentationView.{
  IsSound,
  IsWithinLimits,
  presentation_of,
};

use crate::{Presentation, grow_by_sort, mark_sort};
use lotos_base::{Name, Place};
use sort_terms::Sort;
use std::alloc::Global;
use syntax_trees::Named;
use type_definitions::TypeFault;

/// Declares sorts, one after another, formal or not. It is refused at the first that is a second
/// one of its name, or one too many.
pub fn declare_sorts(
    alloc: Global,
    presentation: &mut Presentation,
    type_name: &Name,
    declared: &[Named],
    is_formal: bool,
) -> Result<(), TypeFault>
    requires sound { IsSound presentation.old }
    requires within { IsWithinLimits presentation.old }
    ensures { MatchResult result
        (λ _. AreSortsDeclared (spelling type_name.now) is_formal
        (presentation_of presentation.old) (placed_names_of declared.now) presentation.new)
        (λ fault. IsFaultOfSorts (spelling type_name.now) is_formal
        (presentation_of presentation.old) (placed_names_of declared.now) fault) }
{
    for named in declared {
        declare_sort(alloc, presentation, type_name, named, is_formal)?;
    }
    Ok(())
}

// Declares a sort.
fn declare_sort(
    alloc: Global,
    presentation: &mut Presentation,
    type_name: &Name,
    named: &Named,
    is_formal: bool,
) -> Result<(), TypeFault>
    requires sound { IsSound presentation.old }
    requires within { IsWithinLimits presentation.old }
    ensures { MatchResult result
        (λ _. IsMade (sort_fault (spelling type_name.now) is_formal
        (presentation_of presentation.old) (placed_name_of named.now))
        (with_sort (spelling type_name.now) is_formal (presentation_of presentation.old)
        (placed_name_of named.now)) presentation.new)
        (λ fault. IsFaultFound (sort_fault (spelling type_name.now) is_formal
        (presentation_of presentation.old) (placed_name_of named.now)) fault) }
{
    let (place, name) = named;
    let sort = Sort {
        name: name.copy(alloc)?,
        origin: type_name.copy(alloc)?,
    };
    let number = presentation.sorts.sorts().len() as u32;
    add_sort(alloc, presentation, &sort, *place, name)?;
    mark_sort(presentation, is_formal, number)?;
    Ok(())
}

// Puts a sort at the end, or refuses it at the place.
fn add_sort(
    alloc: Global,
    presentation: &mut Presentation,
    sort: &Sort,
    place: Place,
    name: &Name,
) -> Result<(), TypeFault>
    requires sound { IsSound presentation.old }
    requires within { IsWithinLimits presentation.old }
    ensures { MatchResult result
        (λ _. IsMade (presentation_fault (text_place_of place) (spelling name.now)
        (with_one_sort (presentation_of presentation.old) (sort_of sort.now)))
        (with_one_sort (presentation_of presentation.old) (sort_of sort.now)) presentation.new)
        (λ fault. IsFaultFound (presentation_fault (text_place_of place) (spelling name.now)
        (with_one_sort (presentation_of presentation.old) (sort_of sort.now))) fault) }
{
    let is_second = grow_by_sort(alloc, presentation, sort)?;
    if is_second {
        return Err(TypeFault::DoubleSort {
            place,
            name: name.copy(alloc)?,
        });
    }
    let is_too_large = presentation.is_too_large();
    if is_too_large {
        return Err(TypeFault::TooLarge {
            place,
            name: name.copy(alloc)?,
        });
    }
    Ok(())
}
