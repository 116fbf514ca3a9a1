//! Sorts by their names.

ghost use Rattle.lotos_base.specs.WrittenView.{placed_name_of};
ghost use Rattle.type_presentations.specs.NamesView.{HasNames};
ghost use Rattle.std.specs.Prelude.{◌≡◌, ◌∷◌, [], None, MatchResult, map};
ghost use Rattle.syntax_trees.specs.TreeViews.{placed_names_of};
ghost use Rattle.type_presentations.specs.DeclaredOperation.{AreFewDeclaredNames, sort_names};
ghost use Rattle.type_definitions.specs.FaultView.{IsFaultFound};
ghost use Rattle.type_definitions.specs.Declarations.{sort_numbered, unknown_sort_among};
ghost use Rattle.type_definitions.specs.Presentation.{Presentation as PlainPresentation};

use crate::NamePositions;
use std::alloc::Global;
use syntax_trees::Named;
use type_definitions::TypeFault;

/// The numbers of the sorts with these names, or the first name that is that of no sort. The names
/// of the sorts are given.
pub fn sorts_named(
    alloc: Global,
    sorts: &NamePositions,
    names: &[Named],
) -> Result<Vec<u32>, TypeFault>
    requires { AreFewDeclaredNames sorts.now }
    ensures { (p : PlainPresentation) → HasNames sorts.now (sort_names p) → MatchResult result
        (λ numbers. (unknown_sort_among p (placed_names_of names.now) ≡ None)
        × (numbers.items ≡ map (λ s. sort_numbered p s.name) (placed_names_of names.now)))
        (λ fault. IsFaultFound (unknown_sort_among p (placed_names_of names.now)) fault) }
{
    let mut numbers = Vec::with_capacity(alloc, names.len())?;
    for named in names {
        numbers.push(sort_named(alloc, sorts, named)?)?;
    }
    Ok(numbers)
}

/// The number of the sort with this name, or the fault that there is none. The names of the sorts
/// are given.
pub fn sort_named(alloc: Global, sorts: &NamePositions, named: &Named) -> Result<u32, TypeFault>
    requires { AreFewDeclaredNames sorts.now }
    ensures { (p : PlainPresentation) → HasNames sorts.now (sort_names p) → MatchResult result
        (λ number. (unknown_sort_among p (placed_name_of named.now ∷ []) ≡ None)
        × (number ≡ sort_numbered p (placed_name_of named.now).name))
        (λ fault. IsFaultFound (unknown_sort_among p (placed_name_of named.now ∷ [])) fault) }
{
    let (place, name) = named;
    let found = sorts.first(alloc, name)?;
    let Some(number) = found else {
        return Err(TypeFault::UnknownSort {
            place: *place,
            name: name.copy(alloc)?,
        });
    };
    Ok(number as u32)
}
