//! The actual sorts of formal ones.

ghost use Rattle.type_renaming.specs.Actuals.{
  AreActualSorts,
  IsActualOf,
  LacksActual,
  sort_lacks_actual,
};
ghost use Rattle.type_renaming.specs.PartsView.{AreFewNames, AreSortParts, IsBaseOf};
ghost use Rattle.lotos_base.specs.Name.{spelling};
ghost use Rattle.lotos_base.specs.WrittenView.{placed_name_of};
ghost use Rattle.type_presentations.specs.NamesView.{HasNames};
ghost use Rattle.type_presentations.specs.SortListView.{sorts_in};
ghost use Rattle.sort_terms.specs.Operations.{sort_of};
ghost use Rattle.sort_terms.specs.ReadingOutcome.{is_sort_name};
ghost use Rattle.std.specs.Prelude.{
  ◌≡◌,
  ◌<◌,
  ◌^◌,
  false,
  true,
  None,
  Some,
  IfOk,
  MatchOption,
  MatchResult,
  length,
};
ghost use Rattle.syntax_trees.specs.TreeViews.{pair_of};
ghost use Rattle.type_definitions.specs.FaultView.{HoldsOfFault, IsFaultFound};
ghost use Rattle.type_definitions.specs.Actualisation.{Actualising, actual_sort, formal_sorts_of};
ghost use Rattle.type_definitions.specs.ActualisationFaults.{formal_sort_fault};
ghost use Rattle.type_definitions.specs.Declarations.{sort_numbered};
ghost use Rattle.type_definitions.specs.Presentation.{Presentation as PlainPresentation};
ghost use Rattle.type_definitions.specs.TypeFault.{missing_actual, unknown_sort};
ghost use Rattle.type_presentations.specs.PairIndexView.{pairs_in};
ghost use Rattle.type_presentations.specs.PairNames.{names_of_sorts};
ghost use Rattle.type_presentations.specs.PresentationView.{IsSound, IsWithinLimits};

use lotos_base::{Name, NoMemory};
use sort_terms::Sort;
use std::alloc::Global;
use syntax_trees::{Named, PairText};
use type_definitions::TypeFault;
use type_presentations::{NamePositions, PairIndex, Presentation, SortList};

/// The number of the actual sort of each formal sort of the base, among the sorts of the actual
/// types, and none for the other sorts. It is refused at the first formal sort without an actual
/// one: as `UnknownSort` at the new name of its pair, or without a pair as `MissingActual` at the
/// mention of the base.
pub fn actual_sort_numbers(
    alloc: Global,
    base: &Presentation,
    mention: &Named,
    pairs: &PairIndex<'_>,
    sorts: &SortList,
) -> Result<Vec<Option<u32>>, TypeFault>
    requires sound { IsSound base.now }
    requires within { IsWithinLimits base.now }
    requires few { length (sorts_in sorts.now) < 2 ^ 32 }
    ensures { (a : Actualising) → IsBaseOf a base.now mention.now
        → a.actual.signature.sorts ≡ sorts_in sorts.now → a.pairs.sort_pairs ≡ pairs_in pairs.now
        → MatchResult result (λ numbers. AreActualSorts a numbers.items)
        (IsFaultFound (formal_sort_fault a (formal_sorts_of a.base.presentation))) }
{
    let names = NamePositions::of_sorts(alloc, sorts.sorts())?;
    let coming = base.sorts.sorts();
    let mut numbers = Vec::with_capacity(alloc, coming.len())?;
    for number in 0..coming.len() {
        let is_formal = base.formal_sorts.has(number as u32);
        let sort = &coming[number];
        let found = actual_of_sort(alloc, &names, mention, pairs, sort, is_formal)?;
        numbers.push(found)?;
    }
    Ok(numbers)
}

// The number of the actual sort of a sort, if it is formal.
fn actual_of_sort(
    alloc: Global,
    names: &NamePositions,
    mention: &Named,
    pairs: &PairIndex<'_>,
    sort: &Sort,
    is_formal: bool,
) -> Result<Option<u32>, TypeFault>
    requires { AreFewNames names.now }
    ensures { (a : Actualising) → AreSortParts a mention.now pairs.now names.now
        → MatchResult result
        (IsActualOf is_formal (sort_lacks_actual a (sort_of sort.now))
        (actual_sort a (sort_of sort.now)))
        (λ fault. HoldsOfFault fault
        (LacksActual is_formal (sort_lacks_actual a (sort_of sort.now)))) }
{
    if is_formal {
        let number = actual_of_formal(alloc, names, mention, pairs, sort)?;
        return Ok(Some(number));
    }
    Ok(None)
}

// The number of the actual sort of a formal one.
fn actual_of_formal(
    alloc: Global,
    names: &NamePositions,
    mention: &Named,
    pairs: &PairIndex<'_>,
    sort: &Sort,
) -> Result<u32, TypeFault>
    requires { AreFewNames names.now }
    ensures { (a : Actualising) → AreSortParts a mention.now pairs.now names.now
        → MatchResult result
        (λ n. (sort_lacks_actual a (sort_of sort.now) ≡ None)
        × (n ≡ actual_sort a (sort_of sort.now)))
        (IsFaultFound (sort_lacks_actual a (sort_of sort.now))) }
{
    let found = pairs.pair_for(alloc, &sort.name)?;
    let Some(pair) = found else {
        return named_alike(alloc, names, mention, &sort.name);
    };
    named_by_pair(alloc, names, pair)
}

// The number of the actual sort of the same name.
fn named_alike(
    alloc: Global,
    names: &NamePositions,
    mention: &Named,
    name: &Name,
) -> Result<u32, TypeFault>
    requires { AreFewNames names.now }
    ensures { (p : PlainPresentation) → HasNames names.now (names_of_sorts p.signature)
        → MatchResult result (λ n. (is_sort_name p.signature (spelling name.now) ≡ true)
        × (n ≡ sort_numbered p (spelling name.now)))
        (λ fault. HoldsOfFault fault (λ f. (is_sort_name p.signature (spelling name.now) ≡ false)
        × (f ≡ missing_actual (placed_name_of mention.now).place (spelling name.now)))) }
{
    let found = sort_number(alloc, names, name)?;
    let Some(number) = found else {
        return Err(TypeFault::MissingActual {
            place: mention.0,
            name: name.copy(alloc)?,
        });
    };
    Ok(number)
}

// The number of the actual sort that the pair names.
fn named_by_pair(alloc: Global, names: &NamePositions, pair: &PairText) -> Result<u32, TypeFault>
    requires { AreFewNames names.now }
    ensures { (p : PlainPresentation) → HasNames names.now (names_of_sorts p.signature)
        → MatchResult result (λ n. (is_sort_name p.signature (pair_of pair.now).given ≡ true)
        × (n ≡ sort_numbered p (pair_of pair.now).given))
        (λ fault. HoldsOfFault fault (λ f.
        (is_sort_name p.signature (pair_of pair.now).given ≡ false)
        × (f ≡ unknown_sort (pair_of pair.now).place (Some (pair_of pair.now).given)))) }
{
    let found = sort_number(alloc, names, &pair.given)?;
    let Some(number) = found else {
        return Err(TypeFault::UnknownSort {
            place: pair.place,
            name: pair.given.copy(alloc)?,
        });
    };
    Ok(number)
}

// The number of the sort of this name among the names of sorts, if there is one.
fn sort_number(alloc: Global, names: &NamePositions, name: &Name) -> Result<Option<u32>, NoMemory>
    requires { AreFewNames names.now }
    ensures { IfOk result (λ found. (p : PlainPresentation)
        → HasNames names.now (names_of_sorts p.signature) → MatchOption found
        (is_sort_name p.signature (spelling name.now) ≡ false)
        (λ n. (is_sort_name p.signature (spelling name.now) ≡ true)
        × (n ≡ sort_numbered p (spelling name.now)))) }
{
    let found = names.first(alloc, name)?;
    let Some(position) = found else {
        return Ok(None);
    };
    Ok(Some(position as u32))
}
