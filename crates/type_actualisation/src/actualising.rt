//! Actualisations.

ghost use Rattle.type_presentations.specs.FormalNames.{names_of_formal_sorts};
ghost use Rattle.type_renaming.specs.Actuals.{actualising_with};
ghost use Rattle.lotos_base.specs.Name.{spelling};
ghost use Rattle.lotos_base.specs.WrittenView.{placed_name_of};
ghost use Rattle.type_presentations.specs.NamesView.{HasNames};
ghost use Rattle.std.specs.Prelude.{MatchResult};
ghost use Rattle.syntax_trees.specs.TreeViews.{pairs_of};
ghost use Rattle.type_actualisation.specs.Actualised.{IsActualised};
ghost use Rattle.type_actualisation.specs.Indexed.{
  AreOperationPairs,
  AreSortPairs,
  IsFaultBehindSortPairs,
  IsFaultOfOperationPairs,
  IsFaultOfSortPairs,
  IsActualisingFault,
  IsWithOperations,
  HasSortSource,
};
ghost use Rattle.type_actualisation.specs.NewNumbersView.{AreNewNumbers};
ghost use Rattle.type_definitions.specs.FaultView.{IsFaultFound};
ghost use Rattle.type_definitions.specs.Actualisation.{Actualising};
ghost use Rattle.type_definitions.specs.ActualisationFaults.{actualising_fault};
ghost use Rattle.type_presentations.specs.PresentationView.{
  IsSound,
  IsWithinLimits,
  presentation_of,
};

use crate::bringing::{NewNumbers, bring};
use lotos_base::Name;
use std::alloc::Global;
use syntax_trees::{Named, PairText};
use type_definitions::TypeFault;
use type_presentations::{
    NamePositions, PairIndex, Presentation, look_at_actual_sort_pairs, look_at_op_pairs,
};
use type_renaming::{Source, formal_op_names, formal_sort_names};

/// The presentation of the type of this name that actualises the base by the actual types, whose
/// union is given, and by these pairs: what is not formal in the base comes in behind the actual
/// types, and each formal sort and operation becomes its actual one. The marks are those of the
/// actual types. What a pair renames has the type as its origin.
///
/// Pairs are looked at first, in text order, those of sorts before those of operations: an old name
/// that is that of no sort or operation is `UnknownSort` or `UnknownOperation` at this name; an old
/// name that an earlier pair has is `DoubleSort` or `DoubleOperation` at the pair, and so is the
/// new name of a sort that an earlier pair has, unless both old names are those of formal sorts.
/// Then, in the order of the base, a formal sort or operation without an actual one is
/// `UnknownSort` at the pair that names it, or `MissingActual` at the mention of the base. Then a
/// sort or operation that clashes with what is there is `DoubleSort` or `DoubleOperation` at the
/// pair that made it, or at the mention; then the first sort, operation or equation past 65,536 is
/// `TooLarge` there.
pub fn actualise(
    alloc: Global,
    base: &Presentation,
    mention: &Named,
    actual: Presentation,
    type_name: &Name,
    sort_pairs: &[PairText],
    op_pairs: &[PairText],
) -> Result<Presentation, TypeFault>
    requires sound { IsSound base.now }
    requires within { IsWithinLimits base.now }
    requires actual_sound { IsSound actual }
    requires actual_within { IsWithinLimits actual }
    ensures { MatchResult result
        (λ p. IsActualised (actualising_with (placed_name_of mention.now) (presentation_of base.now)
        (presentation_of actual) (spelling type_name.now) (pairs_of sort_pairs.now op_pairs.now)) p)
        (λ fault. IsFaultFound (actualising_fault (actualising_with (placed_name_of mention.now)
        (presentation_of base.now) (presentation_of actual) (spelling type_name.now)
        (pairs_of sort_pairs.now op_pairs.now))) fault) }
{
    let mut made = actual;
    actualise_into(
        alloc, base, mention, &mut made, type_name, sort_pairs, op_pairs,
    )?;
    Ok(made)
}

/// The same in the place of the actual types, with the new numbers of what the base has; after a
/// fault it is not to be used. The pairs of sorts are looked at first.
pub fn actualise_into(
    alloc: Global,
    base: &Presentation,
    mention: &Named,
    actual: &mut Presentation,
    type_name: &Name,
    sort_pairs: &[PairText],
    op_pairs: &[PairText],
) -> Result<NewNumbers, TypeFault>
    requires sound { IsSound base.now }
    requires within { IsWithinLimits base.now }
    requires actual_sound { IsSound actual.old }
    requires actual_within { IsWithinLimits actual.old }
    ensures { MatchResult result
        (λ numbers. IsActualised (actualising_with (placed_name_of mention.now)
        (presentation_of base.now) (presentation_of actual.old) (spelling type_name.now)
        (pairs_of sort_pairs.now op_pairs.now)) actual.new
        × AreNewNumbers (actualising_with (placed_name_of mention.now)
        (presentation_of base.now) (presentation_of actual.old) (spelling type_name.now)
        (pairs_of sort_pairs.now op_pairs.now)) numbers)
        (λ fault. IsActualisingFault (actualising_with (placed_name_of mention.now)
        (presentation_of base.now) (presentation_of actual.old) (spelling type_name.now)
        (pairs_of sort_pairs.now op_pairs.now)) fault) }
{
    let formals = formal_sort_names(alloc, base)?;
    let pairs = index_of_sorts(alloc, base, &formals, sort_pairs)?;
    with_ops(
        alloc,
        base,
        actual,
        &Source {
            mention,
            type_name,
            formals: &formals,
            pairs: &pairs,
        },
        op_pairs,
    )
}

// Looks at the pairs of operations, and goes on.
fn with_ops(
    alloc: Global,
    base: &Presentation,
    actual: &mut Presentation,
    sorts: &Source<'_>,
    op_pairs: &[PairText],
) -> Result<NewNumbers, TypeFault>
    requires sound { IsSound base.now }
    requires within { IsWithinLimits base.now }
    requires actual_sound { IsSound actual.old }
    requires actual_within { IsWithinLimits actual.old }
    requires sorts { (a : Actualising) × HasSortSource a base.now actual.old sorts.now op_pairs.now }
    ensures { (a : Actualising) → HasSortSource a base.now actual.old sorts.now op_pairs.now
        → MatchResult result (λ numbers. IsWithOperations a actual.new × AreNewNumbers a numbers)
        (λ fault. IsFaultBehindSortPairs a fault) }
{
    let formals = formal_op_names(alloc, base)?;
    let pairs = index_of_ops(alloc, base, op_pairs)?;
    bring(
        alloc,
        base,
        actual,
        sorts,
        &Source {
            mention: sorts.mention,
            type_name: sorts.type_name,
            formals: &formals,
            pairs: &pairs,
        },
    )
}

// The pairs of sorts by their old names.
fn index_of_sorts<'a>(
    alloc: Global,
    base: &Presentation,
    formals: &NamePositions,
    pairs: &'a [PairText],
) -> Result<PairIndex<'a>, TypeFault>
    requires { HasNames formals.now (names_of_formal_sorts (presentation_of base.now)) }
    ensures { MatchResult result (λ index. AreSortPairs (presentation_of base.now) pairs.now index)
        (λ fault. IsFaultOfSortPairs (presentation_of base.now) pairs.now fault) }
{
    let names = NamePositions::of_sorts(alloc, base.sorts.sorts())?;
    look_at_actual_sort_pairs(alloc, &names, formals, pairs)
}

// The pairs of operations by their old names.
fn index_of_ops<'a>(
    alloc: Global,
    base: &Presentation,
    pairs: &'a [PairText],
) -> Result<PairIndex<'a>, TypeFault>
    ensures { MatchResult result
        (λ index. AreOperationPairs (presentation_of base.now) pairs.now index)
        (λ fault. IsFaultOfOperationPairs (presentation_of base.now) pairs.now fault) }
{
    let names = NamePositions::of_ops(alloc, base.ops.ops())?;
    look_at_op_pairs(alloc, &names, pairs)
}
