//! What is wrong with one pair.

ghost use Rattle.lotos_base.specs.Name.{spelling};
ghost use Rattle.type_presentations.specs.NamesView.{HasNames};
ghost use Rattle.sort_terms.specs.ReadingOutcome.{is_sort_name};
ghost use Rattle.std.specs.Prelude.{◌≡◌, true, List, None, MatchResult};
ghost use Rattle.syntax_trees.specs.TreeViews.{pair_of};
ghost use Rattle.syntax_trees.specs.WrittenItem.{WrittenPair};
ghost use Rattle.lotos_base.specs.Signature.{Signature};
ghost use Rattle.type_definitions.specs.FaultView.{IsFaultFound};
ghost use Rattle.type_definitions.specs.Renaming.{operation_pair_fault, sort_pair_fault};
ghost use Rattle.type_presentations.specs.PairNames.{
  names_of_operations,
  names_of_sorts,
  new_names,
  old_names,
};

use crate::NamePositions;
use std::alloc::Global;
use syntax_trees::PairText;
use type_definitions::TypeFault;

/// Looks at a pair of sorts behind earlier ones. It is refused where its old name is that of no
/// sort; then where an earlier pair has the old name; then where one of those with which it may not
/// share its new name has that. The names are given.
pub fn look_at_sort_pair(
    alloc: Global,
    sorts: &NamePositions,
    olds: &NamePositions,
    news: &NamePositions,
    pair: &PairText,
) -> Result<(), TypeFault>
    ensures { (signature : Signature) (earlier unshared : List WrittenPair)
        → HasNames sorts.now (names_of_sorts signature) → HasNames olds.now (old_names earlier)
        → HasNames news.now (new_names unshared) → MatchResult result
        (λ _. sort_pair_fault signature earlier unshared (pair_of pair.now) ≡ None)
        (λ fault. IsFaultFound (sort_pair_fault signature earlier unshared (pair_of pair.now))
        fault) }
{
    let (place, old) = &pair.replaced;
    let named = sorts.first(alloc, old)?;
    let Some(_) = named else {
        return Err(TypeFault::UnknownSort {
            place: *place,
            name: old.copy(alloc)?,
        });
    };
    look_at_names(alloc, olds, news, pair)
}

// Looks at the names of a pair of sorts, the old one of which is that of a sort.
fn look_at_names(
    alloc: Global,
    olds: &NamePositions,
    news: &NamePositions,
    pair: &PairText,
) -> Result<(), TypeFault>
    ensures { (signature : Signature) (earlier unshared : List WrittenPair)
        → is_sort_name signature (pair_of pair.now).replaced.name ≡ true
        → HasNames olds.now (old_names earlier) → HasNames news.now (new_names unshared)
        → MatchResult result
        (λ _. sort_pair_fault signature earlier unshared (pair_of pair.now) ≡ None)
        (λ fault. IsFaultFound (sort_pair_fault signature earlier unshared (pair_of pair.now))
        fault) }
{
    let (_, old) = &pair.replaced;
    let listed = olds.first(alloc, old)?;
    if let Some(_) = listed {
        return Err(TypeFault::DoubleSort {
            place: pair.place,
            name: pair.given.copy(alloc)?,
        });
    }
    let taken = news.first(alloc, &pair.given)?;
    if let Some(_) = taken {
        return Err(TypeFault::DoubleSort {
            place: pair.place,
            name: pair.given.copy(alloc)?,
        });
    }
    Ok(())
}

/// Looks at a pair of operations behind earlier ones. It is refused where its old name is that of
/// no operation; then where an earlier pair has the old name. The names are given.
pub fn look_at_op_pair(
    alloc: Global,
    ops: &NamePositions,
    olds: &NamePositions,
    pair: &PairText,
) -> Result<(), TypeFault>
    ensures { (signature : Signature) (earlier : List WrittenPair)
        → HasNames ops.now (names_of_operations signature)
        → HasNames olds.now (old_names earlier) → MatchResult result
        (λ _. operation_pair_fault signature earlier (pair_of pair.now) ≡ None)
        (λ fault. IsFaultFound (operation_pair_fault signature earlier (pair_of pair.now))
        fault) }
{
    let (place, old) = &pair.replaced;
    let named = ops.first(alloc, old)?;
    let Some(_) = named else {
        return Err(TypeFault::UnknownOperation {
            place: *place,
            name: old.copy(alloc)?,
        });
    };
    let listed = olds.first(alloc, old)?;
    if let Some(_) = listed {
        return Err(TypeFault::DoubleOperation {
            place: pair.place,
            name: pair.given.copy(alloc)?,
        });
    }
    Ok(())
}
