//! What comes into the actual types.

ghost use Rattle.lotos_base.specs.WrittenView.{placed_name_of};
ghost use Rattle.type_presentations.specs.OperationListView.{HasOperationKeys, operations_in};
ghost use Rattle.type_presentations.specs.SortListView.{HasSortKeys, sorts_in};
ghost use Rattle.sort_terms.specs.WellFormedTest.{all_differ, are_one_operation, are_one_sort};
ghost use Rattle.std.specs.Prelude.{◌≡◌, ◌≤◌, length, MatchResult, OnOk, true};
ghost use Rattle.type_actualisation.specs.NewNumbersView.{AreNewNumbers};
ghost use Rattle.type_actualisation.specs.Parts.{
  HasBroughtOperations,
  HasBroughtSorts,
  HasOperationParts,
  HasParts,
  HasSortParts,
  HaveCome,
  IsBroughtIn,
  IsComingFault,
  HasBroughtRest,
  IsFaultBehindPairs,
  IsFormalOperationFault,
  IsFormalSortFault,
};
ghost use Rattle.type_definitions.specs.Actualisation.{Actualising};
ghost use Rattle.type_definitions.specs.Presentation.{presentation_limit};
ghost use Rattle.type_presentations.specs.PresentationView.{IsSound, IsWithinLimits};

use crate::bring_equations;
use crate::refusals::{refuse_kept, refuse_many_equations};
use std::alloc::Global;
use syntax_trees::Named;
use type_definitions::TypeFault;
use type_presentations::{OperationList, Presentation, SortList};
use type_renaming::{Came, Source, actual_op_numbers, actual_sort_numbers, bring_ops, bring_sorts};

/// The new numbers of the sorts and operations of a base, by their old ones.
#[derive(Drop)]
pub struct NewNumbers {
    /// Those of the sorts.
    pub sorts: Vec<u32>,
    /// Those of the operations.
    pub ops: Vec<u32>,
}

/// Brings into the actual types what is not formal in the base, where each formal sort and
/// operation becomes its actual one. Refused are a formal sort without an actual one, then a
/// formal operation, then clashes of sorts, then of operations, then too many sorts, operations or
/// equations.
pub fn bring(
    alloc: Global,
    base: &Presentation,
    actual: &mut Presentation,
    sorts: &Source<'_>,
    ops: &Source<'_>,
) -> Result<NewNumbers, TypeFault>
    requires sound { IsSound base.now }
    requires within { IsWithinLimits base.now }
    requires actual_sound { IsSound actual.old }
    requires actual_within { IsWithinLimits actual.old }
    requires parts { (a : Actualising) × HasParts a base.now actual.old sorts.now ops.now }
    ensures { (a : Actualising) → HasParts a base.now actual.old sorts.now ops.now
        → MatchResult result (λ numbers. IsBroughtIn a actual.new × AreNewNumbers a numbers)
        (λ fault. IsFaultBehindPairs a fault) }
{
    let came = bring_all_sorts(alloc, base, &mut actual.sorts, sorts)?;
    let numbers = came.numbers.as_slice();
    let came_ops = bring_all_ops(alloc, base, &mut actual.ops, ops, numbers)?;
    complete(alloc, base, actual, &came, &came_ops, ops.mention)?;
    Ok(NewNumbers {
        sorts: came.numbers,
        ops: came_ops.numbers,
    })
}

// Brings the sorts.
fn bring_all_sorts(
    alloc: Global,
    base: &Presentation,
    list: &mut SortList,
    source: &Source<'_>,
) -> Result<Came, TypeFault>
    requires sound { IsSound base.now }
    requires within { IsWithinLimits base.now }
    requires keyed { HasSortKeys list.old }
    requires differ { all_differ are_one_sort (sorts_in list.old) ≡ true }
    requires few { length (sorts_in list.old) ≤ presentation_limit }
    requires parts { (a : Actualising) × HasSortParts a base.now list.old source.now }
    ensures keyed { OnOk result (HasSortKeys list.new) }
    ensures sorts { (a : Actualising) → HasSortParts a base.now list.old source.now
        → MatchResult result (λ came. HasBroughtSorts a list.new came)
        (λ fault. IsFormalSortFault a fault) }
{
    let numbers = actual_sort_numbers(alloc, base, source.mention, source.pairs, list)?;
    let came = bring_sorts(alloc, list, base, source, numbers.as_slice())?;
    Ok(came)
}

// Brings the operations, where the new numbers of the sorts are given.
fn bring_all_ops(
    alloc: Global,
    base: &Presentation,
    list: &mut OperationList,
    source: &Source<'_>,
    sorts: &[u32],
) -> Result<Came, TypeFault>
    requires sound { IsSound base.now }
    requires within { IsWithinLimits base.now }
    requires keyed { HasOperationKeys list.old }
    requires differ { all_differ are_one_operation (operations_in list.old) ≡ true }
    requires few { length (operations_in list.old) ≤ presentation_limit }
    requires parts { (a : Actualising)
        × HasOperationParts a base.now list.old source.now sorts.now }
    ensures keyed { OnOk result (HasOperationKeys list.new) }
    ensures ops { (a : Actualising) → HasOperationParts a base.now list.old source.now sorts.now
        → MatchResult result (λ came. HasBroughtOperations a list.new came)
        (λ fault. IsFormalOperationFault a fault) }
{
    let numbers = actual_op_numbers(alloc, base, source.mention, source.pairs, sorts, list)?;
    let came = bring_ops(alloc, list, base, source, sorts, numbers.as_slice())?;
    Ok(came)
}

// Brings the equations, unless a fault was kept while the sorts and operations came in.
fn complete(
    alloc: Global,
    base: &Presentation,
    actual: &mut Presentation,
    sorts: &Came,
    ops: &Came,
    mention: &Named,
) -> Result<(), TypeFault>
    requires { (a : Actualising) × HaveCome a base.now actual.old sorts.now ops.now }
    ensures { (a : Actualising) → a.base.at ≡ placed_name_of mention.now
        → HaveCome a base.now actual.old sorts.now ops.now
        → MatchResult result (λ _. HasBroughtRest a actual.new) (λ fault. IsComingFault a fault) }
{
    refuse_kept(alloc, sorts, ops)?;
    bring_equations(
        alloc,
        base,
        actual,
        sorts.numbers.as_slice(),
        ops.numbers.as_slice(),
    )?;
    refuse_many_equations(alloc, &actual.equations, mention)?;
    Ok(())
}
