//! The actual operations of formal ones.

ghost use Rattle.type_renaming.specs.Actuals.{
  AreActualOperations,
  IsActualOf,
  LacksActual,
  has_actual_in_some_form,
  operation_lacks_actual,
};
ghost use Rattle.type_renaming.specs.PartsView.{AreOperationParts, IsBaseOf};
ghost use Rattle.type_renaming.specs.ProfilesView.{AreFewProfiles};
ghost use Rattle.lotos_base.specs.WrittenView.{placed_name_of};
ghost use Rattle.type_presentations.specs.OperationListView.{operations_in};
ghost use Rattle.sort_terms.specs.Operations.{operation_of};
ghost use Rattle.sort_terms.specs.WellFormedTest.{all_differ, are_one_operation};
ghost use Rattle.std.specs.Prelude.{
  ◌≡◌,
  ◌<◌,
  ◌^◌,
  ℕ,
  false,
  true,
  None,
  IfOk,
  MatchOption,
  MatchResult,
  length,
};
ghost use Rattle.type_definitions.specs.FaultView.{HoldsOfFault, IsFaultFound};
ghost use Rattle.type_definitions.specs.Actualisation.{
  Actualising,
  actual_operation,
  actualised_sort,
  formal_operations_of,
};
ghost use Rattle.type_definitions.specs.ActualisationFaults.{formal_operation_fault};
ghost use Rattle.type_definitions.specs.ProfiledImage.{number_in};
ghost use Rattle.type_presentations.specs.PairIndexView.{pairs_in};
ghost use Rattle.type_presentations.specs.PresentationView.{IsSound, IsWithinLimits};

use crate::profile_index::ProfileIndex;
use crate::sought::{sought_op, turned};
use lotos_base::NoMemory;
use sort_terms::Op;
use std::alloc::Global;
use syntax_trees::Named;
use type_definitions::TypeFault;
use type_presentations::{OperationList, PairIndex, Presentation};

/// The number of the actual operation of each formal operation of the base, among the operations of
/// the actual types, and none for the other operations. One of the form of the formal one is taken
/// before one of the other form. It is refused as `MissingActual` at the mention of the base, with
/// the formal name, at the first formal operation without an actual one. The new numbers of the
/// sorts of the base are given.
pub fn actual_op_numbers(
    alloc: Global,
    base: &Presentation,
    mention: &Named,
    pairs: &PairIndex<'_>,
    sorts: &[u32],
    ops: &OperationList,
) -> Result<Vec<Option<u32>>, TypeFault>
    requires sound { IsSound base.now }
    requires within { IsWithinLimits base.now }
    requires few { length (operations_in ops.now) < 2 ^ 32 }
    requires differ { all_differ are_one_operation (operations_in ops.now) ≡ true }
    ensures { (a : Actualising) → IsBaseOf a base.now mention.now
        → a.actual.signature.operations ≡ operations_in ops.now
        → a.pairs.operation_pairs ≡ pairs_in pairs.now
        → ((n : ℕ) → number_in sorts.now n ≡ actualised_sort a n)
        → MatchResult result (λ numbers. AreActualOperations a numbers.items)
        (IsFaultFound (formal_operation_fault a (formal_operations_of a.base.presentation))) }
{
    let profiles = ProfileIndex::of(alloc, ops.ops())?;
    let coming = base.ops.ops();
    let mut numbers = Vec::with_capacity(alloc, coming.len())?;
    for number in 0..coming.len() {
        let is_formal = base.formal_ops.has(number as u32);
        let op = &coming[number];
        let found = actual_of_op(alloc, &profiles, mention, pairs, sorts, op, is_formal)?;
        numbers.push(found)?;
    }
    Ok(numbers)
}

// The number of the actual operation of an operation, if it is formal.
fn actual_of_op(
    alloc: Global,
    profiles: &ProfileIndex,
    mention: &Named,
    pairs: &PairIndex<'_>,
    sorts: &[u32],
    op: &Op,
    is_formal: bool,
) -> Result<Option<u32>, TypeFault>
    requires { AreFewProfiles profiles.now }
    ensures { (a : Actualising) → a.base.at ≡ placed_name_of mention.now
        → AreOperationParts a pairs.now sorts.now profiles.now → MatchResult result
        (IsActualOf is_formal (operation_lacks_actual a (operation_of op.now))
        (actual_operation a (operation_of op.now)))
        (λ fault. HoldsOfFault fault
        (LacksActual is_formal (operation_lacks_actual a (operation_of op.now)))) }
{
    if is_formal {
        let number = actual_of_formal(alloc, profiles, mention, pairs, sorts, op)?;
        return Ok(Some(number));
    }
    Ok(None)
}

// The number of the actual operation of a formal one.
fn actual_of_formal(
    alloc: Global,
    profiles: &ProfileIndex,
    mention: &Named,
    pairs: &PairIndex<'_>,
    sorts: &[u32],
    op: &Op,
) -> Result<u32, TypeFault>
    requires { AreFewProfiles profiles.now }
    ensures { (a : Actualising) → a.base.at ≡ placed_name_of mention.now
        → AreOperationParts a pairs.now sorts.now profiles.now → MatchResult result
        (λ n. (operation_lacks_actual a (operation_of op.now) ≡ None)
        × (n ≡ actual_operation a (operation_of op.now)))
        (IsFaultFound (operation_lacks_actual a (operation_of op.now))) }
{
    let position = position_of_actual(alloc, profiles, pairs, sorts, op)?;
    let Some(number) = position else {
        return Err(TypeFault::MissingActual {
            place: mention.0,
            name: op.name.copy(alloc)?,
        });
    };
    Ok(number)
}

// The number of the actual operation of a formal one, if there is one in either form.
fn position_of_actual(
    alloc: Global,
    profiles: &ProfileIndex,
    pairs: &PairIndex<'_>,
    sorts: &[u32],
    op: &Op,
) -> Result<Option<u32>, NoMemory>
    requires { AreFewProfiles profiles.now }
    ensures { IfOk result (λ found. (a : Actualising)
        → AreOperationParts a pairs.now sorts.now profiles.now → MatchOption found
        (has_actual_in_some_form a (operation_of op.now) ≡ false)
        (λ n. (has_actual_in_some_form a (operation_of op.now) ≡ true)
        × (n ≡ actual_operation a (operation_of op.now)))) }
{
    let sought = sought_op(alloc, pairs, sorts, op)?;
    let same = profiles.position(alloc, &sought)?;
    if let Some(position) = same {
        return Ok(Some(position as u32));
    }
    let other = turned(sought);
    let found = profiles.position(alloc, &other)?;
    let Some(position) = found else {
        return Ok(None);
    };
    Ok(Some(position as u32))
}
