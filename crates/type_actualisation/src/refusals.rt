//! Faults that were kept while sorts and operations came in.

ghost use Rattle.type_renaming.specs.CameView.{place_kept};
ghost use Rattle.type_renaming.specs.FaultPlaces.{fault_at};
ghost use Rattle.type_presentations.specs.EquationListView.{equations_in};
ghost use Rattle.lotos_base.specs.WrittenView.{placed_name_of};
ghost use Rattle.std.specs.Prelude.{◌≡◌, false, length, MatchResult, nat_lt, None, true};
ghost use Rattle.type_actualisation.specs.Parts.{fault_kept};
ghost use Rattle.type_definitions.specs.FaultView.{HoldsOfFault, IsFaultFound};
ghost use Rattle.type_definitions.specs.Presentation.{presentation_limit};
ghost use Rattle.type_definitions.specs.TypeFault.{
  double_operation as operation_twice,
  double_sort as sort_twice,
  too_large as too_much,
};

use std::alloc::Global;
use syntax_trees::Named;
use type_definitions::TypeFault;
use type_presentations::EquationList;
use type_presentations::faults::{double_operation, double_sort, too_large};
use type_renaming::Came;

// How many equations a presentation has at most.
const LIMIT: usize = 65_536;

/// Refuses the first fault that was kept: `DoubleSort`, then `DoubleOperation`, then `TooLarge` for
/// sorts, then for operations.
pub fn refuse_kept(alloc: Global, sorts: &Came, ops: &Came) -> Result<(), TypeFault>
    ensures { MatchResult result (λ _. fault_kept sorts.now ops.now ≡ None)
        (λ fault. IsFaultFound (fault_kept sorts.now ops.now) fault) }
{
    refuse_double_sort(alloc, &sorts.clash)?;
    refuse_double_operation(alloc, &ops.clash)?;
    refuse_too_many(alloc, &sorts.too_many)?;
    refuse_too_many(alloc, &ops.too_many)?;
    Ok(())
}

// Refuses a second sort of a name, if one is kept.
fn refuse_double_sort(alloc: Global, kept: &Option<Named>) -> Result<(), TypeFault>
    ensures { MatchResult result (λ _. fault_at sort_twice (place_kept kept.now) ≡ None)
        (λ fault. IsFaultFound (fault_at sort_twice (place_kept kept.now)) fault) }
{
    let Some(at) = kept else {
        return Ok(());
    };
    Err(double_sort(alloc, at.0, &at.1))
}

// Refuses a second operation of a name, form and profile, if one is kept.
fn refuse_double_operation(alloc: Global, kept: &Option<Named>) -> Result<(), TypeFault>
    ensures { MatchResult result (λ _. fault_at operation_twice (place_kept kept.now) ≡ None)
        (λ fault. IsFaultFound (fault_at operation_twice (place_kept kept.now)) fault) }
{
    let Some(at) = kept else {
        return Ok(());
    };
    Err(double_operation(alloc, at.0, &at.1))
}

// Refuses what is too many, if something is kept.
fn refuse_too_many(alloc: Global, kept: &Option<Named>) -> Result<(), TypeFault>
    ensures { MatchResult result (λ _. fault_at too_much (place_kept kept.now) ≡ None)
        (λ fault. IsFaultFound (fault_at too_much (place_kept kept.now)) fault) }
{
    let Some(at) = kept else {
        return Ok(());
    };
    Err(too_large(alloc, at.0, &at.1))
}

/// Refuses more equations than a presentation may have, as `TooLarge` at the mention of the base.
pub fn refuse_many_equations(
    alloc: Global,
    equations: &EquationList,
    mention: &Named,
) -> Result<(), TypeFault>
    ensures { MatchResult result
        (λ _. nat_lt presentation_limit (length (equations_in equations.now)) ≡ false)
        (λ fault. HoldsOfFault fault (λ f.
        (nat_lt presentation_limit (length (equations_in equations.now)) ≡ true)
        × (f ≡ too_much (placed_name_of mention.now).place (placed_name_of mention.now).name))) }
{
    let is_past = is_past_limit(equations);
    if is_past {
        return Err(too_large(alloc, mention.0, &mention.1));
    }
    Ok(())
}

// Whether there are more equations than a presentation has at most.
fn is_past_limit(equations: &EquationList) -> bool
    ensures { result ≡ nat_lt presentation_limit (length (equations_in equations.now)) }
{
    LIMIT < equations.equations().len()
}
