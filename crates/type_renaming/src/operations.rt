//! Operations under the pairs of a renaming.

ghost use Rattle.type_presentations.specs.Growth.{with_one_operation};
ghost use Rattle.sort_terms.specs.Operations.{operation_of};
ghost use Rattle.sort_terms.specs.WellFormedTest.{
  all_differ,
  are_one_operation,
  has_known_sorts,
};
ghost use Rattle.std.specs.List.{list_all, list_any};
ghost use Rattle.std.specs.Option.{option_map};
ghost use Rattle.std.specs.Prelude.{
  ◌≡◌,
  ◌≤◌,
  [],
  false,
  true,
  IfOk,
  MatchResult,
  None,
  Some,
  length,
  map,
};
ghost use Rattle.syntax_trees.specs.TreeViews.{pair_of};
ghost use Rattle.type_presentations.specs.Making.{IsMade};
ghost use Rattle.type_definitions.specs.FaultView.{IsFaultFound};
ghost use Rattle.type_definitions.specs.Presentation.{presentation_limit};
ghost use Rattle.type_definitions.specs.Renaming.{
  pair_for,
  renamed_operation,
  renamed_operation_clash,
};
ghost use Rattle.type_presentations.specs.PairIndexView.{pairs_in};
ghost use Rattle.type_presentations.specs.PresentationView.{
  IsSound,
  IsWithinLimits,
  presentation_of,
};
ghost use Rattle.type_renaming.specs.Clashes.{
  giving_operation,
  have_one_profile as are_of_one_profile,
  operation_clash,
  operation_fault_at,
};
ghost use Rattle.type_renaming.specs.Parts.{operations_alone, with_these_operations};
ghost use Rattle.type_renaming.specs.RenamerView.{operation_pairs_in, type_name_in};

use crate::renamer::Renamer;
use lotos_base::NoMemory;
use sort_terms::Op;
use std::alloc::Global;
use std::rc::Rc;
use syntax_trees::PairText;
use type_definitions::TypeFault;
use type_presentations::{Presentation, grow_by_op};

/// Puts the images of the operations into a presentation that has their sorts and no operations. It
/// is refused at the first operation whose image has the name, form and profile of that of an
/// earlier one.
pub fn rename_ops(
    alloc: Global,
    renamed: &mut Presentation,
    base: &[Rc<Op>],
    renamer: &Renamer<'_>,
) -> Result<(), TypeFault>
    requires sound { IsSound renamed.old }
    requires within { IsWithinLimits renamed.old }
    requires none { (presentation_of renamed.old).signature.operations ≡ [] }
    requires few { length base.now ≤ presentation_limit }
    requires known { list_all
        (has_known_sorts (length (presentation_of renamed.old).signature.sorts))
        (map (λ op. operation_of op.value) base.now) ≡ true }
    requires apart { all_differ are_one_operation (map (λ op. operation_of op.value) base.now)
        ≡ true }
    ensures { MatchResult result
        (λ _. IsMade (renamed_operation_clash
        (operations_alone (map (λ op. operation_of op.value) base.now))
        (type_name_in renamer.now) (operation_pairs_in renamer.now))
        (with_these_operations (presentation_of renamed.old)
        (map (renamed_operation (type_name_in renamer.now) (operation_pairs_in renamer.now))
        (map (λ op. operation_of op.value) base.now))) renamed.new)
        (λ fault. IsFaultFound (renamed_operation_clash
        (operations_alone (map (λ op. operation_of op.value) base.now))
        (type_name_in renamer.now) (operation_pairs_in renamer.now)) fault) }
{
    for number in 0..base.len() {
        add_image(alloc, renamed, &base[..number], &base[number], renamer)?;
    }
    Ok(())
}

// Puts the image of an operation behind those of the earlier ones.
fn add_image(
    alloc: Global,
    renamed: &mut Presentation,
    earlier: &[Rc<Op>],
    op: &Op,
    renamer: &Renamer<'_>,
) -> Result<(), TypeFault>
    requires sound { IsSound renamed.old }
    requires within { IsWithinLimits renamed.old }
    requires images { (presentation_of renamed.old).signature.operations
        ≡ map (renamed_operation (type_name_in renamer.now) (operation_pairs_in renamer.now))
        (map (λ op. operation_of op.value) earlier.now) }
    requires known { has_known_sorts (length (presentation_of renamed.old).signature.sorts)
        (operation_of op.now) ≡ true }
    requires apart { list_any (are_one_operation (operation_of op.now))
        (map (λ op. operation_of op.value) earlier.now) ≡ false }
    ensures { MatchResult result
        (λ _. (operation_clash (type_name_in renamer.now) (operation_pairs_in renamer.now)
        (map (λ op. operation_of op.value) earlier.now) (operation_of op.now) ≡ None)
        × (presentation_of renamed.new ≡ with_one_operation (presentation_of renamed.old)
        (renamed_operation (type_name_in renamer.now) (operation_pairs_in renamer.now)
        (operation_of op.now))) × IsSound renamed.new)
        (λ fault. IsFaultFound (operation_clash (type_name_in renamer.now)
        (operation_pairs_in renamer.now) (map (λ op. operation_of op.value) earlier.now)
        (operation_of op.now)) fault) }
{
    let image = renamer.op(alloc, op)?;
    let is_second = grow_by_op(alloc, renamed, image)?;
    if is_second {
        let fault = op_clash(alloc, earlier, op, renamer)?;
        return Err(fault);
    }
    Ok(())
}

// The fault of the operation, whose image has the name, form and profile of that of an earlier one.
fn op_clash(
    alloc: Global,
    earlier: &[Rc<Op>],
    op: &Op,
    renamer: &Renamer<'_>,
) -> Result<TypeFault, NoMemory>
    requires clash { list_any (are_one_operation (renamed_operation (type_name_in renamer.now)
        (operation_pairs_in renamer.now) (operation_of op.now)))
        (map (renamed_operation (type_name_in renamer.now) (operation_pairs_in renamer.now))
        (map (λ op. operation_of op.value) earlier.now)) ≡ true }
    requires apart { list_any (are_one_operation (operation_of op.now))
        (map (λ op. operation_of op.value) earlier.now) ≡ false }
    ensures { IfOk result (λ fault. IsFaultFound (operation_clash (type_name_in renamer.now)
        (operation_pairs_in renamer.now) (map (λ op. operation_of op.value) earlier.now)
        (operation_of op.now)) fault) }
{
    let own = renamer.pairs.pair_for(alloc, &op.name)?;
    if let Some(pair) = own {
        return double_op_at(alloc, pair);
    }
    let found = pair_of_earlier(alloc, earlier, op, renamer)?;
    let Some(pair) = found else { unreachable!() };
    double_op_at(alloc, pair)
}

// The pair of the first earlier operation of the form and profile of the operation that was given
// its name. The operation has no pair.
fn pair_of_earlier<'b>(
    alloc: Global,
    earlier: &[Rc<Op>],
    op: &Op,
    renamer: &'b Renamer<'_>,
) -> Result<Option<&'b PairText>, NoMemory>
    requires own { pair_for (pairs_in renamer.now.pairs) (operation_of op.now).name ≡ None }
    requires apart { list_any (are_one_operation (operation_of op.now))
        (map (λ op. operation_of op.value) earlier.now) ≡ false }
    ensures { IfOk result (λ found. operation_clash (type_name_in renamer.now)
        (operation_pairs_in renamer.now) (map (λ op. operation_of op.value) earlier.now)
        (operation_of op.now) ≡ option_map (λ p. operation_fault_at (pair_of p.now)) found) }
{
    for other in earlier {
        let found = giver_to(alloc, other, op, renamer)?;
        if let Some(pair) = found {
            return Ok(Some(pair));
        }
    }
    Ok(None)
}

// The pair of the earlier operation, if it has the form and profile of the operation and was given
// its name.
fn giver_to<'b>(
    alloc: Global,
    earlier: &Op,
    op: &Op,
    renamer: &'b Renamer<'_>,
) -> Result<Option<&'b PairText>, NoMemory>
    ensures { IfOk result (λ found. option_map (λ p. pair_of p.now) found ≡ giving_operation
        (pair_for (pairs_in renamer.now.pairs) (operation_of earlier.now).name)
        (operation_of earlier.now) (operation_of op.now)) }
{
    let are_alike = have_one_profile(earlier, op);
    if are_alike {
        return renamer.giver(alloc, &earlier.name, &op.name);
    }
    Ok(None)
}

// Whether two operations have one form and profile.
fn have_one_profile(one: &Op, other: &Op) -> bool
    ensures { result ≡ are_of_one_profile (operation_of one.now) (operation_of other.now) }
{
    one.form == other.form
        && one.arguments.as_slice() == other.arguments.as_slice()
        && one.result == other.result
}

// The fault at the pair.
fn double_op_at(alloc: Global, pair: &PairText) -> Result<TypeFault, NoMemory>
    ensures { IfOk result (λ fault. IsFaultFound (Some (operation_fault_at (pair_of pair.now)))
        fault) }
{
    Ok(TypeFault::DoubleOperation {
        place: pair.place,
        name: pair.given.copy(alloc)?,
    })
}
