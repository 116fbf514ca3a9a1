//! Operations that come in.

ghost use Rattle.type_renaming.specs.Brought.{OperationsCame};
ghost use Rattle.type_renaming.specs.CameView.{HasSettled, IsFresh, operations_with};
ghost use Rattle.type_renaming.specs.SourceView.{
  AreOperationsComing,
  IsSourceOfOperations,
  coming_operation,
};
ghost use Rattle.type_renaming.specs.Condensed.{operation_kind};
ghost use Rattle.type_renaming.specs.MakersView.{makers_in};
ghost use Rattle.lotos_base.specs.Name.{spelling};
ghost use Rattle.type_presentations.specs.OperationListView.{HasOperationKeys, operations_in};
ghost use Rattle.sort_terms.specs.Operations.{operation_of};
ghost use Rattle.sort_terms.specs.WellFormedTest.{all_differ, are_one_operation};
ghost use Rattle.std.specs.Option.{option_map};
ghost use Rattle.std.specs.Prelude.{
  ◌≡◌,
  ◌+◌,
  ◌^◌,
  ◌<◌,
  ◌≤◌,
  true,
  IfOk,
  None,
  OnOk,
  Some,
  length,
  map,
};
ghost use Rattle.syntax_trees.specs.TreeViews.{pair_of};
ghost use Rattle.type_definitions.specs.Actualisation.{Actualising};
ghost use Rattle.type_definitions.specs.Renaming.{operation_under};
ghost use Rattle.type_definitions.specs.Images.{operation_image};
ghost use Rattle.type_definitions.specs.ProfiledImage.{number_in};

use crate::actuals::actual_at;
use crate::came::Came;
use crate::source::Source;
use lotos_base::{Name, NoMemory};
use sort_terms::Op;
use std::alloc::Global;
use std::rc::Rc;
use syntax_trees::PairText;
use type_definitions::op_image;
use type_presentations::{OperationList, Presentation};

/// Brings the operations of the base into those of the actual types, where the new number of each
/// sort and the actual one of each formal operation are given: the images of the others stand
/// behind the actual ones, each once. The first clash and the first that is too many are kept.
pub fn bring_ops(
    alloc: Global,
    list: &mut OperationList,
    base: &Presentation,
    source: &Source<'_>,
    sorts: &[u32],
    actuals: &[Option<u32>],
) -> Result<Came, NoMemory>
    requires keyed { HasOperationKeys list.old }
    requires differ { all_differ are_one_operation (operations_in list.old) ≡ true }
    requires few { length (operations_in list.old) + length (operations_in base.now.ops)
        ≤ 2 ^ 32 }
    requires actuals { length actuals.now ≡ length (operations_in base.now.ops) }
    ensures keyed { OnOk result (HasOperationKeys list.new) }
    ensures came { IfOk result (λ came. (a : Actualising)
        → AreOperationsComing a source.now sorts.now (operations_in list.old)
        (operations_in base.now.ops) actuals.now → OperationsCame a (operations_with list.new came)) }
{
    let mut came = Came::new(alloc, list.ops().len())?;
    bring_each(
        alloc,
        list,
        &mut came,
        source,
        sorts,
        base.ops.ops(),
        actuals,
    )?;
    Ok(came)
}

// Brings the operations that come, one by one.
fn bring_each(
    alloc: Global,
    list: &mut OperationList,
    came: &mut Came,
    source: &Source<'_>,
    sorts: &[u32],
    coming: &[Rc<Op>],
    actuals: &[Option<u32>],
) -> Result<(), NoMemory>
    requires keyed { HasOperationKeys list.old }
    requires differ { all_differ are_one_operation (operations_in list.old) ≡ true }
    requires few { length (operations_in list.old) + length coming.now ≤ 2 ^ 32 }
    requires actuals { length actuals.now ≡ length coming.now }
    requires fresh { IsFresh came.old (length (operations_in list.old)) }
    ensures keyed { OnOk result (HasOperationKeys list.new) }
    ensures came { OnOk result ((a : Actualising)
        → AreOperationsComing a source.now sorts.now (operations_in list.old)
        (map (λ op. operation_of op.value) coming.now) actuals.now
        → OperationsCame a (operations_with list.new came.new)) }
{
    for number in 0..coming.len() {
        let op = &coming[number];
        let actual = actual_at(actuals, number);
        bring_one(alloc, list, came, source, sorts, op, actual)?;
    }
    Ok(())
}

// Brings an operation, whose actual one is given if it is formal.
fn bring_one(
    alloc: Global,
    list: &mut OperationList,
    came: &mut Came,
    source: &Source<'_>,
    sorts: &[u32],
    op: &Op,
    actual: Option<u32>,
) -> Result<(), NoMemory>
    requires keyed { HasOperationKeys list.old }
    requires few { length (operations_in list.old) < 2 ^ 32 }
    requires makers { length (makers_in came.old.makers) ≡ length (operations_in list.old) }
    ensures keyed { OnOk result (HasOperationKeys list.new) }
    ensures few { OnOk result (length (operations_in list.new)
        ≤ length (operations_in list.old) + 1) }
    ensures makers { OnOk result (length (makers_in came.new.makers)
        ≡ length (operations_in list.new)) }
    ensures came { OnOk result ((a : Actualising)
        → IsSourceOfOperations a source.now sorts.now
        → HasSettled operation_kind a.base.at (coming_operation a (operation_of op.now))
        (operations_with list.old came.old) (operations_with list.new came.new) actual) }
{
    let Some(number) = actual else {
        return bring_image(alloc, list, came, source, sorts, op);
    };
    came.numbers.push(number)?;
    Ok(())
}

// Brings an operation that is not formal.
fn bring_image(
    alloc: Global,
    list: &mut OperationList,
    came: &mut Came,
    source: &Source<'_>,
    sorts: &[u32],
    op: &Op,
) -> Result<(), NoMemory>
    requires keyed { HasOperationKeys list.old }
    requires few { length (operations_in list.old) < 2 ^ 32 }
    requires makers { length (makers_in came.old.makers) ≡ length (operations_in list.old) }
    ensures keyed { OnOk result (HasOperationKeys list.new) }
    ensures few { OnOk result (length (operations_in list.new)
        ≤ length (operations_in list.old) + 1) }
    ensures makers { OnOk result (length (makers_in came.new.makers)
        ≡ length (operations_in list.new)) }
    ensures came { OnOk result ((a : Actualising)
        → IsSourceOfOperations a source.now sorts.now
        → HasSettled operation_kind a.base.at (coming_operation a (operation_of op.now))
        (operations_with list.old came.old) (operations_with list.new came.new) None) }
{
    let pair = source.renamer(alloc, &op.name)?;
    let image = image_of_op(alloc, source.type_name, pair, sorts, op)?;
    let shared = Rc::new(alloc, image)?;
    let added = list.add(alloc, shared)?;
    let is_too_many = list.is_past_limit();
    came.note(
        alloc,
        added.number,
        added.clashes,
        is_too_many,
        pair,
        source.mention,
    )?;
    Ok(())
}

// The operation over the new sorts, under its pair, if there is one.
fn image_of_op(
    alloc: Global,
    type_name: &Name,
    pair: Option<&PairText>,
    sorts: &[u32],
    op: &Op,
) -> Result<Op, NoMemory>
    ensures { IfOk result (λ o. operation_of o ≡ operation_under (spelling type_name.now)
        (option_map (λ p. pair_of p.now) pair.entry)
        (operation_image (number_in sorts.now) (operation_of op.now))) }
{
    let image = op_image(alloc, op, sorts)?;
    match pair {
        Some(pair) => op_under(alloc, type_name, pair, image),
        None => Ok(image),
    }
}

// The operation under a pair.
fn op_under(alloc: Global, type_name: &Name, pair: &PairText, op: Op) -> Result<Op, NoMemory>
    ensures { IfOk result (λ o. operation_of o ≡ operation_under (spelling type_name.now)
        (Some (pair_of pair.now)) (operation_of op)) }
{
    Ok(Op {
        name: pair.given.copy(alloc)?,
        form: op.form,
        arguments: op.arguments,
        result: op.result,
        origin: type_name.copy(alloc)?,
    })
}
