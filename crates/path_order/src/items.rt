//! The operations that one item lists.

ghost use Rattle.lotos_base.specs.Name.{spelling};
ghost use Rattle.lotos_base.specs.WrittenView.{listed_operation_of};
ghost use Rattle.path_order.specs.Added.{IsAddedIf, IsSuitable};
ghost use Rattle.path_order.specs.Listed.{AreListedBy};
ghost use Rattle.sort_terms.specs.NameIndex.{numbers_under};
ghost use Rattle.sort_terms.specs.Positions.{positions_of};
ghost use Rattle.sort_terms.specs.SignatureView.{signature_of};
ghost use Rattle.std.specs.Prelude.{◌≡◌, ◌<◌, ℕ, List, IfOk, length, map};

use crate::suiting::suits;
use lotos_base::{NoMemory, OrderItem};
use sort_terms::name_index::NameIndex;
use sort_terms::{Op, Signature};
use std::alloc::Global;

/// The operations by their names.
pub fn indexed(alloc: Global, ops: &[Op]) -> Result<NameIndex, NoMemory>
    ensures { IfOk result (λ made. (key : List ℕ) → numbers_under made key
        ≡ positions_of key (map (λ o. spelling o.name) ops.now)) }
{
    let mut made = NameIndex::new(alloc);
    for number in 0..ops.len() {
        made.add(alloc, &ops[number].name, number)?;
    }
    Ok(made)
}

/// The numbers of the operations that the item lists, the latest declared first.
pub fn listed_by(
    alloc: Global,
    signature: &Signature,
    names: &NameIndex,
    item: &OrderItem,
) -> Result<Vec<u32>, NoMemory>
    requires { (key : List ℕ) → numbers_under names.now key
        ≡ positions_of key (map (λ o. spelling o.name) signature.now.ops.items) }
    ensures { IfOk result (λ found. AreListedBy (signature_of signature.now)
        (listed_operation_of item.now) found.items) }
{
    let numbers = names.numbers(alloc, &item.name)?;
    let mut found = Vec::new(alloc);
    for k in 0..numbers.len() {
        found = with_suiting(found, signature, numbers[numbers.len() - 1 - k], item)?;
    }
    Ok(found)
}

// The numbers with this one at the end, if the operation suits the item.
fn with_suiting(
    mut found: Vec<u32>,
    signature: &Signature,
    number: usize,
    item: &OrderItem,
) -> Result<Vec<u32>, NoMemory>
    requires { number < length signature.now.ops.items }
    ensures { IfOk result (λ more. IsAddedIf (IsSuitable (signature_of signature.now) number
        (listed_operation_of item.now)) number found.items more.items) }
{
    if suits(signature, &signature.ops()[number], item) {
        found.push(number as u32)?;
    }
    Ok(found)
}
