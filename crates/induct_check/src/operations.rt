//! The operations that a text of items lists.

ghost use Rattle.induct_check.specs.CertificateReading.{AreOperationsOf, ItemsList};
ghost use Rattle.induct_check.specs.ItemView.{ItemGives};
ghost use Rattle.induct_check.specs.KnownView.{HasKnownSignature, known_signature};
ghost use Rattle.lotos_base.specs.WrittenView.{listed_operation_of};
ghost use Rattle.std.specs.Prelude.{ℕ, IfOk, List, MatchOption, map};

use crate::known::Known;
use lotos_base::{NoMemory, OrderItem};
use lotos_grammar::{ReadFault, read_order, texts_have_one_outcome};
use path_order::items::listed_by;

/// The operations that the items in the text list, if the text is items without statuses, each of
/// which lists an operation.
pub fn operations_of(known: &Known, text: &[u8]) -> Result<Option<Vec<u32>>, NoMemory>
    requires { HasKnownSignature known.now }
    ensures { IfOk result (λ found. MatchOption found
        ((fs : List ℕ) → ¬ AreOperationsOf (known_signature known.now) text.now fs)
        (λ fs. AreOperationsOf (known_signature known.now) text.now fs.items)) }
{
    texts_have_one_outcome();
    match read_order(known.alloc, text, 0) {
        Ok(items) => operations_of_items(known, items.as_slice()),
        Err(ReadFault::NoMemory) => Err(NoMemory),
        Err(_) => Ok(None),
    }
}

// The operations that the items list, if none has a status and each lists one.
fn operations_of_items(known: &Known, items: &[OrderItem]) -> Result<Option<Vec<u32>>, NoMemory>
    requires { HasKnownSignature known.now }
    ensures { IfOk result (λ found. MatchOption found
        ((fs : List ℕ)
        → ¬ ItemsList (known_signature known.now) (map listed_operation_of items.now) fs)
        (λ fs. ItemsList (known_signature known.now) (map listed_operation_of items.now)
        fs.items)) }
{
    let mut made = Vec::new(known.alloc);
    for item in items {
        let found = operations_of_item(known, item)?;
        if found.is_empty() {
            return Ok(None);
        }
        made.extend_from_slice(found.as_slice())?;
    }
    Ok(Some(made))
}

// The operations that the item lists; none where it has a status.
fn operations_of_item(known: &Known, item: &OrderItem) -> Result<Vec<u32>, NoMemory>
    requires { HasKnownSignature known.now }
    ensures { IfOk result (λ found. ItemGives (known_signature known.now)
        (listed_operation_of item.now) found.items) }
{
    if let Some(_) = &item.status {
        return Ok(Vec::new(known.alloc));
    }
    listed_by(known.alloc, known.signature, known.operations, item)
}
