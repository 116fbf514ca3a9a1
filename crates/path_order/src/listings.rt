//! The operations that items list, with their statuses.

ghost use Rattle.lotos_base.specs.WrittenView.{listed_operation_of};
ghost use Rattle.path_order.specs.Contains.{IsOnce, contains};
ghost use Rattle.path_order.specs.Listing.{AreListedByItems, IsFineItem};
ghost use Rattle.path_order.specs.OrderFaultView.{IsOrderFault};
ghost use Rattle.path_order.specs.PrecedenceView.{status_by_number, status_of};
ghost use Rattle.path_order.specs.Statuses.{AreStatusesBy, status_written};
ghost use Rattle.path_order.specs.Steps.{
  HasCommon,
  IsItemFault,
  IsNewOf,
  IsStatusFault,
  given_status,
};
ghost use Rattle.sort_terms.specs.SignatureView.{signature_of};
ghost use Rattle.std.specs.Prelude.{◌≡◌, ◌↔◌, ◌++◌, ◌<◌, ℕ, IsTrue, MatchResult, IfOk, Some, false, length, map, slice_get};

use crate::items::{indexed, listed_by};
use crate::listing::Listing;
use crate::order_fault::OrderFault;
use crate::status::Status;
use lotos_base::{NoMemory, OrderItem};
use sort_terms::Signature;
use std::alloc::Global;

/// The operations that the items list, item by item, each with the status of its item, or the first
/// fault.
pub fn listing(
    alloc: Global,
    signature: &Signature,
    order: &[OrderItem],
) -> Result<Listing, OrderFault>
    ensures listed { MatchResult result
        (λ made. AreListedByItems (signature_of signature.now) (map listed_operation_of order.now)
        made.order.items)
        (λ fault. IsOrderFault (signature_of signature.now) (map listed_operation_of order.now)
        fault) }
    ensures fine { IfOk result (λ made. (k : ℕ) → IsFineItem (signature_of signature.now)
        (map listed_operation_of order.now) k) }
    ensures room { IfOk result
        (λ made. length made.listed.items ≡ length signature.now.ops.items) }
    ensures statuses { IfOk result (λ made. AreStatusesBy (signature_of signature.now)
        (map listed_operation_of order.now) (status_by_number made.statuses.items)) }
{
    let names = indexed(alloc, signature.ops())?;
    let mut made = Listing::new(alloc, signature.ops().len())?;
    for item in order {
        let found = listed_by(alloc, signature, &names, item)?;
        made = with_item(alloc, made, item, found.as_slice())?;
    }
    Ok(made)
}

// The listing with the operations of one more item at the end, each with the status of the item.
fn with_item(
    alloc: Global,
    made: Listing,
    item: &OrderItem,
    found: &[u32],
) -> Result<Listing, OrderFault>
    requires below { (j f : ℕ) → slice_get found.now j ≡ Some f → f < length made.listed.items }
    requires once { IsOnce found.now }
    ensures { MatchResult result
        (λ more. IsNewOf (listed_operation_of item.now) made more found.now)
        (λ fault. IsItemFault (listed_operation_of item.now) made.order.items found.now fault) }
{
    if found.len() == 0 {
        return Err(OrderFault::UnknownOperation {
            place: item.place,
            name: item.name.copy(alloc)?,
        });
    }
    if has_some(&made, found) {
        return Err(OrderFault::TwiceListed {
            place: item.place,
            name: item.name.copy(alloc)?,
        });
    }
    let status = item_status(alloc, item)?;
    Ok(with_all(made, found, status)?)
}

// The status that the item writes: from the left where it writes none. `BadStatus` where it writes
// another name.
fn item_status(alloc: Global, item: &OrderItem) -> Result<Status, OrderFault>
    ensures { MatchResult result
        (λ status. status_written (listed_operation_of item.now).status ≡ Some (status_of status))
        (λ fault. IsStatusFault (listed_operation_of item.now) fault) }
{
    let Some(status) = &item.status else {
        return Ok(Status::Left);
    };
    match Status::named(&status.1) {
        Some(named) => Ok(named),
        None => Err(OrderFault::BadStatus {
            place: status.0,
            name: status.1.copy(alloc)?,
        }),
    }
}

// Whether one of the operations is there already.
fn has_some(made: &Listing, found: &[u32]) -> bool
    requires { (j f : ℕ) → slice_get found.now j ≡ Some f → f < length made.now.listed.items }
    ensures { IsTrue result ↔ HasCommon made.now.order.items found.now }
{
    for op in found {
        if made.has(*op) {
            return true;
        }
    }
    false
}

// The listing with the operations at the end, each with this status.
fn with_all(mut made: Listing, found: &[u32], status: Status) -> Result<Listing, NoMemory>
    requires below { (j f : ℕ) → slice_get found.now j ≡ Some f → f < length made.listed.items }
    requires once { IsOnce found.now }
    requires new { ¬ HasCommon made.order.items found.now }
    ensures added { IfOk result
        (λ more. more.order.items ≡ made.order.items ++ found.now) }
    ensures room { IfOk result
        (λ more. length more.listed.items ≡ length made.listed.items) }
    ensures given { IfOk result (λ more. more.statuses.items
        ≡ given_status made.statuses.items found.now status) }
{
    for op in found {
        made.push(*op, status)?;
    }
    Ok(made)
}
