//! Ranks and statuses of operations.

ghost use Rattle.lotos_base.specs.WrittenView.{listed_operation_of};
ghost use Rattle.path_order.specs.Contains.{IsOnce};
ghost use Rattle.path_order.specs.Listing.{AreRanksBy, IsNumberIn};
ghost use Rattle.path_order.specs.OrderFaultView.{IsOrderFault};
ghost use Rattle.path_order.specs.PrecedenceView.{status_by_number};
ghost use Rattle.path_order.specs.Statuses.{AreStatusesBy};
ghost use Rattle.sort_terms.specs.SignatureView.{signature_of};
ghost use Rattle.std.specs.Prelude.{◌≡◌, ◌<◌, ◌≤◌, ◌-◌, ◌^◌, ℕ, IfOk, MatchResult, Some, length, map, slice_get, slice_index};

use crate::listings::listing;
use crate::order_fault::OrderFault;
use crate::status::Status;
use lotos_base::{NoMemory, OrderItem};
use sort_terms::Signature;
use std::alloc::Global;

// The most operations that are ranked.
const MOST: usize = 0x7fff_ffff;

/// Ranks and statuses of the operations of the signature, by their numbers. Without items a later
/// operation has the greater rank. Listed operations stand above all others, the first listed
/// greatest; an item without a profile lists all operations of its name and form, the latest
/// declared first. An operation has the status of the item that lists it, and `Left` where none
/// lists it or the item writes none. `UnknownOperation` comes exactly where an item lists none,
/// `TwiceListed` exactly where it lists one that an earlier item lists, `BadStatus` exactly where
/// it writes another name than `left` or `right` as its status; the first item with a fault counts,
/// and of one item the first of these. A signature of 2^31 operations or more answers as where
/// memory is missing.
pub fn ranks(
    alloc: Global,
    signature: &Signature,
    order: &[OrderItem],
) -> Result<(Vec<u32>, Vec<Status>), OrderFault>
    ensures ranks { MatchResult result
        (λ made. AreRanksBy (signature_of signature.now) (map listed_operation_of order.now)
        made.0.items)
        (λ fault. IsOrderFault (signature_of signature.now) (map listed_operation_of order.now)
        fault) }
    ensures statuses { IfOk result (λ made. AreStatusesBy (signature_of signature.now)
        (map listed_operation_of order.now) (status_by_number made.1.items)) }
{
    let count = signature.ops().len();
    if count > MOST {
        return Err(OrderFault::NoMemory);
    }
    let made = listing(alloc, signature, order)?;
    if made.order().len() > MOST {
        return Err(OrderFault::NoMemory);
    }
    let statuses = Vec::from_slice(alloc, made.statuses())?;
    Ok((ranked(alloc, count, made.order())?, statuses))
}

// The ranks of so many operations, of which these are listed.
fn ranked(alloc: Global, count: usize, listing: &[u32]) -> Result<Vec<u32>, NoMemory>
    requires count { count < 2 ^ 31 }
    requires few { length listing.now < 2 ^ 31 }
    requires below { (j f : ℕ) → slice_get listing.now j ≡ Some f → f < count }
    requires once { IsOnce listing.now }
    ensures listed { IfOk result (λ ranks. (j f : ℕ) → slice_get listing.now j ≡ Some f
        → slice_index ranks.items f ≡ 4294967295 - j) }
    ensures others { IfOk result (λ ranks. (f : ℕ) → f < count → ¬ IsNumberIn listing.now f
        → slice_index ranks.items f ≡ f) }
{
    let mut ranks = numbers(alloc, count)?;
    for j in 0..listing.len() {
        ranks[listing[j] as usize] = u32::MAX - j as u32;
    }
    Ok(ranks)
}

// The numbers below the count, in their order.
fn numbers(alloc: Global, count: usize) -> Result<Vec<u32>, NoMemory>
    requires { count < 2 ^ 31 }
    ensures own { IfOk result (λ made. (f : ℕ) → f < count → slice_index made.items f ≡ f) }
    ensures room { IfOk result (λ made. length made.items ≡ count) }
{
    let mut made = Vec::with_capacity(alloc, count)?;
    for f in 0..count {
        made.push(f as u32)?;
    }
    Ok(made)
}
