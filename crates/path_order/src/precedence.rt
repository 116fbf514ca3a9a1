//! Precedences: what orders the operations.

ghost use Rattle.std.specs.Prelude.{◌≡◌, IfOk, MatchResult, map};

use crate::status::Status;
use crate::{OrderFault, ranks};
use lotos_base::{NoMemory, OrderItem};
use sort_terms::Flat;

/// A rank for each operation, by its number; an operation past the list has the rank 0. An
/// operation of a greater rank is above one of a lesser rank. And a status for each operation, by
/// its number, from which side its arguments are compared; an operation past the list has `Left`.
#[derive(Debug, Drop)]
pub struct Precedence {
    ranks: Vec<u32>,
    statuses: Vec<Status>,
}

impl Precedence {
    ghost use Rattle.lotos_base.specs.WrittenView.{listed_operation_of};
    ghost use Rattle.path_order.specs.OrderFaultView.{IsOrderFault};
    ghost use Rattle.path_order.specs.OrderedBy.{IsPrecedenceBy};
    ghost use Rattle.path_order.specs.PrecedenceView.{precedence_of, status_of};
    ghost use Rattle.sort_terms.specs.SignatureView.{signature_of};

    /// The precedence that the items of an order give the operations of the data. Without items a
    /// later operation is greater. Listed operations stand above all others, the first listed
    /// greatest; an item without a profile lists all operations of its name and form, the latest
    /// declared first. An operation has the status of the item that lists it, and `Left` where none
    /// lists it or the item writes none. `UnknownOperation` comes exactly where an item lists none,
    /// `TwiceListed` exactly where it lists one that an earlier item lists, `BadStatus` exactly
    /// where it writes another name than `left` or `right` as its status; the first item with a
    /// fault counts, and of one item the first of these.
    /// Data of 2^31 operations or more answer as where memory is missing.
    pub fn of(flat: &Flat, order: &[OrderItem]) -> Result<Precedence, OrderFault>
        ensures { MatchResult result
            (λ precedence. IsPrecedenceBy (signature_of flat.now.signature)
            (map listed_operation_of order.now) (precedence_of precedence))
            (λ fault. IsOrderFault (signature_of flat.now.signature)
            (map listed_operation_of order.now) fault) }
    {
        let alloc = *flat.equations.allocator();
        let (ranks, statuses) = ranks(alloc, &flat.signature, order)?;
        Ok(Precedence::of_ranks(ranks, statuses))
    }

    /// The precedence with these ranks and statuses.
    pub fn of_ranks(ranks: Vec<u32>, statuses: Vec<Status>) -> Precedence
        ensures ranks { result.ranks ≡ ranks }
        ensures statuses { result.statuses ≡ statuses }
    {
        Precedence { ranks, statuses }
    }

    /// The rank of the operation with this number.
    pub fn rank(&self, op: u32) -> u32
        ensures { result ≡ (precedence_of self.now).rank op }
    {
        match self.ranks.get(op as usize) {
            Some(rank) => *rank,
            None => 0,
        }
    }

    /// The status of the operation with this number.
    pub fn status(&self, op: u32) -> Status
        ensures { status_of result ≡ (precedence_of self.now).status op }
    {
        match self.statuses.get(op as usize) {
            Some(status) => *status,
            None => Status::Left,
        }
    }

    /// The same precedence.
    pub fn copy(&self) -> Result<Precedence, NoMemory>
        ensures { IfOk result (λ copy. precedence_of copy ≡ precedence_of self.now) }
    {
        let alloc = *self.ranks.allocator();
        let ranks = Vec::from_slice(alloc, self.ranks.as_slice())?;
        let statuses = Vec::from_slice(alloc, self.statuses.as_slice())?;
        Ok(Precedence::of_ranks(ranks, statuses))
    }
}
