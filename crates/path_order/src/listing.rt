//! Operations in an order, each once, and statuses of operations.

ghost use Rattle.path_order.specs.Contains.{IsOnce, contains, flag_at};
ghost use Rattle.std.proofs.Props.{props};
ghost use Rattle.path_order.specs.declared.status.Status.TheVariants.{Left};
ghost use Rattle.std.proofs.Common.{get_or, set};
ghost use Rattle.std.specs.Prelude.{◌≡◌, ◌∷◌, ◌++◌, ◌<◌, [], ℕ, IfOk, OnOk, Some, false, length, slice_get};

use crate::status::Status;
use lotos_base::NoMemory;
use std::alloc::Global;

/// Numbers of operations in an order, each once, with a flag for each operation that is there, and
/// a status for each operation.
#[derive(Drop)]
pub struct Listing {
    order: Vec<u32>,
    listed: Vec<bool>,
    statuses: Vec<Status>,
    pub ghost told: { (f : ℕ) → f < length listed.items
        → flag_at f listed.items ≡ contains f order.items } by { Prim.hlevel props },
    pub ghost below: { (j f : ℕ) → slice_get order.items j ≡ Some f
        → f < length listed.items } by { Prim.hlevel props },
    pub ghost once: { IsOnce order.items } by { Prim.hlevel props },
    pub ghost even: { length statuses.items ≡ length listed.items } by { Prim.hlevel props },
}

impl Listing {
    /// Nothing yet, of so many operations, each with the status `Left`.
    pub fn new(alloc: Global, count: usize) -> Result<Listing, NoMemory>
        ensures nothing { IfOk result (λ made. made.order.items ≡ []) }
        ensures room { IfOk result (λ made. length made.listed.items ≡ count) }
        ensures left { IfOk result (λ made. (f : ℕ) → get_or made.statuses.items f Left ≡ Left) }
    {
        let listed = vec![in alloc; false; count]?;
        let statuses = vec![in alloc; Status::Left; count]?;
        Ok(Listing {
            order: Vec::new(alloc),
            listed,
            statuses,
        })
    }

    /// The operations in their order.
    pub fn order(&self) -> &[u32]
        ensures { result.now ≡ self.now.order.items }
    {
        self.order.as_slice()
    }

    /// The status of each operation, by its number.
    pub fn statuses(&self) -> &[Status]
        ensures { result.now ≡ self.now.statuses.items }
    {
        self.statuses.as_slice()
    }

    /// Whether the operation is there.
    pub fn has(&self, op: u32) -> bool
        requires { op < length self.now.listed.items }
        ensures { result ≡ contains op self.now.order.items }
    {
        self.listed[op as usize]
    }

    /// Adds an operation that is not there yet at the end, with this status.
    pub fn push(&mut self, op: u32, status: Status) -> Result<(), NoMemory>
        requires below { op < length self.old.listed.items }
        requires new { contains op self.old.order.items ≡ false }
        ensures added { OnOk result (self.new.order.items ≡ self.old.order.items ++ op ∷ []) }
        ensures room { length self.new.listed.items ≡ length self.old.listed.items }
        ensures given { OnOk result (self.new.statuses.items
            ≡ set self.old.statuses.items op status) }
    {
        self.order.push(op)?;
        self.listed[op as usize] = true;
        self.statuses[op as usize] = status;
        Ok(())
    }
}
