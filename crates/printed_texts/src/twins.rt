//! Which operations of a signature have twins: as the signature says, or else asked once for each.

ghost use Rattle.lotos_base.specs.Twins.{has_twin};
ghost use Rattle.printed_texts.specs.KnownTwins.{AreKnownOf};
ghost use Rattle.sort_terms.specs.Operations.{operation_of};
ghost use Rattle.sort_terms.specs.SignatureView.{signature_of};
ghost use Rattle.std.specs.Prelude.{◌≡◌, ℕ, IfOk, None, OnOk, Some, if◌then◌else◌, nat_eq, slice_get};

use crate::operations::is_overloaded;
use lotos_base::NoMemory;
use sort_terms::{Op, Signature};
use std::alloc::Global;
use std::collections::BTreeMap;

/// For some operations of a signature, by their numbers, whether they have twins. Where the
/// signature itself does not say so, all operations are looked at to find out.
#[derive(Drop)]
pub struct KnownTwins {
    by_number: BTreeMap<u32, bool>,
}

impl KnownTwins {
    ghost use Rattle.printed_texts.specs.TwinsView.{known_at};

    /// Nothing is known.
    pub fn new(alloc: Global) -> KnownTwins
        ensures { (n : ℕ) → known_at result n ≡ None }
    {
        KnownTwins {
            by_number: BTreeMap::new(alloc),
        }
    }

    /// Whether the operation with this number has a twin.
    pub fn has_twin(
        &mut self,
        signature: &Signature,
        number: u32,
        operation: &Op,
    ) -> Result<bool, NoMemory>
        requires known { AreKnownOf (signature_of signature.now) (known_at self.old) }
        requires at { Some (operation_of operation.now)
            ≡ slice_get (signature_of signature.now).operations number }
        ensures twin { IfOk result (λ found. found
            ≡ has_twin (signature_of signature.now) (operation_of operation.now)) }
        ensures known { OnOk result
            (AreKnownOf (signature_of signature.now) (known_at self.new)) }
    {
        match signature.twin(number) {
            Some(mark) => Ok(mark),
            None => self.found(signature, number, operation),
        }
    }

    // The same where the signature does not say so.
    fn found(
        &mut self,
        signature: &Signature,
        number: u32,
        operation: &Op,
    ) -> Result<bool, NoMemory>
        requires known { AreKnownOf (signature_of signature.now) (known_at self.old) }
        requires at { Some (operation_of operation.now)
            ≡ slice_get (signature_of signature.now).operations number }
        ensures twin { IfOk result (λ found. found
            ≡ has_twin (signature_of signature.now) (operation_of operation.now)) }
        ensures known { OnOk result
            (AreKnownOf (signature_of signature.now) (known_at self.new)) }
    {
        match self.at(number) {
            Some(known) => Ok(known),
            None => {
                let found = is_overloaded(signature, operation);
                self.add(number, found)?;
                Ok(found)
            }
        }
    }

    // What is known of the operation with this number.
    fn at(&self, number: u32) -> Option<bool>
        ensures { result ≡ known_at self.now number }
    {
        self.by_number.get(&number).copied()
    }

    // Adds what was found of the operation with this number.
    fn add(&mut self, number: u32, found: bool) -> Result<(), NoMemory>
        ensures { OnOk result ((n : ℕ) → known_at self.new n
            ≡ (if nat_eq n number then Some found else known_at self.old n)) }
    {
        self.by_number.insert(number, found)?;
        Ok(())
    }
}
