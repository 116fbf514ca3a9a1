//! Signatures: what sorts and operations there are.

ghost use Rattle.std.specs.Prelude.{
  ◌≡◌,
  ◌<◌,
  ◌^◌,
  IfOk,
  IfSome,
  MatchOption,
  Some,
  length,
  map,
  slice_get,
};
ghost use Rattle.sort_terms.specs.Operations.{operation_of, signature_listing, sort_of};
ghost use Rattle.sort_terms.specs.SignatureLemmas.{AreTwinMarks-prop, IsWellFormedSignature-prop};
ghost use Rattle.sort_terms.specs.TwinMarks.{AreTwinMarks};
ghost use Rattle.lotos_base.specs.Twins.{has_twin};
ghost use Rattle.lotos_base.specs.Signature.{IsWellFormedSignature, Operation};

use crate::checking::make_a_signature;
use crate::operations::{Op, Sort};
use lotos_base::NoMemory;

/// A list of sorts and a list of operations over them, each numbered by its position. No two sorts
/// have one name, and no two operations have one name, form and profile. There are fewer than 2^32
/// of each. For the first operations, or for none, it is known whether they have twins.
#[derive(Debug, Drop)]
pub struct Signature {
    sorts: Vec<Sort>,
    ops: Vec<Op>,
    // Whether each of the first operations has a twin.
    twins: Vec<bool>,
    pub ghost well_formed: { IsWellFormedSignature
        (signature_listing sorts.items ops.items) } by { IsWellFormedSignature-prop
            (signature_listing sorts.items ops.items) },
    pub ghost few_sorts: { length sorts.items < 2 ^ 32 },
    pub ghost few_ops: { length ops.items < 2 ^ 32 },
    pub ghost right_twins: { AreTwinMarks
        (signature_listing sorts.items ops.items) twins.items } by { AreTwinMarks-prop
            (signature_listing sorts.items ops.items) twins.items },
}

impl Signature {
    ghost use Rattle.sort_terms.specs.SignatureView.{signature_of, twin_marks_of};

    /// The signature of these lists. Of no operation it is known whether it has a twin.
    pub fn of(sorts: Vec<Sort>, ops: Vec<Op>) -> Signature
        requires well_formed { IsWellFormedSignature (signature_listing sorts.items ops.items) }
        requires few_sorts { length sorts.items < 2 ^ 32 }
        requires few_ops { length ops.items < 2 ^ 32 }
        ensures { signature_of result ≡ signature_listing sorts.items ops.items }
    {
        let twins = Vec::new(*ops.allocator());
        Signature::marked(sorts, ops, twins)
    }

    /// The signature of these lists, with marks that say of the first operations, mostly of all,
    /// whether they have twins.
    pub fn marked(sorts: Vec<Sort>, ops: Vec<Op>, twins: Vec<bool>) -> Signature
        requires well_formed { IsWellFormedSignature (signature_listing sorts.items ops.items) }
        requires few_sorts { length sorts.items < 2 ^ 32 }
        requires few_ops { length ops.items < 2 ^ 32 }
        requires right { AreTwinMarks (signature_listing sorts.items ops.items) twins.items }
        ensures lists { signature_of result ≡ signature_listing sorts.items ops.items }
        ensures marks { twin_marks_of result ≡ twins.items }
    {
        Signature { sorts, ops, twins }
    }

    /// The signature of these lists, or `None` exactly where a profile names a sort that is not
    /// there, two sorts have one name, or two operations have one name, form and profile. The lists
    /// are compared member by member, so this is for short lists.
    pub fn checked(sorts: Vec<Sort>, ops: Vec<Op>) -> Option<Signature>
        requires few_sorts { length sorts.items < 2 ^ 32 }
        requires few_ops { length ops.items < 2 ^ 32 }
        ensures { MatchOption result (¬ IsWellFormedSignature
            (signature_listing sorts.items ops.items))
            (λ s. signature_of s ≡ signature_listing sorts.items ops.items) }
    {
        if make_a_signature(&sorts, &ops) {
            Some(Signature::of(sorts, ops))
        } else {
            None
        }
    }

    /// The sorts.
    pub fn sorts(&self) -> &[Sort]
        ensures { result.now ≡ self.now.sorts.items }
    {
        self.sorts.as_slice()
    }

    /// The operations.
    pub fn ops(&self) -> &[Op]
        ensures { result.now ≡ self.now.ops.items }
    {
        self.ops.as_slice()
    }

    /// Whether the operation with this number has a twin, where that is known.
    pub fn twin(&self, number: u32) -> Option<bool>
        ensures mark { result ≡ slice_get (twin_marks_of self.now) number }
        ensures right { IfSome result (λ mark. (operation : Operation)
            → Some operation ≡ slice_get (signature_of self.now).operations number
            → mark ≡ has_twin (signature_of self.now) operation) }
    {
        self.twins.get(number as usize).copied()
    }

    /// The same lists. What is known of twins goes along.
    pub fn copy(&self) -> Result<Signature, NoMemory>
        ensures { IfOk result (λ s. signature_of s ≡ signature_of self.now) }
    {
        let twins = Vec::from_slice(*self.twins.allocator(), self.twins.as_slice())?;
        let sorts = sort_copies(&self.sorts)?;
        let ops = op_copies(&self.ops)?;
        Ok(Signature::marked(sorts, ops, twins))
    }
}

// The same sorts.
fn sort_copies(sorts: &Vec<Sort>) -> Result<Vec<Sort>, NoMemory>
    ensures same { IfOk result (λ made. map sort_of made.items ≡ map sort_of sorts.now.items) }
    ensures as_many { IfOk result (λ made. length made.items ≡ length sorts.now.items) }
{
    let mut made = Vec::with_capacity(*sorts.allocator(), sorts.len())?;
    for sort in sorts {
        made.push(sort.copy(*sorts.allocator())?)?;
    }
    Ok(made)
}

// The same operations.
fn op_copies(ops: &Vec<Op>) -> Result<Vec<Op>, NoMemory>
    ensures same { IfOk result (λ made. map operation_of made.items
        ≡ map operation_of ops.now.items) }
    ensures as_many { IfOk result (λ made. length made.items ≡ length ops.now.items) }
{
    let mut made = Vec::with_capacity(*ops.allocator(), ops.len())?;
    for op in ops {
        made.push(op.copy()?)?;
    }
    Ok(made)
}
