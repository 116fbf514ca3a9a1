//! A signature with indices of its names, for reading many terms over it.

ghost use Rattle.lotos_base.specs.Name.{spelling};
ghost use Rattle.sort_terms.specs.NameIndex.{numbers_under};
ghost use Rattle.sort_terms.specs.Operations.{operation_of};
ghost use Rattle.sort_terms.specs.Positions.{positions_of};
ghost use Rattle.std.proofs.Props.{props};
ghost use Rattle.std.specs.Prelude.{◌≡◌, ℕ, List, IfOk, MatchOption, map};

use crate::name_index::NameIndex;
use crate::operations::{Op, Sort};
use crate::signatures::Signature;
use lotos_base::{Name, NoMemory};
use std::alloc::Global;
use std::rc::Rc;

/// A signature whose sorts and operations are found by their names. It is made once and used for
/// many terms, which share the profiles.
#[derive(Drop)]
pub struct Reader<'a> {
    pub(crate) alloc: Global,
    pub(crate) signature: &'a Signature,
    pub(crate) sorts: NameIndex,
    pub(crate) operations: NameIndex,
    pub(crate) profiles: Vec<Rc<Op>>,
    pub ghost sorts_indexed: { (key : List ℕ) → numbers_under sorts key
        ≡ positions_of key
        (map (λ s. spelling s.name) signature.now.sorts.items) } by { Prim.hlevel props },
    pub ghost operations_indexed: { (key : List ℕ) → numbers_under operations key
        ≡ positions_of key
        (map (λ o. spelling o.name) signature.now.ops.items) } by { Prim.hlevel props },
    pub ghost profiled: { map (λ p. operation_of p.value) profiles.items
        ≡ map operation_of signature.now.ops.items } by { Prim.hlevel props },
}

impl<'a> Reader<'a> {
    ghost use Rattle.sort_terms.specs.Reading.{IsSortNamed};
    ghost use Rattle.sort_terms.specs.ReaderView.{signature_read};
    ghost use Rattle.sort_terms.specs.SignatureView.{signature_of};

    /// A reader of terms over the signature.
    pub fn of(alloc: Global, signature: &'a Signature) -> Result<Reader<'a>, NoMemory>
        ensures { IfOk result (λ reader. signature_read reader ≡ signature_of signature.now) }
    {
        Ok(Reader {
            alloc,
            signature,
            sorts: indexed_sorts(alloc, signature.sorts())?,
            operations: indexed_ops(alloc, signature.ops())?,
            profiles: shared_profiles(alloc, signature.ops())?,
        })
    }

    /// The number of the sort of this name, if there is one.
    pub fn sort_named(&self, name: &Name) -> Result<Option<u32>, NoMemory>
        ensures { IfOk result (λ found. MatchOption found
            ((s : ℕ) → ¬ IsSortNamed (signature_read self.now) s (spelling name.now))
            (λ n. IsSortNamed (signature_read self.now) n (spelling name.now)
            × ((s : ℕ) → IsSortNamed (signature_read self.now) s (spelling name.now) → s ≡ n))) }
    {
        let numbers = self.sorts.numbers(self.alloc, name)?;
        let Some(last) = numbers.last() else {
            return Ok(None);
        };
        let number = *last as u32;
        Ok(Some(number))
    }
}

// The sorts by their names.
fn indexed_sorts(alloc: Global, sorts: &[Sort]) -> Result<NameIndex, NoMemory>
    ensures { IfOk result (λ index. (key : List ℕ) → numbers_under index key
        ≡ positions_of key (map (λ s. spelling s.name) sorts.now)) }
{
    let mut index = NameIndex::new(alloc);
    for number in 0..sorts.len() {
        index.add(alloc, &sorts[number].name, number)?;
    }
    Ok(index)
}

// The operations by their names.
fn indexed_ops(alloc: Global, ops: &[Op]) -> Result<NameIndex, NoMemory>
    ensures { IfOk result (λ index. (key : List ℕ) → numbers_under index key
        ≡ positions_of key (map (λ o. spelling o.name) ops.now)) }
{
    let mut index = NameIndex::new(alloc);
    for number in 0..ops.len() {
        index.add(alloc, &ops[number].name, number)?;
    }
    Ok(index)
}

// The operations, to be shared by terms.
fn shared_profiles(alloc: Global, ops: &[Op]) -> Result<Vec<Rc<Op>>, NoMemory>
    ensures { IfOk result (λ made. map (λ p. operation_of p.value) made.items
        ≡ map operation_of ops.now) }
{
    let mut made = Vec::with_capacity(alloc, ops.len())?;
    for op in ops {
        made.push(Rc::new(alloc, op.copy()?)?)?;
    }
    Ok(made)
}
