//! Finds the constant `true` of the sort `Bool`.

ghost use Rattle.lotos_base.specs.Name.{spelling};
ghost use Rattle.sort_terms.specs.Operations.{operation_of};
ghost use Rattle.sort_terms.specs.ReaderView.{signature_read};
ghost use Rattle.sort_terms.specs.SignatureView.{signature_of};
ghost use Rattle.scope_parts.specs.Sorts.{is_true, true_from, true_of};
ghost use Rattle.scope_parts.specs.TermsView.{IsTruthAmong, IsTruthOf, truth_of};
ghost use Rattle.std.specs.Option.{ForSome};
ghost use Rattle.std.specs.Prelude.{◌≡◌, ◌<◌, ◌^◌, IfOk, codes, length, map, option_map};

use crate::terms::Terms;
use crate::truth::Truth;
use lotos_base::{Form, Name, NoMemory};
use sort_terms::{Op, Reader, Signature};
use std::alloc::Global;
use std::rc::Rc;

impl<'a> Terms<'a> {
    /// What terms over the signature are read with.
    pub fn of(alloc: Global, signature: &'a Signature) -> Result<Terms<'a>, NoMemory>
        ensures { IfOk result (λ terms. signature_read terms.reader
            ≡ signature_of signature.now) }
    {
        let reader = Reader::of(alloc, signature)?;
        let name = Name::of(Vec::from_slice(alloc, b"Bool")?);
        let sort = reader.sort_named(&name)?;
        let truth = truth_for(alloc, signature, sort)?;
        Ok(Terms { reader, truth })
    }
}

// The constant `true` of the sort, if there is one.
fn truth_for(
    alloc: Global,
    signature: &Signature,
    sort: Option<u32>,
) -> Result<Option<Truth>, NoMemory>
    ensures told { IfOk result (λ truth. option_map truth_of truth
        ≡ true_of (signature_of signature.now) sort) }
    ensures known { IfOk result (λ truth. ForSome truth
        (IsTruthOf (signature_of signature.now))) }
{
    match sort {
        None => Ok(None),
        Some(sort) => true_of_sort(alloc, signature.ops(), sort),
    }
}

// The first constant `true` of the sort.
fn true_of_sort(alloc: Global, ops: &[Op], sort: u32) -> Result<Option<Truth>, NoMemory>
    requires { length ops.now < 2 ^ 32 }
    ensures first { IfOk result (λ truth. option_map truth_of truth
        ≡ true_from sort 0 (map operation_of ops.now)) }
    ensures known { IfOk result (λ truth. ForSome truth
        (IsTruthAmong (map operation_of ops.now))) }
{
    let name = Name::of(Vec::from_slice(alloc, b"true")?);
    for number in 0..ops.len() {
        let op = &ops[number];
        if is_true(op, sort, &name) {
            let profile = Rc::new(alloc, op.copy()?)?;
            return Ok(Some(Truth {
                sort,
                constant: number as u32,
                profile,
            }));
        }
    }
    Ok(None)
}

// Whether the operation is a constant of the name and the sort.
fn is_true(op: &Op, sort: u32, name: &Name) -> bool
    requires { spelling name.now ≡ codes "true" }
    ensures { result ≡ is_true sort (operation_of op.now) }
{
    if !op.name.same(name) {
        return false;
    }
    if op.form != Form::Prefix {
        return false;
    }
    op.arguments.len() == 0 && op.result == sort
}
