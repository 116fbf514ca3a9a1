//! The sort `Bool` with its constant `true`.

ghost use Rattle.type_equations.specs.Truth.{IsTruth};
ghost use Rattle.lotos_base.specs.Name.{spelling};
ghost use Rattle.sort_terms.specs.Operations.{operation_of};
ghost use Rattle.sort_terms.specs.ReaderView.{signature_read};
ghost use Rattle.sort_terms.specs.ReadingOutcome.{one_name};
ghost use Rattle.std.specs.List.{list_any};
ghost use Rattle.std.specs.Prelude.{◌≡◌, ◌&&◌, IfOk, length, map, nat_eq};
ghost use Rattle.lotos_base.specs.Signature.{Operation, prefix_form};
ghost use Rattle.lotos_base.specs.Twins.{form_eq};
ghost use Rattle.type_definitions.specs.Presentation.{Presentation as PlainPresentation};

use lotos_base::{Form, Name, NoMemory};
use sort_terms::{Op, Reader};
use std::alloc::Global;
use std::rc::Rc;

/// The number of the sort `Bool`, where it has a constant `true` among these operations.
pub fn sort_with_truth(
    alloc: Global,
    reader: &Reader<'_>,
    ops: &[Rc<Op>],
) -> Result<Option<u32>, NoMemory>
    ensures { IfOk result (λ found. (p : PlainPresentation)
        → p.signature ≡ signature_read reader.now
        → p.signature.operations ≡ map (λ op. operation_of op.value) ops.now
        → IsTruth p found) }
{
    let sort_name = Name::of(Vec::from_slice(alloc, b"Bool")?);
    let found = reader.sort_named(&sort_name)?;
    let Some(sort) = found else {
        return Ok(None);
    };
    let constant = Name::of(Vec::from_slice(alloc, b"true")?);
    if has_constant(ops, &constant, sort) {
        return Ok(Some(sort));
    }
    Ok(None)
}

// Whether one of the operations is a constant with this name and sort.
fn has_constant(ops: &[Rc<Op>], name: &Name, sort: u32) -> bool
    ensures { result ≡ list_any (λ (o : Operation). (one_name o.name (spelling name.now)
        && form_eq o.form prefix_form)
        && (nat_eq (length o.arguments) 0 && nat_eq o.result sort))
        (map (λ op. operation_of op.value) ops.now) }
{
    for op in ops {
        if is_constant(op, name, sort) {
            return true;
        }
    }
    false
}

// Whether the operation is a constant with this name and sort.
fn is_constant(op: &Op, name: &Name, sort: u32) -> bool
    ensures { result ≡ ((one_name (operation_of op.now).name (spelling name.now)
        && form_eq (operation_of op.now).form prefix_form)
        && (nat_eq (length (operation_of op.now).arguments) 0
        && nat_eq (operation_of op.now).result sort)) }
{
    if !op.name.same(name) {
        return false;
    }
    if op.form != Form::Prefix {
        return false;
    }
    if op.arguments.len() != 0 {
        return false;
    }
    op.result == sort
}
