//! Operations and sorts of a signature, and which operations have twins.

ghost use Rattle.lotos_base.specs.WrittenView.{form_of};
ghost use Rattle.printed_texts.specs.Parts.{of_text_if};
ghost use Rattle.printed_texts.specs.TermText.{sort_text};
ghost use Rattle.printed_texts.specs.TextView.{is_between};
ghost use Rattle.sort_terms.specs.Operations.{operation_of};
ghost use Rattle.sort_terms.specs.SignatureView.{signature_of};
ghost use Rattle.std.specs.Option.{option_map};
ghost use Rattle.std.specs.Prelude.{◌≡◌, ◌++◌, OnOk, slice_get};
ghost use Rattle.lotos_base.specs.Twins.{are_twins, form_eq, has_twin};

use crate::brackets::push_text;
use lotos_base::{Form, NoMemory};
use sort_terms::{Op, Signature};

/// The operation with this number, if there is one.
pub fn operation_at(signature: &Signature, number: u32) -> Option<&Op>
    ensures { option_map (λ operation. operation_of operation.now) result
        ≡ slice_get (signature_of signature.now).operations number }
{
    signature.ops().get(number as usize)
}

/// Whether an operation of this form with this many arguments stands between them.
pub fn stands_between(form: Form, number: usize) -> bool
    ensures { result ≡ is_between (form_of form) number }
{
    match form {
        Form::Prefix => false,
        Form::Infix => number == 2,
    }
}

// Whether the two forms are one.
fn is_one_form(one: Form, other: Form) -> bool
    ensures { result ≡ form_eq (form_of one) (form_of other) }
{
    match (one, other) {
        (Form::Prefix, Form::Prefix) => true,
        (Form::Infix, Form::Infix) => true,
        (Form::Prefix, Form::Infix) => false,
        (Form::Infix, Form::Prefix) => false,
    }
}

// Whether the two operations are twins: one name without regard to letter case, one form, the same
// argument sorts and other result sorts.
fn is_twin(one: &Op, other: &Op) -> bool
    ensures { result ≡ are_twins (operation_of one.now) (operation_of other.now) }
{
    if one.result == other.result {
        return false;
    }
    if !is_one_form(one.form, other.form) {
        return false;
    }
    if !one.name.same(&other.name) {
        return false;
    }
    one.arguments.as_slice() == other.arguments.as_slice()
}

/// Whether the operation has a twin in the signature.
pub fn is_overloaded(signature: &Signature, operation: &Op) -> bool
    ensures { result ≡ has_twin (signature_of signature.now) (operation_of operation.now) }
{
    for other in signature.ops() {
        if is_twin(operation, other) {
            return true;
        }
    }
    false
}

/// Appends the name of a sort.
pub fn push_sort(signature: &Signature, sort: u32, into: &mut Vec<u8>) -> Result<(), NoMemory>
    ensures { OnOk result (into.new.items
        ≡ into.old.items ++ sort_text (signature_of signature.now) sort) }
{
    match signature.sorts().get(sort as usize) {
        None => Ok(()),
        Some(sort) => push_text(into, sort.name.spelled()),
    }
}

/// Appends the sort of an operation, where it is to be written.
pub fn push_of(
    signature: &Signature,
    operation: &Op,
    with_sort: bool,
    into: &mut Vec<u8>,
) -> Result<(), NoMemory>
    ensures { OnOk result (into.new.items ≡ into.old.items
        ++ of_text_if with_sort (signature_of signature.now) (operation_of operation.now)) }
{
    if !with_sort {
        return Ok(());
    }
    push_text(into, b" of ")?;
    push_sort(signature, operation.result, into)
}
