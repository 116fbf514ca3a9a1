//! Whether an operation suits an item.

ghost use Rattle.lotos_base.specs.Name.{spelling};
ghost use Rattle.lotos_base.specs.WrittenView.{form_of, listed_operation_of, written_profile_of};
ghost use Rattle.path_order.specs.Listed.{AreSortsNamed, HasProfile, SuitsItem};
ghost use Rattle.sort_terms.specs.Operations.{operation_of};
ghost use Rattle.sort_terms.specs.Reading.{IsSortNamed};
ghost use Rattle.sort_terms.specs.SignatureView.{signature_of};
ghost use Rattle.std.specs.Prelude.{◌≡◌, ◌↔◌, IsTrue, Some, map};

use lotos_base::{Form, Name, OrderItem, Profile};
use sort_terms::{Op, Signature};

/// Whether the operation has the form of the item, and its profile, where one is given.
pub fn suits(signature: &Signature, op: &Op, item: &OrderItem) -> bool
    ensures { IsTrue result ↔ SuitsItem (signature_of signature.now) (operation_of op.now)
        (listed_operation_of item.now) }
{
    if !is_form(op.form, item.form) {
        return false;
    }
    match &item.profile {
        None => true,
        Some(profile) => has_profile(signature, op, profile),
    }
}

// Whether the forms are one.
fn is_form(form: Form, other: Form) -> bool
    ensures { IsTrue result ↔ (form_of form ≡ form_of other) }
{
    match (form, other) {
        (Form::Prefix, Form::Prefix) | (Form::Infix, Form::Infix) => true,
        (Form::Prefix, Form::Infix) | (Form::Infix, Form::Prefix) => false,
    }
}

// Whether the operation has the profile.
fn has_profile(signature: &Signature, op: &Op, profile: &Profile) -> bool
    ensures { IsTrue result ↔ HasProfile (signature_of signature.now) (operation_of op.now)
        (Some (written_profile_of profile.now)) }
{
    if !are_named(
        signature,
        op.arguments.as_slice(),
        profile.arguments.as_slice(),
    ) {
        return false;
    }
    is_named(signature, op.result, &profile.result)
}

// Whether the sorts have these names, one by one.
fn are_named(signature: &Signature, sorts: &[u32], names: &[Name]) -> bool
    ensures { IsTrue result ↔ AreSortsNamed (signature_of signature.now) sorts.now
        (map spelling names.now) }
{
    if sorts.len() != names.len() {
        return false;
    }
    for i in 0..sorts.len() {
        if !is_named(signature, sorts[i], &names[i]) {
            return false;
        }
    }
    true
}

// Whether the sort has the name.
fn is_named(signature: &Signature, sort: u32, name: &Name) -> bool
    ensures { IsTrue result ↔ IsSortNamed (signature_of signature.now) sort (spelling name.now) }
{
    match signature.sorts().get(sort as usize) {
        Some(found) => found.name.same(name),
        None => false,
    }
}
