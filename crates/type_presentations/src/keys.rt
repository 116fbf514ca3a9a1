//! Keys of sorts and operations.

ghost use Rattle.lotos_base.specs.Name.{folded, spelling};
ghost use Rattle.lotos_base.specs.WrittenView.{form_of};
ghost use Rattle.sort_terms.specs.TermCode.{form_number as number_of_form};
ghost use Rattle.type_presentations.specs.Keys.{
  profile_key as key_of_profile,
  twin_key as key_of_twins,
};
ghost use Rattle.sort_terms.specs.Operations.{operation_of};
ghost use Rattle.std.specs.Prelude.{◌≡◌, ◌∷◌, ◌++◌, IfOk, OnOk, length};

use lotos_base::{Form, Name, NoMemory};
use sort_terms::Op;
use std::alloc::Global;

/// The key of an operation by its name, form and profile.
pub fn profile_key(alloc: Global, op: &Op) -> Result<Vec<usize>, NoMemory>
    ensures { IfOk result (λ key. key.items ≡ key_of_profile (operation_of op.now)) }
{
    let mut key = Vec::new(alloc);
    push_profile(&mut key, op)?;
    push_name(&mut key, &op.name)?;
    Ok(key)
}

/// The key of an operation by its name, form and argument sorts. Its twins are the operations with
/// the same key and other results.
pub fn twin_key(alloc: Global, op: &Op) -> Result<Vec<usize>, NoMemory>
    ensures { IfOk result (λ key. key.items ≡ key_of_twins (operation_of op.now)) }
{
    let mut key = Vec::new(alloc);
    key.push(form_number(op.form))?;
    key.push(op.arguments.len())?;
    push_numbers(&mut key, op.arguments.as_slice())?;
    push_name(&mut key, &op.name)?;
    Ok(key)
}

// Adds the form, the result and the arguments with their number.
pub(crate) fn push_profile(key: &mut Vec<usize>, op: &Op) -> Result<(), NoMemory>
    ensures { OnOk result (key.new.items ≡ key.old.items
        ++ number_of_form (form_of op.now.form) ∷ op.now.result ∷ length op.now.arguments.items
        ∷ op.now.arguments.items) }
{
    key.push(form_number(op.form))?;
    key.push(op.result as usize)?;
    key.push(op.arguments.len())?;
    push_numbers(key, op.arguments.as_slice())?;
    Ok(())
}

// Adds the numbers.
fn push_numbers(key: &mut Vec<usize>, numbers: &[u32]) -> Result<(), NoMemory>
    ensures { OnOk result (key.new.items ≡ key.old.items ++ numbers.now) }
{
    for number in numbers {
        key.push(*number as usize)?;
    }
    Ok(())
}

// Adds the small letters of the name.
pub(crate) fn push_name(key: &mut Vec<usize>, name: &Name) -> Result<(), NoMemory>
    ensures { OnOk result (key.new.items ≡ key.old.items ++ folded (spelling name.now)) }
{
    let spelled = name.spelled();
    for byte in spelled {
        key.push(usize::from(byte.to_ascii_lowercase()))?;
    }
    Ok(())
}

// The number of a form.
fn form_number(form: Form) -> usize
    ensures { result ≡ number_of_form (form_of form) }
{
    match form {
        Form::Prefix => 0,
        Form::Infix => 1,
    }
}
