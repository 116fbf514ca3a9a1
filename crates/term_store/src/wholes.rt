//! Operations on the chosen forms of their arguments.

ghost use Rattle.std.specs.Prelude.{◌≡◌, ◌++◌, ◌<◌, [], IfOk, MatchOption, None, OnOk, length};
ghost use Rattle.std.proofs.Common.{get_or};
ghost use Rattle.term_store.specs.Cells.{HasOneMore, KeyStandsAt, numbered_operation_key, operation_in};
ghost use Rattle.term_store.specs.Kept.{forms_of};
ghost use Rattle.term_store.specs.SharedView.{keys_in};
ghost use Rattle.term_store.specs.Tasks.{whole_key};

use crate::forms::Forms;
use lotos_base::NoMemory;

/// The number of the operation at the head of the term with this number, on the forms that are kept
/// for its arguments. A variable keeps its number.
pub fn whole(forms: &mut Forms, numbers: &mut Vec<u32>, number: u32) -> Result<u32, NoMemory>
    requires { number < length (keys_in forms.old.shared) }
    ensures kept { forms.new.kept ≡ forms.old.kept }
    ensures more { HasOneMore (keys_in forms.old.shared)
        (whole_key forms.old.kept.items (keys_in forms.old.shared) number)
        (keys_in forms.new.shared) }
    ensures stands { IfOk result (λ whole. KeyStandsAt (keys_in forms.new.shared)
        (whole_key forms.old.kept.items (keys_in forms.old.shared) number) whole) }
{
    match head_of_whole(forms, numbers, number)? {
        None => Ok(number),
        Some(op) => forms.shared.number_on(op, numbers.as_slice()),
    }
}

// The operation, or none where the term is a variable, and the forms that are kept for its
// arguments, in the list.
fn head_of_whole(
    forms: &Forms,
    numbers: &mut Vec<u32>,
    number: u32,
) -> Result<Option<u32>, NoMemory>
    requires { number < length (keys_in forms.now.shared) }
    ensures { IfOk result (λ o. MatchOption o
        (operation_in (get_or (keys_in forms.now.shared) number []) ≡ None)
        (λ op. numbered_operation_key op numbers.new.items
        ≡ whole_key forms.now.kept.items (keys_in forms.now.shared) number)) }
{
    match forms.shared.operation(number as usize) {
        None => Ok(None),
        Some((op, arguments)) => {
            numbers.clear();
            add_forms(forms, arguments, numbers)?;
            Ok(Some(op))
        }
    }
}

// Puts the forms of the terms at the end of the list.
fn add_forms(forms: &Forms, terms: &[u32], numbers: &mut Vec<u32>) -> Result<(), NoMemory>
    ensures { OnOk result (numbers.new.items
        ≡ numbers.old.items ++ forms_of forms.now.kept.items terms.now) }
{
    for term in terms {
        numbers.push(forms.form_or_same(*term))?;
    }
    Ok(())
}
